//! The boxes of an engine: an empty inbox for each vertex, and an empty outbox for each degree.

ghost use Rattle.std.specs.Prelude.{◌≡◌, ◌≤◌, ◌+◌, IfOk, length, true};
ghost use Rattle.interference.specs.Net.{count_of, greatest_degree_of};
ghost use Rattle.interference.specs.declared.limits.TheConstants.{MAX_DEGREE};
ghost use Rattle.node_api.specs.Boxes.{nothing};
ghost use Rattle.sync_rounds.specs.Lists.{Lists, empty_inbox};
ghost use Rattle.sync_rounds.specs.Rests.{HasDegrees, HasOutboxes};

use interference::{Memory, Network};
use node_api::{Inbox, Outbox};
use std::alloc::Global;

// An empty inbox for each vertex.
pub(crate) fn inboxes_of<T: Copy>(alloc: Global, net: &Network) -> Result<Vec<Inbox<T>>, Memory>
    ensures empty { IfOk result (λ inboxes. Lists (count_of net.now) (empty_inbox net.now) inboxes.items) }
{
    let mut inboxes = Vec::with_capacity(alloc, net.nodes() as usize)?;
    for i in 0..net.nodes() {
        inboxes.push(Inbox::new(alloc, net.degree(i + 1))?)?;
    }
    Ok(inboxes)
}

// An empty outbox for each degree of a vertex, at the place of this number. At other places one without ports is, so
// together they are no larger than the network.
pub(crate) fn outboxes_of<T: Copy>(alloc: Global, net: &Network) -> Result<Vec<Outbox<T>>, Memory>
    ensures outs { IfOk result (λ outs. HasOutboxes net.now outs.items) }
{
    let occurs = degrees_of(alloc, net)?;
    let mut outs = Vec::new(alloc);
    for degree in 0..net.greatest_degree() + 1 {
        outs.push(outbox_if(alloc, occurs[degree as usize], degree)?)?;
    }
    Ok(outs)
}

// An empty outbox of this degree if the degree occurs, and one without ports if it doesn't.
fn outbox_if<T: Copy>(alloc: Global, occurs: bool, degree: u32) -> Result<Outbox<T>, Memory>
    requires degree { degree ≤ MAX_DEGREE }
    ensures empty { IfOk result (λ out. occurs ≡ true → out ≡ nothing degree) }
{
    Outbox::new(alloc, if occurs { degree } else { 0 })
}

// Of each number up to the greatest degree, whether a vertex has this degree.
fn degrees_of(alloc: Global, net: &Network) -> Result<Vec<bool>, Memory>
    ensures size { IfOk result (λ occurs. length occurs.items ≡ greatest_degree_of net.now + 1) }
    ensures occurs { IfOk result (λ occurs. HasDegrees net.now (count_of net.now) occurs.items) }
{
    let mut occurs = vec![in alloc; false; net.greatest_degree() as usize + 1]?;
    for i in 0..net.nodes() {
        let degree = net.degree(i + 1) as usize;
        occurs[degree] = true;
    }
    Ok(occurs)
}
