//! One pulse of all nodes after another: what a node sends goes into the inboxes of the next pulse at once, and a node
//! that rests and to which nothing came is passed over.

ghost use Rattle.std.specs.Prelude.{◌≡◌, ◌<◌, ◌≤◌, ◌+◌, ◌^◌, ℕ, IfOk, false, length, slice_index_or, suc};
ghost use Rattle.interference.specs.Net.{IsNetwork, IsVertex, count_of};
ghost use Rattle.node_api.specs.Boxes.{nothing, unread};
ghost use Rattle.node_api.specs.Program.{RestsUntil, own_of};
ghost use Rattle.node_api.specs.Run.{after, state_at};
ghost use Rattle.sync_rounds.specs.Lists.{Lists, empty_inbox};
ghost use Rattle.sync_rounds.specs.Rests.{IsLoud};
ghost use Rattle.sync_rounds.specs.Rounds.{AreAt};
ghost use Rattle.sync_rounds.specs.Turns.{AreServed, IsDue};

use crate::boxes::{inboxes_of, outboxes_of};
use crate::delivery::send_out;
use interference::{Memory, Network};
use node_api::{Inbox, NodeProgram, Outbox};
use std::alloc::Global;
use std::mem::swap;

// What a pulse leaves: whether something was sent, and before which pulse those rest that made it.
#[derive(Clone, Copy)]
pub(crate) struct AfterPulse {
    pub(crate) sent: bool,
    pub(crate) rests_until: u32,
}

// What the engine keeps of all nodes from one pulse to the next. Entry v - 1 is of vertex v, except in `outs`.
#[derive(Drop)]
pub(crate) struct EngineState<P: NodeProgram> {
    pub(crate) nodes: Vec<P>,
    // Whether each vertex sent something at the pulse.
    pub(crate) loud: Vec<bool>,
    // An empty outbox for each degree.
    pub(crate) outs: Vec<Outbox<P::Payload>>,
    // Before which pulse each node rests.
    pub(crate) untils: Vec<u32>,
    // The inboxes of the next pulse, with what was sent at this one; and the inboxes of the pulse after it, empty.
    pub(crate) inboxes: Vec<Inbox<P::Payload>>,
    pub(crate) later: Vec<Inbox<P::Payload>>,
}

// All nodes after pulse 0.
pub(crate) fn start<P: NodeProgram>(alloc: Global, net: &Network) -> Result<EngineState<P>, Memory>
    ensures at { IfOk result (λ kept. AreAt P.program net.now 0 kept) }
    ensures network { IfOk result (λ _. IsNetwork net.now) }
{
    let mut outs = outboxes_of(alloc, net)?;
    let mut inboxes = inboxes_of(alloc, net)?;
    let mut nodes = Vec::with_capacity(alloc, net.nodes() as usize)?;
    let mut loud = Vec::with_capacity(alloc, net.nodes() as usize)?;
    for i in 0..net.nodes() {
        let mut node = P::make(alloc, net, i + 1)?;
        let is_loud = greet(net, i + 1, &mut node, &mut outs, &mut inboxes);
        nodes.push_reserved(node);
        loud.push_reserved(is_loud);
    }
    let later = inboxes_of(alloc, net)?;
    let untils = vec![in alloc; 0u32; net.nodes() as usize]?;
    Ok(EngineState {
        nodes,
        loud,
        outs,
        untils,
        inboxes,
        later,
    })
}

// Pulse 0 of one vertex. Returns whether something was sent.
fn greet<P: NodeProgram>(
    net: &Network,
    v: u32,
    node: &mut P,
    outs: &mut [Outbox<P::Payload>],
    later: &mut [Inbox<P::Payload>],
) -> bool
    requires vertex { IsVertex net.now v }
    requires node { node.old ≡ P.program.made (own_of net.now v) }
    requires served { AreServed P.program net.now 0 v outs.old later.old }
    ensures node { node.new ≡ state_at P.program net.now 0 v }
    ensures served { AreServed P.program net.now 0 (v + 1) outs.new later.new }
    ensures sent { IsLoud P.program net.now 0 v result }
{
    let out = &mut outs[net.degree(v) as usize];
    node.init(out);
    send_out(net, v, out, later)
}

// The pulse after `done` of all nodes. Never inlined, since its loop is where the time goes, and needs the registers.
#[inline(never)]
pub(crate) fn round<P: NodeProgram>(
    net: &Network,
    done: u32,
    kept: &mut EngineState<P>,
) -> AfterPulse
    requires done { done + 1 < 2 ^ 32 }
    requires at { AreAt P.program net.now done kept.old }
    ensures at { AreAt P.program net.now (suc done) kept.new }
    ensures quiet { result.sent ≡ false → Lists (count_of net.now) (empty_inbox net.now) kept.new.inboxes.items }
    ensures least { (k d : ℕ) → k < count_of net.now
        → result.rests_until ≤ slice_index_or kept.new.untils.items k d }
{
    // As slices, so that the loop doesn't read the vectors again.
    let nodes = kept.nodes.as_mut_slice();
    let loud = kept.loud.as_mut_slice();
    let outs = kept.outs.as_mut_slice();
    let untils = kept.untils.as_mut_slice();
    // What was sent at `done` is in `now`; what is sent goes into `later`.
    let now = kept.inboxes.as_mut_slice();
    let later = kept.later.as_mut_slice();
    let mut sent = false;
    let mut least = u32::MAX;
    for i in 0..net.nodes() {
        let inbox = &mut now[i as usize];
        let until = untils[i as usize];
        // Nothing came, and the node rests: a call would change nothing.
        if done + 1 < until && !inbox.has_next() {
            least = least.min(until);
            loud[i as usize] = false;
            continue;
        }
        let node = &mut nodes[i as usize];
        let after = turn(net, i + 1, done, node, inbox, outs, later);
        untils[i as usize] = after.rests_until;
        loud[i as usize] = after.sent;
        least = least.min(after.rests_until);
        sent |= after.sent;
    }
    swap(&mut kept.inboxes, &mut kept.later);
    AfterPulse {
        sent,
        rests_until: least,
    }
}

// The pulse after `done` of one vertex.
fn turn<P: NodeProgram>(
    net: &Network,
    v: u32,
    done: u32,
    node: &mut P,
    inbox: &mut Inbox<P::Payload>,
    outs: &mut [Outbox<P::Payload>],
    later: &mut [Inbox<P::Payload>],
) -> AfterPulse
    requires done { done + 1 < 2 ^ 32 }
    requires due { IsDue P.program net.now done v node.old inbox.old }
    requires served { AreServed P.program net.now (suc done) v outs.old later.old }
    ensures node { node.new ≡ state_at P.program net.now (suc done) v }
    ensures inbox { inbox.new ≡ empty_inbox net.now v }
    ensures served { AreServed P.program net.now (suc done) (v + 1) outs.new later.new }
    ensures rests { RestsUntil P.program (state_at P.program net.now (suc done) v) (suc done) result.rests_until }
    ensures sent { IsLoud P.program net.now (suc done) v result.sent }
    ensures quiet { result.sent ≡ false → later.new ≡ later.old }
{
    let out = &mut outs[net.degree(v) as usize];
    pulse_one(node, done + 1, inbox, out);
    let until = node.rests_until(done + 1);
    let is_loud = send_out(net, v, out, later);
    AfterPulse {
        sent: is_loud,
        rests_until: until,
    }
}

// One pulse of one node. It leaves the inbox empty.
fn pulse_one<P: NodeProgram>(
    node: &mut P,
    pulse: u32,
    inbox: &mut Inbox<P::Payload>,
    out: &mut Outbox<P::Payload>,
)
    requires pulse { 1 ≤ pulse }
    requires unread { inbox.old ≡ unread inbox.old.slots }
    requires ports { length inbox.old.slots ≡ P.program.ports node.old }
    requires out { out.old ≡ nothing (P.program.ports node.old) }
    ensures node { (node.new, out.new)
        ≡ after node.old (P.program.ports node.old) (P.program.next node.old pulse inbox.old.slots) }
    ensures empty { inbox.new ≡ unread (nothing (length inbox.old.slots)) }
{
    node.pre_step(pulse);
    // No program refuses what comes in the synchronous run; after a refusal the state would stay.
    let _ = node.handle_messages(pulse, inbox, out);
    node.post_step(pulse);
    inbox.clear();
}
