//! Links of capacity 1 in one thread. What owns a link and its ends does nothing else, since each place
//! at which they may be dropped costs proof.

ghost use Rattle.std.specs.Prelude.{◌≡◌, [], ◌∷◌};
ghost use Rattle.wires.specs.declared.wire.Wire.{Wire};
ghost use Rattle.link_rule.specs.Legal.{IsLegalOn, name_of};
ghost use Rattle.link_queue.specs.Ends.{IsNewPutEnd, IsPutEndOf, IsTakeEndOf, StaysPutEnd, StaysTakeEnd, put_name};
ghost use Rattle.link_queue.specs.Ends.{take_name};
ghost use Rattle.checks.specs.SmallNets.{pair_net};

use interference::{Memory, Network};
use link_queue::{Full, Link, MeetRefused, Met, PutEnd, TakeEnd};
use node_api::NodeProgram;
use std::alloc::Global;
use std::sync::Wait;
use sync_rounds::{Best, Greatest};
use wires::{Stamped, Wire};

// Whether the takes after a full link return what is due: the first wire, nothing, and the second wire.
fn are_due<T: Copy + Eq>(
    payload: T,
    taken: Option<Stamped<T>>,
    none: Option<Stamped<T>>,
    taken_again: Option<Stamped<T>>,
) -> bool {
    let (payload, safe) = (Wire::Payload(0, payload), Wire::Safe(0));
    taken
        == Some(Stamped {
            stamp: 1,
            wire: payload,
        })
        && none.is_none()
        && taken_again
            == Some(Stamped {
                stamp: u64::MAX,
                wire: safe,
            })
}

// A put, a put that finds the link full, a take, a take that finds it empty, a put, a take; whether each returns what
// is due, and the link stays open.
fn steps_of<P: NodeProgram, R: Wait>(
    rt: &R,
    link: &Link<P>,
    put_end: &mut PutEnd<P>,
    take_end: &mut TakeEnd<P>,
    payload: P::Payload,
) -> bool
    requires put_end { IsNewPutEnd link.now put_end.old (name_of pair_net 1 0) }
    requires take_end { IsTakeEndOf link.now take_end.old }
    requires legal { IsLegalOn P.program (name_of pair_net 1 0) (Wire.Payload 0 payload ∷ Wire.Safe 0 ∷ []) }
    ensures put_end { StaysPutEnd link.now put_end.old put_end.new }
    ensures take_end { StaysTakeEnd link.now take_end.old take_end.new }
{
    let (stamp, wire) = (1, Wire::Payload(0, payload));
    match link.put(rt, put_end, Stamped { stamp, wire }) {
        Ok(()) => (),
        Err(_) => return false,
    }
    let safe = Stamped {
        stamp: u64::MAX,
        wire: Wire::Safe(0),
    };
    let full = match link.put(rt, put_end, safe) {
        Ok(()) => return false,
        Err(Full(item)) => item,
    };
    let taken = link.take(rt, take_end);
    let none = link.take(rt, take_end);
    let put_again = link.put(rt, put_end, safe).is_ok();
    let taken_again = link.take(rt, take_end);
    full == safe && put_again && are_due(payload, taken, none, taken_again) && !put_end.is_closed()
}

/// How many wires a link holds when its ends meet.
pub fn held_at_the_end<P: NodeProgram, R: Wait>(
    rt: &R,
    alloc: Global,
    link: Link<P>,
    put_end: PutEnd<P>,
    take_end: TakeEnd<P>,
) -> Result<usize, Memory>
    requires put_end { IsPutEndOf link put_end }
    requires take_end { IsTakeEndOf link take_end }
    requires name { put_name put_end ≡ take_name take_end }
{
    match link.meet(rt, alloc, put_end, take_end) {
        Ok(met) => Ok(met.held().len()),
        Err(_) => Err(Memory),
    }
}

/// Whether the steps of a new link, out of vertex 1 and with this payload, return what is due; then the ends meet, and
/// how many wires the link holds.
pub fn one_after_another<P: NodeProgram, R: Wait>(
    rt: &R,
    alloc: Global,
    network: &Network,
    payload: P::Payload,
) -> Result<(bool, usize), Memory>
    requires network { network.now ≡ pair_net }
    requires legal { IsLegalOn P.program (name_of pair_net 1 0) (Wire.Payload 0 payload ∷ Wire.Safe 0 ∷ []) }
{
    let (link, mut put_end, mut take_end) = Link::<P>::new(alloc, network, 1, 0, 1)?;
    let are_due = steps_of(rt, &link, &mut put_end, &mut take_end, payload);
    let held = held_at_the_end(rt, alloc, link, put_end, take_end)?;
    Ok((are_due, held))
}

// A put, a take and a put; whether the link had room for both and a wire for the take.
fn put_take_put<R: Wait>(
    rt: &R,
    link: &Link<Greatest<1>>,
    put_end: &mut PutEnd<Greatest<1>>,
    take_end: &mut TakeEnd<Greatest<1>>,
) -> bool
    requires put_end { IsNewPutEnd link.now put_end.old (name_of pair_net 1 0) }
    requires take_end { IsTakeEndOf link.now take_end.old }
    ensures put_end { StaysPutEnd link.now put_end.old put_end.new }
    ensures take_end { StaysTakeEnd link.now take_end.old take_end.new }
{
    let (stamp, wire) = (2, Wire::Payload(0, Best(1)));
    match link.put(rt, put_end, Stamped { stamp, wire }) {
        Ok(()) => (),
        Err(_) => return false,
    }
    let is_taken = link.take(rt, take_end).is_some();
    let (stamp, wire) = (3, Wire::Safe(0));
    link.put(rt, put_end, Stamped { stamp, wire }).is_ok() && is_taken
}

// The one wire that a link holds.
fn only_held(met: &Met<Best>) -> Option<Stamped<Best>> {
    match met.held() {
        [item] => Some(*item),
        _ => None,
    }
}

// The one wire that a link holds when its ends meet. If memory is refused to the meeting, they meet again.
fn meet_again<R: Wait>(
    rt: &R,
    alloc: Global,
    link: Link<Greatest<1>>,
    put_end: PutEnd<Greatest<1>>,
    take_end: TakeEnd<Greatest<1>>,
) -> Option<Stamped<Best>>
    requires put_end { IsPutEndOf link put_end }
    requires take_end { IsTakeEndOf link take_end }
    requires name { put_name put_end ≡ take_name take_end }
{
    match link.meet(rt, alloc, put_end, take_end) {
        Ok(met) => only_held(&met),
        Err(MeetRefused { put_end, take_end }) => match link.meet(rt, alloc, put_end, take_end) {
            Ok(met) => only_held(&met),
            Err(_) => None,
        },
    }
}

/// The one wire that a link holds when its ends meet after a put, a take and a put. If memory is refused to the
/// meeting, the ends meet again.
pub fn met_again<R: Wait>(
    rt: &R,
    alloc: Global,
    network: &Network,
) -> Result<Option<Stamped<Best>>, Memory>
    requires network { network.now ≡ pair_net }
{
    let (link, mut put_end, mut take_end) = Link::<Greatest<1>>::new(alloc, network, 1, 0, 1)?;
    let is_put = put_take_put(rt, &link, &mut put_end, &mut take_end);
    let held = meet_again(rt, alloc, link, put_end, take_end);
    Ok(if is_put { held } else { None })
}
