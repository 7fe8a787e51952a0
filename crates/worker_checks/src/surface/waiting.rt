//! Calls that may wait: links, workers, and what runs them.

ghost use Rattle.std.specs.Prelude.{◌≡◌, ◌<◌, ◌≤◌, [], ◌∷◌, ◌++◌, length};
ghost use Rattle.wires.specs.StampedWires.{last_stamp};
ghost use Rattle.outcomes.specs.Outcome.{row_in};
ghost use Rattle.link_rule.specs.Legal.{IsLegalOn, LegalFor};
ghost use Rattle.link_queue.specs.Ends.{IsPutEndOf, IsTakeEndOf, put_list, put_name, put_stamped, take_name};

use alpha_core::AlphaNode;
use colour_rules::Payload;
use entries::Entries;
use interference::{Memory, Network};
use link_queue::{Full, Link, MeetRefused, Met, PutEnd, TakeEnd};
use node_api::NodeProgram;
use node_pool::run_workers;
use outcomes::{Actor, Outcome};
use plan_answers::PlanFault;
use plan_runs::{plan_bytes, transcript_bytes};
use run_options::{Edition, MAX_CAPACITY, Options, PoolFault};
use std::alloc::Global;
use std::sync::Wait;
use std::thread::Threads;
use wired_nodes::{Gate, OpenGate};
use wires::Stamped;

pub fn making<P: NodeProgram>(
    alloc: Global,
    net: &Network,
    v: u32,
    port: u32,
    capacity: usize,
) -> Result<(Link<P>, PutEnd<P>, TakeEnd<P>), Memory>
    requires { (0 < capacity) × (capacity ≤ MAX_CAPACITY) }
{
    Link::new(alloc, net, v, port, capacity)
}

pub fn putting<P: NodeProgram, R: Wait>(
    rt: &R,
    link: &Link<P>,
    end: &mut PutEnd<P>,
    item: Stamped<P::Payload>,
) -> Result<(), Full<Stamped<P::Payload>>>
    requires end { IsPutEndOf link.now end.old }
    requires legal { LegalFor (IsLegalOn P.program) (put_name end.old) (put_list end.old ++ item.wire ∷ []) }
    requires above { last_stamp (put_stamped end.old) < item.stamp }
{
    let _: bool = end.is_closed();
    link.put(rt, end, item)
}

pub fn taking<P: NodeProgram, R: Wait>(
    rt: &R,
    link: &Link<P>,
    end: &mut TakeEnd<P>,
) -> Option<Stamped<P::Payload>>
    requires { IsTakeEndOf link.now end.old }
{
    link.take(rt, end)
}

pub fn meeting<P: NodeProgram, R: Wait>(
    rt: &R,
    alloc: Global,
    link: &Link<P>,
    put_end: PutEnd<P>,
    take_end: TakeEnd<P>,
) -> Result<Met<P::Payload>, MeetRefused<P>>
    requires put_end { IsPutEndOf link.now put_end }
    requires take_end { IsTakeEndOf link.now take_end }
    requires name { put_name put_end ≡ take_name take_end }
{
    link.meet(rt, alloc, put_end, take_end)
}

pub fn met(met: &Met<Payload>) -> &[Stamped<Payload>] {
    met.held()
}

pub fn ends_of<P: NodeProgram>(refused: MeetRefused<P>) -> (PutEnd<P>, TakeEnd<P>) {
    let MeetRefused { put_end, take_end } = refused;
    (put_end, take_end)
}

pub fn handed_back(full: Full<Stamped<Payload>>) -> Stamped<Payload> {
    let Full(wire) = full;
    wire
}

pub fn gate<R: Wait, G: Gate>(rt: &R, gate: &G, worker: u32, node: u32) {
    gate.enter(rt, worker, node);
    gate.middle(rt, worker, node);
    gate.leave(rt, worker, node);
}

pub fn workers<P: NodeProgram, R: Threads + Wait + Sync, G: Gate + Sync>(
    rt: &R,
    alloc: Global,
    net: &Network,
    gate: &G,
) -> Result<Outcome<P>, PoolFault> {
    let options = Options {
        workers: 4,
        capacity: 4,
        turns: 1_000,
        transcript: true,
    };
    run_workers::<P, _, _>(rt, alloc, net, options, gate)
}

/// The vertex of the first node of an outcome.
pub fn nodes<P: NodeProgram>(outcome: &Outcome<P>) -> Option<u32> {
    let _: bool = outcome.is_whole();
    let actors: &[Actor<P>] = outcome.actors();
    match actors.first() {
        Some(actor) => {
            let _: &AlphaNode<P> = actor.alpha();
            let _: &Entries<P::Payload> = actor.entries();
            Some(actor.node())
        }
        None => None,
    }
}

pub fn held<P: NodeProgram>(outcome: &Outcome<P>, v: u32, port: u32) -> (u32, &Met<P::Payload>)
    requires vertex { (1 ≤ v) × (v ≤ length outcome.now.links) }
    requires node { v ≤ length outcome.now.nodes }
    requires port { port < length (row_in outcome.now v) }
{
    (outcome.pulses(v), outcome.link(v, port))
}

pub fn plan<R: Threads + Wait + Sync, G: Gate + Sync>(
    rt: &R,
    alloc: Global,
    input: &[u8],
    options: Options,
    gate: &G,
) -> Result<Vec<u8>, PlanFault> {
    plan_bytes(rt, alloc, input, options, gate)
}

pub fn transcript<R: Threads + Wait + Sync>(
    rt: &R,
    alloc: Global,
    input: &[u8],
    options: Options,
) -> Result<Vec<u8>, PlanFault> {
    let _: Edition = Edition::One;
    transcript_bytes(rt, alloc, input, options, Edition::Two, &OpenGate)
}
