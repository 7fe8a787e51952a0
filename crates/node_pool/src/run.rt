//! A run of workers, from a network to its outcome.

ghost use Rattle.std.specs.Prelude.{◌≡◌, ◌≢◌, ◌↔◌, IfErr, IfOk, IsTrue, Result, Err, map, min};
ghost use Rattle.wired_nodes.specs.Tables.{table_of};
ghost use Rattle.outcomes.specs.Outcome.{IsOutcome};
ghost use Rattle.run_options.specs.declared.fault.PoolFault.TheVariants.{BadOptions, StampFull};
ghost use Rattle.run_options.specs.Ranges.{AreInRange};
ghost use Rattle.port_rows.specs.Rows.{rows_of};
ghost use Rattle.node_runs.specs.Makes.{AreMade, tables_of};

use interference::Network;
use node_api::NodeProgram;
use node_runs::{Made, Ran, make_links, start_and_run};
use outcomes::{Outcome, gathered};
use pool::ThreadsFault;
use run_options::{MAX_CAPACITY, MAX_WORKERS, Options, PoolFault};
use std::alloc::Global;
use std::marker::Brand;
use std::sync::Wait;
use std::thread::Threads;
use wired_nodes::{Gate, Observer, Unobserved, Wiring};

// Whether workers and capacity are in range.
fn are_in_range(options: Options) -> bool
    ensures { IsTrue result ↔ AreInRange options }
{
    1 <= options.workers
        && options.workers <= MAX_WORKERS
        && 1 <= options.capacity
        && options.capacity <= MAX_CAPACITY
}

// Runs nodes over the links that were made, whose queues the run has picked, and gathers them.
fn run_and_gather<
    J: Wiring + Send + Sync,
    P: NodeProgram,
    G: Gate + Sync,
    O: Observer + Sync,
    R: Threads + Wait + Sync,
>(
    rt: &R,
    alloc: Global,
    net: &Network,
    options: Options,
    gate: &G,
    observer: &O,
    made: Made<P>,
) -> Result<Outcome<P>, ThreadsFault>
    requires network { J.net ≡ net.now }
    requires observed { O.observes net.now }
    requires tables { J.tables ≡ tables_of (rows_of made.ends.items) }
    requires links { J.links ≡ map table_of made.links.items }
    requires made { AreMade net.now (min options.capacity 2) made.links.items (rows_of made.ends.items) }
    requires options { AreInRange options }
    requires transcript { J.transcript ≡ options.transcript }
    ensures outcome { IfOk result
        (λ outcome. IsOutcome P.program net.now options.capacity options.transcript outcome) }
{
    let Ran { nodes, links } = start_and_run::<J, P, G, O, R>(
        rt, alloc, net, options, gate, observer, made,
    )?;
    Ok(gathered(rt, alloc, net, &links, nodes)?)
}

/// Runs all nodes of a network as `run_workers` does, and calls `observer.sees` with each node before and after each of
/// its turns, whether or not the run ends. What an observer may use of such a node are the clauses of `Observer::sees`.
///
/// # Errors
///
/// Those of `run_workers`.
pub fn run_observed<P: NodeProgram, G: Gate + Sync, O: Observer + Sync, R: Threads + Wait + Sync>(
    rt: &R,
    alloc: Global,
    net: &Network,
    options: Options,
    gate: &G,
    observer: &O,
) -> Result<Outcome<P>, PoolFault>
    requires observed { O.observes net.now }
    ensures outcome { IfOk result
        (λ outcome. IsOutcome P.program net.now options.capacity options.transcript outcome) }
    ensures in_range { IfOk result (λ _. AreInRange options) }
    ensures bad_options { IfErr result (λ fault. fault ≡ BadOptions → AreInRange options → ⊥) }
    ensures stamps_fit { IfErr result (λ fault. fault ≢ StampFull) }
    ensures reported_first { (AreInRange options → ⊥) → result ≡ Err BadOptions }
{
    if !are_in_range(options) {
        return Err(PoolFault::BadOptions);
    }
    // More room than for two wires would never be used (the law `outcomes_hold_at_most_two` of `outcomes`).
    let Ok(made) = make_links::<P>(alloc, net, options.capacity.min(2) as usize) else {
        return Err(PoolFault::Memory);
    };
    Ok(run_and_gather::<Brand, P, G, O, R>(rt, alloc, net, options, gate, observer, made)?)
}

/// Runs all nodes of a network asynchronously, on worker threads with links between the nodes. A link has room for
/// `options.capacity` wires, or for two if that is less, since none ever holds more.
///
/// At the start worker (v - 1) mod workers has node v, ascending. Each worker looks for a node at most `options.turns`
/// times, in its own deque, or else in the others' deques. If it finds one it calls `gate.enter`, makes one turn of
/// the node, calls `gate.leave`, and puts the node on its own deque, unless nothing is left for it to do.
///
/// # Errors
///
/// `BadOptions`, which is looked at first, exactly if the options are out of range; `Memory` if memory is refused;
/// `Spawn` if a thread is, and those that had begun are joined. No clause says which of these two it is. Never
/// `StampFull`: no stamp comes to 2^64, since a whole run has fewer events. Nothing is left of the run.
pub fn run_workers<P: NodeProgram, G: Gate + Sync, R: Threads + Wait + Sync>(
    rt: &R,
    alloc: Global,
    net: &Network,
    options: Options,
    gate: &G,
) -> Result<Outcome<P>, PoolFault>
    ensures outcome { IfOk result
        (λ outcome. IsOutcome P.program net.now options.capacity options.transcript outcome) }
    ensures in_range { IfOk result (λ _. AreInRange options) }
    ensures bad_options { IfErr result (λ fault. fault ≡ BadOptions → AreInRange options → ⊥) }
    ensures stamps_fit { IfErr result (λ fault. fault ≢ StampFull) }
    ensures reported_first { (AreInRange options → ⊥) → result ≡ Err BadOptions }
{
    run_observed::<P, G, Unobserved, R>(rt, alloc, net, options, gate, &Unobserved)
}
