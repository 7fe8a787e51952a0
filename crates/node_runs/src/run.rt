//! A run of nodes by workers.

ghost use Rattle.std.specs.Prelude.{◌≡◌, ◌≢◌, ◌≤◌, All, IfOk, Some, map, min, reverse};
ghost use Rattle.interference.specs.Net.{vertices};
ghost use Rattle.run_options.specs.Ranges.{AreInRange};
ghost use Rattle.wired_nodes.specs.declared.refused.TurnRefused.TheVariants.{Memory};
ghost use Rattle.wired_nodes.specs.Links.{HoldAtMost};
ghost use Rattle.wired_nodes.specs.Stepped.{refusal_of};
ghost use Rattle.wired_nodes.specs.Tables.{table_of};
ghost use Rattle.port_rows.specs.Rows.{rows_of};
ghost use Rattle.node_runs.specs.Makes.{AreMade, tables_of};

use crate::making::Made;
use crate::refusals::fault_of_refusals;
use crate::starting::start_nodes;
use crate::turns::turn_of;
use interference::Network;
use node_api::NodeProgram;
use pool::{ThreadsFault, Turned, run_tasks};
use run_options::{MAX_WORKERS, Options};
use std::alloc::Global;
use std::sync::Wait;
use std::thread::Threads;
use wired_nodes::{Gate, Links, Node, Observer, Wiring};

/// What the workers of a run leave: its nodes, ascending, and its links.
#[derive(Drop)]
pub struct Ran<J: Wiring, P: NodeProgram> {
    pub nodes: Vec<Box<Node<J, P>>>,
    pub links: Links<J, P>,
}

// Runs the nodes, given from the last vertex down, and returns each node once, ascending. None of them remembers that
// memory was refused to a turn.
fn run_nodes<
    J: Wiring + Send + Sync,
    P: NodeProgram,
    G: Gate + Sync,
    O: Observer + Sync,
    R: Threads + Wait + Sync,
>(
    rt: &R,
    alloc: Global,
    net: &Network,
    links: &Links<J, P>,
    gate: &G,
    observer: &O,
    nodes: Vec<Box<Node<J, P>>>,
    options: Options,
) -> Result<Vec<Box<Node<J, P>>>, ThreadsFault>
    requires network { J.net ≡ net.now }
    requires observed { O.observes net.now }
    requires nodes { map (λ b. b.value.vertex) nodes.items ≡ reverse (vertices J.net) }
    requires workers { (1 ≤ options.workers) × (options.workers ≤ MAX_WORKERS) }
    ensures order { IfOk result (λ all. map (λ b. b.value.vertex) all.items ≡ vertices J.net) }
    ensures none_refused { IfOk result (λ all. All (λ b. refusal_of b.value ≢ Some Memory) all.items) }
{
    let turn = |node: &mut Box<Node<J, P>>, worker: u32| -> Turned
        requires { (J.net ≡ net.now) × O.observes net.now }
        ensures { node.new.value.vertex ≡ node.old.value.vertex }
    { turn_of(rt, net, links, gate, observer, worker, node) };
    let nodes = run_tasks(rt, alloc, turn, nodes, options)?;
    fault_of_refusals(nodes.as_slice())?;
    Ok(nodes)
}

/// Starts a node for each vertex over the links that were made, whose queues the run has picked, and runs the nodes by
/// `options.workers` workers, each of which makes at most `options.turns` looks. None of the nodes remembers that
/// memory was refused to a turn, as `outcomes::gathered` requires; that no stamp was, it shows.
///
/// # Errors
///
/// `Memory` if memory is refused, also for an entry of a node: its worker stops at once. `Spawn` if a thread is
/// refused. The workers that had begun are joined.
pub fn start_and_run<
    J: Wiring + Send + Sync,
    P: NodeProgram,
    G: Gate + Sync,
    O: Observer + Sync,
    R: Threads + Wait + Sync,
>(
    rt: &R,
    alloc: Global,
    net: &Network,
    options: Options,
    gate: &G,
    observer: &O,
    made: Made<P>,
) -> Result<Ran<J, P>, ThreadsFault>
    requires network { J.net ≡ net.now }
    requires observed { O.observes net.now }
    requires tables { J.tables ≡ tables_of (rows_of made.ends.items) }
    requires links { J.links ≡ map table_of made.links.items }
    requires made { AreMade net.now (min options.capacity 2) made.links.items (rows_of made.ends.items) }
    requires options { AreInRange options }
    requires transcript { J.transcript ≡ options.transcript }
    ensures order { IfOk result (λ ran. map (λ b. b.value.vertex) ran.nodes.items ≡ vertices J.net) }
    ensures none_refused { IfOk result
        (λ ran. All (λ b. refusal_of b.value ≢ Some Memory) ran.nodes.items) }
    ensures room { IfOk result (λ ran. HoldAtMost ran.links options.capacity) }
{
    let Made { links, ends } = made;
    let nodes = start_nodes::<J, P>(alloc, net, ends, options.transcript)?;
    let links = Links::<J, P>::new(links);
    let nodes = run_nodes(rt, alloc, net, &links, gate, observer, nodes, options)?;
    Ok(Ran { nodes, links })
}
