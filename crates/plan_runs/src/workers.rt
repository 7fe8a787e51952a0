//! Runs of worker threads, and the channel plan that they find.

ghost use Rattle.std.specs.Prelude.{◌≡◌, false, true, IfOk, IfErr};
ghost use Rattle.colour_rules.specs.Program.{colouring};
ghost use Rattle.run_options.specs.Ranges.{AreInRange};
ghost use Rattle.outcomes.specs.Outcome.{IsOutcome, is_whole};
ghost use Rattle.plan_answers.specs.Answers.{IsPlainAnswer};
ghost use Rattle.plan_runs.specs.Workers.{IsFaultOfRun, IsFaultOfWorkers, MayRun, Ran, whole_after};

use crate::coloured_runs::halted_nodes_are_coloured;
use crate::plan_text::text_of_nodes;
use colour_laws::laws::colours_are_proper;
use colour_program::Colouring;
use colour_rules::Payload;
use interference::Network;
use node_api::{NodeProgram, Refused};
use node_pool::run_workers;
use outcomes::Outcome;
use outcomes::laws::whole_outcomes_are_complete;
use plan_answers::{PlanFault, network_of_text};
use run_options::{Options, PoolFault, RunFault};
use std::alloc::Global;
use std::sync::Wait;
use std::thread::Threads;
use wired_nodes::Gate;

// What a run left, if that is whole.
fn unless_stopped<P: NodeProgram>(
    ran: Result<Outcome<P>, PoolFault>,
) -> Result<Outcome<P>, RunFault>
    ensures whole { result ≡ whole_after ran }
{
    match ran {
        Err(fault) => Err(RunFault::Pool(fault)),
        Ok(outcome) => {
            if outcome.is_whole() {
                Ok(outcome)
            } else {
                Err(RunFault::Stopped)
            }
        }
    }
}

/// What workers leave that run the nodes of a program until all are done, with a transcript or without, whatever
/// the options say of it.
///
/// # Errors
/// `Pool` with the fault of the run; `Stopped` only of an outcome that isn't whole, since not every node was done
/// within the looks.
pub fn whole_run<P: NodeProgram, G: Gate + Sync, R: Threads + Wait + Sync>(
    rt: &R,
    alloc: Global,
    network: &Network,
    options: Options,
    transcript: bool,
    gate: &G,
) -> Result<Outcome<P>, RunFault>
    ensures outcome { IfOk result
        (λ outcome. IsOutcome P.program network.now options.capacity transcript outcome) }
    ensures whole { IfOk result (λ outcome. is_whole outcome ≡ true) }
    ensures in_range { IfOk result (λ _. AreInRange options) }
    ensures fault { IfErr result (IsFaultOfRun P.program network.now options transcript) }
    ensures of_run { (ran : Ran P P.Payload)
        × MayRun P.program network.now options transcript ran × (result ≡ whole_after ran) }
{
    let run = Options {
        workers: options.workers,
        capacity: options.capacity,
        turns: options.turns,
        transcript,
    };
    unless_stopped(run_workers::<P, G, R>(rt, alloc, network, run, gate))
}

/// The channel plan of the network that a DIMACS text describes, as `plain_bytes` gives it. The nodes find their
/// colours asynchronously, on worker threads with links between the nodes. The run has no transcript, whatever the
/// options say.
///
/// It is not promised that the call returns, nor that any number of looks is enough.
///
/// # Errors
/// As of `forest_bytes`; else `Pool` with the fault of the run, `BadOptions` only if the options are out of range; else
/// `Stopped` only of an outcome that isn't whole, since not every node was done within the looks; then `Memory` if the
/// text is refused memory.
pub fn plan_bytes<G: Gate + Sync, R: Threads + Wait + Sync>(
    rt: &R,
    alloc: Global,
    input: &[u8],
    options: Options,
    gate: &G,
) -> Result<Vec<u8>, PlanFault>
    ensures ok { IfOk result (λ text. IsPlainAnswer input.now text.items) }
    ensures in_range { IfOk result (λ _. AreInRange options) }
    ensures fault { IfErr result (IsFaultOfWorkers colouring options false input.now) }
{
    colours_are_proper();
    whole_outcomes_are_complete::<Colouring, Payload, Refused>();
    halted_nodes_are_coloured();
    let network = network_of_text(alloc, input)?;
    let outcome = whole_run::<Colouring, G, R>(rt, alloc, &network, options, false, gate)?;
    Ok(text_of_nodes(alloc, outcome.actors())?)
}
