//! Runs of worker threads, and the last states of their nodes.

ghost use Rattle.std.specs.Prelude.{◌≡◌, All, IfOk, IfErr, false, flat_map, map};
ghost use Rattle.interference.specs.Net.{IsVertex};
ghost use Rattle.run_options.specs.Ranges.{AreInRange};
ghost use Rattle.outcomes.specs.Gathers.{gathered_of};
ghost use Rattle.play_runs.specs.Ends.{IsEndsAnswer, gathered_end};
ghost use Rattle.play_runs.specs.Workers.{IsFaultOfWorkers};

use crate::lines::push_end;
use interference::{Memory, Network};
use node_api::Refused;
use outcomes::Actor;
use outcomes::laws::whole_outcomes_have_ended;
use plan_runs::whole_run;
use play_inputs::{PlayFault, Setting, network_of_text};
use program_texts::ProgramText;
use run_options::Options;
use std::alloc::Global;
use std::sync::Wait;
use std::thread::Threads;
use wired_nodes::Gate;

// A line for each node.
fn text_of_ends<P: ProgramText>(
    alloc: Global,
    net: &Network,
    actors: &[Actor<P>],
) -> Result<Vec<u8>, Memory>
    requires vertices { All (λ g. IsVertex net.now g.vertex) (map gathered_of actors.now) }
    ensures { IfOk result
        (λ text. text.items ≡ flat_map (gathered_end P.texts net.now) (map gathered_of actors.now)) }
{
    let mut text = Vec::new(alloc);
    for actor in actors {
        let node = actor.alpha();
        push_end(
            &mut text,
            net,
            actor.node(),
            node.pulse_number(),
            node.program(),
        )?;
    }
    Ok(text)
}

/// The last state of each node of a program on the network that a DIMACS text describes, as text: a line for each
/// vertex, with its last pulse and its result. The nodes run asynchronously, on worker threads with links between them,
/// and end as in the synchronous run, whatever the threads do. The run has no transcript, whatever the options say. The
/// network is as `setting` says.
///
/// It is not promised that the call returns, nor that any number of looks is enough.
///
/// # Errors
/// As of `plan_bytes`; and before the fault of the network `NoRoot` if the root is no vertex.
pub fn run_bytes<P: ProgramText, G: Gate + Sync, R: Threads + Wait + Sync>(
    rt: &R,
    alloc: Global,
    input: &[u8],
    setting: Setting,
    options: Options,
    gate: &G,
) -> Result<Vec<u8>, PlayFault>
    ensures ok { IfOk result (λ text. IsEndsAnswer P.program P.texts setting input.now text.items) }
    ensures in_range { IfOk result (λ _. AreInRange options) }
    ensures fault { IfErr result (IsFaultOfWorkers P.program setting options false input.now) }
{
    whole_outcomes_have_ended::<P, P::Payload, Refused>();
    P::rounds_solve();
    let network = network_of_text(alloc, input, setting)?;
    let outcome = whole_run::<P, G, R>(rt, alloc, &network, options, false, gate)?;
    Ok(text_of_ends(alloc, &network, outcome.actors())?)
}
