//! The transcript of a run of worker threads.

ghost use Rattle.std.specs.Prelude.{◌≡◌, All, IfOk, IfErr, length, map, true};
ghost use Rattle.colour_rules.specs.Program.{colouring};
ghost use Rattle.run_options.specs.Ranges.{AreInRange};
ghost use Rattle.outcomes.specs.Gathers.{gathered_of};
ghost use Rattle.stamps.specs.Stamps.{Rises};
ghost use Rattle.program_texts.specs.PayloadTexts.{payload_texts};
ghost use Rattle.plan_runs.specs.Payloads.{colouring_payloads};
ghost use Rattle.plan_runs.specs.Transcripts.{IsTextIn, IsTranscriptAnswer, IsTranscriptOn, entries_text};
ghost use Rattle.plan_runs.specs.Transcripts.{stamped_edition};
ghost use Rattle.plan_runs.specs.Workers.{IsFaultOfTranscript, IsFaultOfWorkers};

use crate::merged::merged_text;
use crate::workers::whole_run;
use colour_program::Colouring;
use interference::{Memory, Network};
use node_api::{NodeProgram, Refused};
use outcomes::Actor;
use outcomes::laws::whole_outcomes_replay;
use plan_answers::{PlanFault, network_of_text};
use program_texts::ProgramText;
use run_options::{Edition, Options, RunFault};
use std::alloc::Global;
use std::sync::Wait;
use std::thread::Threads;
use transcripts::{push_entries, push_first_line};
use wired_nodes::Gate;

// The transcript of nodes, each of which is dropped with its entries once its lines are written.
fn text_of_actors<P: NodeProgram>(
    alloc: Global,
    count: u32,
    actors: Vec<Actor<P>>,
) -> Result<Vec<u8>, Memory>
    ensures { IfOk result (λ text.
        text.items ≡ entries_text (payload_texts P.Payload.PayloadText.own) count (map gathered_of actors.items)) }
{
    let mut text = Vec::new(alloc);
    push_first_line(&mut text, count)?;
    for actor in actors {
        let pushed = push_entries(&mut text, actor.node(), actor.entries());
        // Before `?`, so that the node is dropped at one place, which the prover checks sooner.
        drop(actor);
        pushed?;
    }
    Ok(text)
}

// The transcript of nodes, without stamps or with them.
fn text_in<P: ProgramText>(
    alloc: Global,
    edition: Edition,
    count: u32,
    actors: Vec<Actor<P>>,
) -> Result<Vec<u8>, Memory>
    requires count { length actors.items ≡ count }
    requires rising { All Rises (map (λ node. node.entries) (map gathered_of actors.items)) }
    ensures { IfOk result (λ text. IsTextIn (payload_texts P.Payload.PayloadText.own) (stamped_edition P.texts) edition
        count (map gathered_of actors.items) text.items) }
{
    match edition {
        Edition::One => text_of_actors(alloc, count, actors),
        Edition::Two => merged_text(alloc, count, actors),
    }
}

/// The transcript of a run of a program on a network, which is dropped when the run is over: what each node put, took
/// and did until its last pulse. In edition 1 it has the entries of each node in its own order, vertex by vertex; in
/// edition 2 all entries in the order of their stamps and then of their vertices, which is a run that `replay_bytes`
/// accepts. If the program is named, the latter has edition 3, with the name in its first line. The run is as in
/// `plan_bytes`, but has a transcript, whatever the options say. With more than one worker two calls may give different
/// transcripts.
///
/// It is not promised that the call returns, nor that any number of looks is enough.
///
/// # Errors
/// As of `whole_run`; then `Memory` if there is no memory for the text.
pub fn run_transcript<P: ProgramText, G: Gate + Sync, R: Threads + Wait + Sync>(
    rt: &R,
    alloc: Global,
    network: Network,
    options: Options,
    edition: Edition,
    gate: &G,
) -> Result<Vec<u8>, RunFault>
    ensures ok { IfOk result (λ text. IsTranscriptOn P.program (payload_texts P.Payload.PayloadText.own)
        (stamped_edition P.texts) edition network text.items) }
    ensures in_range { IfOk result (λ _. AreInRange options) }
    ensures fault { IfErr result (IsFaultOfTranscript P.program network options) }
{
    whole_outcomes_replay::<P, P::Payload, Refused>();
    let outcome = whole_run::<P, G, R>(rt, alloc, &network, options, true, gate)?;
    let count = network.nodes();
    // The text takes the room of what it doesn't speak of any more.
    drop(network);
    match text_in(alloc, edition, count, outcome.into_actors()) {
        Ok(text) => Ok(text),
        Err(_) => Err(RunFault::Memory),
    }
}

/// The transcript of a run of the colouring, as `run_transcript` makes it, on the network that a DIMACS text describes.
///
/// # Errors
/// As of `plan_bytes`.
pub fn transcript_bytes<G: Gate + Sync, R: Threads + Wait + Sync>(
    rt: &R,
    alloc: Global,
    input: &[u8],
    options: Options,
    edition: Edition,
    gate: &G,
) -> Result<Vec<u8>, PlanFault>
    ensures ok { IfOk result (λ text. IsTranscriptAnswer colouring colouring_payloads edition input.now text.items) }
    ensures in_range { IfOk result (λ _. AreInRange options) }
    ensures fault { IfErr result (IsFaultOfWorkers colouring options true input.now) }
{
    let network = network_of_text(alloc, input)?;
    Ok(run_transcript::<Colouring, G, R>(rt, alloc, network, options, edition, gate)?)
}
