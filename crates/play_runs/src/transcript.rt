//! The transcript of nodes that worker threads ran, or one thread.

ghost use Rattle.std.specs.Prelude.{◌≡◌, IfOk, IfErr, true};
ghost use Rattle.run_options.specs.Ranges.{AreInRange};
ghost use Rattle.transcripts.specs.TranscriptText.{stamped_row_text, text_of};
ghost use Rattle.program_texts.specs.PayloadTexts.{payload_texts};
ghost use Rattle.play_inputs.specs.Inputs.{IsFaultOfText};
ghost use Rattle.plan_runs.specs.Transcripts.{stamped_edition};
ghost use Rattle.play_runs.specs.Transcripts.{IsLoneTranscript, IsProgramTranscript};
ghost use Rattle.play_runs.specs.Workers.{IsFaultOfWorkers};

use entries::StampedRow;
use interference::Memory;
use lone_runs::record_alone;
use plan_runs::{push_edition_line, run_transcript};
use play_inputs::{PlayFault, Setting, network_of_text};
use program_texts::ProgramText;
use run_options::{Edition, Options};
use std::alloc::Global;
use std::sync::Wait;
use std::thread::Threads;
use transcripts::push_stamped_row;
use wired_nodes::Gate;

// The transcript of so many nodes with these rows.
fn text_of_rows<P: ProgramText>(
    alloc: Global,
    count: u32,
    rows: &[StampedRow<P::Payload>],
) -> Result<Vec<u8>, Memory>
    ensures text { IfOk result (λ text. text.items ≡ text_of (stamped_edition P.texts)
        (stamped_row_text (payload_texts P.Payload.PayloadText.own)) count rows.now) }
{
    let mut text = Vec::new(alloc);
    push_edition_line::<P>(&mut text, count)?;
    for row in rows {
        push_stamped_row(&mut text, row)?;
    }
    Ok(text)
}

/// The transcript of a run of a program, on this thread, on the network that a DIMACS text describes: what each node
/// put, took and did until its last pulse, in the order of the stamps and then of the vertices. It has edition 2, or 3
/// if the program is named, and `replay_bytes` of `play_answers` accepts it. The network is as `setting` says. The call
/// returns, and two calls give the same transcript.
///
/// # Errors
/// As of `alone_bytes`.
pub fn alone_transcript_bytes<P: ProgramText>(
    alloc: Global,
    input: &[u8],
    setting: Setting,
) -> Result<Vec<u8>, PlayFault>
    ensures ok { IfOk result (λ text. IsLoneTranscript P.program P.texts (payload_texts P.Payload.PayloadText.own)
        setting input.now text.items) }
    ensures fault { IfErr result (IsFaultOfText setting input.now) }
{
    let network = network_of_text(alloc, input, setting)?;
    let rows = record_alone::<P>(alloc, &network)?;
    Ok(text_of_rows::<P>(alloc, network.nodes(), rows.as_slice())?)
}

/// The transcript of a run of a program, on worker threads, on the network that a DIMACS text describes, as
/// `run_transcript` makes it. The network is as `setting` says.
///
/// It is not promised that the call returns, nor that any number of looks is enough.
///
/// # Errors
/// As of `plan_bytes`; and before the fault of the network `NoRoot` if the root is no vertex.
pub fn run_transcript_bytes<P: ProgramText, G: Gate + Sync, R: Threads + Wait + Sync>(
    rt: &R,
    alloc: Global,
    input: &[u8],
    setting: Setting,
    options: Options,
    edition: Edition,
    gate: &G,
) -> Result<Vec<u8>, PlayFault>
    ensures ok { IfOk result (λ text. IsProgramTranscript P.program (payload_texts P.Payload.PayloadText.own) P.texts
        edition setting input.now text.items) }
    ensures in_range { IfOk result (λ _. AreInRange options) }
    ensures fault { IfErr result (IsFaultOfWorkers P.program setting options true input.now) }
{
    let network = network_of_text(alloc, input, setting)?;
    Ok(run_transcript::<P, G, R>(rt, alloc, network, options, edition, gate)?)
}
