//! The state that the entries of a transcript lead to.

ghost use Rattle.std.specs.Prelude.{◌≡◌, ◌≢◌, ℕ, [], IfOk, IfErr, Ok};
ghost use Rattle.dimacs_col.specs.Lines.{lines_of};
ghost use Rattle.interference.specs.Net.{IsNetwork};
ghost use Rattle.event_rule.specs.Replays.{IsReplay};
ghost use Rattle.event_rule.specs.Whole.{IsWholeReplay};
ghost use Rattle.transcripts.specs.Behind.{transcript_lines};
ghost use Rattle.transcripts.specs.Editions.{One, Two};
ghost use Rattle.program_texts.specs.PayloadTexts.{payload_texts};
ghost use Rattle.play_answers.specs.ReplayAnswers.{IsFaultOfReplay, IsFaultOfTranscript, IsReplayAnswer, IsReplayed};
ghost use Rattle.play_answers.specs.ReplayAnswers.{IsFaultOfEntry, IsFaultOfName, IsFaultOfStamped, IsOfProgram};
ghost use Rattle.play_answers.specs.ReplayAnswers.{SaysWhyNot, StopsThere};
ghost use Rattle.play_answers.specs.ReplayAnswers.{bare_rows, fault_at, first_line_in, index_of, last_of, line_at};
ghost use Rattle.play_answers.specs.ReplayAnswers.{transcript_in, words_text};

use dimacs_col::text_start;
use entries::{Row, StampedRow};
use event_machine::NetState;
use event_machine::laws::every_run_simulates;
use event_rule::RunRefused;
use event_texts::{expected_words, missing_words, text_of_state};
use interference::Network;
use net_core::{ReplayRefused, WholeRefused, event_of, replay, replay_whole};
use node_api::{NodeProgram, PayloadText, Refused};
use play_inputs::{PlayFault, ReplayFault, Setting, network_of_text};
use program_texts::ProgramText;
use std::alloc::{AllocError, Global};
use transcripts::{Transcript, entry_lines, network_text, program_in, read_any_behind_network};

// The line of the entry at an index.
fn line_at(lines: &[usize], index: usize) -> usize
    ensures { result ≡ line_at lines.now index }
{
    match lines.get(index) {
        Some(line) => *line,
        None => 0,
    }
}

// The refusal of a replay, with the line of its entry and words behind it.
fn fault_at(lines: &[usize], words: Vec<u8>, refused: ReplayRefused) -> ReplayFault
    ensures { result ≡ fault_at lines.now words refused }
{
    match refused {
        ReplayRefused::Run(RunRefused::NotReady(k)) => {
            ReplayFault::NotReady(line_at(lines, k), words)
        }
        ReplayRefused::Run(RunRefused::NothingToPut(k)) => {
            ReplayFault::NothingToPut(line_at(lines, k), words)
        }
        ReplayRefused::Run(RunRefused::LinkEmpty(k)) => {
            ReplayFault::LinkEmpty(line_at(lines, k), words)
        }
        ReplayRefused::Run(RunRefused::NoSuch(k)) => ReplayFault::NoSuch(line_at(lines, k)),
        ReplayRefused::Run(RunRefused::Memory) => ReplayFault::Memory,
        ReplayRefused::WrongWire(k) => ReplayFault::WrongWire(line_at(lines, k), words),
    }
}

// The index of the entry that is refused.
fn index_of(refused: ReplayRefused) -> Option<usize>
    ensures { result ≡ index_of refused }
{
    match refused {
        ReplayRefused::Run(RunRefused::NotReady(k)) => Some(k),
        ReplayRefused::Run(RunRefused::NothingToPut(k)) => Some(k),
        ReplayRefused::Run(RunRefused::LinkEmpty(k)) => Some(k),
        ReplayRefused::Run(RunRefused::NoSuch(k)) => Some(k),
        ReplayRefused::Run(RunRefused::Memory) => None,
        ReplayRefused::WrongWire(k) => Some(k),
    }
}

// The words behind the refusal of an entry in a state.
fn words_of<P: NodeProgram>(
    alloc: Global,
    state: &NetState<P>,
    row: &Row<P::Payload>,
    refused: ReplayRefused,
) -> Result<Vec<u8>, AllocError>
    ensures { IfOk result (λ words. words.items
        ≡ words_text P.program (payload_texts P.Payload.PayloadText.own) state.now.net state.now.state row.now
        refused) }
{
    match (event_of(state.network(), row), refused) {
        (None, _) => Ok(Vec::new(alloc)),
        (Some(event), ReplayRefused::Run(_)) => missing_words(alloc, state, event),
        (Some(event), ReplayRefused::WrongWire(_)) => expected_words(alloc, state, event),
    }
}

// The refusal of entries, with its line, and words for the state that the entries before it lead to.
fn fault_of_entry<P: NodeProgram>(
    alloc: Global,
    network: &Network,
    rows: &[Row<P::Payload>],
    lines: &[usize],
    refused: ReplayRefused,
) -> ReplayFault
    requires stops { StopsThere P.program network.now rows.now refused }
    ensures { IsFaultOfEntry P.program (payload_texts P.Payload.PayloadText.own) network.now rows.now lines.now refused
        result }
{
    let Some(index) = index_of(refused) else {
        return ReplayFault::Memory;
    };
    let row = &rows[index];
    let Ok(state) = replay::<P>(alloc, network, &rows[..index]) else {
        return ReplayFault::Memory;
    };
    match words_of(alloc, &state, row, refused) {
        Ok(words) => fault_at(lines, words, refused),
        Err(_) => ReplayFault::Memory,
    }
}

// The state of the nodes after the entries of a transcript of edition 1.
fn replayed_entries<P: NodeProgram>(
    alloc: Global,
    network: &Network,
    input: &[u8],
    rows: &[Row<P::Payload>],
) -> Result<NetState<P>, ReplayFault>
    requires network { IsNetwork network.now }
    ensures net { IfOk result (λ view. view.net ≡ network.now) }
    ensures ok { IfOk result (λ view. IsReplay P.program network.now rows.now view.state) }
    ensures fault { IfErr result (λ fault. (nodes : ℕ)
        → transcript_in (payload_texts P.Payload.PayloadText.own) (lines_of input.now) ≡ Ok (One (nodes, rows.now))
        → IsFaultOfTranscript P.program (payload_texts P.Payload.PayloadText.own) network.now (lines_of input.now)
        fault) }
{
    match replay::<P>(alloc, network, rows) {
        Ok(state) => Ok(state),
        Err(refused) => {
            let lines = entry_lines(alloc, input)?;
            Err(fault_of_entry::<P>(alloc, network, rows, lines.as_slice(), refused))
        }
    }
}

// The rows without their stamps.
fn bare_rows<T: PayloadText>(
    alloc: Global,
    rows: &[StampedRow<T>],
) -> Result<Vec<Row<T>>, AllocError>
    ensures { IfOk result (λ bare. bare.items ≡ bare_rows rows.now) }
{
    let mut bare = Vec::new(alloc);
    for row in rows {
        bare.push(Row {
            vertex: row.vertex,
            entry: row.entry,
        })?;
    }
    Ok(bare)
}

// The number of the transcript's first line.
fn first_line_in(input: &[u8]) -> usize
    requires begins { transcript_lines (lines_of input.now) ≢ [] }
    ensures { result ≡ first_line_in (lines_of input.now) }
{
    match text_start(input, &[b"transcript"]) {
        Some(start) => start.lines + 1,
        None => unreachable!(),
    }
}

// The last of some numbers.
fn last_of(other: usize, numbers: &[usize]) -> usize
    ensures { result ≡ last_of other numbers.now }
{
    match numbers.get(numbers.len().saturating_sub(1)) {
        Some(number) => *number,
        None => other,
    }
}

// The refusal of stamped entries, with the number of a line, and words as of edition 1. `first` is the number of the
// transcript's first line.
fn fault_of_stamped<P: NodeProgram>(
    alloc: Global,
    network: &Network,
    rows: &[StampedRow<P::Payload>],
    first: usize,
    lines: &[usize],
    refused: WholeRefused,
) -> ReplayFault
    requires why { SaysWhyNot P.program network.now rows.now refused }
    ensures { IsFaultOfStamped P.program (payload_texts P.Payload.PayloadText.own) network.now rows.now first lines.now
        refused result }
{
    match refused {
        WholeRefused::Replay(refused) => match bare_rows(alloc, rows) {
            Ok(bare) => fault_of_entry::<P>(alloc, network, bare.as_slice(), lines, refused),
            Err(_) => ReplayFault::Memory,
        },
        WholeRefused::WrongStamp(k) => ReplayFault::WrongStamp(line_at(lines, k)),
        WholeRefused::NotWhole => ReplayFault::NotWhole(last_of(first, lines)),
    }
}

// The state of the nodes after the entries of a transcript of edition 2.
fn replayed_whole<P: NodeProgram>(
    alloc: Global,
    network: &Network,
    input: &[u8],
    rows: &[StampedRow<P::Payload>],
) -> Result<NetState<P>, ReplayFault>
    requires network { IsNetwork network.now }
    requires read { (nodes : ℕ)
        × (transcript_in (payload_texts P.Payload.PayloadText.own) (lines_of input.now) ≡ Ok (Two (nodes, rows.now))) }
    ensures net { IfOk result (λ view. view.net ≡ network.now) }
    ensures ok { IfOk result (λ view. IsWholeReplay P.program network.now rows.now view.state) }
    ensures fault { IfErr result (IsFaultOfTranscript P.program (payload_texts P.Payload.PayloadText.own) network.now
        (lines_of input.now)) }
{
    match replay_whole::<P>(alloc, network, rows) {
        Ok(stamped) => Ok(stamped.into_state()),
        Err(refused) => {
            let lines = entry_lines(alloc, input)?;
            let first = first_line_in(input);
            Err(fault_of_stamped::<P>(alloc, network, rows, first, lines.as_slice(), refused))
        }
    }
}

// The state of the nodes after the entries of the transcript that follows a network text.
fn replayed<P: NodeProgram>(
    alloc: Global,
    network: &Network,
    input: &[u8],
) -> Result<NetState<P>, ReplayFault>
    requires network { IsNetwork network.now }
    ensures net { IfOk result (λ view. view.net ≡ network.now) }
    ensures ok { IfOk result (λ view.
        IsReplayed P.program (payload_texts P.Payload.PayloadText.own) network.now (lines_of input.now) view.state) }
    ensures fault { IfErr result (IsFaultOfTranscript P.program (payload_texts P.Payload.PayloadText.own) network.now
        (lines_of input.now)) }
{
    match read_any_behind_network::<P::Payload>(alloc, input)? {
        Transcript::One(_, rows) => replayed_entries(alloc, network, input, rows.as_slice()),
        Transcript::Two(_, rows) => replayed_whole(alloc, network, input, rows.as_slice()),
    }
}

// Whether the transcript that follows a network text names the program of a name, or none.
fn check_program(alloc: Global, input: &[u8], name: &str) -> Result<(), ReplayFault>
    ensures ok { IfOk result (λ _. IsOfProgram name.now (lines_of input.now)) }
    ensures fault { IfErr result (IsFaultOfName name.now (lines_of input.now)) }
{
    let Some(named) = program_in(input) else {
        return Ok(());
    };
    if named == name.as_bytes() {
        return Ok(());
    }
    let mut words = Vec::new(alloc);
    words.extend_from_slice(b": ")?;
    words.extend_from_slice(named)?;
    Err(ReplayFault::WrongProgram(first_line_in(input), words))
}

/// The state of the nodes of a program after the entries of a transcript, as `events_bytes` writes it: the
/// input is a DIMACS text, and then a transcript, which begins at the first line whose first field is
/// `transcript`. If it is of edition 3, its first line has to name the program. The entries are played in the order of
/// their lines. Those of editions 2 and 3 have to have the stamps of their nodes' counters, in their order, and to lead
/// to a whole state. The network is as `setting` says.
///
/// # Errors
/// As of `network_of_text` for the lines before the transcript; else `Replay` with the first line if that names another
/// program; else `Replay` with the first line that no transcript has; else `Replay` with the first entry that isn't
/// possible, or has another pulse or wire, or, with stamps, another stamp than its node comes to, or comes too late;
/// else, with stamps, `Replay` with the last line if the state isn't whole. Lines count from the first of the input.
/// Any call may instead fail for lack of memory: `ReplayFault::Memory` or as `forest_bytes`.
pub fn replay_bytes<P: ProgramText>(
    alloc: Global,
    input: &[u8],
    setting: Setting,
) -> Result<Vec<u8>, PlayFault>
    ensures ok { IfOk result (λ text. IsReplayAnswer P.program P.texts (payload_texts P.Payload.PayloadText.own) setting
        input.now text.items) }
    ensures fault { IfErr result
        (IsFaultOfReplay P.program (payload_texts P.Payload.PayloadText.own) P.texts setting input.now) }
{
    every_run_simulates::<P, P::Payload, Refused>();
    P::rounds_solve();
    let network = network_of_text(alloc, network_text(input), setting)?;
    check_program(alloc, input, P::name())?;
    let state = replayed::<P>(alloc, &network, input)?;
    Ok(text_of_state(alloc, &state)?)
}
