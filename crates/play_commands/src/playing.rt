//! What nodes of a program do with the bytes of an input, without worker threads.

ghost use Rattle.std.specs.Prelude.{◌≡◌, IfOk, IfErr, Ok, Err, false};
ghost use Rattle.layers.specs.Layering.{layering};
ghost use Rattle.layers.specs.Texts.{layers_texts_from};
ghost use Rattle.program_texts.specs.PayloadTexts.{payload_texts};
ghost use Rattle.play_commands.specs.Payloads.{layers_payloads};
ghost use Rattle.play_commands.specs.Plays.{MayPlay, MayPlayNamed, layers_root, starts_threads};

use colour_program::Colouring;
use command_line::{NodeProgramName, Play, Shown};
use independent_set::IndependentSet;
use layers::laws::rounds_end_with_the_distances_from_a_root;
use layers::{Layers, ROOT_ID};
use leader::Leader;
use matching::Matching;
use play_answers::{events_bytes, replay_bytes};
use play_inputs::{PlayFault, Root, Setting};
use play_runs::{alone_bytes, alone_transcript_bytes, ends_bytes, rounds_bytes};
use program_texts::ProgramText;
use recolouring::Recolouring;
use std::alloc::Global;

// What nodes of a program answer to an input, whose network is as `setting` says; each that they may be asked for is a
// line.
fn play_bytes<P: ProgramText>(
    alloc: Global,
    setting: Setting,
    play: Play,
    input: &[u8],
) -> Result<Vec<u8>, PlayFault>
    requires alone { starts_threads play ≡ false }
    ensures ok { IfOk result (λ bytes. MayPlay P.program P.texts (payload_texts P.Payload.PayloadText.own) setting
        play input.now (Ok bytes.items)) }
    ensures fault { IfErr result (λ fault. MayPlay P.program P.texts (payload_texts P.Payload.PayloadText.own) setting
        play input.now (Err fault)) }
{
    match play {
        Play::Events => events_bytes::<P>(alloc, input, setting),
        Play::Replay => replay_bytes::<P>(alloc, input, setting),
        Play::Rounds => rounds_bytes::<P>(alloc, input, setting),
        Play::Alone(Shown::States) => alone_bytes::<P>(alloc, input, setting),
        Play::Alone(Shown::Transcript) => alone_transcript_bytes::<P>(alloc, input, setting),
        Play::Ends => ends_bytes::<P>(alloc, input, setting),
        Play::Run(_, _) => unreachable!(),
    }
}

// What the layers answer to an input, with this vertex as their root.
fn layers_bytes(alloc: Global, vertex: u32, play: Play, input: &[u8]) -> Result<Vec<u8>, PlayFault>
    requires alone { starts_threads play ≡ false }
    ensures ok { IfOk result (λ bytes. MayPlay layering (layers_texts_from vertex) layers_payloads
        (Setting.Rooted (layers_root vertex)) play input.now (Ok bytes.items)) }
    ensures fault { IfErr result (λ fault. MayPlay layering (layers_texts_from vertex) layers_payloads
        (Setting.Rooted (layers_root vertex)) play input.now (Err fault)) }
{
    rounds_end_with_the_distances_from_a_root();
    let root = Root {
        vertex,
        id: ROOT_ID,
    };
    play_bytes::<Layers>(alloc, Setting::Rooted(root), play, input)
}

/// What nodes of the program of a name answer to an input; each program is a line.
///
/// # Errors
/// The fault of the input, or of memory.
pub fn named_bytes(
    alloc: Global,
    program: NodeProgramName,
    play: Play,
    input: &[u8],
) -> Result<Vec<u8>, PlayFault>
    requires alone { starts_threads play ≡ false }
    ensures ok { IfOk result (λ bytes. MayPlayNamed program play input.now (Ok bytes.items)) }
    ensures fault { IfErr result (λ fault. MayPlayNamed program play input.now (Err fault)) }
{
    let read = Setting::AsRead;
    match program {
        NodeProgramName::Colouring => play_bytes::<Colouring>(alloc, read, play, input),
        NodeProgramName::Leader => play_bytes::<Leader>(alloc, read, play, input),
        NodeProgramName::Layers(None) => play_bytes::<Layers>(alloc, read, play, input),
        NodeProgramName::Layers(Some(v)) => layers_bytes(alloc, v, play, input),
        NodeProgramName::Matching => play_bytes::<Matching>(alloc, read, play, input),
        NodeProgramName::IndependentSet => play_bytes::<IndependentSet>(alloc, read, play, input),
        NodeProgramName::Recolouring(again) => {
            play_bytes::<Recolouring>(alloc, Setting::Repeating(again), play, input)
        },
    }
}
