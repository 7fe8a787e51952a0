//! What nodes of a program that worker threads run do with the bytes of an input.

ghost use Rattle.std.specs.Prelude.{IfOk, IfErr, Ok, Err};
ghost use Rattle.command_line.specs.declared.play_request.Play.TheVariants.{Run};
ghost use Rattle.layers.specs.Layering.{layering};
ghost use Rattle.layers.specs.Texts.{layers_texts_from};
ghost use Rattle.program_texts.specs.PayloadTexts.{payload_texts};
ghost use Rattle.run_options.specs.Ranges.{AreInRange};
ghost use Rattle.play_commands.specs.Payloads.{layers_payloads};
ghost use Rattle.play_commands.specs.Plays.{MayPlay, MayPlayNamed, layers_root};

use colour_program::Colouring;
use command_line::{NodeProgramName, Shown};
use independent_set::IndependentSet;
use layers::laws::rounds_end_with_the_distances_from_a_root;
use layers::{Layers, ROOT_ID};
use leader::Leader;
use matching::Matching;
use play_inputs::{PlayFault, Root, Setting};
use play_runs::{run_bytes, run_transcript_bytes};
use program_texts::ProgramText;
use recolouring::Recolouring;
use run_options::{Edition, Options};
use std::alloc::Global;
use std::sync::Wait;
use std::thread::Threads;
use wired_nodes::OpenGate;

// What nodes of a program that worker threads run come to, or their transcript. The network is as `setting` says.
fn shown_run_bytes<P: ProgramText, T: Threads + Wait + Sync>(
    rt: &T,
    alloc: Global,
    setting: Setting,
    options: Options,
    shown: Shown,
    input: &[u8],
) -> Result<Vec<u8>, PlayFault>
    requires in_range { AreInRange options }
    ensures ok { IfOk result (λ bytes. MayPlay P.program P.texts (payload_texts P.Payload.PayloadText.own) setting
        (Run options shown) input.now (Ok bytes.items)) }
    ensures fault { IfErr result (λ fault. MayPlay P.program P.texts (payload_texts P.Payload.PayloadText.own) setting
        (Run options shown) input.now (Err fault)) }
{
    match shown {
        Shown::States => {
            run_bytes::<P, OpenGate, T>(rt, alloc, input, setting, options, &OpenGate)
        }
        Shown::Transcript => run_transcript_bytes::<P, OpenGate, T>(
            rt,
            alloc,
            input,
            setting,
            options,
            Edition::Two,
            &OpenGate,
        ),
    }
}

// The same of the layers, with this vertex as their root.
fn layers_run_bytes<T: Threads + Wait + Sync>(
    rt: &T,
    alloc: Global,
    vertex: u32,
    options: Options,
    shown: Shown,
    input: &[u8],
) -> Result<Vec<u8>, PlayFault>
    requires in_range { AreInRange options }
    ensures ok { IfOk result (λ bytes. MayPlay layering (layers_texts_from vertex) layers_payloads
        (Setting.Rooted (layers_root vertex)) (Run options shown) input.now (Ok bytes.items)) }
    ensures fault { IfErr result (λ fault. MayPlay layering (layers_texts_from vertex) layers_payloads
        (Setting.Rooted (layers_root vertex)) (Run options shown) input.now (Err fault)) }
{
    rounds_end_with_the_distances_from_a_root();
    let root = Root {
        vertex,
        id: ROOT_ID,
    };
    shown_run_bytes::<Layers, T>(rt, alloc, Setting::Rooted(root), options, shown, input)
}

/// The same of the program of a name; each program is a line. It isn't promised that the call returns.
///
/// # Errors
/// The fault of the input, of the run, or of memory.
pub fn named_run_bytes<T: Threads + Wait + Sync>(
    rt: &T,
    alloc: Global,
    program: NodeProgramName,
    options: Options,
    shown: Shown,
    input: &[u8],
) -> Result<Vec<u8>, PlayFault>
    requires in_range { AreInRange options }
    ensures ok { IfOk result (λ bytes. MayPlayNamed program (Run options shown) input.now (Ok bytes.items)) }
    ensures fault { IfErr result (λ fault. MayPlayNamed program (Run options shown) input.now (Err fault)) }
{
    let read = Setting::AsRead;
    match program {
        NodeProgramName::Colouring => {
            shown_run_bytes::<Colouring, T>(rt, alloc, read, options, shown, input)
        }
        NodeProgramName::Leader => {
            shown_run_bytes::<Leader, T>(rt, alloc, read, options, shown, input)
        }
        NodeProgramName::Layers(None) => {
            shown_run_bytes::<Layers, T>(rt, alloc, read, options, shown, input)
        }
        NodeProgramName::Layers(Some(v)) => {
            layers_run_bytes(rt, alloc, v, options, shown, input)
        }
        NodeProgramName::Matching => {
            shown_run_bytes::<Matching, T>(rt, alloc, read, options, shown, input)
        }
        NodeProgramName::IndependentSet => {
            shown_run_bytes::<IndependentSet, T>(rt, alloc, read, options, shown, input)
        }
        NodeProgramName::Recolouring(again) => {
            let setting = Setting::Repeating(again);
            shown_run_bytes::<Recolouring, T>(rt, alloc, setting, options, shown, input)
        }
    }
}
