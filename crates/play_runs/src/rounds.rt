//! The rounds of a network, pulse by pulse.

ghost use Rattle.std.specs.Prelude.{IfOk, IfErr};
ghost use Rattle.program_texts.specs.PayloadTexts.{payload_texts};
ghost use Rattle.play_inputs.specs.Inputs.{IsFaultOfText};
ghost use Rattle.play_runs.specs.RoundAnswers.{IsRoundsAnswer};

use crate::round_texts::rounds_text;
use play_inputs::{PlayFault, Setting, network_of_text};
use program_texts::ProgramText;
use std::alloc::Global;

/// The synchronous run of a program on the network that a DIMACS text describes: of each pulse what the program says of
/// the nodes, and what they send. The network is as `setting` says.
///
/// # Errors
/// As of `network_of_text`, or `Memory`.
pub fn rounds_bytes<P: ProgramText>(
    alloc: Global,
    input: &[u8],
    setting: Setting,
) -> Result<Vec<u8>, PlayFault>
    ensures ok { IfOk result (λ text.
        IsRoundsAnswer P.program P.texts (payload_texts P.Payload.PayloadText.own) setting input.now text.items) }
    ensures fault { IfErr result (IsFaultOfText setting input.now) }
{
    P::rounds_solve();
    let network = network_of_text(alloc, input, setting)?;
    Ok(rounds_text::<P>(alloc, &network)?)
}
