//! The state that events lead to.

ghost use Rattle.std.specs.Prelude.{IfOk, IfErr};
ghost use Rattle.program_texts.specs.PayloadTexts.{payload_texts};
ghost use Rattle.play_answers.specs.EventAnswers.{IsEventsAnswer, IsFaultOfEvents};

use event_machine::laws::every_run_simulates;
use event_texts::{network_text, play, read_events, text_of_state};
use node_api::Refused;
use play_inputs::{PlayFault, Setting, network_of_text};
use program_texts::ProgramText;
use std::alloc::Global;

/// The state of the nodes of a program after a list of events: the input is a DIMACS text, and then a
/// line for each event, `pulse V`, `put V PORT` or `take V PORT`. The events begin at the first line whose
/// first field is one of these words. The network is as `setting` says.
///
/// # Errors
/// As of `network_of_text` for the lines before the events; else `Event` with the first line that is no event; else
/// `Event` with the first event that isn't possible. Lines count from the first of the input. Any call may instead fail
/// for lack of memory: `EventFault::Memory` or as `forest_bytes`.
pub fn events_bytes<P: ProgramText>(
    alloc: Global,
    input: &[u8],
    setting: Setting,
) -> Result<Vec<u8>, PlayFault>
    ensures ok { IfOk result (λ text.
        IsEventsAnswer P.program P.texts (payload_texts P.Payload.PayloadText.own) setting input.now text.items) }
    ensures fault { IfErr result (IsFaultOfEvents P.program setting input.now) }
{
    every_run_simulates::<P, P::Payload, Refused>();
    P::rounds_solve();
    let network = network_of_text(alloc, network_text(input), setting)?;
    let script = read_events(alloc, input)?;
    let state = play::<P>(alloc, &network, script.as_slice())?;
    Ok(text_of_state(alloc, &state)?)
}
