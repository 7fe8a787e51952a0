//! What a vertex sends at a pulse.

ghost use Rattle.std.specs.Prelude.{◌≡◌, ◌++◌, IfOk};
ghost use Rattle.interference.specs.Net.{IsVertex};
ghost use Rattle.node_api.specs.Run.{outbox_at};
ghost use Rattle.program_texts.specs.PayloadTexts.{payload_texts};
ghost use Rattle.play_runs.specs.PutsText.{puts_text};

use entries::{Entry, Row};
use program_texts::ProgramText;
use std::alloc::AllocError;
use sync_rounds::Rounds;
use transcripts::push_row;
use wires::Wire;

/// Appends what a vertex sends at the pulse, as entries of a transcript, by ascending neighbour.
///
/// # Errors
///
/// If a growth is refused.
pub(crate) fn push_puts<P: ProgramText>(
    text: &mut Vec<u8>,
    rounds: &Rounds<'_, P>,
    v: u32,
) -> Result<(), AllocError>
    requires vertex { IsVertex rounds.now.net v }
    ensures { IfOk result (λ _. text.new.items ≡ text.old.items
        ++ puts_text (payload_texts P.Payload.PayloadText.own) rounds.now.net rounds.now.pulse v
        (outbox_at P.program rounds.now.net rounds.now.pulse v)) }
{
    if rounds.is_quiet(v) {
        return Ok(());
    }
    let net = rounds.network();
    for port in 0..net.degree(v) {
        if let Some(payload) = rounds.sent(v, port) {
            let put = Entry::Put(
                net.neighbour(v, port),
                Wire::Payload(rounds.pulse(), payload),
            );
            let row = Row {
                vertex: v,
                entry: put,
            };
            push_row(text, &row)?;
        }
    }
    Ok(())
}
