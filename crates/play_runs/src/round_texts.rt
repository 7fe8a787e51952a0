//! The text of the rounds, pulse by pulse.
//!
//! What nodes send is written in the entries of a transcript, so that these lines are those that a whole transcript has
//! of payloads put, in another order. The first line, the words of a pulse and the lines of a node are the program's
//! own, by its `ProgramText`.
//!
//! ```text
//! let text = rounds_text::<Colouring>(alloc, &net)?;
//! // "rounds 1 2 1 1 18", "pulse 0 greet", "1 put 2 payload 0 hello 1", ..
//! ```

ghost use Rattle.std.specs.Prelude.{◌≡◌, ◌≤◌, ◌++◌, IfOk};
ghost use Rattle.interference.specs.Net.{IsVertex};
ghost use Rattle.node_api.specs.Program.{last_pulse_on};
ghost use Rattle.program_texts.specs.PayloadTexts.{payload_texts};
ghost use Rattle.play_runs.specs.RoundsText.{pulse_line, pulse_text, rounds_text, vertex_text};

use crate::puts::push_puts;
use interference::{Memory, Network};
use number_rows::push_numbered;
use program_texts::ProgramText;
use std::alloc::{AllocError, Global};
use sync_rounds::Rounds;

// Appends the line of a pulse.
fn push_pulse_line<P: ProgramText>(
    text: &mut Vec<u8>,
    net: &Network,
    pulse: u32,
) -> Result<(), AllocError>
    ensures { IfOk result (λ _. text.new.items ≡ text.old.items ++ pulse_line P.texts net.now pulse) }
{
    push_numbered(text, b"pulse ", u128::from(pulse))?;
    P::push_phase(text, net, pulse)?;
    text.push(b'\n')?;
    Ok(())
}

// Appends the lines of a vertex.
fn push_vertex<P: ProgramText>(
    text: &mut Vec<u8>,
    rounds: &Rounds<'_, P>,
    v: u32,
) -> Result<(), AllocError>
    requires vertex { IsVertex rounds.now.net v }
    ensures { IfOk result (λ _. text.new.items ≡ text.old.items
        ++ vertex_text P.program P.texts (payload_texts P.Payload.PayloadText.own) rounds.now.net rounds.now.pulse v) }
{
    rounds
        .node(v)
        .push_lines(text, rounds.network(), rounds.pulse(), v)?;
    push_puts(text, rounds, v)
}

// Appends the lines of a pulse.
fn push_pulse<P: ProgramText>(text: &mut Vec<u8>, rounds: &Rounds<'_, P>) -> Result<(), AllocError>
    ensures { IfOk result (λ _. text.new.items ≡ text.old.items
        ++ pulse_text P.program P.texts (payload_texts P.Payload.PayloadText.own) rounds.now.net rounds.now.pulse) }
{
    push_pulse_line::<P>(text, rounds.network(), rounds.pulse())?;
    for i in 0..rounds.network().nodes() {
        push_vertex(text, rounds, i + 1)?;
    }
    Ok(())
}

/// The synchronous run of a program on a network: the program's first line, and then for each pulse 0 to the last a
/// line `pulse P` with the program's words for it, and behind it for each vertex what the program says of its node, and
/// what the node sends.
///
/// # Errors
///
/// If memory is refused.
pub(crate) fn rounds_text<P: ProgramText>(alloc: Global, net: &Network) -> Result<Vec<u8>, Memory>
    ensures text { IfOk result (λ text. text.items
        ≡ rounds_text P.program P.texts (payload_texts P.Payload.PayloadText.own) net.now) }
{
    let mut text = Vec::new(alloc);
    P::push_head(&mut text, net)?;
    let mut rounds = Rounds::<P>::start(alloc, net)?;
    push_pulse(&mut text, &rounds)?;
    for _done in 0..P::last_pulse(net) {
        rounds.step();
        push_pulse(&mut text, &rounds)?;
    }
    Ok(text)
}
