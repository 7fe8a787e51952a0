//! What the event of an entry comes to.

ghost use Rattle.std.specs.Prelude.{◌≡◌, ◌++◌, IfOk};
ghost use Rattle.event_texts.specs.Missing.{expected_text, expected_wire};
ghost use Rattle.program_texts.specs.PayloadTexts.{payload_texts};

use crate::missing::{has_port, is_vertex};
use event_machine::NetState;
use event_rule::Event;
use node_api::{NodeProgram, PayloadText};
use number_rows::push_numbered;
use program_texts::push_wire;
use std::alloc::{AllocError, Global};
use wires::Wire;

// A wire, if there is one, as the one that was expected.
fn wire_words<T: PayloadText>(alloc: Global, wire: Option<Wire<T>>) -> Result<Vec<u8>, AllocError>
    ensures { IfOk result (λ text. text.items ≡ expected_wire (payload_texts T.PayloadText.own) wire) }
{
    let mut text = Vec::new(alloc);
    if let Some(wire) = wire {
        text.extend_from_slice(b": expected")?;
        push_wire(&mut text, wire)?;
    }
    Ok(text)
}

/// The pulse or wire to which an event comes in a state, as the words behind the line of an entry that has another. No
/// words if there is no such vertex or port.
///
/// # Errors
///
/// If memory is refused.
pub fn expected_words<P: NodeProgram>(
    alloc: Global,
    state: &NetState<P>,
    event: Event,
) -> Result<Vec<u8>, AllocError>
    ensures { IfOk result (λ text. text.items ≡ expected_text P.program (payload_texts P.Payload.PayloadText.own)
        state.now.net state.now.state event) }
{
    state.is_simulation();
    let net = state.network();
    match event {
        Event::Pulse(v) if is_vertex(net, v) => {
            let mut text = Vec::new(alloc);
            let pulse = u128::from(state.pulse_of(v)) + 1;
            push_numbered(&mut text, b": expected pulse ", pulse)?;
            Ok(text)
        }
        Event::Put(v, port) if has_port(net, v, port) => {
            wire_words(alloc, state.node(v).front(port))
        }
        Event::Take(v, port) if has_port(net, v, port) => {
            let (_, held) = state.link(net.neighbour(v, port), net.back_port(v, port));
            wire_words(alloc, held.first().copied())
        }
        _ => Ok(Vec::new(alloc)),
    }
}
