//! One wire.

ghost use Rattle.std.specs.Prelude.{◌≡◌, ◌++◌, IfOk};
ghost use Rattle.program_texts.specs.PayloadTexts.{payload_texts};
ghost use Rattle.program_texts.specs.WireText.{IsReadable, wire_text};

use node_api::PayloadText;
use number_rows::push_numbered;
use std::alloc::AllocError;
use wires::Wire;

/// Appends a wire, with a space before each of its words.
///
/// # Errors
///
/// If a growth is refused; `text` may then end in a beginning of the wire.
pub fn push_wire<T: PayloadText>(text: &mut Vec<u8>, wire: Wire<T>) -> Result<(), AllocError>
    ensures text { IfOk result (λ _.
        text.new.items ≡ text.old.items ++ wire_text (payload_texts T.PayloadText.own) wire) }
    ensures readable { IfOk result (λ _. IsReadable (payload_texts T.PayloadText.own) wire) }
{
    match wire {
        Wire::Payload(pulse, payload) => {
            let (word, number) = payload.words();
            push_numbered(text, b" payload ", u128::from(pulse))?;
            text.push(b' ')?;
            text.extend_from_slice(word.as_bytes())?;
            push_numbered(text, b" ", number)
        }
        Wire::Ack(pulse) => push_numbered(text, b" ack ", u128::from(pulse)),
        Wire::Safe(pulse) => push_numbered(text, b" safe ", u128::from(pulse)),
        Wire::Close => text.extend_from_slice(b" close"),
    }
}
