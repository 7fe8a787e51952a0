//! The line of an entry.

ghost use Rattle.std.specs.Prelude.{◌≡◌, ◌≤◌, ◌+◌, ◌++◌, ◌∷◌, [], IfOk, IsTrue, length};
ghost use Rattle.entries.specs.Rows.{vertex_row};
ghost use Rattle.transcripts.specs.TranscriptText.{IsReadable, IsReadableStamped, row_text, stamped_row_text};
ghost use Rattle.transcripts.specs.declared.line_end.TheConstants.{ROOM};
ghost use Rattle.program_texts.specs.PayloadTexts.{payload_texts};
ghost use Rattle.program_texts.specs.WireText.{wire_text};
ghost use Rattle.program_texts.specs.WireText;

use crate::line_end::LineEnd;
use entries::{Entry, Row, StampedRow};
use node_api::PayloadText;
use number_rows::push_numbered;
use program_texts::push_wire;
use std::alloc::AllocError;
use wires::Wire;

/// Appends the line of an entry, which begins with the vertex of its node.
///
/// # Errors
///
/// If a growth is refused; `text` may then end in a beginning of the line.
pub fn push_row<T: PayloadText>(text: &mut Vec<u8>, row: &Row<T>) -> Result<(), AllocError>
    ensures text { IfOk result (λ _.
        text.new.items ≡ text.old.items ++ row_text (payload_texts T.PayloadText.own) row.now) }
    ensures readable { IfOk result (λ _. IsReadable (payload_texts T.PayloadText.own) row.now) }
{
    let Row { vertex, entry } = *row;
    push_numbered(text, b"", u128::from(vertex))?;
    match entry {
        Entry::Pulse(pulse) => push_numbered(text, b" pulse ", u128::from(pulse))?,
        Entry::Put(w, wire) => {
            push_numbered(text, b" put ", u128::from(w))?;
            push_wire(text, wire)?;
        }
        Entry::Take(w, wire) => {
            push_numbered(text, b" take ", u128::from(w))?;
            push_wire(text, wire)?;
        }
    }
    text.push(b'\n')?;
    Ok(())
}

// Puts a wire before the end of a line, and returns whether it could: it can't if there is a payload.
fn put_wire<T: PayloadText>(line: &mut LineEnd, wire: Wire<T>) -> bool
    requires room { 16 + length line.old ≤ ROOM }
    ensures put { IsTrue result → line.new ≡ wire_text (payload_texts T.PayloadText.own) wire ++ line.old }
    ensures readable { IsTrue result → WireText.IsReadable (payload_texts T.PayloadText.own) wire }
    ensures length { length line.new ≤ 16 + length line.old }
{
    match wire {
        Wire::Payload(_, _) => return false,
        Wire::Ack(pulse) => {
            line.put_number(pulse);
            line.put_bytes(b" ack ");
        }
        Wire::Safe(pulse) => {
            line.put_number(pulse);
            line.put_bytes(b" safe ");
        }
        Wire::Close => line.put_bytes(b" close"),
    }
    true
}

// Writes the line of an entry, and returns whether it could: it can't if there is a payload.
fn put_row<T: PayloadText>(line: &mut LineEnd, vertex: u32, entry: Entry<T>) -> bool
    ensures text { IsTrue result → line.new ≡ row_text (payload_texts T.PayloadText.own) (vertex_row vertex entry) }
    ensures readable { IsTrue result → IsReadable (payload_texts T.PayloadText.own) (vertex_row vertex entry) }
    ensures room { length line.new ≤ 43 }
{
    line.clear();
    line.put_bytes(b"\n");
    match entry {
        Entry::Pulse(pulse) => {
            line.put_number(pulse);
            line.put_bytes(b" pulse ");
        }
        Entry::Put(w, wire) => {
            if !put_wire(line, wire) {
                return false;
            }
            line.put_number(w);
            line.put_bytes(b" put ");
        }
        Entry::Take(w, wire) => {
            if !put_wire(line, wire) {
                return false;
            }
            line.put_number(w);
            line.put_bytes(b" take ");
        }
    }
    line.put_number(vertex);
    true
}

/// Appends the line of an entry; `line` is room to write it in.
#[inline(always)]
pub(crate) fn push_line<T: PayloadText>(
    text: &mut Vec<u8>,
    line: &mut LineEnd,
    vertex: u32,
    entry: Entry<T>,
) -> Result<(), AllocError>
    ensures { IfOk result (λ _. text.new.items
        ≡ text.old.items ++ row_text (payload_texts T.PayloadText.own) (vertex_row vertex entry)) }
{
    if put_row(line, vertex, entry) {
        text.extend_from_slice(line.as_slice())
    } else {
        push_row(text, &Row { vertex, entry })
    }
}

/// Appends the line of an entry, which begins with its stamp and the vertex of its node.
///
/// # Errors
///
/// If a growth is refused; `text` may then end in a beginning of the line.
pub fn push_stamped_row<T: PayloadText>(
    text: &mut Vec<u8>,
    row: &StampedRow<T>,
) -> Result<(), AllocError>
    ensures text { IfOk result (λ _.
        text.new.items ≡ text.old.items ++ stamped_row_text (payload_texts T.PayloadText.own) row.now) }
    ensures readable { IfOk result (λ _. IsReadableStamped (payload_texts T.PayloadText.own) row.now) }
{
    let StampedRow {
        stamp,
        vertex,
        entry,
    } = *row;
    let mut line = LineEnd::new();
    if put_row(&mut line, vertex, entry) {
        line.put_bytes(b" ");
        line.put_stamp(stamp);
        text.extend_from_slice(line.as_slice())
    } else {
        push_numbered(text, b"", u128::from(stamp))?;
        text.push(b' ')?;
        let row = Row { vertex, entry };
        push_row(text, &row)
    }
}
