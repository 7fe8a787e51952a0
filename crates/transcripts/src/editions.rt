//! The reading of a transcript of any edition.

ghost use Rattle.std.specs.Prelude.{◌≡◌, ◌<◌, ◌+◌, ◌^◌, ◌∷◌, IfOk, IfErr, Ok, length};
ghost use Rattle.dimacs_col.specs.Lines.{lines_of};
ghost use Rattle.transcripts.specs.Editions.{any_from, any_named_from, any_reading_behind, any_reading_of};
ghost use Rattle.transcripts.specs.Editions.{begins_edition, is_edition, said_by};
ghost use Rattle.transcripts.specs.Reading.{IsFaultOf};

use crate::fault::TextFault;
use crate::reading::read_lines;
use dimacs_col::{Fields, Lines, text_start};
use entries::{Row, StampedRow};
use node_api::PayloadText;
use std::alloc::Global;

/// A transcript: how many nodes there are, and the entries.
#[derive(Drop)]
pub enum Transcript<T> {
    /// Each entry with the vertex of its node: of edition 1.
    One(u32, Vec<Row<T>>),
    /// Each entry with its stamp too: of edition 2, or of edition 3, which names its program.
    Two(u32, Vec<StampedRow<T>>),
}

// Whether a line begins with `transcript` and this edition. Its first field was taken.
fn begins_edition(edition: &[u8], first: &[u8], mut others: Fields) -> bool
    ensures { result ≡ begins_edition edition.now (first.now ∷ others.entry) }
{
    match others.next() {
        Some(second) => first == b"transcript".as_slice() && second == edition,
        None => false,
    }
}

// Whether the first line that has fields begins with `transcript` and this edition.
fn is_edition(edition: &[u8], before: usize, text: &[u8]) -> bool
    requires room { before + length text.now + 1 < 2 ^ 64 }
    ensures { result ≡ is_edition edition.now (lines_of text.now) }
{
    let mut lines = Lines::behind(before, text);
    'each: while let Some((_, mut fields)) = lines.next() {
        if let Some(first) = fields.next() {
            return begins_edition(edition, first, fields);
        }
    }
    false
}

// Parses a transcript of edition 1 or 2. `before` lines of the input precede it, and line numbers count from the first
// of them.
fn read_any_lines<T: PayloadText>(
    alloc: Global,
    before: usize,
    text: &[u8],
) -> Result<Transcript<T>, TextFault>
    requires room { before + length text.now + 1 < 2 ^ 64 }
    ensures ok { IfOk result (λ read. any_from T.payload_of (before + 1) (lines_of text.now) ≡ Ok (said_by read)) }
    ensures fault { IfErr result (IsFaultOf (any_from T.payload_of (before + 1) (lines_of text.now))) }
{
    if is_edition(b"2", before, text) {
        let (nodes, rows) = read_lines::<T, StampedRow<T>>(alloc, b"2", before, text)?;
        Ok(Transcript::Two(nodes, rows))
    } else {
        let (nodes, rows) = read_lines::<T, Row<T>>(alloc, b"1", before, text)?;
        Ok(Transcript::One(nodes, rows))
    }
}

// The same, or a transcript of edition 3.
fn read_any_named_lines<T: PayloadText>(
    alloc: Global,
    before: usize,
    text: &[u8],
) -> Result<Transcript<T>, TextFault>
    requires room { before + length text.now + 1 < 2 ^ 64 }
    ensures ok { IfOk result
        (λ read. any_named_from T.payload_of (before + 1) (lines_of text.now) ≡ Ok (said_by read)) }
    ensures fault { IfErr result (IsFaultOf (any_named_from T.payload_of (before + 1) (lines_of text.now))) }
{
    if is_edition(b"3", before, text) {
        let (nodes, rows) = read_lines::<T, StampedRow<T>>(alloc, b"3", before, text)?;
        Ok(Transcript::Two(nodes, rows))
    } else {
        read_any_lines(alloc, before, text)
    }
}

/// The transcript of either edition that a text is: the first line that has a field is `transcript 1 NODES` or
/// `transcript 2 NODES`. Of edition 1 each later line is as for `read_transcript`; of edition 2 it has a stamp before.
///
/// # Errors
///
/// `Syntax` with the first line that is neither, or with line 1 if no line has a field. `Memory` if memory is
/// refused.
pub fn read_any<T: PayloadText>(alloc: Global, text: &[u8]) -> Result<Transcript<T>, TextFault>
    ensures ok { IfOk result (λ read. any_reading_of T.payload_of (lines_of text.now) ≡ Ok (said_by read)) }
    ensures fault { IfErr result (IsFaultOf (any_reading_of T.payload_of (lines_of text.now))) }
{
    read_any_lines(alloc, 0, text)
}

/// The transcript that follows a network text, as `read_any` reads it, or one of edition 3: its first line is
/// `transcript 3 NAME NODES`, whatever the name is, and each later one is as in edition 2. It begins at the first line
/// whose first field is `transcript`.
///
/// # Errors
///
/// As of `read_any`, but lines count from the first one of the whole input. `Syntax` with line 1 if there is no
/// transcript.
pub fn read_any_behind_network<T: PayloadText>(
    alloc: Global,
    input: &[u8],
) -> Result<Transcript<T>, TextFault>
    ensures ok { IfOk result (λ read. any_reading_behind T.payload_of (lines_of input.now) ≡ Ok (said_by read)) }
    ensures fault { IfErr result (IsFaultOf (any_reading_behind T.payload_of (lines_of input.now))) }
{
    match text_start(input, &[b"transcript"]) {
        Some(start) => read_any_named_lines(alloc, start.lines, &input[start.bytes..]),
        None => Err(TextFault::Syntax(1)),
    }
}
