//! The reading of a transcript of one edition.

ghost use Rattle.std.specs.Prelude.{◌≡◌, ◌+◌, ◌<◌, ◌^◌, IfOk, IfErr, None, Ok, Err, Some, length};
ghost use Rattle.dimacs_col.specs.Lines.{lines_of};
ghost use Rattle.transcripts.specs.EditionRows.{edition_after, edition_from};
ghost use Rattle.transcripts.specs.Reading.{IsFaultOf, read_at_end, reading_of};
ghost use Rattle.transcripts.specs.Reader.{IsSyntaxFault};

use crate::edition_row::{EditionRow, row_in};
use crate::entry_line::header_of;
use crate::fault::TextFault;
use dimacs_col::{Fields, Lines};
use entries::Row;
use node_api::PayloadText;
use std::alloc::Global;
use std::marker::Model;

// What the lines so far say: how many nodes there are, and the rows.
#[derive(Drop)]
struct Beginning<R> {
    nodes: u32,
    rows: Vec<R>,
}

impl<R> Model for Beginning<R> {
    ghost use Rattle.transcripts.specs.Reading.{Contents};

    ghost Value = { Contents R };

    ghost view = { λ a. (a.nodes, a.rows.items) };
}

#[derive(Drop)]
struct Reader<R> {
    // What the lines so far say, once the first one came.
    known: Option<Beginning<R>>,
}

impl<R: Drop> Reader<R> {
    fn finish(self) -> Result<(u32, Vec<R>), TextFault>
        ensures ok { IfOk result (λ read. read_at_end self.known ≡ Ok (read.0, read.1.items)) }
        ensures fault { IfErr result (IsSyntaxFault (read_at_end self.known ≡ Err 1) 1) }
    {
        match self.known {
            Some(known) => Ok((known.nodes, known.rows)),
            None => Err(TextFault::Syntax(1)),
        }
    }
}

// Takes the fields of the next line, whose number this is.
fn step<T: PayloadText, R: EditionRow<T>>(
    reader: &mut Reader<R>,
    alloc: Global,
    edition: &[u8],
    number: usize,
    mut fields: Fields,
) -> Result<(), TextFault>
    ensures ok { IfOk result (λ _. edition_after R.STAMPED R.made T.payload_of edition.now reader.old.known
        fields.entry ≡ Some reader.new.known) }
    ensures fault { IfErr result (IsSyntaxFault
        (edition_after R.STAMPED R.made T.payload_of edition.now reader.old.known fields.entry ≡ None) number) }
{
    let Some(first) = fields.next() else {
        return Ok(());
    };
    match &mut reader.known {
        Some(known) => {
            let Some(row) = row_in(first, fields) else {
                return Err(TextFault::Syntax(number));
            };
            known.rows.push(row)?;
        }
        None => {
            let Some(nodes) = header_of(edition, first, fields) else {
                return Err(TextFault::Syntax(number));
            };
            reader.known = Some(Beginning {
                nodes,
                rows: Vec::new(alloc),
            });
        }
    }
    Ok(())
}

/// Parses a transcript of an edition with such rows. `before` lines of the input precede it, and line numbers count
/// from the first of them.
pub(crate) fn read_lines<T: PayloadText, R: EditionRow<T>>(
    alloc: Global,
    edition: &[u8],
    before: usize,
    text: &[u8],
) -> Result<(u32, Vec<R>), TextFault>
    requires room { before + length text.now + 1 < 2 ^ 64 }
    ensures ok { IfOk result (λ read. edition_from R.STAMPED R.made T.payload_of edition.now (before + 1)
        (lines_of text.now) ≡ Ok (read.0, read.1.items)) }
    ensures fault { IfErr result (IsFaultOf
        (edition_from R.STAMPED R.made T.payload_of edition.now (before + 1) (lines_of text.now))) }
{
    let mut reader = Reader { known: None };
    let mut lines = Lines::behind(before, text);
    'each: while let Some((number, fields)) = lines.next() {
        step::<T, R>(&mut reader, alloc, edition, number, fields)?;
    }
    reader.finish()
}

/// How many nodes there are, and the entries of a transcript, each with the vertex of its node: the first line that
/// has a field is `transcript 1 NODES`, and each later one `V pulse P`, `V put W WIRE` or `V take W WIRE`.
///
/// # Errors
///
/// `Syntax` with the first line that is neither, or with line 1 if no line has a field. `Memory` if memory is
/// refused.
pub fn read_transcript<T: PayloadText>(
    alloc: Global,
    text: &[u8],
) -> Result<(u32, Vec<Row<T>>), TextFault>
    ensures ok { IfOk result (λ read. reading_of T.payload_of (lines_of text.now) ≡ Ok (read.0, read.1.items)) }
    ensures fault { IfErr result (IsFaultOf (reading_of T.payload_of (lines_of text.now))) }
{
    read_lines::<T, Row<T>>(alloc, b"1", 0, text)
}
