//! The reading of a plan text.

ghost use Rattle.std.specs.Prelude.{◌≡◌, IfOk, IfErr, None, Ok, Err, Some};
ghost use Rattle.dimacs_col.specs.Lines.{lines_of};
ghost use Rattle.channel_plan.specs.Reading.{IsFaultOfReading, known_after, read_at_end, reading_of};
ghost use Rattle.channel_plan.specs.Reader.{IsSyntaxFault, known};

use crate::fields::{is_header, row};
use crate::plan::{CheckFault, Plan};
use dimacs_col::{Fields, Lines};
use std::alloc::Global;

#[derive(Drop)]
struct Reader {
    // The rows so far, once the line `plan` came.
    rows: Option<Vec<(u32, u32)>>,
}

impl Reader {
    fn new() -> Reader
        ensures { known result ≡ None }
    {
        Reader { rows: None }
    }

    /// Takes the fields of the next line, whose number this is.
    fn step(&mut self, alloc: Global, number: usize, mut fields: Fields) -> Result<(), CheckFault>
        ensures ok { IfOk result (λ _. known_after (known self.old) fields.entry ≡ Some (known self.new)) }
        ensures fault { IfErr result (IsSyntaxFault (known_after (known self.old) fields.entry ≡ None)
            number) }
    {
        let Some(first) = fields.next() else {
            return Ok(());
        };
        match &mut self.rows {
            Some(rows) => {
                let Some(row) = row(first, fields) else {
                    return Err(CheckFault::Syntax(number));
                };
                rows.push(row)?;
            }
            None => {
                if !is_header(first, fields) {
                    return Err(CheckFault::Syntax(number));
                }
                self.rows = Some(Vec::new(alloc));
            }
        }
        Ok(())
    }

    fn finish(self) -> Result<Plan, CheckFault>
        ensures ok { IfOk result (λ plan. read_at_end (known self) ≡ Ok plan.rows.items) }
        ensures fault { IfErr result (IsSyntaxFault (read_at_end (known self) ≡ Err 1) 1) }
    {
        match self.rows {
            Some(rows) => Ok(Plan { rows }),
            None => Err(CheckFault::Syntax(1)),
        }
    }
}

/// The rows of a plan text: the first line that has a field is `plan` alone, and each later one is two
/// numbers, a vertex below 2^32 and its channel from 1 to below 2^32.
///
/// # Errors
///
/// `Syntax` with the first line that is neither, or with line 1 where no line has a field. `Memory`
/// where memory is refused.
pub fn read_plan(alloc: Global, text: &[u8]) -> Result<Plan, CheckFault>
    ensures ok { IfOk result (λ plan. reading_of (lines_of text.now) ≡ Ok plan.rows.items) }
    ensures fault { IfErr result (IsFaultOfReading (lines_of text.now)) }
{
    let mut reader = Reader::new();
    let mut lines = Lines::behind(0, text);
    'each: while let Some((number, fields)) = lines.next() {
        reader.step(alloc, number, fields)?;
    }
    reader.finish()
}
