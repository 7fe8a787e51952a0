//! Rows of a transcript: without a stamp in edition 1, with one in editions 2 and 3. What else a line has is the same.

ghost use Rattle.std.specs.Prelude.{◌≡◌, ◌∷◌, ℕ, Bool};
ghost use Rattle.entries.specs.Rows.{stamped_row, vertex_row};
ghost use Rattle.transcripts.specs.EditionRows.{row_in};

use crate::entry_line::entry_of;
use crate::numbers::stamp_number;
use dimacs_col::{Fields, small_number};
use entries::{Entry, Row, StampedRow};
use node_api::PayloadText;

/// A row of an edition.
pub(crate) trait EditionRow<T>: Copy {
    ghost use Rattle.entries.specs.declared.entry.Entry.{Entry};

    /// Whether a row has a stamp.
    ghost STAMPED: { Bool };

    /// The row of a stamp, a vertex and an entry; in edition 1, whose rows have no stamp, the stamp is left out.
    ghost made: { ℕ → ℕ → Entry T → Self };

    const STAMPED: bool;

    fn new(stamp: u64, vertex: u32, entry: Entry<T>) -> Self
        ensures { result ≡ made stamp vertex entry };
}

impl<T: Copy> EditionRow<T> for Row<T> {
    ghost use Rattle.std.specs.Prelude.{false};

    ghost STAMPED = { false };

    ghost made = { λ stamp v entry. vertex_row v entry };

    const STAMPED: bool = false;

    fn new(_stamp: u64, vertex: u32, entry: Entry<T>) -> Row<T>
        ensures { result ≡ vertex_row vertex entry }
    {
        Row { vertex, entry }
    }
}

impl<T: Copy> EditionRow<T> for StampedRow<T> {
    ghost use Rattle.std.specs.Prelude.{true};

    ghost STAMPED = { true };

    ghost made = { stamped_row };

    const STAMPED: bool = true;

    fn new(stamp: u64, vertex: u32, entry: Entry<T>) -> StampedRow<T>
        ensures { result ≡ stamped_row stamp vertex entry }
    {
        StampedRow {
            stamp,
            vertex,
            entry,
        }
    }
}

/// The row that a line is, of which the first field was taken.
pub(crate) fn row_in<T: PayloadText, R: EditionRow<T>>(
    first: &[u8],
    mut others: Fields,
) -> Option<R>
    ensures { result ≡ row_in R.STAMPED R.made T.payload_of (first.now ∷ others.entry) }
{
    let mut stamp = 0;
    let mut vertex = first;
    if R::STAMPED {
        stamp = stamp_number(first)?;
        vertex = others.next()?;
    }
    let vertex = small_number(vertex)?;
    let entry = entry_of(others)?;
    Some(R::new(stamp, vertex, entry))
}
