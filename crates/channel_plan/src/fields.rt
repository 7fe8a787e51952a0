//! The fields of a line of a plan text.

ghost use Rattle.std.specs.Prelude.{◌≡◌, ◌∷◌, List, ℕ};
ghost use Rattle.channel_plan.specs.Reading.{is_header, row_of};

use dimacs_col::{Fields, small_number};

/// Whether a line, whose first field was taken, is `plan` alone.
pub(crate) fn is_header(first: &[u8], mut others: Fields) -> bool
    ensures { result ≡ is_header (first.now ∷ others.entry) }
{
    first == b"plan".as_slice() && others.next().is_none()
}

/// The row that a line is, of which the first field was taken.
pub(crate) fn row(first: &[u8], mut others: Fields) -> Option<(u32, u32)>
    ensures { result ≡ row_of (first.now ∷ others.entry) }
{
    let vertex = small_number(first)?;
    let channel = small_number(others.next()?)?;
    if channel == 0 || others.next().is_some() {
        return None;
    }
    Some((vertex, channel))
}
