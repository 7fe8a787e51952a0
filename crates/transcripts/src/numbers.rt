//! The great numbers of a line.

ghost use Rattle.std.specs.Prelude.{◌≡◌, ◌≢◌, MatchOption, Option, get_or};
ghost use Rattle.dimacs_col.specs.Lines.{number_of};
ghost use Rattle.transcripts.specs.EntryLines.{stamp_number, wide_number};

use std::str::from_utf8;

// The text of a field, which has no sign before it; `None` only if the field is no number.
fn unsigned(field: &[u8]) -> Option<&str>
    ensures { MatchOption result (number_of field.now ≡ Option.None)
        (λ text. (text.now ≡ field.now) × (get_or field.now 0 0 ≢ 43)) }
{
    if field.is_empty() {
        return None;
    }
    if field[0] == b'+' {
        return None;
    }
    from_utf8(field).ok()
}

/// The number that a field spells, if it is below 2^128.
pub(crate) fn wide_number(field: &[u8]) -> Option<u128>
    ensures { result ≡ wide_number field.now }
{
    unsigned(field)?.parse().ok()
}

/// The number that a field spells, if it is below 2^64.
pub(crate) fn stamp_number(field: &[u8]) -> Option<u64>
    ensures { result ≡ stamp_number field.now }
{
    unsigned(field)?.parse().ok()
}
