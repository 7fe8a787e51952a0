//! The name of a program in the first line of a transcript.

ghost use Rattle.std.specs.Prelude.{◌≡◌, option_map};
ghost use Rattle.number_rows.specs.Names.{are_joined, is_name, is_small};
ghost use Rattle.transcripts.specs.EntryLines.{name_in};

use dimacs_col::Fields;

fn is_small(letter: u8) -> bool
    ensures { result ≡ is_small letter }
{
    b'a' <= letter && letter <= b'z'
}

// Whether there are small ASCII letters and hyphens alone.
fn are_joined(letters: &[u8]) -> bool
    ensures { result ≡ are_joined letters.now }
{
    for letter in letters {
        if !is_small(*letter) && *letter != b'-' {
            return false;
        }
    }
    true
}

/// Whether a field is the name of a program: small ASCII letters and hyphens, with a letter first and last.
pub(crate) fn is_name(field: &[u8]) -> bool
    ensures { result ≡ is_name field.now }
{
    if field.is_empty() || !are_joined(field) {
        return false;
    }
    is_small(field[0]) && is_small(field[field.len() - 1])
}

/// The name in a first line of edition 3.
pub(crate) fn name_in<'a>(mut fields: Fields<'a>) -> Option<&'a [u8]>
    ensures { option_map (λ name. name.now) result ≡ name_in fields.entry }
{
    if fields.next()? != b"transcript".as_slice() || fields.next()? != b"3".as_slice() {
        return None;
    }
    let name = fields.next()?;
    if is_name(name) { Some(name) } else { None }
}
