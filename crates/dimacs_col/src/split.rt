//! Where the text begins that follows a network text.

ghost use Rattle.std.specs.Prelude.{◌≡◌, ◌≤◌, ◌++◌, ◌∷◌, [], IfNone, IfSome, drop, length, take};
ghost use Rattle.dimacs_col.specs.Lines.{line_of, lines_of};
ghost use Rattle.dimacs_col.specs.Split.{AreLinesBefore, IsSplit, begins, is_one_of, lines_before};
ghost use Rattle.dimacs_col.specs.Split.{lines_from, words_in};

use crate::fields::Fields;
use crate::reader::without_carriage_return;

/// Where a text begins behind another one.
#[derive(Clone, Copy, Debug, PartialEq, Eq)]
pub struct TextStart {
    /// How many bytes stand before it.
    pub bytes: usize,
    /// How many lines stand before it.
    pub lines: usize,
}

// Whether a field is one of some words.
fn is_one_of(field: &[u8], words: &[&[u8]]) -> bool
    ensures { result ≡ is_one_of field.now (words_in words.now) }
{
    for word in words {
        if field == *word {
            return true;
        }
    }
    false
}

// Whether the first field of a line is one of some words.
fn begins(line: &[u8], words: &[&[u8]]) -> bool
    ensures { result ≡ begins (words_in words.now) (line_of line.now) }
{
    match Fields::of(without_carriage_return(line)).next() {
        Some(first) => is_one_of(first, words),
        None => false,
    }
}

/// Where the first line of an input is whose first field is one of some words; `None` if there is no such line.
pub fn text_start(input: &[u8], words: &[&[u8]]) -> Option<TextStart>
    ensures within { IfSome result (λ start. start.bytes ≤ length input.now) }
    ensures short { IfSome result (λ start. start.lines ≤ start.bytes) }
    ensures lines { IfSome result
        (λ start. start.lines ≡ length (lines_before (words_in words.now) (lines_of input.now))) }
    ensures none { IfNone result (lines_before (words_in words.now) (lines_of input.now) ≡ lines_of input.now) }
    ensures no_text { IfNone result (lines_from (words_in words.now) (lines_of input.now) ≡ []) }
    ensures before { IfSome result (λ start. lines_of (take start.bytes input.now)
        ≡ lines_before (words_in words.now) (lines_of input.now) ++ [] ∷ []) }
    ensures from { IfSome result (λ start. lines_of (drop start.bytes input.now)
        ≡ lines_from (words_in words.now) (lines_of input.now)) }
    ensures cut { IfSome result (λ start.
        IsSplit (words_in words.now) input.now (take start.bytes input.now) (drop start.bytes input.now)) }
{
    let mut start = TextStart { bytes: 0, lines: 0 };
    for line in input.split(|byte| *byte == b'\n') {
        if begins(line, words) {
            return Some(start);
        }
        start.bytes += line.len() + 1;
        start.lines += 1;
    }
    None
}

/// All of an input before the first line whose first field is one of some words; the whole input if there is no such
/// line.
pub fn text_before<'a>(input: &'a [u8], words: &[&[u8]]) -> &'a [u8]
    ensures { AreLinesBefore (words_in words.now) (lines_of input.now) (lines_of result.now) }
{
    match text_start(input, words) {
        Some(start) => &input[..start.bytes],
        None => input,
    }
}
