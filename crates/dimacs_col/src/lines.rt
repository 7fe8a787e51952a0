//! A walk over the lines of a text, each with its number, so that no list of them is kept.

ghost use Rattle.std.specs.Prelude.{◌≡◌, ◌<◌, ◌+◌, ◌^◌, ◌∷◌, ◌==◌, [], IfNone, IfSome, drop, length, take};
ghost use Rattle.std.specs.List.{slice_split};
ghost use Rattle.dimacs_col.specs.Lines.{line_of, lines_of};
ghost use Rattle.dimacs_col.specs.LinesLeft.{lines_in};

use crate::fields::Fields;
use crate::reader::without_carriage_return;
use std::marker::Model;

/// The lines of a text that haven't been taken yet. A contract sees how many lines came before them, and the lines as
/// the lists of their fields.
#[derive(Drop)]
pub struct Lines<'a> {
    // How many lines came before those that are left.
    before: usize,
    // The text from the next line on; `None` behind the last line.
    rest: Option<&'a [u8]>,
    ghost room: { before + length (lines_in rest) < 2 ^ 64 },
}

impl<'a> Model for Lines<'a> {
    ghost use Rattle.std.specs.Prelude.{List, ℕ};
    ghost use Rattle.dimacs_col.specs.Lines.{Line};
    ghost use Rattle.dimacs_col.specs.LinesLeft.{lines_in};

    ghost Value = { ℕ × List Line };

    ghost view = { λ lines. (lines.before, lines_in lines.rest) };
}

// Where the first line feed is.
fn line_end(text: &[u8]) -> Option<usize>
    ensures within { IfSome result (λ end. end < length text.now) }
    ensures found { IfSome result (λ end. slice_split (λ byte. byte == 10) text.now
        ≡ take end text.now ∷ slice_split (λ byte. byte == 10) (drop (end + 1) text.now)) }
    ensures none { IfNone result (slice_split (λ byte. byte == 10) text.now ≡ text.now ∷ []) }
{
    for (index, byte) in text.iter().enumerate() {
        if *byte == b'\n' {
            return Some(index);
        }
    }
    None
}

// The first line of a text, and the text behind its line feed; `None` if it has none, and so is the last one.
fn first_line(text: &[u8]) -> (&[u8], Option<&[u8]>)
    ensures { lines_of text.now ≡ line_of result.0.now ∷ lines_in result.1 }
{
    match line_end(text) {
        Some(end) => (&text[..end], Some(&text[end + 1..])),
        None => (text, None),
    }
}

impl<'a> Lines<'a> {
    /// All lines of a text that so many other lines come before.
    pub fn behind(before: usize, text: &'a [u8]) -> Lines<'a>
        requires room { before + length text.now + 1 < 2 ^ 64 }
        ensures { result ≡ (before, lines_of text.now) }
    {
        Lines {
            before,
            rest: Some(text),
        }
    }

    /// Takes the next line: its number, from 1, and its fields, of which none has been taken. `None` behind the last
    /// line.
    pub fn next(&mut self) -> Option<(usize, Fields<'a>)>
        ensures line { IfSome result (λ next. self.old.1 ≡ next.1 ∷ self.new.1) }
        ensures number { IfSome result (λ next. next.0 ≡ self.old.0 + 1) }
        ensures before { IfSome result (λ next. self.new.0 ≡ next.0) }
        ensures none { IfNone result (self.old.1 ≡ []) }
        ensures unchanged { IfNone result (self.new ≡ self.old) }
    {
        let (line, rest) = first_line(self.rest?);
        self.rest = rest;
        self.before += 1;
        Some((self.before, Fields::of(without_carriage_return(line))))
    }
}
