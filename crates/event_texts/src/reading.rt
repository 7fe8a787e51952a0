//! The reading of the events of a text.

ghost use Rattle.std.specs.Prelude.{◌≡◌, [], IfOk, IfErr, None, Ok, Some};
ghost use Rattle.dimacs_col.specs.Lines.{lines_of};
ghost use Rattle.event_texts.specs.Reader.{IsFaultOfReading, IsLineFault};
ghost use Rattle.event_texts.specs.Reading.{is_passed_word, known_after, script_of};

use crate::event_line::{event_with, is_event_word};
use crate::fault::EventFault;
use dimacs_col::{Fields, Lines};
use event_rule::Event;
use std::alloc::Global;

#[derive(Drop)]
struct Reader {
    // The events so far, each behind the number of its line.
    script: Vec<(usize, Event)>,
}

impl Reader {
    fn new(alloc: Global) -> Reader
        ensures { result.script.items ≡ [] }
    {
        Reader {
            script: Vec::new(alloc),
        }
    }

    // Whether a line that begins with a word is passed over.
    fn passes(&self, word: &[u8]) -> bool
        ensures { result ≡ is_passed_word self.now.script.items word.now }
    {
        if self.script.is_empty() {
            !is_event_word(word)
        } else {
            word.first() == Some(&b'c')
        }
    }

    /// Takes the fields of the next line, whose number this is.
    fn step(&mut self, number: usize, mut fields: Fields) -> Result<(), EventFault>
        ensures ok { IfOk result (λ _.
            known_after number self.old.script.items fields.entry ≡ Some self.new.script.items) }
        ensures fault { IfErr result (IsLineFault
            (known_after number self.old.script.items fields.entry ≡ None) number) }
    {
        let Some(word) = fields.next() else {
            return Ok(());
        };
        if self.passes(word) {
            return Ok(());
        }
        let Some(event) = event_with(word, fields) else {
            return Err(EventFault::NoEvent(number));
        };
        self.script.push((number, event))?;
        Ok(())
    }
}

/// The events of a text, each behind the number of its line, which counts from 1. The first line whose first
/// field is `pulse`, `put` or `take` begins them; from there on each line is empty, a comment (its first field
/// begins with `c`), or `pulse V`, `put V PORT` or `take V PORT`.
///
/// # Errors
///
/// `NoEvent` with the first line that isn't an event; `Memory` if memory is refused.
pub fn read_events(alloc: Global, text: &[u8]) -> Result<Vec<(usize, Event)>, EventFault>
    ensures ok { IfOk result (λ script. script_of (lines_of text.now) ≡ Ok script.items) }
    ensures fault { IfErr result (IsFaultOfReading (lines_of text.now)) }
{
    let mut reader = Reader::new(alloc);
    let mut lines = Lines::behind(0, text);
    'each: while let Some((number, fields)) = lines.next() {
        reader.step(number, fields)?;
    }
    Ok(reader.script)
}
