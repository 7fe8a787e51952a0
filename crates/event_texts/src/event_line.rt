//! One line of events.

ghost use Rattle.std.specs.Prelude.{◌≡◌};
ghost use Rattle.event_texts.specs.EventLines.{event_with, is_event_word, one_number, two_numbers};

use dimacs_col::Fields;
use event_rule::Event;

/// Whether a word begins an event.
pub(crate) fn is_event_word(word: &[u8]) -> bool
    ensures { result ≡ is_event_word word.now }
{
    word == b"pulse".as_slice() || word == b"put".as_slice() || word == b"take".as_slice()
}

// The number of the only field.
fn one_number(mut fields: Fields) -> Option<u32>
    ensures { result ≡ one_number fields.entry }
{
    let number = fields.next_number()?;
    if fields.next().is_some() {
        return None;
    }
    Some(number)
}

// The numbers of the only two fields.
fn two_numbers(mut fields: Fields) -> Option<(u32, u32)>
    ensures { result ≡ two_numbers fields.entry }
{
    let first = fields.next_number()?;
    let second = fields.next_number()?;
    if fields.next().is_some() {
        return None;
    }
    Some((first, second))
}

/// The event of a word and the fields behind it.
pub(crate) fn event_with(word: &[u8], fields: Fields) -> Option<Event>
    ensures { result ≡ event_with word.now fields.entry }
{
    if word == b"pulse".as_slice() {
        Some(Event::Pulse(one_number(fields)?))
    } else if word == b"put".as_slice() {
        let (v, port) = two_numbers(fields)?;
        Some(Event::Put(v, port))
    } else if word == b"take".as_slice() {
        let (v, port) = two_numbers(fields)?;
        Some(Event::Take(v, port))
    } else {
        None
    }
}
