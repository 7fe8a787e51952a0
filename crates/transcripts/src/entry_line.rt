//! One line of a transcript.

ghost use Rattle.std.specs.Prelude.{◌≡◌, ◌∷◌};
ghost use Rattle.transcripts.specs.EntryLines.{entry_of, header_of, nodes_in, only, payload_in, payload_with};
ghost use Rattle.transcripts.specs.EntryLines.{pulsed_wire, wire_of, wire_with};

use crate::names::is_name;
use crate::numbers::wide_number;
use dimacs_col::{Fields, small_number};
use entries::Entry;
use node_api::PayloadText;
use std::str::from_utf8;
use wires::Wire;

// A value, if no field is left.
fn only<A: Drop>(mut fields: Fields, value: A) -> Option<A>
    ensures { result ≡ only fields.entry value }
{
    if fields.next().is_some() {
        return None;
    }
    Some(value)
}

// The payload of a word and a number.
fn payload_with<T: PayloadText>(word: &[u8], number: u128) -> Option<T>
    ensures { result ≡ payload_with T.payload_of word.now number }
{
    match from_utf8(word) {
        Ok(word) => T::from_words(word, number),
        Err(_) => None,
    }
}

// The payload of a word and a number, the only fields.
fn payload_in<T: PayloadText>(mut fields: Fields) -> Option<T>
    ensures { result ≡ payload_in T.payload_of fields.entry }
{
    let word = fields.next()?;
    let number = wide_number(fields.next()?)?;
    only(fields, payload_with(word, number)?)
}

// The wire of a word and a pulse, and of the fields behind them.
fn wire_with<T: PayloadText>(word: &[u8], pulse: u32, fields: Fields) -> Option<Wire<T>>
    ensures { result ≡ wire_with T.payload_of word.now pulse fields.entry }
{
    if word == b"payload".as_slice() {
        Some(Wire::Payload(pulse, payload_in(fields)?))
    } else if word == b"ack".as_slice() {
        only(fields, Wire::Ack(pulse))
    } else if word == b"safe".as_slice() {
        only(fields, Wire::Safe(pulse))
    } else {
        None
    }
}

// The wire of a word, and of a pulse and the fields behind it.
fn pulsed_wire<T: PayloadText>(word: &[u8], mut fields: Fields) -> Option<Wire<T>>
    ensures { result ≡ pulsed_wire T.payload_of word.now fields.entry }
{
    let pulse = small_number(fields.next()?)?;
    wire_with(word, pulse, fields)
}

// The wire that the fields are.
fn wire_of<T: PayloadText>(mut fields: Fields) -> Option<Wire<T>>
    ensures { result ≡ wire_of T.payload_of fields.entry }
{
    let word = fields.next()?;
    if word == b"close".as_slice() {
        return only(fields, Wire::Close);
    }
    pulsed_wire(word, fields)
}

/// The entry that the fields are.
pub(crate) fn entry_of<T: PayloadText>(mut fields: Fields) -> Option<Entry<T>>
    ensures { result ≡ entry_of T.payload_of fields.entry }
{
    let word = fields.next()?;
    let number = small_number(fields.next()?)?;
    if word == b"pulse".as_slice() {
        only(fields, Entry::Pulse(number))
    } else if word == b"put".as_slice() {
        Some(Entry::Put(number, wire_of(fields)?))
    } else if word == b"take".as_slice() {
        Some(Entry::Take(number, wire_of(fields)?))
    } else {
        None
    }
}

// How many nodes the fields behind those of an edition say that there are; in edition 3 they begin with a name.
fn nodes_in(edition: &[u8], mut fields: Fields) -> Option<u32>
    ensures { result ≡ nodes_in edition.now fields.entry }
{
    if edition == b"3".as_slice() {
        let name = fields.next()?;
        if !is_name(name) {
            return None;
        }
    }
    let nodes = small_number(fields.next()?)?;
    only(fields, nodes)
}

/// How many nodes a first line of an edition says that there are. Its first field was taken.
pub(crate) fn header_of(edition: &[u8], first: &[u8], mut others: Fields) -> Option<u32>
    ensures { result ≡ header_of edition.now (first.now ∷ others.entry) }
{
    if first != b"transcript".as_slice() || others.next()? != edition {
        return None;
    }
    nodes_in(edition, others)
}
