//! The fields of a line, and the numbers in them.

ghost use Rattle.std.specs.Prelude.{◌≡◌, ◌≢◌, ◌≤◌, MatchOption, Option, drop, get_or, length, slice_get};
ghost use Rattle.std.specs.List.{prefix_len};
ghost use Rattle.std.specs.Option.{option_copied};
ghost use Rattle.dimacs_col.specs.Lines.{fields_of, field_at, identifier_in, is_blank, is_part, number_of};
ghost use Rattle.dimacs_col.specs.Lines.{small_number, wide_number};
ghost use Rattle.dimacs_col.specs.State.{kept_number};

use std::marker::Model;
use std::str::from_utf8;

/// The fields of a line that haven't been taken yet. A contract sees their list.
#[derive(Drop)]
pub struct Fields<'a> {
    rest: &'a [u8],
}

impl<'a> Model for Fields<'a> {
    ghost use Rattle.std.specs.Prelude.{List, ℕ};
    ghost use Rattle.dimacs_col.specs.Lines.{fields_of};

    ghost Value = { List (List ℕ) };

    ghost view = { λ fields. fields_of fields.rest.now };
}

/// What a field says of an identifier.
#[derive(Clone, Copy, Debug, PartialEq, Eq)]
pub enum IdentifierField {
    /// The field is missing or no number.
    NoNumber,
    /// The number has more than `IDENTIFIER_DIGITS` binary digits.
    TooGreat,
    /// The identifier.
    Value(u128),
}

// Whether a byte parts fields.
fn is_blank(byte: u8) -> bool
    ensures { result ≡ is_blank byte }
{
    byte == b' ' || byte == b'\t'
}

// How many blanks a text begins with.
fn blank_len(text: &[u8]) -> usize
    ensures value { result ≡ prefix_len is_blank text.now }
    ensures within { result ≤ length text.now }
{
    text.iter().take_while(|byte| is_blank(**byte)).count()
}

// How many bytes there are before the first blank.
fn field_len(text: &[u8]) -> usize
    ensures value { result ≡ prefix_len is_part text.now }
    ensures within { result ≤ length text.now }
{
    text.iter().take_while(|byte| !is_blank(**byte)).count()
}

impl<'a> Fields<'a> {
    /// All fields of a line.
    pub fn of(line: &'a [u8]) -> Fields<'a>
        ensures { result ≡ fields_of line.now }
    {
        Fields { rest: line }
    }

    /// Takes the next field; `None` if there is none.
    pub fn next(&mut self) -> Option<&'a [u8]>
        ensures first { option_copied result ≡ slice_get self.old 0 }
        ensures rest { self.new ≡ drop 1 self.old }
    {
        let (_, rest) = self.rest.split_at(blank_len(self.rest));
        let (field, rest) = rest.split_at(field_len(rest));
        self.rest = rest;
        if field.is_empty() { None } else { Some(field) }
    }

    /// Takes the next field as a number; `None` if it is missing or no number.
    pub fn next_number(&mut self) -> Option<u32>
        ensures first { result ≡ kept_number (field_at self.old 0) }
        ensures rest { self.new ≡ drop 1 self.old }
    {
        number(self.next()?)
    }

    // Takes the next field as an identifier.
    pub(crate) fn next_identifier(&mut self) -> IdentifierField
        ensures first { result ≡ identifier_in (field_at self.old 0) }
        ensures rest { self.new ≡ drop 1 self.old }
    {
        match self.next() {
            Some(field) => identifier_in(field),
            None => IdentifierField::NoNumber,
        }
    }
}

/// The number that the digits of a field spell, or the greatest `u32` if it is above that; `None` if
/// it is no number.
pub fn number(field: &[u8]) -> Option<u32>
    ensures { result ≡ kept_number field.now }
{
    if field.is_empty() {
        return None;
    }
    let mut value: u32 = 0;
    for digit in field {
        if !digit.is_ascii_digit() {
            return None;
        }
        value = value
            .saturating_mul(10)
            .saturating_add(u32::from(*digit - b'0'));
    }
    Some(value)
}

/// The number that a field spells, if it is below 2^32.
pub fn small_number(field: &[u8]) -> Option<u32>
    ensures { result ≡ small_number field.now }
{
    if field.is_empty() {
        return None;
    }
    let mut value: u32 = 0;
    for digit in field {
        if !digit.is_ascii_digit() {
            return None;
        }
        value = value
            .checked_mul(10)?
            .checked_add(u32::from(*digit - b'0'))?;
    }
    Some(value)
}

// The text of a field, which has no sign before it; `None` only if the field is no number.
fn unsigned(field: &[u8]) -> Option<&str>
    ensures { MatchOption result (number_of field.now ≡ Option.None)
        (λ text. (text.now ≡ field.now) × (get_or field.now 0 0 ≢ 43)) }
{
    if field.is_empty() {
        return None;
    }
    if field[0] == b'+' {
        return None;
    }
    from_utf8(field).ok()
}

// The number that a field spells, if it has at most `IDENTIFIER_DIGITS` binary digits.
fn wide_number(field: &[u8]) -> Option<u128>
    ensures { result ≡ wide_number field.now }
{
    unsigned(field)?.parse().ok()
}

// What a field has in place of an identifier.
fn identifier_in(field: &[u8]) -> IdentifierField
    ensures { result ≡ identifier_in field.now }
{
    if number(field).is_none() {
        return IdentifierField::NoNumber;
    }
    match wide_number(field) {
        Some(id) => IdentifierField::Value(id),
        None => IdentifierField::TooGreat,
    }
}
