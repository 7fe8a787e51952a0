//! A transcript behind a network text.

ghost use Rattle.std.specs.Prelude.{◌≡◌, ◌<◌, ◌+◌, ◌^◌, ◌++◌, IfOk, IfErr, Ok, drop, length, option_map};
ghost use Rattle.dimacs_col.specs.Lines.{lines_of, has_fields};
ghost use Rattle.transcripts.specs.Behind.{AreNetworkLines, entry_lines, first_name, numbers_from, program_in};
ghost use Rattle.transcripts.specs.Behind.{reading_behind};
ghost use Rattle.transcripts.specs.Reading.{IsFaultOf};

use crate::fault::TextFault;
use crate::names::name_in;
use crate::reading::read_lines;
use dimacs_col::{Fields, Lines, text_before, text_start};
use entries::Row;
use node_api::PayloadText;
use std::alloc::{AllocError, Global};

/// The network text that an input begins with: all before the first line whose first field is `transcript`.
pub fn network_text(input: &[u8]) -> &[u8]
    ensures network { AreNetworkLines (lines_of input.now) (lines_of result.now) }
{
    text_before(input, &[b"transcript"])
}

// The name of the program in the first of some lines.
fn first_name<'a>(before: usize, text: &'a [u8]) -> Option<&'a [u8]>
    requires room { before + length text.now + 1 < 2 ^ 64 }
    ensures { option_map (λ name. name.now) result ≡ first_name (lines_of text.now) }
{
    let mut lines = Lines::behind(before, text);
    let (_, fields) = lines.next()?;
    name_in(fields)
}

/// The name of the program that the transcript behind a network text has in its first line, if that begins with
/// `transcript 3 NAME`.
pub fn program_in<'a>(input: &'a [u8]) -> Option<&'a [u8]>
    ensures { option_map (λ name. name.now) result ≡ program_in (lines_of input.now) }
{
    match text_start(input, &[b"transcript"]) {
        Some(start) => first_name(start.lines, &input[start.bytes..]),
        None => None,
    }
}

/// The transcript that follows a network text, as `read_transcript` reads it. It begins at the first line whose first
/// field is `transcript`.
///
/// # Errors
///
/// As of `read_transcript`, but lines count from the first one of the whole input. `Syntax` with line 1 if there is no
/// transcript.
pub fn read_behind_network<T: PayloadText>(
    alloc: Global,
    input: &[u8],
) -> Result<(u32, Vec<Row<T>>), TextFault>
    ensures ok { IfOk result (λ read. reading_behind T.payload_of (lines_of input.now) ≡ Ok (read.0, read.1.items)) }
    ensures fault { IfErr result (IsFaultOf (reading_behind T.payload_of (lines_of input.now))) }
{
    match text_start(input, &[b"transcript"]) {
        Some(start) => read_lines::<T, Row<T>>(alloc, b"1", start.lines, &input[start.bytes..]),
        None => Err(TextFault::Syntax(1)),
    }
}

fn has_fields(mut fields: Fields) -> bool
    ensures { result ≡ has_fields fields.entry }
{
    fields.next().is_some()
}

// Appends the numbers of the lines that have fields, except the first such line; `before` lines precede the text.
fn push_numbers(numbers: &mut Vec<usize>, before: usize, text: &[u8]) -> Result<(), AllocError>
    requires room { before + length text.now + 1 < 2 ^ 64 }
    ensures { IfOk result (λ _. numbers.new.items
        ≡ numbers.old.items ++ numbers_from (before + 2) (drop 1 (lines_of text.now))) }
{
    let mut lines = Lines::behind(before, text);
    let Some(_) = lines.next() else {
        return Ok(());
    };
    'each: while let Some((number, fields)) = lines.next() {
        if has_fields(fields) {
            numbers.push(number)?;
        }
    }
    Ok(())
}

/// The numbers of the lines of the entries that `read_behind_network` returns.
///
/// # Errors
///
/// If memory is refused.
pub fn entry_lines(alloc: Global, input: &[u8]) -> Result<Vec<usize>, AllocError>
    ensures { IfOk result (λ numbers. numbers.items ≡ entry_lines (lines_of input.now)) }
{
    let mut numbers = Vec::new(alloc);
    if let Some(start) = text_start(input, &[b"transcript"]) {
        push_numbers(&mut numbers, start.lines, &input[start.bytes..])?;
    }
    Ok(numbers)
}
