//! The writing of a transcript.

ghost use Rattle.std.specs.Prelude.{◌≡◌, ◌++◌, ◌∷◌, [], IfOk, Ok, codes};
ghost use Rattle.dimacs_col.specs.Lines.{lines_of};
ghost use Rattle.transcripts.specs.Reading.{reading_of, stamped_reading_of};
ghost use Rattle.transcripts.specs.TranscriptText.{first_line, first_line_of, named_edition, stamped_transcript_of};
ghost use Rattle.transcripts.specs.TranscriptText.{transcript_of};
ghost use Rattle.number_rows.specs.Row.{numbered};
ghost use Rattle.program_texts.specs.PayloadTexts.{payload_texts};

use crate::lines::{push_row, push_stamped_row};
use entries::{Row, StampedRow};
use interference::Memory;
use node_api::PayloadText;
use number_rows::push_numbered;
use std::alloc::{AllocError, Global};

// Appends words, a number and a line feed.
fn push_header(text: &mut Vec<u8>, words: &[u8], nodes: u32) -> Result<(), AllocError>
    ensures text { IfOk result (λ _. text.new.items ≡ text.old.items ++ (numbered words.now nodes ++ 10 ∷ [])) }
{
    push_numbered(text, words, u128::from(nodes))?;
    Ok(text.push(b'\n')?)
}

/// Appends the first line of a transcript of edition 1, with this number of nodes.
///
/// # Errors
///
/// If a growth is refused; `text` may then end in a beginning of the line.
pub fn push_first_line(text: &mut Vec<u8>, nodes: u32) -> Result<(), AllocError>
    ensures text { IfOk result (λ _. text.new.items ≡ text.old.items ++ first_line nodes) }
{
    push_header(text, b"transcript 1 ", nodes)
}

/// Appends the first line of a transcript of edition 2, with this number of nodes.
///
/// # Errors
///
/// If a growth is refused; `text` may then end in a beginning of the line.
pub fn push_stamped_line(text: &mut Vec<u8>, nodes: u32) -> Result<(), AllocError>
    ensures text { IfOk result (λ _. text.new.items ≡ text.old.items ++ first_line_of (codes "2") nodes) }
{
    push_header(text, b"transcript 2 ", nodes)
}

/// Appends the first line of a transcript of edition 3, with the name of a program and this number of nodes.
///
/// # Errors
///
/// If a growth is refused; `text` may then end in a beginning of the line.
pub fn push_named_line(text: &mut Vec<u8>, name: &str, nodes: u32) -> Result<(), AllocError>
    ensures text { IfOk result (λ _.
        text.new.items ≡ text.old.items ++ first_line_of (named_edition name.now) nodes) }
{
    text.extend_from_slice(b"transcript 3 ")?;
    text.extend_from_slice(name.as_bytes())?;
    push_header(text, b" ", nodes)
}

/// The transcript of these entries: `transcript 1 NODES`, and a line for each entry, in the order given. Read by
/// `read_transcript`, it is these entries.
///
/// # Errors
///
/// If memory is refused.
pub fn transcript_text<T: PayloadText>(
    alloc: Global,
    nodes: u32,
    rows: &[Row<T>],
) -> Result<Vec<u8>, Memory>
    ensures text { IfOk result (λ text. text.items ≡ transcript_of (payload_texts T.PayloadText.own) nodes rows.now) }
    ensures reads_back { IfOk result (λ text. reading_of T.payload_of (lines_of text.items) ≡ Ok (nodes, rows.now)) }
{
    let mut text = Vec::new(alloc);
    push_first_line(&mut text, nodes)?;
    for row in rows {
        push_row(&mut text, row)?;
    }
    Ok(text)
}

/// The transcript of these entries with stamps: `transcript 2 NODES`, and a line for each entry, in the order given.
/// Read by `read_any`, it is these entries.
///
/// # Errors
///
/// If memory is refused.
pub fn stamped_text<T: PayloadText>(
    alloc: Global,
    nodes: u32,
    rows: &[StampedRow<T>],
) -> Result<Vec<u8>, Memory>
    ensures text { IfOk result (λ text.
        text.items ≡ stamped_transcript_of (payload_texts T.PayloadText.own) nodes rows.now) }
    ensures reads_back { IfOk result (λ text.
        stamped_reading_of T.payload_of (lines_of text.items) ≡ Ok (nodes, rows.now)) }
{
    let mut text = Vec::new(alloc);
    push_stamped_line(&mut text, nodes)?;
    for row in rows {
        push_stamped_row(&mut text, row)?;
    }
    Ok(text)
}
