//! The line that reports a fault, and the status that goes with it.

ghost use Rattle.std.specs.Prelude.{◌≡◌, ◌++◌, IfOk, codes, string_bytes};
ghost use Rattle.reports.specs.Lines.{at_line, at_place, line_with};

use std::alloc::{AllocError, Global};

// The status if the input is refused.
const REFUSED: u8 = 1;

// The status if the workers stopped before every node was done.
const STOPPED: u8 = 3;

// The status if memory ran out.
const NOT_DONE: u8 = 4;

/// The report of a fault.
#[derive(Drop)]
pub struct FaultReport {
    /// The line on standard error, its line feed included.
    pub line: Vec<u8>,
    /// The status of the program.
    pub status: u8,
}

/// Where a fault is: nowhere in particular, at a line of the input, at a vertex, or at two vertices.
#[derive(Clone, Copy)]
pub enum Place {
    None,
    Line(usize),
    Vertex(u32),
    Vertices(u32, u32),
}

// `NAME: CODE`, and then the place.
fn head(alloc: Global, name: &str, code: &str, place: Place) -> Result<String, AllocError>
    ensures { IfOk result (λ text. string_bytes text ≡ name.now ++ (codes ": " ++ at_place code.now place)) }
{
    match place {
        Place::None => format!(in alloc; "{name}: {code}"),
        Place::Line(n) => format!(in alloc; "{name}: {code} line {n}"),
        Place::Vertex(v) => format!(in alloc; "{name}: {code} vertex {v}"),
        Place::Vertices(v, w) => format!(in alloc; "{name}: {code} vertices {v} {w}"),
    }
}

// `NAME: CODE`, then the place, and then words.
fn report_at(
    alloc: Global,
    name: &str,
    code: &str,
    place: Place,
    words: &[u8],
    status: u8,
) -> Result<FaultReport, AllocError>
    ensures line { IfOk result (λ report.
        report.line.items ≡ line_with name.now (at_place code.now place ++ words.now)) }
    ensures status { IfOk result (λ report. report.status ≡ status) }
{
    let mut line = head(alloc, name, code, place)?.into_bytes();
    line.extend_from_slice(words)?;
    line.push(b'\n')?;
    Ok(FaultReport { line, status })
}

/// The report that the input is refused: `NAME: CODE`, and the place of the fault.
///
/// # Errors
/// If there is no memory for the line.
pub fn refusal(
    alloc: Global,
    name: &str,
    code: &str,
    place: Place,
) -> Result<FaultReport, AllocError>
    ensures line { IfOk result (λ report. report.line.items ≡ line_with name.now (at_place code.now place)) }
    ensures status { IfOk result (λ report. report.status ≡ 1) }
{
    report_at(alloc, name, code, place, &[], REFUSED)
}

/// The report that a line of the input is refused: `NAME: CODE line NUMBER`, and words that say what is wrong.
///
/// # Errors
/// If there is no memory for the line.
pub fn refusal_in_words(
    alloc: Global,
    name: &str,
    code: &str,
    number: usize,
    words: &[u8],
) -> Result<FaultReport, AllocError>
    ensures line { IfOk result (λ report.
        report.line.items ≡ line_with name.now (at_line code.now number ++ words.now)) }
    ensures status { IfOk result (λ report. report.status ≡ 1) }
{
    report_at(alloc, name, code, Place::Line(number), words, REFUSED)
}

/// The report of a fault that has no place in the input: `NAME: TEXT`, with the status that is given.
///
/// # Errors
/// If there is no memory for the line.
pub fn report_with(
    alloc: Global,
    name: &str,
    text: &str,
    status: u8,
) -> Result<FaultReport, AllocError>
    ensures line { IfOk result (λ report. report.line.items ≡ line_with name.now text.now) }
    ensures status { IfOk result (λ report. report.status ≡ status) }
{
    report_at(alloc, name, text, Place::None, &[], status)
}

/// The report that memory ran out: `NAME: memory`.
///
/// # Errors
/// If there is no memory for the line.
pub fn memory_report(alloc: Global, name: &str) -> Result<FaultReport, AllocError>
    ensures line { IfOk result (λ report. report.line.items ≡ line_with name.now (codes "memory")) }
    ensures status { IfOk result (λ report. report.status ≡ 4) }
{
    report_with(alloc, name, "memory", NOT_DONE)
}

/// The report that the workers stopped before every node was done.
///
/// # Errors
/// If there is no memory for the line.
pub fn stopped_report(alloc: Global, name: &str) -> Result<FaultReport, AllocError>
    ensures line { IfOk result (λ report. report.line.items ≡ line_with name.now (codes "stopped")) }
    ensures status { IfOk result (λ report. report.status ≡ 3) }
{
    report_with(alloc, name, "stopped", STOPPED)
}
