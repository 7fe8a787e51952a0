//! The lines of a node's entries.

ghost use Rattle.std.specs.Prelude.{◌≡◌, ◌++◌, IfOk, flat_map, map};
ghost use Rattle.entries.specs.Rows.{bare_of, vertex_row};
ghost use Rattle.transcripts.specs.TranscriptText.{row_text};
ghost use Rattle.program_texts.specs.PayloadTexts.{payload_texts};

use crate::line_end::LineEnd;
use crate::lines::push_line;
use entries::Entries;
use node_api::PayloadText;
use std::alloc::AllocError;

/// Appends the lines of a node's entries, each with its vertex first.
///
/// # Errors
///
/// If a growth is refused; `text` may then end in some of the lines, and in a beginning of one.
pub fn push_entries<T: PayloadText>(
    text: &mut Vec<u8>,
    vertex: u32,
    entries: &Entries<T>,
) -> Result<(), AllocError>
    ensures text { IfOk result (λ _. text.new.items
        ≡ text.old.items ++ flat_map (row_text (payload_texts T.PayloadText.own))
        (map (λ entry. vertex_row vertex entry) (bare_of entries.now.items))) }
{
    let mut line = LineEnd::new();
    for entry in entries.iter() {
        push_line(text, &mut line, vertex, entry)?;
    }
    Ok(())
}
