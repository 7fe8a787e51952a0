//! The lines of the entries of all nodes.

ghost use Rattle.std.specs.Prelude.{◌<◌, ◌^◌, All, IfOk, length};
ghost use Rattle.program_texts.specs.PayloadTexts.{payload_texts};
ghost use Rattle.stamps.specs.Stamps.{Rises};
ghost use Rattle.transcripts.specs.Lines.{AddsMerged};

use crate::left_entries::LeftEntries;
use crate::lines::push_stamped_row;
use crate::merging::Merging;
use node_api::PayloadText;
use std::alloc::{AllocError, Global};

/// Appends the lines of the entries of all nodes, in the order of the stamps and then of the vertices. Each next list
/// has the entries of the next vertex, from 1. Beside the lists and the text it takes memory by the number of nodes.
///
/// # Errors
///
/// If memory ran out; `text` may then end in some of the lines, and in a beginning of one.
pub fn push_merged<T: PayloadText>(
    alloc: Global,
    text: &mut Vec<u8>,
    lefts: Vec<LeftEntries<'_, T>>,
) -> Result<(), AllocError>
    requires few { length lefts.items < 2 ^ 32 }
    requires rising { All Rises lefts.items }
    ensures { IfOk result
        (λ _. AddsMerged (payload_texts T.PayloadText.own) lefts.entry.items text.old.items text.new.items) }
{
    let mut merging = Merging::new(alloc, lefts)?;
    while let Some(row) = merging.take() {
        push_stamped_row(text, &row)?;
    }
    Ok(())
}
