//! The transcript of a run of worker threads in one order, with stamps: edition 2, or edition 3 of a named program.

ghost use Rattle.std.specs.Prelude.{◌≡◌, ◌++◌, All, IfOk, length, map};
ghost use Rattle.outcomes.specs.Gathers.{gathered_of};
ghost use Rattle.stamps.specs.Stamps.{Rises};
ghost use Rattle.transcripts.specs.TranscriptText.{first_line_of};
ghost use Rattle.program_texts.specs.PayloadTexts.{payload_texts};
ghost use Rattle.plan_runs.specs.Transcripts.{IsMergedText, stamped_edition};

use interference::Memory;
use node_api::NodeProgram;
use outcomes::Actor;
use program_texts::ProgramText;
use std::alloc::{AllocError, Global};
use transcripts::{LeftEntries, push_merged, push_named_line, push_stamped_line};

/// Appends the first line of a program's transcript with stamps.
///
/// # Errors
/// If memory ran out.
pub fn push_edition_line<P: ProgramText>(text: &mut Vec<u8>, count: u32) -> Result<(), AllocError>
    ensures { IfOk result (λ _. text.new.items ≡ text.old.items ++ first_line_of (stamped_edition P.texts) count) }
{
    if P::is_named() {
        push_named_line(text, P::name(), count)
    } else {
        push_stamped_line(text, count)
    }
}

// The entries of each node, in the order of the nodes.
fn lefts_of<'a, P: NodeProgram>(
    alloc: Global,
    actors: &'a [Actor<P>],
) -> Result<Vec<LeftEntries<'a, P::Payload>>, AllocError>
    ensures { IfOk result (λ lefts. lefts.items ≡ map (λ node. node.entries) (map gathered_of actors.now)) }
{
    let mut lefts = Vec::new(alloc);
    for actor in actors {
        lefts.push(LeftEntries::new(actor.entries().stamped()))?;
    }
    Ok(lefts)
}

/// The transcript of nodes with stamps, in the order of the stamps and then of the vertices. Beside the nodes and the
/// text it takes memory by the number of nodes.
///
/// # Errors
/// If memory ran out.
pub fn merged_text<P: ProgramText>(
    alloc: Global,
    count: u32,
    actors: Vec<Actor<P>>,
) -> Result<Vec<u8>, Memory>
    requires count { length actors.items ≡ count }
    requires rising { All Rises (map (λ node. node.entries) (map gathered_of actors.items)) }
    ensures { IfOk result (λ text. IsMergedText (payload_texts P.Payload.PayloadText.own) (stamped_edition P.texts)
        count (map gathered_of actors.items) text.items) }
{
    let mut text = Vec::new(alloc);
    push_edition_line::<P>(&mut text, count)?;
    let lefts = lefts_of(alloc, actors.as_slice())?;
    push_merged(alloc, &mut text, lefts)?;
    Ok(text)
}
