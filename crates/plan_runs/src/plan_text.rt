//! The text of a channel plan, from the nodes that a run of workers left.

ghost use Rattle.std.specs.Prelude.{◌≡◌, IfOk, map};
ghost use Rattle.channel_plan.specs.PlanText.{plan_of};
ghost use Rattle.outcomes.specs.Gathers.{gathered_of};
ghost use Rattle.plan_runs.specs.Colours.{merged_of};

use channel_plan::plan_text;
use colour_program::Colouring;
use interference::Memory;
use outcomes::Actor;
use std::alloc::{AllocError, Global};

// The colours of nodes, in their order.
fn colours_of(alloc: Global, actors: &[Actor<Colouring>]) -> Result<Vec<u16>, AllocError>
    ensures { IfOk result (λ all. all.items ≡ map (λ actor. merged_of (gathered_of actor)) actors.now) }
{
    let mut all = Vec::new(alloc);
    for actor in actors {
        all.push(actor.alpha().program().colour())?;
    }
    Ok(all)
}

/// `plan`, and a row for each node with its channel.
///
/// # Errors
/// If memory ran out.
pub fn text_of_nodes(alloc: Global, actors: &[Actor<Colouring>]) -> Result<Vec<u8>, Memory>
    ensures { IfOk result
        (λ text. text.items ≡ plan_of (map (λ actor. merged_of (gathered_of actor)) actors.now)) }
{
    let colours = colours_of(alloc, actors)?;
    plan_text(alloc, colours.as_slice())
}
