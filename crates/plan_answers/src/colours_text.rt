//! The text of a channel plan, from nodes that have found their colours.

ghost use Rattle.std.specs.Prelude.{◌≡◌, IfOk, map};
ghost use Rattle.interference.specs.Net.{IsNetwork};
ghost use Rattle.channel_plan.specs.PlanText.{plan_of};
ghost use Rattle.plan_answers.specs.Texts.{colours_text};

use channel_plan::plan_text;
use colour_laws::laws::rounds_end_with_the_colours;
use colour_program::Colouring;
use interference::{Memory, Network};
use std::alloc::{AllocError, Global};
use sync_rounds::run_rounds;

// The colours of nodes, in their order.
fn colours_of(alloc: Global, nodes: &[Colouring]) -> Result<Vec<u16>, AllocError>
    ensures { IfOk result (λ all. all.items ≡ map (λ node. node.merged) nodes.now) }
{
    let mut all = Vec::new(alloc);
    for node in nodes {
        all.push(node.colour())?;
    }
    Ok(all)
}

// `plan`, and a row for each node with its channel.
fn text_of_nodes(alloc: Global, nodes: &[Colouring]) -> Result<Vec<u8>, Memory>
    ensures { IfOk result (λ text. text.items ≡ plan_of (map (λ node. node.merged) nodes.now)) }
{
    let colours = colours_of(alloc, nodes)?;
    plan_text(alloc, colours.as_slice())
}

/// `plan`, and a row for each vertex with its channel, as the rounds of the colouring leave it.
///
/// # Errors
/// If memory ran out.
pub fn text_of_plan(alloc: Global, network: &Network) -> Result<Vec<u8>, Memory>
    requires { IsNetwork network.now }
    ensures { IfOk result (λ text. text.items ≡ colours_text network.now) }
{
    rounds_end_with_the_colours();
    let nodes = run_rounds::<Colouring>(alloc, network)?;
    text_of_nodes(alloc, nodes.as_slice())
}
