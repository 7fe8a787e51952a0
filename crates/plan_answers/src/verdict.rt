//! The verdict on a plan.

ghost use Rattle.std.specs.Prelude.{◌≡◌, IfOk, IfErr};
ghost use Rattle.plan_answers.specs.Verdicts.{IsCheckAnswer, IsFaultOfCheck, verdict_text};

use crate::answer::network_of_text;
use crate::fault::PlanFault;
use channel_plan::{check, read_plan, split_plan};
use interference::Memory;
use number_rows::push_row;
use std::alloc::Global;

// `proper G`.
fn text_of_verdict(alloc: Global, greatest: u32) -> Result<Vec<u8>, Memory>
    ensures { IfOk result (λ text. text.items ≡ verdict_text greatest) }
{
    let mut text = Vec::from_slice(alloc, b"proper ")?;
    push_row(&mut text, &[u64::from(greatest)])?;
    Ok(text)
}

/// The verdict on a plan of a network: the input is a DIMACS text, and then a plan text, which begins at
/// the first line whose first field is `plan`. The verdict is `proper G`, G being the greatest channel.
///
/// # Errors
/// As of `forest_bytes` for the lines before the plan text; else `Check` with the fault of the plan text, whose lines
/// count from its first; else `Check` with the fault of its rows. Any call may instead fail for lack of memory:
/// `CheckFault::Memory` or as `forest_bytes`.
pub fn check_bytes(alloc: Global, input: &[u8]) -> Result<Vec<u8>, PlanFault>
    ensures ok { IfOk result (λ text. IsCheckAnswer input.now text.items) }
    ensures fault { IfErr result (IsFaultOfCheck input.now) }
{
    let (network_text, plan_text) = split_plan(input);
    let network = network_of_text(alloc, network_text)?;
    let plan = read_plan(alloc, plan_text)?;
    let greatest = check(alloc, &network, &plan)?;
    Ok(text_of_verdict(alloc, greatest)?)
}
