//! The text of a channel plan.

ghost use Rattle.std.specs.Prelude.{◌≡◌, ◌++◌, ◌+◌, ◌-◌, IfOk};
ghost use Rattle.channel_plan.specs.PlanText.{plan_of, rows_from};

use interference::Memory;
use number_rows::push_row;
use std::alloc::{AllocError, Global};

// Appends a row for each vertex, from vertex 1 on.
fn push_rows(text: &mut Vec<u8>, colours: &[u16]) -> Result<(), AllocError>
    ensures { IfOk result (λ _. text.new.items ≡ text.old.items ++ rows_from 1 colours.now) }
{
    for (index, colour) in colours.iter().enumerate() {
        push_row(text, &[index as u64 + 1, u64::from(*colour) + 1])?;
    }
    Ok(())
}

/// The plan text of the colours of vertices 1, 2, ..: `plan`, and a line `V CHANNEL` for each
/// vertex, ascending.
///
/// # Errors
/// If memory ran out.
pub fn plan_text(alloc: Global, colours: &[u16]) -> Result<Vec<u8>, Memory>
    ensures text { IfOk result (λ text. text.items ≡ plan_of colours.now) }
{
    let mut text = Vec::from_slice(alloc, b"plan\n")?;
    push_rows(&mut text, colours)?;
    Ok(text)
}
