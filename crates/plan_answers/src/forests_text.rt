//! The text of `forests`.

ghost use Rattle.std.specs.Prelude.{◌≡◌, ◌++◌, IfOk, flat_map};
ghost use Rattle.plan_answers.specs.Texts.{forests_text, triple_row};

use forests::decompose;
use interference::{Memory, Network};
use number_rows::push_row;
use std::alloc::{AllocError, Global};

// Appends a row for each triple.
fn push_triples(text: &mut Vec<u8>, triples: &[(u16, u32, u32)]) -> Result<(), AllocError>
    ensures { IfOk result (λ _. text.new.items ≡ text.old.items ++ flat_map triple_row triples.now) }
{
    for triple in triples {
        let (forest, child, parent) = *triple;
        push_row(
            text,
            &[u64::from(forest), u64::from(child), u64::from(parent)],
        )?;
    }
    Ok(())
}

/// `forests N U`, and a row for each edge of each forest.
///
/// # Errors
/// If memory ran out.
pub fn text_of_forests(alloc: Global, network: &Network) -> Result<Vec<u8>, Memory>
    ensures { IfOk result (λ text. text.items ≡ forests_text network.now) }
{
    let triples = decompose(alloc, network)?;
    let mut text = Vec::from_slice(alloc, b"forests ")?;
    push_row(
        &mut text,
        &[
            u64::from(network.nodes()),
            u64::from(network.forest_count()),
        ],
    )?;
    push_triples(&mut text, triples.as_slice())?;
    Ok(text)
}
