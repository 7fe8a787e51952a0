//! Two rows side by side.

ghost use Rattle.std.specs.Prelude.{◌≡◌, IfOk, map, vec_len};

use std::alloc::{AllocError, Global};

/// The things of two rows that are as long, side by side.
pub fn pairs<A: Drop, B: Drop>(
    alloc: Global,
    lefts: Vec<A>,
    rights: Vec<B>,
) -> Result<Vec<(A, B)>, AllocError>
    requires long { vec_len rights ≡ vec_len lefts }
    ensures left { IfOk result (λ all. map (λ p. p.0) all.items ≡ lefts.items) }
    ensures right { IfOk result (λ all. map (λ p. p.1) all.items ≡ rights.items) }
{
    let mut all = Vec::with_capacity(alloc, lefts.len())?;
    let mut rights = rights.into_iter();
    for left in lefts {
        match rights.next() {
            Some(right) => all.push_reserved((left, right)),
            None => unreachable!(),
        }
    }
    Ok(all)
}
