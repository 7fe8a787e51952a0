//! Words that are owned, as the system gives them.

ghost use Rattle.std.specs.Prelude.{◌≡◌, IfOk, map, string_bytes};

use std::alloc::{AllocError, Global};

/// The words, each borrowed.
pub fn borrowed<'a>(alloc: Global, words: &'a [String]) -> Result<Vec<&'a str>, AllocError>
    ensures { IfOk result (λ all. map (λ word. word.now) all.items ≡ map string_bytes words.entry.now) }
{
    let mut all = Vec::new(alloc);
    for word in words {
        all.push(word.as_str())?;
    }
    Ok(all)
}
