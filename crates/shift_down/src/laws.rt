//! What shifts and drops of all vertices at once do to a forest. The parent of each vertex is any
//! map, and so is its colour.
//!
//! No premise `parent(v) ≠ v` is needed: it follows from the colouring being proper.

ghost use Rattle.colour_base.specs.Forest.{IsProper, IsWithin};
ghost use Rattle.shift_down.specs.Steps.{drop, shift, three_from};
ghost use Rattle.std.specs.Prelude.{◌≢◌, ◌<◌, ◌≤◌, Option, ℕ};

/// A shift keeps a proper colouring proper; and if no colour was above n, which is 2 or more, none is afterwards.
pub fn shift_keeps_proper()
    ensures proper { (parents : ℕ → Option ℕ) (c : ℕ → ℕ) →
        IsProper parents c → IsProper parents (shift parents c) }
    ensures within { (n : ℕ) (parents : ℕ → Option ℕ) (c : ℕ → ℕ) →
        2 ≤ n → IsWithin n c → IsWithin n (shift parents c) }
{}

/// The drop of a colour x after its shift is proper and without x; and if x was the greatest colour,
/// all are below it.
pub fn drop_keeps_proper()
    ensures proper { (x : ℕ) (parents : ℕ → Option ℕ) (c : ℕ → ℕ) →
        IsProper parents c → IsProper parents (drop x parents (shift parents c) c) }
    ensures without { (x : ℕ) (parents : ℕ → Option ℕ) (c : ℕ → ℕ) →
        3 ≤ x → (v : ℕ) → drop x parents (shift parents c) c v ≢ x }
    ensures below { (x : ℕ) (parents : ℕ → Option ℕ) (c : ℕ → ℕ) →
        3 ≤ x → IsWithin x c → (v : ℕ) → drop x parents (shift parents c) c v < x }
{}

/// The three colours of a forest, made of any proper colours 0 to 5, are proper, and 0 to 2.
pub fn three_is_proper()
    ensures proper { (parents : ℕ → Option ℕ) (c : ℕ → ℕ) →
        IsProper parents c → IsProper parents (three_from parents c) }
    ensures within { (parents : ℕ → Option ℕ) (c : ℕ → ℕ) → IsWithin 5 c → IsWithin 2 (three_from parents c) }
{}
