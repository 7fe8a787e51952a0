//! Definitions that all steps of the colouring share: proper colourings of a rooted forest, the least number that
//! passes a test, and sets of numbers as bits. `cole_vishkin`, `shift_down` and `forest_merge` use these definitions.
//!
//! A set of numbers is stored as bits in words of 64 bits. `forest_merge` stores sets of colours in this way, and
//! `node_api` the marks of an inbox. `has_bit` of `specs/Words.antt` says whether a bit is set, and `proofs/Words.antt`
//! what setting a bit does.
//!
//! ```text
//! words[place / 64] |= 1 << (place % 64);      // `has_bit-set`: adds `place`, and no other
//! ```
//!
//! The crate has definitions, lemmas and two laws, and nothing to run.
#![tactic(auto)]

ghost use Rattle.colour_base.specs.Forest.{IsProper};
ghost use Rattle.colour_base.specs.Least.{least};
ghost use Rattle.std.specs.Prelude.{◌≡◌, ◌≢◌, ◌<◌, ◌≤◌, Bool, true, false, ℕ, Option, Some};

/// The least number below `n` that passes a test, or `n` if none does.
pub fn least_is_the_first()
    ensures within { (test : ℕ → Bool) (n : ℕ) → least test n ≤ n }
    ensures passes { (test : ℕ → Bool) (n : ℕ) → least test n < n → test (least test n) ≡ true }
    ensures first { (test : ℕ → Bool) (n j : ℕ) → j < least test n → test j ≡ false }
{}

/// If a colouring is proper, no vertex is its own parent.
pub fn proper_has_no_loop()
    ensures { (parents : ℕ → Option ℕ) (c : ℕ → ℕ) → IsProper parents c → (v : ℕ) → parents v ≢ Some v }
{}
