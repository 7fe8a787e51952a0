//! Where the plan text begins that follows a network text.

ghost use Rattle.std.specs.Prelude.{◌≡◌, ◌∷◌, [], codes};
ghost use Rattle.dimacs_col.specs.Lines.{lines_of};
ghost use Rattle.dimacs_col.specs.Split.{IsSplit};
ghost use Rattle.channel_plan.specs.Split.{AreNetworkLines, plan_lines};
ghost use Rattle.channel_plan.specs.Reading.{reading_of};

use dimacs_col::text_start;

/// A network text and the plan text that follows it, which begins at the first line whose first field is
/// `plan`; if there is none it is empty. Together they are the whole input.
pub fn split_plan(input: &[u8]) -> (&[u8], &[u8])
    ensures text { IsSplit (codes "plan" ∷ []) input.now result.0.now result.1.now }
    ensures network { AreNetworkLines (lines_of input.now) (lines_of result.0.now) }
    ensures plan { reading_of (lines_of result.1.now) ≡ reading_of (plan_lines (lines_of input.now)) }
{
    match text_start(input, &[b"plan"]) {
        Some(start) => input.split_at(start.bytes),
        None => (input, &[]),
    }
}
