//! What the definitions of a plan say in other words. Each law is a function that does nothing: its
//! contract is the law.

ghost use Rattle.std.specs.Prelude.{◌≡◌, ◌↔◌, ◌+◌, ◌<◌, ◌≤◌, ◌^◌, All, List, None, Ok, length, ℕ};
ghost use Rattle.dimacs_col.specs.Lines.{Line, lines_of};
ghost use Rattle.interference.specs.Net.{IsNetwork, Net};
ghost use Rattle.channel_plan.specs.Checked.{IsProper, fault_of};
ghost use Rattle.channel_plan.specs.PlanText.{plan_of};
ghost use Rattle.channel_plan.specs.Reading.{IsPlanText, Row, reading_of, rows_of};

/// A plan has no fault exactly if each vertex has one row, no row is of another vertex, no channel is
/// above Δ + B + 1 or barred at its vertex, and no two neighbours share a channel.
pub fn plans_without_a_fault_are_proper()
    ensures { (net : Net) → IsNetwork net → (rows : List Row) → (fault_of net rows ≡ None) ↔ IsProper net rows }
{}

/// A text is read as a plan exactly if its lines that have fields are `plan` and then a row each.
pub fn plan_texts_are_read()
    ensures { (lines : List Line) (rows : List Row) → (reading_of lines ≡ Ok rows) ↔ IsPlanText lines rows }
{}

/// What `plan_text` writes is read as its rows, if vertices and channels are below 2^32.
pub fn written_plans_are_read()
    ensures { (colours : List ℕ) → 1 + length colours ≤ 2 ^ 32 → All (λ colour. colour + 1 < 2 ^ 32) colours
        → reading_of (lines_of (plan_of colours)) ≡ Ok (rows_of 1 colours) }
{}
