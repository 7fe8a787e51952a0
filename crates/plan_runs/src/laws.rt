//! What holds of the answers together. Each law is a function that does nothing: its contract is the law.

ghost use Rattle.std.specs.Prelude.{◌≡◌, ◌++◌, ◌∷◌, [], List, ℕ};
ghost use Rattle.plan_answers.specs.Answers.{IsPlainAnswer};
ghost use Rattle.plan_answers.specs.Faults.{fault_status};
ghost use Rattle.plan_answers.specs.Verdicts.{IsCheckAnswer, IsFaultOfCheck, verdict_text};
ghost use Rattle.plan_answers.specs.declared.fault.PlanFault.{PlanFault};

/// A network text that ends in a line feed, followed by the plan that `plain_bytes` gives for it, is an
/// input that `check_bytes` calls proper; no fault but out of memory is possible.
pub fn plain_plans_are_proper()
    ensures proper { (input answer : List ℕ) → IsPlainAnswer (input ++ 10 ∷ []) answer
        → (greatest : ℕ) × IsCheckAnswer ((input ++ 10 ∷ []) ++ answer) (verdict_text greatest) }
    ensures only_memory { (input answer : List ℕ) (fault : PlanFault) → IsPlainAnswer (input ++ 10 ∷ []) answer
        → IsFaultOfCheck ((input ++ 10 ∷ []) ++ answer) fault → fault_status fault ≡ 4 }
{}

/// A text has at most one plain answer. What `plain_bytes` and `plan_bytes` return is one, by the clause `ok` of each.
/// So if both return `Ok` for the same bytes, they return the same bytes, whatever the options are and the threads did.
pub fn plan_equals_plain()
    ensures same { (input plain plan : List ℕ) → IsPlainAnswer input plain → IsPlainAnswer input plan → plan ≡ plain }
{}
