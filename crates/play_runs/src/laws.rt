//! What holds of the answers together. The law is the contract of a function that does nothing.

ghost use Rattle.std.specs.Prelude.{◌≡◌, List, ℕ};
ghost use Rattle.play_inputs.specs.declared.setting.Setting.{Setting};
ghost use Rattle.play_runs.specs.Ends.{IsEndsAnswer};

use program_texts::ProgramText;

/// A text has at most one answer of last states, for a program and a setting. What `run_bytes`, `alone_bytes` and
/// `ends_bytes` return is one, by the clause `ok` of each. So if two of these calls return `Ok` for the same bytes and
/// setting, they return the same bytes, whatever the options are and the threads did.
pub fn ends_are_one<P: ProgramText>()
    ensures same { (setting : Setting) (input one other : List ℕ) → IsEndsAnswer P.program P.texts setting input one
        → IsEndsAnswer P.program P.texts setting input other → other ≡ one }
{}
