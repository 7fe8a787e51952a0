//! What holds of every program. The law is a function that does nothing: its contract is the law.

ghost use Rattle.std.specs.Prelude.{◌≡◌, ℕ};
ghost use Rattle.interference.specs.Net.{Net, repeated};
ghost use Rattle.node_api.specs.Program.{Program};
ghost use Rattle.node_api.specs.Run.{node_at};

/// What a node does at a pulse is the same however often a program repeats itself: only the last pulse depends on that.
pub fn repeating_changes_no_pulse<S, M, E>()
    ensures nodes { (program : Program S M E) (again : ℕ) (net : Net) (p v : ℕ) →
        node_at program (repeated again net) p v ≡ node_at program net p v }
{}
