//! What holds of the last states on every network. The law is the contract of a function that does nothing.

ghost use Rattle.std.specs.Prelude.{◌≡◌, ℕ};
ghost use Rattle.interference.specs.Net.{Net, IsNetwork, IsVertex};
ghost use Rattle.node_api.specs.Program.{last_pulse_on};
ghost use Rattle.node_api.specs.Run.{state_at};
ghost use Rattle.silent.specs.Knowing.{silent};

/// In the last state of the synchronous run each node has found 0. Say here what yours find, in the words of the
/// subject.
pub fn rounds_end_with_the_numbers()
    ensures numbers { (net : Net) → IsNetwork net → (v : ℕ) → IsVertex net v
        → (state_at silent net (last_pulse_on silent net) v).number ≡ 0 }
{}
