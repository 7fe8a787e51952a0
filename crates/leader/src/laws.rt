//! What holds of the election on every network. Each law is the contract of a function that does nothing.

ghost use Rattle.std.specs.Prelude.{ℕ, ◌≤◌};
ghost use Rattle.interference.specs.Net.{Net, IsNetwork, IsVertex};
ghost use Rattle.node_api.specs.Program.{last_pulse_on};
ghost use Rattle.node_api.specs.Run.{last_state, state_at};
ghost use Rattle.sync_rounds.specs.Reach.{IsGreatestWithin};
ghost use Rattle.leader.specs.Election.{election};
ghost use Rattle.leader.specs.Component.{HaveElected, IsGreatestReached};

/// In the last state of the synchronous run each node knows the greatest identifier of its component.
pub fn rounds_end_with_the_leader()
    ensures leader { (net : Net) → IsNetwork net → (v : ℕ) → IsVertex net v
        → IsGreatestReached net v (last_state election net v).best }
{}

/// After each pulse p a node knows the greatest identifier within p links.
pub fn rounds_flood()
    ensures flood { (net : Net) → IsNetwork net → (p v : ℕ) → IsVertex net v → p ≤ last_pulse_on election net
        → IsGreatestWithin net p v (state_at election net p v).best }
{}

/// In each component the nodes end with the same identifier, and exactly one of them has it: it is the leader.
pub fn each_component_elects_one()
    ensures elected { (net : Net) → IsNetwork net → HaveElected net (λ v. (last_state election net v).best) }
{}
