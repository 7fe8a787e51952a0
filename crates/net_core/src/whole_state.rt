//! Whether a state is whole.

ghost use Rattle.std.specs.Prelude.{◌≡◌, ◌<◌, ℕ, MatchBool, []};
ghost use Rattle.interference.specs.Net.{IsVertex, degree_of};
ghost use Rattle.event_rule.specs.State.{link_at};
ghost use Rattle.event_rule.specs.Whole.{HoldsNothing, IsDone, IsWhole};

use event_machine::NetState;
use node_api::NodeProgram;

// Whether no link out of a vertex holds a wire.
fn holds_nothing<P: NodeProgram>(state: &NetState<P>, v: u32) -> bool
    requires vertex { IsVertex state.now.net v }
    ensures empty { MatchBool result (HoldsNothing state.now.net state.now.state v)
        (HoldsNothing state.now.net state.now.state v → ⊥) }
{
    for port in 0..state.network().degree(v) {
        if state.waiting(v, port) != 0 {
            return false;
        }
    }
    true
}

// Whether a vertex is drained, and no link out of it holds a wire.
fn is_done<P: NodeProgram>(state: &NetState<P>, v: u32) -> bool
    requires vertex { IsVertex state.now.net v }
    ensures done { MatchBool result (IsDone P.program state.now.net state.now.state v)
        (IsDone P.program state.now.net state.now.state v → ⊥) }
{
    state.node(v).drained() && holds_nothing(state, v)
}

/// Whether every node is drained, and every link is empty.
pub(crate) fn is_whole<P: NodeProgram>(state: &NetState<P>) -> bool
    ensures whole { MatchBool result (IsWhole P.program state.now.net state.now.state)
        (IsWhole P.program state.now.net state.now.state → ⊥) }
{
    for i in 0..state.network().nodes() {
        if !is_done(state, i + 1) {
            return false;
        }
    }
    true
}
