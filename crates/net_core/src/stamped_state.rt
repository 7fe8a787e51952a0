//! The state that stamped entries lead to.

ghost use Rattle.std.specs.Prelude.{◌≡◌};
ghost use Rattle.stamps.specs.Table.{counter_at};

use event_machine::NetState;
use node_api::NodeProgram;
use stamps::StampTable;

/// A state of the event machine with the stamps of its nodes: what `replay_whole` returns.
///
/// `NetState` itself has no stamps: nodes come to one state in whatever order each made its own events, but not with
/// the same stamps.
pub struct StampedState<P: NodeProgram> {
    pub(crate) state: NetState<P>,
    // What the entries that lead to the state say of the next one. Only `replay_whole` puts the two together.
    pub(crate) table: StampTable,
}

impl<P: NodeProgram> Drop for StampedState<P> {
    fn drop(self) {
        let StampedState { state: _, table: _ } = self;
    }
}

impl<P: NodeProgram> StampedState<P> {
    /// The stamp of a vertex: that of its last entry, or 0 if it has none.
    pub fn stamp_of(&self, v: u32) -> u64
        ensures stamp { result ≡ counter_at self.now.table v }
    {
        self.table.stamp_of(v)
    }

    /// The state.
    pub fn state(&self) -> &NetState<P>
        ensures { result.now ≡ self.now.state }
    {
        &self.state
    }

    /// The state alone.
    pub fn into_state(self) -> NetState<P>
        ensures { result ≡ self.state }
    {
        let StampedState { state, table: _ } = self;
        state
    }
}
