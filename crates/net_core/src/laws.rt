//! What holds of every list of entries. Each law is a function that does nothing: its contract is the law.

ghost use Rattle.interference.specs.Net.{Net};
ghost use Rattle.node_api.specs.Program.{Program};
ghost use Rattle.alpha_laws.specs.Laws.{OnEveryNetwork};
ghost use Rattle.event_rule.specs.Counted.{EventsBoundStamps, StampsAreCounted};
ghost use Rattle.net_core.specs.Laws.{ReplaysAreExact};
ghost use Rattle.net_core.specs.Whole.{WholeReplaysAreExact};

/// Entries that are a replay stop nowhere, and lead to one state alone: the events of a replay are those that its
/// entries are of. So what `replay` refuses is no replay.
pub fn replays_are_exact<S, M, E>()
    ensures law { (program : Program S M E) → OnEveryNetwork program (ReplaysAreExact program) }
{}

/// No list of stamped entries is both a whole replay and refused, so `replay_whole` accepts every whole replay that it
/// has memory for.
pub fn whole_replays_are_exact<S, M, E>()
    ensures law { (program : Program S M E) → OnEveryNetwork program (WholeReplaysAreExact program) }
{}

/// No stamp passes the number of events: in a stamped replay the stamp of each entry is at most the number of entries,
/// and the number of the events that they are of.
pub fn stamps_are_counted<S, M, E>()
    ensures law { (program : Program S M E) (net : Net) → StampsAreCounted program net }
    ensures events { (program : Program S M E) → OnEveryNetwork program (EventsBoundStamps program) }
{}
