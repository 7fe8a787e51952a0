//! What holds of nodes whose ends have met, of what a run of workers leaves, and of the stamped entries of a run. Each
//! law is a function that does nothing: its contract is the law.

ghost use Rattle.node_api.specs.Program.{Program};
ghost use Rattle.alpha_laws.specs.Laws.{OnEveryNetwork};
ghost use Rattle.outcomes.specs.Counts.{PulsesOfWholeOutcomesAreCounted, WholeOutcomesAreCounted};
ghost use Rattle.outcomes.specs.Fits.{MetStampsAreBounded};
ghost use Rattle.outcomes.specs.Held.{OutcomesHoldAtMostTwo};
ghost use Rattle.outcomes.specs.Laws.{MetNodesSimulate};
ghost use Rattle.outcomes.specs.Merged.{WholeOutcomesReplay};
ghost use Rattle.outcomes.specs.MergedRuns.{MergedRunsReplay, MetNodesAreWritten, MetRunsReplay, WholeRunsReplay};
ghost use Rattle.outcomes.specs.Progress.{OutcomesAreBounded, OutcomesCanGoOn, WholeOutcomesHaveEnded};
ghost use Rattle.outcomes.specs.Start.{StartsAreOutcomes, WhenStartsAreWhole};
ghost use Rattle.outcomes.specs.Whole.{WholeOutcomesAreComplete};
ghost use Rattle.interference.specs.Net.{IsNetwork, Net};

/// Once all ends have met, the lists of both ends of each link show that no node has refused a wire, and the nodes
/// simulate the synchronous run.
pub fn met_nodes_simulate<S, M, E>()
    ensures law { (program : Program S M E) → OnEveryNetwork program (MetNodesSimulate program) }
{}

/// There are outcomes, of every program that keeps its laws and on every network, over links of any capacity, with a
/// transcript and without: the start, in which no node has made an event, is one. It is whole exactly if the last pulse
/// is 0 and no node has a neighbour, or if there is no node.
pub fn starts_are_outcomes<S, M, E>()
    ensures law { (program : Program S M E) → OnEveryNetwork program (StartsAreOutcomes program) }
    ensures whole { (program : Program S M E) → OnEveryNetwork program (WhenStartsAreWhole program) }
{}

/// If an outcome is whole, every node has halted, all that was put on each link was taken from it, and the list of each
/// link is complete.
pub fn whole_outcomes_are_complete<S, M, E>()
    ensures law { (program : Program S M E) (net : Net) → IsNetwork net → WholeOutcomesAreComplete program net }
{}

/// If an outcome is whole, the wires put on all links are twice the payloads among them and 2·edges·(R + 1) more, where
/// R is the last pulse; and the payloads are as many as the synchronous run sends. Of each pulse below R there are
/// 2·edges safes, the payloads of that pulse, and as many acknowledgements.
pub fn whole_outcomes_are_counted<S, M, E>()
    ensures law { (program : Program S M E) (net : Net) → IsNetwork net → WholeOutcomesAreCounted program net }
    ensures pulses { (program : Program S M E) (net : Net) → IsNetwork net
        → PulsesOfWholeOutcomesAreCounted program net }
{}

/// No link of an outcome holds more than two wires, whatever its capacity is: of each direction at most two emitted
/// wires are untaken.
pub fn outcomes_hold_at_most_two<S, M, E>()
    ensures law { (program : Program S M E) (net : Net) → IsNetwork net → OutcomesHoldAtMostTwo program net }
{}

/// No outcome deadlocks: it is whole, or one of its nodes can take a wire, put one or make a pulse, over links that
/// hold one wire or more. So whatever ended a run before all was done, it wasn't that all nodes waited for each other.
pub fn stopped_outcomes_can_go_on<S, M, E>()
    ensures law { (program : Program S M E) → OnEveryNetwork program (OutcomesCanGoOn program) }
{}

/// The nodes of an outcome have made at most n·R + 2·wires events, where wires is 2·payloads + 2·edges·(R + 1), and
/// payloads are those of the synchronous run. They have made as many exactly if the outcome is whole.
pub fn outcomes_are_bounded<S, M, E>()
    ensures law { (program : Program S M E) → OnEveryNetwork program (OutcomesAreBounded program) }
{}

/// If an outcome is whole, each node is in the last state of the synchronous run, with nothing left at its ports: it is
/// the same node in every whole outcome, and after every list of events that can't be continued.
pub fn whole_outcomes_have_ended<S, M, E>()
    ensures law { (program : Program S M E) → OnEveryNetwork program (WholeOutcomesHaveEnded program) }
{}

/// If an outcome is whole, `replay_whole` of `net_core` accepts the entries of all nodes in the order of their stamps
/// and then of their vertices: they are a whole replay, which leads to the nodes of the outcome.
pub fn whole_outcomes_replay<S, M, E>()
    ensures law { (program : Program S M E) (net : Net) → IsNetwork net → WholeOutcomesReplay program net }
{}

/// The entries of all nodes, in the order of their stamps, are a replay that leads to what nodes and links are, if each
/// take is later than its put.
pub fn merged_runs_replay<S, M, E>()
    ensures law { (program : Program S M E) → OnEveryNetwork program (MergedRunsReplay program) }
{}

/// Once all ends have met, the stamps of nodes that keep theirs rise. The k-th take on a link takes its k-th put, and
/// has a greater stamp.
pub fn met_nodes_are_written<S, M, E>()
    ensures law { (program : Program S M E) → OnEveryNetwork program (MetNodesAreWritten program) }
{}

/// Once all ends have met, the entries of all nodes, in the order of their stamps, are a replay that leads to them,
/// each with the stamp that the entries before it give it.
pub fn met_runs_replay<S, M, E>()
    ensures law { (program : Program S M E) → OnEveryNetwork program (MetRunsReplay program) }
{}

/// Once all ends have met, no stamp passes the number of events that a whole run has, also if a node set a wire aside:
/// neither the counter of a node nor the stamp of a wire that was put.
pub fn met_stamps_are_bounded<S, M, E>()
    ensures law { (program : Program S M E) → OnEveryNetwork program (MetStampsAreBounded program) }
{}

/// Of a whole run they are a whole replay.
pub fn whole_runs_replay<S, M, E>()
    ensures law { (program : Program S M E) → OnEveryNetwork program (WholeRunsReplay program) }
{}
