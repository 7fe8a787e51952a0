//! What holds of every order of turns. Each law is a function that does nothing: its contract is the law.

ghost use Rattle.node_api.specs.Program.{Program};
ghost use Rattle.alpha_laws.specs.Laws.{OnEveryNetwork};
ghost use Rattle.lone_runs.specs.Fair.{FairLapsExist, FairOrdersEnd, FairTurnsExist};

/// Every fair order of turns ends: if each node's turn comes again and again, in whatever order and with however many
/// events in a turn, then after at most E laps, in each of which every node has a turn, every node is in the last
/// state of the synchronous run, with nothing left at its ports, and every link is empty. E is `events_of_run` of
/// `alpha_laws`, n·R + 2·wires.
pub fn fair_orders_end<S, M, E>()
    ensures law { (program : Program S M E) → OnEveryNetwork program (FairOrdersEnd program) }
{}

/// In every state that is reached each node has a fair turn: it makes events of this node, however many, and none only
/// if none is possible. So there are, from the start, laps of fair turns for all lists of orders of the network's nodes
/// in each of which every node has a turn.
pub fn fair_laps_exist<S, M, E>()
    ensures law { (program : Program S M E) → OnEveryNetwork program (FairLapsExist program) }
    ensures turns { (program : Program S M E) → OnEveryNetwork program (FairTurnsExist program) }
{}
