//! How far every list of events can go. Each law is a function that does nothing: its contract is the law.

ghost use Rattle.node_api.specs.Program.{Program};
ghost use Rattle.alpha_laws.specs.Laws.{OnEveryNetwork};
ghost use Rattle.event_rule.specs.Commute.{EventsCommute};
ghost use Rattle.event_rule.specs.Laps.{OrdersExist, ThoroughLapsEnd, ThoroughLapsExist, ThoroughTurnsExist};
ghost use Rattle.interference.specs.Net.{Net};
ghost use Rattle.event_rule.specs.Progress.{MaximalRunsAgree, MaximalRunsEnd, NoDeadlock, RunsAreBounded};
ghost use Rattle.event_rule.specs.Progress.{RunsAreCounted, RunsAreShort, RunsCanBeCompleted, RunsHaveRoom};
ghost use Rattle.event_rule.specs.Progress.{WholeStatesAreTerminal};
ghost use Rattle.event_rule.specs.PulseMachine.{SimulatesPulseMachine};

/// In every state that a list of events reaches, some event is possible, or every node is drained and no link holds a
/// wire; over links of any capacity but none. In a state of the second kind no event is possible.
pub fn no_deadlock<S, M, E>()
    ensures moves { (program : Program S M E) → OnEveryNetwork program (NoDeadlock program) }
    ensures terminal { (program : Program S M E) → OnEveryNetwork program (WholeStatesAreTerminal program) }
{}

/// A list of events has as many events as its state shows, so all lists that lead to one state are equally long. It has
/// at most n·R + 2·wires events, where wires is 2·payloads + 2·edges·(R + 1); it has as many exactly if its state is
/// whole; and it can be continued to a whole state, over links of any capacity but none.
pub fn runs_are_bounded<S, M, E>()
    ensures counted { (program : Program S M E) → OnEveryNetwork program (RunsAreCounted program) }
    ensures bounded { (program : Program S M E) → OnEveryNetwork program (RunsAreBounded program) }
    ensures completed { (program : Program S M E) → OnEveryNetwork program (RunsCanBeCompleted program) }
{}

/// A list of events after which no event is possible leads to a whole state, in which each node is in the last state of
/// the synchronous run, with nothing left at its ports, and the list of each link is complete. So any two such lists
/// are equally long, and each node is the same after both.
pub fn one_end<S, M, E>()
    ensures ends { (program : Program S M E) → OnEveryNetwork program (MaximalRunsEnd program) }
    ensures agree { (program : Program S M E) → OnEveryNetwork program (MaximalRunsAgree program) }
{}

/// Of two events of different nodes that are possible in a state, each is possible after the other, and both orders
/// lead to the same state. A put on a link and a take from it are events of different nodes.
pub fn events_commute<S, M, E>()
    ensures law { (program : Program S M E) → OnEveryNetwork program (EventsCommute program) }
{}

/// Every list of events is one over links of any capacity above 1: none puts a wire on a link that holds two.
pub fn runs_have_room<S, M, E>()
    ensures law { (program : Program S M E) → OnEveryNetwork program (RunsHaveRoom program) }
{}

/// On a network within the limits a whole run has fewer than 2^60 events, if its last pulse has 32 binary digits.
pub fn runs_are_short<S, M, E>()
    ensures law { (program : Program S M E) → OnEveryNetwork program (RunsAreShort program) }
{}

/// If each turn leaves nothing for later, 3·R + 2 laps are enough, where R is the last pulse, whatever the orders of
/// the turns are. In each lap every node has a turn that takes all that was put for it, or all that it expects, puts
/// all that waits, and makes a pulse if it can. Such a turn exists for each node in every state that is reached; so
/// such laps exist, from the start, for all lists of orders of the network's nodes in each of which every node has a
/// turn. The nodes by their numbers are such an order.
pub fn thorough_laps_end<S, M, E>()
    ensures ends { (program : Program S M E) → OnEveryNetwork program (ThoroughLapsEnd program) }
    ensures exist { (program : Program S M E) → OnEveryNetwork program (ThoroughLapsExist program) }
    ensures turns { (program : Program S M E) → OnEveryNetwork program (ThoroughTurnsExist program) }
    ensures orders { (net : Net) → OrdersExist net }
{}

/// Every run simulates the pulse machine, which has the nodes' pulses and nothing else: a pulse is a step of it, which
/// a node may make that isn't ahead of a neighbour, and a put or a take leaves it as it is.
pub fn runs_simulate_the_pulse_machine<S, M, E>()
    ensures law { (program : Program S M E) → OnEveryNetwork program (SimulatesPulseMachine program) }
{}
