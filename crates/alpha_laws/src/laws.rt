//! What holds of nodes under synchroniser alpha. Each law is a function that does nothing: its contract
//! is the law.

ghost use Rattle.std.specs.Prelude.{◌≡◌, ◌++◌, [], ℕ, List, Option, Contains};
ghost use Rattle.interference.specs.Net.{IsNetwork, Net};
ghost use Rattle.node_api.specs.Program.{Program};
ghost use Rattle.wires.specs.Streams.{Legal};
ghost use Rattle.wires.specs.declared.wire.Wire.{Wire};
ghost use Rattle.link_rule.specs.Order.{IsInOrder};
ghost use Rattle.alpha_laws.specs.Counts.{CompleteListsAreCounted, LegalListsAreShort};
ghost use Rattle.alpha_laws.specs.Laws.{KeptSimulate, OnEveryNetwork, PulsesKeep, PutsKeep, StartsKeep, TakesKeep};
ghost use Rattle.alpha_laws.specs.Progress.{EventsAreBounded, SomeNodeCanMove, WholeNetworksHaveEnded};
ghost use Rattle.alpha_laws.specs.PulseCounts.{PulsesAreCounted};
ghost use Rattle.alpha_laws.specs.Simulates.{IsComplete};
ghost use Rattle.alpha_laws.specs.Stands.{KeptStand, StandingNodesAgree};

/// Each event of a node by itself leaves what it keeps of its links.
pub fn each_event_keeps_the_links<S, M, E>()
    ensures starts { (program : Program S M E) → OnEveryNetwork program (StartsKeep program) }
    ensures puts { (program : Program S M E) (net : Net) → PutsKeep program net }
    ensures takes { (program : Program S M E) (net : Net) → TakesKeep program net }
    ensures pulses { (program : Program S M E) → OnEveryNetwork program (PulsesKeep program) }
{}

/// Nodes that keep their links simulate the synchronous run: see `Simulates`, whose fields are the words
/// of this claim.
pub fn kept_links_simulate<S, M, E>()
    ensures law { (program : Program S M E) → OnEveryNetwork program (KeptSimulate program) }
{}

/// A node that keeps its links, and took legal lists, stands where the synchronous run has it, whatever state the other
/// nodes are in, and whether or not the run ends: see `Stands`.
pub fn kept_nodes_stand<S, M, E>()
    ensures law { (program : Program S M E) → OnEveryNetwork program (KeptStand program) }
{}

/// If a node and its neighbour stand, what the node has put on their link and what the neighbour has taken from it
/// agree: without acknowledgements one of the two lists begins the other, and so it is of the acknowledgements. The
/// reason is that both begin the one stream that the synchronous run fixes for this link. So the two may be seen at two
/// moments, and needn't be nodes of one run: the law doesn't say that what was taken had been put.
pub fn standing_nodes_agree<S, M, E>()
    ensures law { (program : Program S M E) (net : Net) → IsNetwork net → StandingNodesAgree program net }
{}

/// If the list of each link is complete, all lists together have as many payloads as the synchronous run sends, and
/// 2·payloads + 2·edges·(R + 1) wires, where R is the last pulse.
pub fn complete_lists_are_counted<S, M, E>()
    ensures law { (program : Program S M E) (net : Net) → IsNetwork net → CompleteListsAreCounted program net }
{}

/// If the list of each link is complete, all lists together have 2·edges safes of each pulse below the last, as many
/// payloads of it as the synchronous run sends, and as many acknowledgements as payloads: at most 6·edges messages.
pub fn pulses_are_counted<S, M, E>()
    ensures law { (program : Program S M E) (net : Net) → IsNetwork net → PulsesAreCounted program net }
{}

/// A legal list of a link has at most 3·R + 1 wires, where R is the last pulse. So no link is pushed more often.
pub fn legal_lists_are_short<S, M, E>()
    ensures law { (program : Program S M E) (net : Net) → LegalListsAreShort program net }
{}

/// Nodes that simulate the synchronous run never all wait for each other: over links of any capacity but none, some
/// node can take a wire, put one or make a pulse, or every node is drained and no link holds a wire.
pub fn some_node_can_move<S, M, E>()
    ensures law { (program : Program S M E) → OnEveryNetwork program (SomeNodeCanMove program) }
{}

/// Nor do they go on for ever: they make at most n·R + 2·wires events, where wires is 2·payloads + 2·edges·(R + 1), and
/// payloads are those of the synchronous run. They have made as many exactly if the network is whole.
pub fn events_are_bounded<S, M, E>()
    ensures law { (program : Program S M E) → OnEveryNetwork program (EventsAreBounded program) }
{}

/// And there is one end. If the network is whole, each node is in the last state of the synchronous run, with nothing
/// left at its ports: it is the same node whatever the order of the events was. And the list of each link is complete.
pub fn whole_networks_have_ended<S, M, E>()
    ensures law { (program : Program S M E) → OnEveryNetwork program (WholeNetworksHaveEnded program) }
{}

/// Every legal list is in order.
pub fn legal_lists_are_in_order<M>()
    ensures { (last : ℕ) (sends answers : ℕ → Option M) (wires : List (Wire M))
        → Legal last sends answers wires → IsInOrder last wires }
{}

/// A legal list with a close is complete: it has the whole stream and every acknowledgement that is due.
pub fn close_completes<M>()
    ensures { (last : ℕ) (sends answers : ℕ → Option M) (wires : List (Wire M))
        → Legal last sends answers wires → Contains wires Wire.Close → IsComplete last sends answers wires }
{}

/// Nothing follows a close: a legal list that goes on after one goes on by nothing.
pub fn nothing_follows_close<M>()
    ensures { (last : ℕ) (sends answers : ℕ → Option M) (wires rest : List (Wire M))
        → Legal last sends answers (wires ++ rest) → Contains wires Wire.Close → rest ≡ [] }
{}
