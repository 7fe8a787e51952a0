//! Laws of all nodes of a network under synchroniser alpha, for event lists and for threads alike: in every order of
//! events the nodes simulate the synchronous run. A node under synchroniser alpha (Awerbuch 1985) that has made pulse p
//! is in the state of the synchronous run at p, and each pulse had exactly that round's inbox.
//!
//! `Simulates` of `specs/Simulates.antt` is the claim for all nodes of a network, if the lists of wires at the two ends
//! of each link meet; it has one field for each word of the claim. `NodeFits` of `specs/Fits.antt` says when one node
//! fits the lists of its links. `PortKept` of `specs/Kept.antt` is what every event of a node preserves at each port.
//! `Stands` of `specs/Stands.antt` is what follows for one node that took legal lists, before the lists of two ends are
//! compared. `event_machine` and `event_rule` cite the laws for lists of events, `outcomes` cites them for worker
//! threads, and `wired_nodes` cites the lemma for one node. `specs/Counts.antt` and `specs/PulseCounts.antt` count
//! wires and events; `specs/Progress.antt` says what such nodes can still do, and where they end. The last three laws
//! are only about legal lists.
//!
//! ```text
//! alpha_laws::laws::kept_links_simulate::<S, M, E>(); // brings the law into a proof
//! ```
//!
//! Limits: the crate has only laws, and no code that runs a node.
#![tactic(auto)]

pub mod laws;
