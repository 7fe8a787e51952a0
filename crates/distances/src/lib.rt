//! Definitions and laws of components and distances in a network: which vertices a vertex reaches, and over how many
//! links.
//!
//! The crate has no code to run. The proofs of the programs `leader` and `layers` need it: these programs end at the
//! pulses n and n - 1, where n is the number of nodes, and over n - 1 links a node hears from every vertex that it
//! reaches.
//!
//! ```text
//! reached_vertices_have_distances();      // brings the law into the caller's proof, and costs nothing
//! ```
#![tactic(auto)]

pub mod laws;
