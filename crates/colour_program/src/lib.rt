//! The colouring as a program of nodes: `Colouring` implements the trait of `node_api` by the rounds of `colour_rules`,
//! and has the texts of these rounds. `plan_answers` and `plan_runs` print the last colours of its nodes as channels.
//!
//! Every engine for programs of nodes can run it, for example `run_rounds` of `sync_rounds`. `laws` of `colour_laws`
//! proves that its nodes end with the colours of the network: they differ on every edge, each is 0 to the span, and
//! none is barred at its node. A refusal names one of the `rules` of `colour_rules`.
//!
//! ```text
//! for node in &run_rounds::<Colouring>(alloc, &net)? {
//!     colours.push(node.colour())?;
//! }
//! ```
//!
//! Its texts, for `round_texts` and `event_texts`: `rounds 1 N DELTA U R`, or `rounds 2 N DELTA BARS U R` if a vertex
//! has a bar; the words of a phase; a node's colours or its choice after a pulse; and its channel at the end.
//!
//! Limits: those of `colour_rules`.
#![tactic(auto)]

mod colouring;
mod colours_text;

pub use colouring::Colouring;
