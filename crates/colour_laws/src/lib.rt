//! Laws of the colouring on a whole network: the colours are proper and not barred, and the rounds of `colour_rules`
//! end with these colours. `laws` says that the colours of neighbours differ, that each colour is 0 to the span, and
//! that no colour is barred at its vertex. It says that the synchronous run of the rounds refuses nothing, sends
//! nothing at its last pulse and ends with these colours. It also says in other words which refusal of a node is the
//! first and which step of the merging a pulse is, and it has the table of what may come, row by row.
//!
//! `specs/Colours.antt` defines the colours of the whole network at once, without rounds: the three colours of each
//! forest, merged forest by forest. `plan_runs`, which writes the colours as channels, cites the laws. The `impl` of
//! `colour_program` names `rounds_are_program` of `proofs/Rounds.antt`, which is why the laws are a crate of their own.
//!
//! ```text
//! colour_laws::laws::rounds_end_with_the_colours(); // brings the law into a proof
//! ```
//!
//! Limits: the crate has only laws, and no code that runs the rounds.
#![tactic(auto)]

pub mod laws;
