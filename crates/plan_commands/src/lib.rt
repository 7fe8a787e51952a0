//! The table of `forestplan`'s commands: for each command the function of `plan_answers` or `plan_runs` that computes
//! the answer.
//!
//! `forestplan` calls `serve_words` of `serving` with `ForestplanCommands`. An example with an input and outputs of the
//! caller is at the head of `serving`.
//!
//! Limits: those of `plan_answers` and `plan_runs`.
#![tactic(auto)]

mod answer;
pub mod laws;

pub use answer::ForestplanCommands;
