//! Laws that bound how many pulses, bit steps and messages the programs take, and laws that a program with a sequel
//! runs first as the one program and then as the other.
//!
//! The last pulse of each program is a definition; `laws` bounds it in Δ, U, B and n, by which textbooks count rounds.
//! `composition` says how a program with a sequel runs: first as the first program, and then as the sequel, from the
//! states that the first program has reached. So the messages of both programs are counted together. No other crate
//! uses this one, so none waits for its proofs.
//!
//! ```text
//! bound_laws::laws::matching_is_bounded(); // brings the law into a proof
//! bound_laws::composition::runs_are_composed::<S, X, A, B>();
//! ```
//!
//! Limits: the crate has only laws.
#![tactic(auto)]

pub mod composition;
pub mod laws;
