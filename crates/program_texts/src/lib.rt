//! The traits for the texts of a program of nodes (the program's name, the words of a pulse, the result of a node), and
//! the text of a wire.
//!
//! `round_texts`, `event_texts` and the byte functions are written for any program that implements these traits, and
//! are proved once. Payloads have a text of their own, `PayloadText` of `node_api` (`PayloadTexts` is what texts need
//! of it), and wires have a text, too: `event_texts` writes the wires that a link holds by `push_wire`, and
//! `transcripts` writes the wires of entries by it. `leader`, `layers` and `silent` give their name and the results of
//! their nodes by `NamedText`; all other texts of these programs are written here, from these words.
//!
//! ```text
//! impl NamedText for Leader {
//!     ghost words = { leader_words };
//!
//!     fn program_name() -> &'static str {
//!         "leader"
//!     }
//!     ..
//! }
//! // the first line of its rounds is `rounds 3 leader N DELTA R`
//! ```
//!
//! Limits: those of `node_api`.
#![tactic(auto)]

mod named_text;
mod program_text;
mod wire;

pub use named_text::NamedText;
pub use program_text::ProgramText;
pub use wire::push_wire;
