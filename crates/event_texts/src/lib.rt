//! Lists of events as text: a reader of the events that follow a network text in the same input, and the text of the
//! state to which the events lead.
//!
//! A text of events has a line for each: `pulse V`, `put V PORT` or `take V PORT`. `events_bytes` of `play_answers`
//! cuts its input by `network_text`, and calls `read_events`, `play` and `text_of_state`, which work for any program.
//! The refusal of an event that isn't possible says what is missing (`specs/Missing.antt`).
//!
//! ```
//! let input = b"p edge 2 1\ne 1 2\nput 1 0\n";
//! let script = read_events(alloc, input)?;             // (3, Put(1, 0))
//! let state = play::<Colouring>(alloc, &network, script.as_slice())?;
//! let text = text_of_state(alloc, &state)?;            // "node 1 pulse 0", "link 1 2 taken 0 payload 0 hello 1", ..
//! ```
//!
//! Lines count from 1 over the whole input. Limits are those of `interference`.
#![tactic(auto)]

mod event_line;
mod expected;
mod fault;
pub mod laws;
mod missing;
mod playing;
mod reading;
mod split;
mod state_text;

pub use expected::expected_words;
pub use fault::EventFault;
pub use missing::missing_words;
pub use playing::play;
pub use reading::read_events;
pub use split::network_text;
pub use state_text::text_of_state;
