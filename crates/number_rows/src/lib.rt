//! Functions that append decimal numbers to a text: a row of numbers, or one number after words. `channel_plan` and
//! `plan_answers` write their texts of many rows with `push_row`, and `program_texts`, `transcripts` and the programs
//! of nodes a number after words with `push_numbered`.
//!
//! ```
//! push_row(&mut text, &[0, 1, 2])?;          // appends "0 1 2" and a line feed
//! push_numbered(&mut text, b"node ", 3)?;    // appends "node 3"
//! ```
//!
//! Numbers are unsigned, in a row below 2^64, after words below 2^128. Nothing is formatted through `fmt`, since a text
//! may have 400,000 rows.
#![tactic(auto)]

mod decimal;
mod numbered;
mod row;

pub use decimal::push_decimal;
pub use numbered::push_numbered;
pub use row::push_row;
