//! The form in which `forestplan` and `forestplay` report a fault: the line on standard error, and the exit status.
//!
//! `plan_answers` and `play_inputs` call `refusal`, `stopped_report` or `memory_report` for a fault, and `serving`
//! writes the `FaultReport`.
#![tactic(auto)]

mod report;

pub use report::{
    FaultReport, Place, memory_report, refusal, refusal_in_words, report_with, stopped_report,
};
