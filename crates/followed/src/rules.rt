//! The rules that a payload can break, by their numbers, beside those of the two programs: `rule` of `Refused` is one
//! of these.

/// A payload of the sequel comes while the first program runs.
pub const TOO_EARLY: u16 = 100;
