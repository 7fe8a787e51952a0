//! The rules that a payload can break, by their numbers: `rule` of `Refused` is one of these.

/// A payload after the last pulse.
pub const AFTER_LAST: u16 = 1;

const _: () = prove!(AFTER_LAST == 1);
