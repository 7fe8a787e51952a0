//! The rules that a payload or a node can break, by their numbers: `rule` of `Refused` is one of these.

/// A payload of a kind that is not due in the phase.
pub const WRONG_KIND: u16 = 1;
/// A payload of a kind that is due, from a port of a role from which it is not.
pub const WRONG_ROLE: u16 = 2;
/// No such forest, or more neighbours of higher identifier than forests.
pub const FOREST_RANGE: u16 = 3;
/// No such identifier or colour, or no colour is free.
pub const COLOUR_RANGE: u16 = 4;
/// No payload from a port from which one is due.
pub const MISSING: u16 = 5;
/// A payload after the last pulse.
pub const AFTER_HALT: u16 = 6;

// The numbers that the pages name.
const _: () = prove!(
    WRONG_KIND == 1
        && WRONG_ROLE == 2
        && FOREST_RANGE == 3
        && COLOUR_RANGE == 4
        && MISSING == 5
        && AFTER_HALT == 6
);
