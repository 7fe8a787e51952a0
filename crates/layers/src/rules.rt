//! The rules that a payload can break, by their numbers: `rule` of `Refused` is one of these.

/// A distance that isn't the number of the pulse before: what comes at pulse p was sent at distance p - 1.
pub const WRONG_HOPS: u16 = 1;

/// A payload after the last pulse, whatever its distance.
pub const AFTER_LAST: u16 = 2;

const _: () = prove!(WRONG_HOPS == 1 && AFTER_LAST == 2);
