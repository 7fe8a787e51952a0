//! The limit of a network that its edges don't have; `dimacs_col` has theirs.

/// How many neighbours a node may have.
pub const MAX_DEGREE: u32 = 1023;

const _: () = prove!(MAX_DEGREE == 1_023);
