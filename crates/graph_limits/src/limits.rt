//! The limits of a graph.

/// How many vertices a graph may have.
pub const MAX_NODES: u32 = 20_000;

/// How many distinct edges a graph may have.
pub const MAX_EDGES: usize = 400_000;

/// The greatest channel that can be barred; the channels are 1 to this.
pub const MAX_CHANNEL: u16 = 2_048;

/// How many channels can be barred at one vertex.
pub const MAX_BARS: u32 = 1_024;

/// How many binary digits an identifier has.
pub const IDENTIFIER_DIGITS: u32 = u128::BITS;

const _: () = prove!(MAX_NODES == 20_000 && MAX_EDGES == 400_000 && IDENTIFIER_DIGITS == 128);

const _: () = prove!(MAX_CHANNEL == 2_048 && MAX_BARS == 1_024);
