//! Why a turn of a node ended early.

ghost use Rattle.std.specs.Prelude.{◌≡◌};

use alpha_core::StampFull;
use interference::Memory;

/// Why a turn of a node ended early.
#[derive(Debug, Clone, Copy, PartialEq, Eq)]
pub enum TurnRefused {
    /// Memory for an entry was refused.
    Memory,
    /// A stamp would pass 18446744073709551615.
    StampFull,
}

impl From<Memory> for TurnRefused {
    ghost use Rattle.wired_nodes.specs.declared.refused.TurnRefused.{TurnRefused};

    ghost from_gives = { λ _ result. result ≡ TurnRefused.Memory };

    fn from(_error: Memory) -> TurnRefused {
        TurnRefused::Memory
    }
}

impl From<StampFull> for TurnRefused {
    ghost use Rattle.wired_nodes.specs.declared.refused.TurnRefused.{TurnRefused};

    ghost from_gives = { λ _ result. result ≡ TurnRefused.StampFull };

    fn from(_error: StampFull) -> TurnRefused {
        TurnRefused::StampFull
    }
}
