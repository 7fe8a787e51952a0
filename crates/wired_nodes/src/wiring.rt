//! What is common to all links and nodes of a run.

use std::marker::Brand;

/// What is common to all links and nodes of a run. Each run picks these; no value is made.
pub trait Wiring {
    ghost use Rattle.std.specs.Prelude.{Bool, List};
    ghost use Rattle.atomic_table.specs.Seated.{TableId};
    ghost use Rattle.interference.specs.Net.{Net};

    /// The network.
    ghost net: { Net };

    /// Entry `v - 1` has the queues of the links out of vertex `v`, by port.
    ghost tables: { List (List TableId) };

    /// The queues in the order in which `Links` has them.
    ghost links: { List TableId };

    /// Whether its nodes write down what they do.
    ghost transcript: { Bool };
}

impl Wiring for Brand {
    ghost use Rattle.std.specs.Prelude.{[], false};

    ghost net = { record { ids = []; ports = []; bars = []; again = 0 } };

    ghost tables = { [] };

    ghost links = { [] };

    ghost transcript = { false };
}
