//! What holds of stamped entries. Each law is a function that does nothing: its contract is the law.

ghost use Rattle.std.specs.Prelude.{ℕ, List};
ghost use Rattle.interference.specs.Net.{IsNetwork, IsVertex, Net};
ghost use Rattle.wires.specs.declared.stamped.Stamped.{Stamped};
ghost use Rattle.entries.specs.declared.rows.StampedEntry.{StampedEntry};
ghost use Rattle.stamps.specs.Keeps.{KeepsStamps};
ghost use Rattle.stamps.specs.Laws.{EventsKeepStamps};
ghost use Rattle.stamps.specs.Stamps.{Rises};

/// A node keeps its stamps by each event, if the event is stamped by its counter.
pub fn events_keep_stamps<M>()
    ensures law { (net : Net) → IsNetwork net → (v : ℕ) → IsVertex net v → EventsKeepStamps M net v }
{}

/// The stamps of a node that keeps them rise, as `order` asks.
pub fn kept_stamps_rise<M>()
    ensures law { (net : Net) (v counter : ℕ) (puts takens : ℕ → List (Stamped M)) (entries : List (StampedEntry M))
        → KeepsStamps net v counter puts takens entries → Rises entries }
{}
