//! What holds of the order of wires and of legal lists. Each law is a function that does nothing: its contract is
//! the law.

ghost use Rattle.std.specs.Prelude.{◌++◌, [], ℕ, List, Option};
ghost use Rattle.interference.specs.Net.{Net};
ghost use Rattle.node_api.specs.Program.{Program};
ghost use Rattle.wires.specs.Streams.{Legal};
ghost use Rattle.wires.specs.declared.wire.Wire.{Wire};
ghost use Rattle.link_rule.specs.Order.{IsInOrder};
ghost use Rattle.link_rule.specs.Progress.{WasFed, at_start};
ghost use Rattle.link_rule.specs.Sent.{IsLegal};

/// What begins a legal list is legal.
pub fn legal_beginnings<M>()
    ensures law { (last : ℕ) (sends other : ℕ → Option M) (front rest : List (Wire M))
        → Legal last sends other (front ++ rest) → Legal last sends other front }
{}

/// What begins a legal list of a link is a legal list of it.
pub fn legal_beginnings_of_a_link<S, M, E>()
    ensures law { (program : Program S M E) (net : Net) (v w : ℕ) (front rest : List (Wire M))
        → IsLegal program net v w (front ++ rest) → IsLegal program net v w front }
{}

/// A beginning of a list in order is in order.
pub fn beginnings_are_in_order<M>()
    ensures { (last : ℕ) (front rest : List (Wire M)) → IsInOrder {M = M} last (front ++ rest) → IsInOrder last front }
{}

/// A new check was fed nothing.
pub fn a_new_check_was_fed_nothing<M>()
    ensures { (last : ℕ) → WasFed {M = M} (at_start last) [] }
{}
