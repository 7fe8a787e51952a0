//! One direction of a link.

ghost use Rattle.std.specs.Prelude.{◌≡◌, ◌<◌, ◌++◌, ◌∷◌, [], IfOk, OnErr, length, slice_get};
ghost use Rattle.event_rule.specs.State.{no_link, take_one};

use interference::Memory;
use std::alloc::Global;
use std::marker::Model;
use wires::Wire;

/// The wires put on a link, oldest first, and how many of them were taken. A link has no capacity.
#[derive(Drop)]
pub(crate) struct Wires<T> {
    sent: Vec<Wire<T>>,
    // At most as many as were put.
    taken: usize,
}

impl<T> Model for Wires<T> {
    ghost use Rattle.std.specs.Prelude.{◌≤◌, drop, length, take};
    ghost use Rattle.event_rule.specs.State.{Link};

    ghost Value = { Link T };

    ghost view = { λ a. record { taken = take a.taken a.sent.items; held = drop a.taken a.sent.items } };

    ghost invariant = { λ a. a.taken ≤ length a.sent.items };
}

impl<T: Copy> Wires<T> {
    /// A link on which nothing was put.
    pub(crate) fn new(alloc: Global) -> Wires<T>
        ensures empty { result ≡ no_link }
    {
        Wires {
            sent: Vec::new(alloc),
            taken: 0,
        }
    }

    /// Puts a wire last. The link stays as it was if memory is refused.
    pub(crate) fn put(&mut self, wire: Wire<T>) -> Result<(), Memory>
        ensures put { IfOk result (λ _. self.new ≡ record self.old { held = self.old.held ++ wire ∷ [] }) }
        ensures refused { OnErr result (self.new ≡ self.old) }
    {
        self.sent.push(wire)?;
        Ok(())
    }

    /// The oldest wire that isn't taken.
    pub(crate) fn next(&self) -> Option<Wire<T>>
        ensures next { result ≡ slice_get self.now.held 0 }
    {
        self.sent.get(self.taken).copied()
    }

    /// Takes that wire; there is one.
    pub(crate) fn take(&mut self)
        requires some { 0 < length self.old.held }
        ensures taken { self.new ≡ take_one self.old }
    {
        self.taken += 1;
    }

    /// How many wires were put and not taken.
    pub(crate) fn waiting(&self) -> usize
        ensures waiting { result ≡ length self.now.held }
    {
        self.sent.len() - self.taken
    }

    /// How many wires were taken, and those that were put and not taken, oldest first.
    pub(crate) fn parts(&self) -> (usize, &[Wire<T>])
        ensures taken { result.0 ≡ length self.now.taken }
        ensures held { result.1.now ≡ self.now.held }
    {
        (self.taken, &self.sent[self.taken..])
    }
}
