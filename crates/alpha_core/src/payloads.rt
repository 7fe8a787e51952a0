//! The payloads of an out-list.

ghost use Rattle.std.specs.Prelude.{◌≡◌, ◌≤◌, ◌++◌, ◌∷◌, [], drop, length, slice_get};
ghost use Rattle.alpha_core.specs.OutLists.{PayloadFits, payload_count, payload_of};

use crate::bare::BareWire;
use std::marker::Model;
use wires::Wire;

/// The payloads of a port's wires, oldest first, in two places. Contracts see the list of them.
///
/// The places have names, since an array of a payload type that is a parameter asks at each access for a bound on the
/// size of such a payload.
#[derive(Drop)]
pub(crate) struct Payloads<T> {
    first: Option<T>,
    second: Option<T>,
}

impl<T> Model for Payloads<T> {
    ghost use Rattle.std.specs.Prelude.{◌≡◌, List, Option, None};
    ghost use Rattle.alpha_core.specs.OutLists.{payloads_of};

    ghost Value = { List T };

    ghost view = { λ a. payloads_of a.first a.second };

    ghost invariant = { λ a. a.first ≡ None → a.second ≡ None };
}

impl<T: Copy> Payloads<T> {
    /// No payloads.
    pub(crate) fn new() -> Payloads<T>
        ensures empty { result ≡ [] }
    {
        Payloads {
            first: None,
            second: None,
        }
    }

    /// The oldest.
    pub(crate) fn first(&self) -> Option<T>
        ensures oldest { result ≡ slice_get self.now 0 }
    {
        self.first
    }

    // Puts a payload last, if there is at most one.
    fn push(&mut self, payload: T)
        requires room { length self.old ≤ 1 }
        ensures items { self.new ≡ self.old ++ payload ∷ [] }
    {
        if self.first.is_none() {
            self.first = Some(payload);
        } else {
            self.second = Some(payload);
        }
    }

    // Takes the oldest off.
    fn pop(&mut self)
        ensures items { self.new ≡ drop 1 self.old }
    {
        self.first = self.second;
        self.second = None;
    }

    /// Puts the payload of a wire last, if it has one.
    pub(crate) fn push_of(&mut self, wire: Wire<T>)
        requires room { PayloadFits wire (length self.old) }
        ensures items { self.new ≡ self.old ++ payload_of wire }
    {
        if let Wire::Payload(_, payload) = wire {
            self.push(payload);
        }
    }

    /// Takes the oldest off, if the wire has one.
    pub(crate) fn pop_of(&mut self, bare: BareWire)
        ensures items { self.new ≡ drop (payload_count bare) self.old }
    {
        if let BareWire::Payload(_) = bare {
            self.pop();
        }
    }
}
