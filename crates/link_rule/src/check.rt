//! Whether wires come in order.

ghost use Rattle.std.specs.Prelude.{◌≡◌, ◌++◌, [], ◌∷◌, List, MatchBool};
ghost use Rattle.wires.specs.declared.stamped.Stamped.{Stamped};
ghost use Rattle.wires.specs.StampedWires.{StampsRise, wires_of};
ghost use Rattle.link_rule.specs.Order.{IsInOrder};
ghost use Rattle.link_rule.specs.Progress.{WasFed, after_wire, at_start, goes_on};

use std::marker::Model;
use wires::{Stamped, Wire};

/// How far one direction of a link has come, by the order of its wires and their stamps alone.
///
/// The pulses of payloads and safes are the number of safes before them, a pulse has one payload at most, the
/// pulses of acknowledgements rise, all of these are below the last pulse, and close comes after the safe of each
/// pulse below the last and before nothing else. The stamps are above 0 and rise. Contracts say of which wires a check
/// was fed: `WasFed`.
#[derive(Drop)]
pub struct StreamCheck {
    last: u32,
    safes: u32,
    paid: bool,
    // One more than the pulse of the last acknowledgement, or 0.
    next_ack: u32,
    closed: bool,
    // The stamp of the last wire, or 0.
    stamp: u64,
}

impl Model for StreamCheck {
    ghost use Rattle.link_rule.specs.Progress.{Progress};

    ghost Value = { Progress };

    ghost view = { λ a. record {
      last = a.last;
      safes = a.safes;
      paid = a.paid;
      next_ack = a.next_ack;
      closed = a.closed;
      stamp = a.stamp;
    } };
}

impl StreamCheck {
    /// A check that was fed nothing, of a program whose last pulse is `last`.
    pub fn new(last: u32) -> StreamCheck
        ensures { result ≡ at_start last }
    {
        StreamCheck {
            last,
            safes: 0,
            paid: false,
            next_ack: 0,
            closed: false,
            stamp: 0,
        }
    }

    // Moves on by a wire that goes on in order; any other leaves the check.
    fn step<T>(&mut self, wire: &Wire<T>) -> bool
        ensures goes_on { result ≡ goes_on self.old wire.now }
        ensures progress { self.new ≡ after_wire self.old wire.now }
    {
        if self.closed {
            return false;
        }
        match *wire {
            Wire::Payload(pulse, _) => {
                if pulse != self.safes || self.paid || pulse >= self.last {
                    return false;
                }
                self.paid = true;
            }
            Wire::Ack(pulse) => {
                if pulse < self.next_ack || pulse >= self.last {
                    return false;
                }
                self.next_ack = pulse + 1;
            }
            Wire::Safe(pulse) => {
                if pulse != self.safes || pulse >= self.last {
                    return false;
                }
                self.safes = pulse + 1;
                self.paid = false;
            }
            Wire::Close => {
                if self.safes != self.last {
                    return false;
                }
                self.closed = true;
            }
        }
        true
    }

    /// Whether a wire goes on in order after those that the check was fed, with a stamp above theirs; if not, the check
    /// stays as it was.
    pub fn feed<T>(&mut self, item: &Stamped<T>) -> bool
        ensures fed { (items : List (Stamped T)) → WasFed self.old items
            → MatchBool result (WasFed self.new (items ++ item.now ∷ []))
            (IsInOrder self.old.last (wires_of (items ++ item.now ∷ [])) → StampsRise (items ++ item.now ∷ []) → ⊥) }
        ensures last { self.new.last ≡ self.old.last }
        ensures unchanged { MatchBool result (Unit {0}) (self.new ≡ self.old) }
    {
        if item.stamp <= self.stamp {
            return false;
        }
        if !self.step(&item.wire) {
            return false;
        }
        self.stamp = item.stamp;
        true
    }
}
