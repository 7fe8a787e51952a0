//! The counter of a node, from which its events and wires have their stamps.

ghost use Rattle.std.specs.Prelude.{◌≡◌, ◌<◌, ◌≤◌, ◌+◌, ◌^◌, max, IfOk, OnErr};

use std::marker::Model;
use thiserror::Error;

/// A stamp would pass 18446744073709551615.
#[derive(Debug, Clone, Copy, PartialEq, Eq, Error)]
#[error("a stamp would pass 18446744073709551615")]
pub struct StampFull;

/// The counter of a node (Lamport 1978), from 0. The stamp of an event is the counter's number after it. Contracts see
/// the number. No call needs memory.
///
/// A put that finds the link full has to leave the counter, and so has a take that the node refuses. So their stamps
/// are read first, by `peek` and `peek_past`.
#[derive(Debug, Drop)]
pub struct Counter {
    value: u64,
}

impl Model for Counter {
    ghost use Rattle.std.specs.Prelude.{ℕ};

    ghost Value = { ℕ };

    ghost view = { λ c. c.value };
}

impl Counter {
    /// A counter at 0.
    pub fn new() -> Counter
        ensures zero { result ≡ 0 }
    {
        Counter { value: 0 }
    }

    /// Its number: the stamp of the last event, or 0 before the first.
    pub fn value(&self) -> u64
        ensures value { result ≡ self.now }
    {
        self.value
    }

    /// The stamp that `next` would return.
    ///
    /// # Errors
    ///
    /// `StampFull` if it would pass 18446744073709551615.
    pub fn peek(&self) -> Result<u64, StampFull>
        ensures stamp { IfOk result (λ stamp. stamp ≡ self.now + 1) }
        ensures full { OnErr result (2 ^ 64 ≤ self.now + 1) }
    {
        self.value.checked_add(1).ok_or(StampFull)
    }

    /// The stamp that `past` would return.
    ///
    /// # Errors
    ///
    /// `StampFull` if it would pass 18446744073709551615.
    pub fn peek_past(&self, stamp: u64) -> Result<u64, StampFull>
        ensures stamp { IfOk result (λ next. next ≡ max self.now stamp + 1) }
        ensures full { OnErr result (2 ^ 64 ≤ max self.now stamp + 1) }
    {
        self.value.max(stamp).checked_add(1).ok_or(StampFull)
    }

    /// Moves to a stamp above its number, as `peek` and `peek_past` return it.
    pub fn advance(&mut self, stamp: u64)
        requires above { self.old < stamp }
        ensures value { self.new ≡ stamp }
    {
        self.value = stamp;
    }

    /// The stamp of a put or a pulse, which is one more than the counter. The counter moves to it.
    ///
    /// # Errors
    ///
    /// `StampFull` if it would pass 18446744073709551615; the counter is unchanged.
    pub fn next(&mut self) -> Result<u64, StampFull>
        ensures stamp { IfOk result (λ stamp. (stamp ≡ self.old + 1) × (self.new ≡ stamp)) }
        ensures full { OnErr result (2 ^ 64 ≤ self.old + 1) }
        ensures unchanged { OnErr result (self.new ≡ self.old) }
    {
        self.past(0)
    }

    /// The stamp of a take, which is one more than the greater of the counter and the wire's stamp. The counter moves
    /// to it.
    ///
    /// # Errors
    ///
    /// `StampFull` if it would pass 18446744073709551615; the counter is unchanged.
    pub fn past(&mut self, stamp: u64) -> Result<u64, StampFull>
        ensures stamp { IfOk result (λ next. (next ≡ max self.old stamp + 1) × (self.new ≡ next)) }
        ensures full { OnErr result (2 ^ 64 ≤ max self.old stamp + 1) }
        ensures unchanged { OnErr result (self.new ≡ self.old) }
    {
        let next = self.peek_past(stamp)?;
        self.advance(next);
        Ok(next)
    }
}
