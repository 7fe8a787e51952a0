//! The end of a line, in an array with room for it. It is written from its last byte to its first, as the digits of a
//! number come, so that nothing is moved and memory is asked for once a line.

ghost use Rattle.std.specs.Prelude.{◌≡◌, ◌≤◌, ◌+◌, ◌++◌, [], length};
ghost use Rattle.std.specs.Fmt.{decimal};
ghost use Rattle.transcripts.specs.declared.line_end.TheConstants.{ROOM};

use itoa::write_digits;
use std::marker::Model;

/// The bytes that a line end can have.
pub(crate) const ROOM: usize = 64;

#[derive(Drop)]
pub(crate) struct LineEnd {
    bytes: [u8; ROOM],
    // Where the end begins.
    start: usize,
}

impl Model for LineEnd {
    ghost use Rattle.std.specs.Prelude.{◌≤◌, List, ℕ, drop};
    ghost use Rattle.transcripts.specs.declared.line_end.TheConstants.{ROOM};

    ghost Value = { List ℕ };

    ghost view = { λ a. drop a.start a.bytes };

    ghost invariant = { λ a. a.start ≤ ROOM };
}

impl LineEnd {
    pub(crate) fn new() -> LineEnd
        ensures empty { result ≡ [] }
    {
        LineEnd {
            bytes: [0; ROOM],
            start: ROOM,
        }
    }

    #[inline(always)]
    pub(crate) fn clear(&mut self)
        ensures empty { self.new ≡ [] }
    {
        self.start = ROOM;
    }

    /// Puts the digits of a number before it.
    #[inline(always)]
    pub(crate) fn put_number(&mut self, number: u32)
        requires room { 10 + length self.old ≤ ROOM }
        ensures put { self.new ≡ decimal number ++ self.old }
        ensures length { length self.new ≤ 10 + length self.old }
    {
        self.start = write_digits(u64::from(number), &mut self.bytes, self.start);
    }

    /// Puts the digits of a stamp before it.
    #[inline(always)]
    pub(crate) fn put_stamp(&mut self, stamp: u64)
        requires room { 20 + length self.old ≤ ROOM }
        ensures put { self.new ≡ decimal stamp ++ self.old }
    {
        self.start = write_digits(stamp, &mut self.bytes, self.start);
    }

    /// Puts bytes before it.
    #[inline(always)]
    pub(crate) fn put_bytes(&mut self, bytes: &[u8])
        requires room { length bytes.now + length self.old ≤ ROOM }
        ensures put { self.new ≡ bytes.now ++ self.old }
    {
        let start = self.start - bytes.len();
        self.bytes[start..self.start].copy_from_slice(bytes);
        self.start = start;
    }

    #[inline(always)]
    pub(crate) fn as_slice(&self) -> &[u8]
        ensures bytes { result.now ≡ self.now }
    {
        &self.bytes[self.start..]
    }
}
