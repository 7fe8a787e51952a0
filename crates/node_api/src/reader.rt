//! A place of reading in an inbox.

ghost use Rattle.std.specs.Prelude.{◌≡◌, ◌<◌, ◌≤◌, ◌+◌, ◌↔◌, IsTrue, length};
ghost use Rattle.interference.specs.declared.limits.TheConstants.{MAX_DEGREE};
ghost use Rattle.node_api.specs.Boxes.{HasFrom, Reads, unread};
ghost use Rattle.node_api.specs.Slots.{AreMade, slots_of};

use crate::marks::Marks;
use std::marker::Model;

/// What is still to be read of an inbox, by ascending port; reading leaves the inbox as it is. Contracts see what they
/// see of an inbox: the payload or none at each port, and the port from which reading goes on.
#[derive(Drop)]
pub struct Reader<'a, T> {
    // The marks and the slots of the inbox.
    marks: &'a Marks,
    slots: &'a [T],
    // How many payloads have been read: those at ports before the cursor.
    read: u32,
    cursor: u32,
}

impl<'a, T> Model for Reader<'a, T> {
    ghost use Rattle.std.specs.Prelude.{length};
    ghost use Rattle.node_api.specs.Boxes.{Mail};
    ghost use Rattle.node_api.specs.Slots.{IsReader, slots_of};

    ghost Value = { Mail T };

    ghost view = { λ a. record { slots = slots_of a.marks.now a.slots.now; cursor = a.cursor } };

    ghost invariant = { λ a. IsReader a.marks.now (length a.slots.now) a.read a.cursor };
}

impl<'a, T: Copy> Reader<'a, T> {
    // A reader of an inbox with these marks and slots, at its first port.
    pub(crate) fn new(marks: &'a Marks, slots: &'a [T]) -> Reader<'a, T>
        requires degree { length marks.now ≤ MAX_DEGREE }
        requires made { AreMade marks.now (length slots.now) }
        ensures unread { result ≡ unread (slots_of marks.now slots.now) }
    {
        Reader {
            marks,
            slots,
            read: 0,
            cursor: 0,
        }
    }

    /// Whether a payload is still to be read.
    pub fn has_next(&self) -> bool
        ensures more { IsTrue result ↔ HasFrom self.now.slots self.now.cursor }
    {
        self.read < self.marks.count()
    }

    /// Reads the next payload by ascending port; there is one (`has_next`).
    pub fn next(&mut self) -> T
        requires more { HasFrom self.old.slots self.old.cursor }
        ensures reads { Reads self.old result self.new }
    {
        let port = self.marks.first_from(self.cursor);
        self.read += 1;
        self.cursor = port + 1;
        self.slots[port as usize]
    }

    /// The port of the payload that `next` read last; `next` was called.
    pub fn sender(&self) -> u32
        requires read { 0 < self.now.cursor }
        ensures port { result + 1 ≡ self.now.cursor }
    {
        self.cursor - 1
    }
}
