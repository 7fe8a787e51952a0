//! What a node reads at a pulse.

ghost use Rattle.std.specs.Prelude.{◌≡◌, ◌<◌, ◌≤◌, ◌+◌, ◌↔◌, Option, IfOk, IsTrue};
ghost use Rattle.std.specs.Prelude.{length, replicate, slice_get, slice_set, vec_capacity};
ghost use Rattle.interference.specs.declared.limits.TheConstants.{MAX_DEGREE};
ghost use Rattle.node_api.specs.Boxes.{Mail, nothing, at_port, unread, HasFrom, Reads};

use crate::marks::Marks;
use crate::reader::Reader;
use interference::Memory;
use std::alloc::Global;
use std::marker::Model;

/// What a node reads at a pulse: at most one payload a port, read by ascending port. Ports count from 0.
/// Contracts see the payload or none at each port, and the port from which reading goes on.
pub struct Inbox<T> {
    // The ports at which a payload is, with their count.
    marks: Marks,
    // One slot a port, in room that `new` reserved; none before the first payload. The slot of a port that isn't
    // marked means nothing.
    slots: Vec<T>,
    // How many payloads have been read: those at ports before the cursor.
    read: u32,
    cursor: u32,
}

impl<T: Drop> Drop for Inbox<T> {
    fn drop(self) {
        let Inbox {
            marks: _,
            slots: _,
            read: _,
            cursor: _,
        } = self;
    }
}

impl<T> Model for Inbox<T> {
    ghost use Rattle.std.specs.Prelude.{length, vec_capacity};
    ghost use Rattle.node_api.specs.Boxes.{Mail};
    ghost use Rattle.node_api.specs.Slots.{IsInbox, slots_of};

    ghost Value = { Mail T };

    ghost view = { λ a. record { slots = slots_of a.marks a.slots.items; cursor = a.cursor } };

    ghost invariant = { λ a. IsInbox a.marks (vec_capacity a.slots) (length a.slots.items) a.read a.cursor };
}

impl<T: Copy> Inbox<T> {
    /// An empty inbox of `degree` ports, at most 1,023, with room for a payload at each.
    ///
    /// # Errors
    ///
    /// `Memory` if memory is refused. No later call can return it.
    pub fn new(alloc: Global, degree: u32) -> Result<Inbox<T>, Memory>
        requires degree { degree ≤ MAX_DEGREE }
        ensures empty { IfOk result (λ inbox. inbox ≡ unread (nothing degree)) }
    {
        let marks = Marks::new(alloc, degree)?;
        let slots = Vec::with_capacity(alloc, degree as usize)?;
        Ok(Inbox {
            marks,
            slots,
            read: 0,
            cursor: 0,
        })
    }

    /// What is at a port, if anything.
    pub fn get(&self, port: u32) -> Option<T>
        requires port { port < length self.now.slots }
        ensures payload { result ≡ at_port self.now.slots port }
    {
        if self.marks.has(port) {
            Some(self.slots[port as usize])
        } else {
            None
        }
    }

    /// Whether no payload is at a port.
    pub fn is_empty(&self, port: u32) -> bool
        requires port { port < length self.now.slots }
        ensures empty { IsTrue result ↔ (at_port self.now.slots port ≡ Option.None) }
    {
        !self.marks.has(port)
    }

    /// Puts a payload at a port that is empty (`is_empty`). The cursor stays.
    pub fn put(&mut self, port: u32, payload: T)
        requires port { port < length self.old.slots }
        requires empty { at_port self.old.slots port ≡ Option.None }
        ensures slots { self.new.slots ≡ slice_set self.old.slots port (Option.Some payload) }
        ensures cursor { self.new.cursor ≡ self.old.cursor }
    {
        write_slot(&mut self.slots, self.marks.len(), port, payload);
        self.marks.add(port);
        if port < self.cursor {
            self.read += 1;
        }
    }

    /// A reader of the inbox, which begins at the first port, wherever the inbox itself is read.
    pub fn reader(&self) -> Reader<'_, T>
        ensures unread { result ≡ unread self.now.slots }
    {
        Reader::new(&self.marks, self.slots.as_slice())
    }

    /// Begins reading again at the first port.
    pub fn rewind(&mut self)
        ensures unread { self.new ≡ unread self.old.slots }
    {
        self.read = 0;
        self.cursor = 0;
    }

    /// Empties the inbox, and begins reading again. Costs no walk over the ports.
    pub fn clear(&mut self)
        ensures empty { self.new ≡ unread (nothing (length self.old.slots)) }
    {
        self.rewind();
        // An inbox to which nothing came has no marks to take away.
        if self.marks.count() != 0 {
            self.marks.clear();
        }
    }

    /// Whether a payload is still to be read.
    pub fn has_next(&self) -> bool
        ensures more { IsTrue result ↔ HasFrom self.now.slots self.now.cursor }
    {
        self.read < self.marks.count()
    }

    /// Reads the next payload by ascending port; there is one (`has_next`).
    pub fn next(&mut self) -> T
        requires more { HasFrom self.old.slots self.old.cursor }
        ensures reads { Reads self.old result self.new }
    {
        let port = self.marks.first_from(self.cursor);
        self.read += 1;
        self.cursor = port + 1;
        self.slots[port as usize]
    }

    /// The port of the payload that `next` read last. `next` was called since the last rewind.
    pub fn sender(&self) -> u32
        requires read { 0 < self.now.cursor }
        ensures port { result + 1 ≡ self.now.cursor }
    {
        self.cursor - 1
    }
}

// Writes the slot of a port. The first payload makes the slots, in reserved room.
fn write_slot<T: Copy>(slots: &mut Vec<T>, degree: u32, port: u32, payload: T)
    requires port { port < degree }
    requires room { degree ≤ vec_capacity slots.old }
    requires made { 0 < length slots.old.items → length slots.old.items ≡ degree }
    ensures made { length slots.new.items ≡ degree }
    ensures here { slice_get slots.new.items port ≡ Option.Some payload }
    ensures others { 0 < length slots.old.items → slots.new.items ≡ slice_set slots.old.items port payload }
    ensures room { vec_capacity slots.old ≤ vec_capacity slots.new }
{
    if slots.is_empty() {
        fill_slots(slots, degree, payload);
    } else {
        slots[port as usize] = payload;
    }
}

// Makes so many slots, in reserved room. Never inlined, since an inbox does it once.
#[inline(never)]
fn fill_slots<T: Copy>(slots: &mut Vec<T>, degree: u32, payload: T)
    requires none { length slots.old.items ≡ 0 }
    requires room { degree ≤ vec_capacity slots.old }
    ensures slots { slots.new.items ≡ replicate degree payload }
    ensures room { vec_capacity slots.old ≤ vec_capacity slots.new }
{
    for _port in 0..degree {
        slots.push_reserved(payload);
    }
}
