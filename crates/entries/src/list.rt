//! The entries of a node.

ghost use Rattle.std.specs.Prelude.{◌≡◌, ◌<◌, ◌≤◌, ◌+◌, ◌++◌, ◌∷◌, [], length, OnOk, OnErr, vec_capacity, vec_len};
ghost use Rattle.entries.specs.Rows.{bare_of, stamped_entry};

use crate::bare::{BareEntry, split};
use crate::blocks::Blocks;
use crate::entry::Entry;
use crate::iter::{Iter, StampedIter};
use interference::Memory;
use std::alloc::{AllocError, Global};
use std::marker::Model;

/// The entries of a node in its own order with their stamps, in 20 bytes each and the bytes of the payloads. Contracts
/// see the list of entries, each with its stamp (`items`), and for how many more there is room, whatever their wires
/// (`room`).
pub struct Entries<T> {
    // The stamp of each entry.
    stamps: Blocks<u64>,
    bares: Blocks<BareEntry>,
    // The payloads of those that have one, in the same order.
    payloads: Vec<T>,
}

impl<T: Drop> Drop for Entries<T> {
    fn drop(self) {
        let Entries {
            stamps: _,
            bares: _,
            payloads: _,
        } = self;
    }
}

impl<T> Model for Entries<T> {
    ghost use Rattle.std.specs.Prelude.{◌≡◌, ◌-◌, length, min, vec_capacity, vec_len};
    ghost use Rattle.entries.specs.EntryList.{EntryList};

    ghost Value = { EntryList T };

    ghost use Rattle.entries.specs.Bare.{entries_of, payloads_of_entries};
    ghost use Rattle.entries.specs.Rows.{stamp_each};

    ghost view = { λ e. record {
      items = stamp_each e.stamps.items (entries_of e.bares.items e.payloads.items);
      room = min e.stamps.room (min e.bares.room (vec_capacity e.payloads - vec_len e.payloads));
    } };

    ghost invariant = { λ e. (payloads_of_entries e.bares.items ≡ length e.payloads.items)
        × (length e.stamps.items ≡ length e.bares.items) };
}

// Room for one payload more. Few entries have one, so these lie in one list, which grows by a quarter.
fn reserve_payload<T>(payloads: &mut Vec<T>) -> Result<(), AllocError>
    ensures items { payloads.new.items ≡ payloads.old.items }
    ensures len { vec_len payloads.new ≡ vec_len payloads.old }
    ensures room { OnOk result (vec_len payloads.new < vec_capacity payloads.new) }
    ensures refused { OnErr result ((vec_capacity payloads.old ≤ vec_len payloads.old)
        × (vec_capacity payloads.new ≡ vec_capacity payloads.old)) }
{
    let len = payloads.len();
    if len < payloads.capacity() {
        return Ok(());
    }
    payloads.reserve_exact(len / 4 + 4)
}

impl<T> Entries<T> {
    /// No entries, which take no memory.
    pub fn new(alloc: Global) -> Entries<T>
        ensures items { result.items ≡ [] }
    {
        Entries {
            stamps: Blocks::new(alloc),
            bares: Blocks::new(alloc),
            payloads: Vec::new(alloc),
        }
    }

    /// How many entries there are.
    pub fn len(&self) -> usize
        ensures len { result ≡ length self.now.items }
    {
        self.bares.len()
    }

    /// Room for one entry more, of any kind.
    ///
    /// # Errors
    ///
    /// `Memory` if memory is refused.
    pub fn reserve(&mut self) -> Result<(), Memory>
        ensures items { self.new.items ≡ self.old.items }
        ensures room { OnOk result (0 < self.new.room) }
        ensures refused { OnErr result (self.new ≡ self.old) }
    {
        self.stamps.reserve()?;
        self.bares.reserve()?;
        reserve_payload(&mut self.payloads)?;
        Ok(())
    }

    /// Appends an entry with its stamp, for which there is room.
    pub fn push_reserved(&mut self, stamp: u64, entry: Entry<T>)
        requires room { 0 < self.old.room }
        ensures items { self.new.items ≡ self.old.items ++ stamped_entry stamp entry ∷ [] }
        ensures room { self.old.room ≤ self.new.room + 1 }
    {
        self.stamps.push_reserved(stamp);
        let (bare, payload) = split(entry);
        self.bares.push_reserved(bare);
        if let Some(payload) = payload {
            self.payloads.push_reserved(payload);
        }
    }

    /// The entries from the first, each by value, without their stamps.
    pub fn iter(&self) -> Iter<'_, T>
        ensures items { result ≡ bare_of self.now.items }
    {
        Iter {
            bares: self.bares.iter(),
            payloads: self.payloads.as_slice(),
        }
    }

    /// The entries from the first with their stamps, each by value.
    pub fn stamped(&self) -> StampedIter<'_, T>
        ensures items { result ≡ self.now.items }
    {
        StampedIter {
            stamps: self.stamps.iter(),
            entries: self.iter(),
        }
    }
}
