//! Reading entries from the first.

ghost use Rattle.std.specs.Iterator.{YieldsFirst, item_count};

use crate::bare::{Act, BareEntry, join_wire};
use crate::blocks::BlockIter;
use crate::entry::Entry;
use crate::rows::StampedEntry;
use std::marker::Model;

/// The entries of an `Entries`, by value, seen as the list of those that are left.
pub struct Iter<'a, T> {
    pub(crate) bares: BlockIter<'a, BareEntry>,
    pub(crate) payloads: &'a [T],
}

impl<'a, T> Drop for Iter<'a, T> {
    fn drop(self) {
        let Iter {
            bares: _,
            payloads: _,
        } = self;
    }
}

impl<'a, T> Model for Iter<'a, T> {
    ghost use Rattle.std.specs.Prelude.{◌≡◌, List, length};
    ghost use Rattle.entries.specs.declared.entry.Entry.{Entry};

    ghost Value = { List (Entry T) };

    ghost use Rattle.entries.specs.Bare.{entries_of, payloads_of_entries};

    ghost view = { λ it. entries_of it.bares it.payloads.now };

    // Each entry that should have a payload has one.
    ghost invariant = { λ it. payloads_of_entries it.bares ≡ length it.payloads.now };
}

impl<'a, T: Copy> Iterator for Iter<'a, T> {
    type Item = Entry<T>;

    ghost next_gives = { YieldsFirst (λ rest. rest) };

    ghost remaining = { item_count (λ rest. rest) };

    fn next(&mut self) -> Option<Entry<T>> {
        let bare = self.bares.next()?;
        match bare.act {
            Act::Pulse => Some(Entry::Pulse(bare.pulse)),
            Act::Put(kind) => {
                let (wire, payloads) = join_wire(kind, bare.pulse, self.payloads);
                self.payloads = payloads;
                Some(Entry::Put(bare.vertex, wire))
            }
            Act::Take(kind) => {
                let (wire, payloads) = join_wire(kind, bare.pulse, self.payloads);
                self.payloads = payloads;
                Some(Entry::Take(bare.vertex, wire))
            }
        }
    }
}

/// The entries of an `Entries` with their stamps, by value, seen as the list of those that are left.
pub struct StampedIter<'a, T> {
    pub(crate) stamps: BlockIter<'a, u64>,
    pub(crate) entries: Iter<'a, T>,
}

impl<'a, T> Drop for StampedIter<'a, T> {
    fn drop(self) {
        let StampedIter {
            stamps: _,
            entries: _,
        } = self;
    }
}

impl<'a, T> Model for StampedIter<'a, T> {
    ghost use Rattle.std.specs.Prelude.{◌≡◌, List, length};
    ghost use Rattle.entries.specs.declared.rows.StampedEntry.{StampedEntry};

    ghost Value = { List (StampedEntry T) };

    ghost use Rattle.entries.specs.Rows.{stamp_each};

    ghost view = { λ it. stamp_each it.stamps it.entries };

    // There is a stamp for each entry.
    ghost invariant = { λ it. length it.stamps ≡ length it.entries };
}

impl<'a, T: Copy> Iterator for StampedIter<'a, T> {
    type Item = StampedEntry<T>;

    ghost next_gives = { YieldsFirst (λ rest. rest) };

    ghost remaining = { item_count (λ rest. rest) };

    fn next(&mut self) -> Option<StampedEntry<T>> {
        let entry = self.entries.next()?;
        let stamp = self.stamps.next()?;
        Some(StampedEntry { stamp, entry })
    }
}
