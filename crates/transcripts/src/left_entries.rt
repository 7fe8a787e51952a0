//! The entries that a node has left to write.

ghost use Rattle.std.specs.Prelude.{◌≡◌, ◌∷◌, [], MatchOption, true};
ghost use Rattle.transcripts.specs.Merge.{starts_at};

use entries::{StampedEntry, StampedIter};
use std::marker::Model;

/// The entries that a node has left, by value, seen as their list. The first of them is read ahead, so that its stamp
/// is known while it is left.
pub struct LeftEntries<'a, T> {
    first: Option<StampedEntry<T>>,
    behind: StampedIter<'a, T>,
}

impl<'a, T: Drop> Drop for LeftEntries<'a, T> {
    fn drop(self) {
        let LeftEntries {
            first: _,
            behind: _,
        } = self;
    }
}

impl<'a, T> Model for LeftEntries<'a, T> {
    ghost use Rattle.std.specs.Prelude.{List};
    ghost use Rattle.entries.specs.declared.rows.StampedEntry.{StampedEntry};

    ghost Value = { List (StampedEntry T) };

    ghost use Rattle.transcripts.specs.Merge.{list_from};

    ghost view = { λ left. list_from left.first left.behind };
}

impl<'a, T: Copy> LeftEntries<'a, T> {
    /// These entries.
    pub fn new(mut behind: StampedIter<'a, T>) -> LeftEntries<'a, T>
        ensures { result ≡ behind.entry }
    {
        let first = behind.next();
        LeftEntries { first, behind }
    }

    /// The stamp of the first, if there is one.
    pub fn stamp(&self) -> Option<u64>
        ensures { MatchOption result (self.now ≡ []) (λ stamp. starts_at self.now stamp ≡ true) }
    {
        match &self.first {
            None => None,
            Some(entry) => Some(entry.stamp),
        }
    }

    /// Takes the first, if there is one.
    pub fn take(&mut self) -> Option<StampedEntry<T>>
        ensures { MatchOption result (self.old ≡ []) (λ first. self.old ≡ first ∷ self.new) }
    {
        let next = self.behind.next();
        let first = self.first.take();
        self.first = next;
        first
    }
}
