//! Entries in lists: each with its stamp, with the vertex of its node, or with both.

ghost use Rattle.std.specs.Prelude.{◌≡◌};
ghost use Rattle.entries.specs.Rows.{without_stamp};

use crate::entry::Entry;

/// An entry with the vertex of its node.
#[derive(Debug, Clone, Copy, PartialEq, Eq)]
pub struct Row<T> {
    pub vertex: u32,
    pub entry: Entry<T>,
}

/// An entry with its stamp: the number of its node's counter after its event.
#[derive(Debug, Clone, Copy, PartialEq, Eq)]
pub struct StampedEntry<T> {
    pub stamp: u64,
    pub entry: Entry<T>,
}

/// An entry with its stamp and the vertex of its node.
#[derive(Debug, Clone, Copy, PartialEq, Eq)]
pub struct StampedRow<T> {
    pub stamp: u64,
    pub vertex: u32,
    pub entry: Entry<T>,
}

impl<T: Copy> StampedRow<T> {
    /// The entry and the vertex alone.
    pub fn without_stamp(&self) -> Row<T>
        ensures row { result ≡ without_stamp self.now }
    {
        Row {
            vertex: self.vertex,
            entry: self.entry,
        }
    }
}
