//! What a node writes down, if it writes down what it does.

ghost use Rattle.std.specs.Prelude.{◌≡◌, IsTrue, OnErr, OnOk, []};
ghost use Rattle.entries.specs.Recorded.{HasRoom, HasSame, HasWritten, entries_by, is_on};

use crate::entry::Entry;
use crate::list::Entries;
use interference::Memory;
use std::alloc::Global;

/// The entries of a node that writes down what it does, or nothing.
pub enum Recorder<T> {
    Off,
    On(Entries<T>),
}

impl<T: Drop> Drop for Recorder<T> {
    fn drop(self) {
        match self {
            Recorder::Off => {}
            Recorder::On(_) => {}
        }
    }
}

impl<T: Copy> Recorder<T> {
    /// A recorder without entries, which takes no memory: one that writes, or one that doesn't.
    pub fn new(alloc: Global, on: bool) -> Recorder<T>
        ensures on { is_on result ≡ on }
        ensures entries { entries_by result ≡ [] }
    {
        if on {
            Recorder::On(Entries::new(alloc))
        } else {
            Recorder::Off
        }
    }

    /// Whether entries are written down.
    pub fn is_on(&self) -> bool
        ensures on { result ≡ is_on self.now }
    {
        matches!(self, Recorder::On(_))
    }

    /// Room for one entry more, of any kind, if entries are written down. The caller knows by `ON` whether they are.
    ///
    /// # Errors
    ///
    /// `Memory` if memory is refused.
    #[inline(always)]
    pub fn reserve<const ON: bool>(&mut self) -> Result<(), Memory>
        requires on { is_on self.old ≡ ON }
        ensures same { HasSame self.old self.new }
        ensures room { OnOk result (HasRoom self.new) }
        ensures refused { OnErr result (IsTrue (is_on self.old)) }
    {
        match self {
            Recorder::On(entries) if ON => entries.reserve(),
            _ => Ok(()),
        }
    }

    /// Writes an entry down with its stamp, if entries are written down; there is room for it. The caller knows by `ON`
    /// whether they are.
    #[inline(always)]
    pub fn write<const ON: bool>(&mut self, stamp: u64, entry: Entry<T>)
        requires on { is_on self.old ≡ ON }
        requires room { HasRoom self.old }
        ensures written { HasWritten stamp entry self.old self.new }
    {
        match self {
            Recorder::On(entries) if ON => entries.push_reserved(stamp, entry),
            _ => {}
        }
    }

    /// The entries that it wrote down; none if it wrote nothing.
    pub fn into_entries(self, alloc: Global) -> Entries<T>
        ensures entries { result.items ≡ entries_by self }
    {
        match self {
            Recorder::Off => Entries::new(alloc),
            Recorder::On(entries) => entries,
        }
    }
}
