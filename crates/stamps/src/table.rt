//! Whether the next row is in place, by what the rows before it say.

ghost use Rattle.std.specs.Prelude.{◌≡◌, ◌≢◌, ◌++◌, ◌∷◌, [], suc, List, MatchBool, OnOk, slice_index_or};
ghost use Rattle.entries.specs.declared.entry.Entry.TheVariants.{Pulse};
ghost use Rattle.entries.specs.declared.rows.StampedRow.{StampedRow};
ghost use Rattle.entries.specs.Rows.{stamped_row};
ghost use Rattle.stamps.specs.Merged.{IsInPlace, Precedes, stamp_behind};
ghost use Rattle.stamps.specs.Table.{IsCounted, IsPushed, IsEmptyTable, IsTableOf, count_in, counter_at};
ghost use Rattle.stamps.specs.Table.{list_in, wire_stamp_at};

use entries::{Entry, StampedRow};
use interference::Memory;
use std::alloc::{AllocError, Global};
use std::collections::HashMap;

type Puts = HashMap<(u32, u32), Vec<u64>>;

type Takes = HashMap<(u32, u32), usize>;

/// What rows of stamped entries say of the next row: its stamp, and that it may not come before any of them. A look
/// takes the same time however many rows there are.
pub struct StampTable {
    // The counter of each vertex that has a row.
    counters: HashMap<u32, u64>,
    // The stamps of the puts on a link, by the vertex that puts and the one that takes.
    puts: Puts,
    // How many wires were taken, by the vertex that takes and the one that puts.
    takes: Takes,
    // The last row, at the beginning 0 and 0.
    last_stamp: u64,
    last_vertex: u32,
}

impl Drop for StampTable {
    fn drop(self) {
        let StampTable {
            counters: _,
            puts: _,
            takes: _,
            last_stamp: _,
            last_vertex: _,
        } = self;
    }
}

// Whether a stamp is one more than a number.
fn follows(stamp: u64, counter: u64) -> bool
    ensures { MatchBool result (stamp ≡ suc counter) (stamp ≢ suc counter) }
{
    0 < stamp && stamp - 1 == counter
}

// Whether a row may come behind a row of this stamp and vertex.
fn comes_behind<T: Copy>(stamp: u64, vertex: u32, row: &StampedRow<T>) -> bool
    ensures { MatchBool result (Precedes (stamped_row stamp vertex (Pulse 0)) row.now)
        (Precedes (stamped_row stamp vertex (Pulse 0)) row.now → ⊥) }
{
    stamp < row.stamp || (stamp == row.stamp && vertex <= row.vertex)
}

// The stamp of put number k on a link, from 0; 0 if there is none.
fn put_stamp(puts: &Puts, link: (u32, u32), k: usize) -> u64
    ensures { result ≡ slice_index_or (list_in puts.now link) k 0 }
{
    match puts.get(&link) {
        Some(stamps) => stamps.get(k).copied().unwrap_or(0),
        None => 0,
    }
}

// How many wires were taken.
fn taken(takes: &Takes, link: (u32, u32)) -> usize
    ensures { result ≡ count_in takes.now link }
{
    takes.get(&link).copied().unwrap_or(0)
}

fn add_put(alloc: Global, puts: &mut Puts, link: (u32, u32), stamp: u64) -> Result<(), AllocError>
    ensures pushed { OnOk result (IsPushed puts.old puts.new link stamp) }
{
    puts.entry(link)?.or_insert(Vec::new(alloc)).push(stamp)?;
    Ok(())
}

fn add_take(takes: &mut Takes, link: (u32, u32)) -> Result<(), AllocError>
    ensures counted { OnOk result (IsCounted takes.old takes.new link) }
{
    // Never refused, since no memory has that many rows; but no contract says it.
    let count = taken(takes, link).checked_add(1).ok_or(AllocError)?;
    takes.insert(link, count)?;
    Ok(())
}

impl StampTable {
    /// The table of no rows.
    pub fn new(alloc: Global) -> StampTable
        ensures none { IsEmptyTable result }
    {
        StampTable {
            counters: HashMap::new(alloc),
            puts: HashMap::new(alloc),
            takes: HashMap::new(alloc),
            last_stamp: 0,
            last_vertex: 0,
        }
    }

    /// The counter of a vertex: the stamp of its last row, or 0 if it has none.
    pub fn stamp_of(&self, vertex: u32) -> u64
        ensures counter { result ≡ counter_at self.now vertex }
    {
        self.counters.get(&vertex).copied().unwrap_or(0)
    }

    // The stamp of the wire that a vertex takes next from another.
    fn wire_stamp(&self, v: u32, w: u32) -> u64
        ensures { result ≡ wire_stamp_at self.now v w }
    {
        put_stamp(&self.puts, (w, v), taken(&self.takes, (v, w)))
    }

    // Whether a row has the stamp that its node's counter gives it.
    fn is_next<T: Copy>(&self, row: &StampedRow<T>) -> bool
        ensures next { (rows : List (StampedRow T)) → IsTableOf rows self.now
            → MatchBool result (row.now.stamp ≡ stamp_behind rows row.now)
            (row.now.stamp ≢ stamp_behind rows row.now) }
    {
        let v = row.vertex;
        let counter = self.stamp_of(v);
        match row.entry {
            Entry::Pulse(_) => follows(row.stamp, counter),
            Entry::Put(_, _) => follows(row.stamp, counter),
            Entry::Take(w, _) => follows(row.stamp, counter.max(self.wire_stamp(v, w))),
        }
    }

    /// Whether a row is in place behind those rows: whether it has the stamp that its node's counter gives it, and none
    /// of them comes after it in the order.
    pub fn is_in_place<T: Copy>(&self, row: &StampedRow<T>) -> bool
        ensures place { (rows : List (StampedRow T)) → IsTableOf rows self.now
            → MatchBool result (IsInPlace rows row.now) (IsInPlace rows row.now → ⊥) }
    {
        comes_behind(self.last_stamp, self.last_vertex, row) && self.is_next(row)
    }

    /// The table with one row more, which is in place.
    ///
    /// # Errors
    ///
    /// `Memory` if memory is refused; the contents of the table are then unspecified.
    pub fn add<T: Copy>(&mut self, alloc: Global, row: &StampedRow<T>) -> Result<(), Memory>
        ensures added { OnOk result ((rows : List (StampedRow T)) → IsTableOf rows self.old
            → IsInPlace rows row.now → IsTableOf (rows ++ row.now ∷ []) self.new) }
    {
        let (v, stamp) = (row.vertex, row.stamp);
        self.last_stamp = stamp;
        self.last_vertex = v;
        self.counters.insert(v, stamp)?;
        match row.entry {
            Entry::Pulse(_) => {}
            Entry::Put(w, _) => add_put(alloc, &mut self.puts, (v, w), stamp)?,
            Entry::Take(w, _) => add_take(&mut self.takes, (v, w))?,
        }
        Ok(())
    }
}
