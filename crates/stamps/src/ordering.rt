//! The entries of all nodes, in the order of their stamps.

ghost use Rattle.std.specs.Prelude.{◌≡◌, ◌<◌, ◌^◌, ◌++◌, All, IfOk, OnOk, length, map};
ghost use Rattle.stamps.specs.Stamps.{Rises};
ghost use Rattle.stamps.specs.Merged.{IsMerge, list_of};
ghost use Rattle.stamps.specs.Gathered.{rows_from, with_vertex};

use entries::{StampedEntry, StampedRow};
use interference::Memory;
use std::alloc::{AllocError, Global};

// Appends the entries of a node to those of other nodes.
fn add_entries<T: Copy>(
    rows: &mut Vec<StampedRow<T>>,
    vertex: u32,
    entries: &[StampedEntry<T>],
) -> Result<(), AllocError>
    ensures rows { OnOk result (rows.new.items ≡ rows.old.items ++ with_vertex vertex entries.now) }
{
    for StampedEntry { stamp, entry } in entries {
        rows.push(StampedRow {
            stamp: *stamp,
            vertex,
            entry: *entry,
        })?;
    }
    Ok(())
}

// The entries of all nodes, by vertex.
fn by_vertex<T: Copy>(
    alloc: Global,
    lists: &[Vec<StampedEntry<T>>],
) -> Result<Vec<StampedRow<T>>, AllocError>
    requires few { length lists.now < 2 ^ 32 }
    ensures rows { IfOk result (λ rows. rows.items ≡ rows_from 1 (map (λ list. list.items) lists.now)) }
{
    let mut rows = Vec::new(alloc);
    for (index, list) in lists.iter().enumerate() {
        add_entries(&mut rows, (index + 1) as u32, list)?;
    }
    Ok(rows)
}

/// The entries of all nodes in the order of their stamps, and of their vertices if the stamps are equal, each once.
/// List `v - 1` is of the node of vertex `v`.
///
/// # Errors
///
/// `Memory` if memory is refused.
pub fn order<T: Copy>(
    alloc: Global,
    lists: &[Vec<StampedEntry<T>>],
) -> Result<Vec<StampedRow<T>>, Memory>
    requires few { length lists.now < 2 ^ 32 }
    requires rising { All (λ list. Rises list.items) lists.now }
    ensures merge { IfOk result
        (λ rows. IsMerge (length lists.now) (list_of (map (λ list. list.items) lists.now)) rows.items) }
{
    let mut rows = by_vertex(alloc, lists)?;
    rows.sort_by_key(|row| (row.stamp, row.vertex))?;
    Ok(rows)
}
