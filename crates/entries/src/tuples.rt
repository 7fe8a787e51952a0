//! The tuples that stand for entries in lists elsewhere: each is one `into` from its record, both ways.

use crate::entry::Entry;
use crate::rows::{Row, StampedEntry, StampedRow};

impl<T> From<(u32, Entry<T>)> for Row<T> {
    ghost use Rattle.std.specs.Prelude.{◌≡◌};
    ghost use Rattle.entries.specs.Rows.{vertex_row};

    ghost from_gives = { λ pair row. row ≡ vertex_row pair.0 pair.1 };

    fn from(pair: (u32, Entry<T>)) -> Row<T> {
        let (vertex, entry) = pair;
        Row { vertex, entry }
    }
}

impl<T> From<Row<T>> for (u32, Entry<T>) {
    ghost use Rattle.std.specs.Prelude.{◌≡◌};

    ghost from_gives = { λ row pair. pair ≡ (row.vertex, row.entry) };

    fn from(row: Row<T>) -> (u32, Entry<T>) {
        (row.vertex, row.entry)
    }
}

impl<T> From<(u64, Entry<T>)> for StampedEntry<T> {
    ghost use Rattle.std.specs.Prelude.{◌≡◌};
    ghost use Rattle.entries.specs.Rows.{stamped_entry};

    ghost from_gives = { λ pair entry. entry ≡ stamped_entry pair.0 pair.1 };

    fn from(pair: (u64, Entry<T>)) -> StampedEntry<T> {
        let (stamp, entry) = pair;
        StampedEntry { stamp, entry }
    }
}

impl<T> From<StampedEntry<T>> for (u64, Entry<T>) {
    ghost use Rattle.std.specs.Prelude.{◌≡◌};

    ghost from_gives = { λ entry pair. pair ≡ (entry.stamp, entry.entry) };

    fn from(entry: StampedEntry<T>) -> (u64, Entry<T>) {
        (entry.stamp, entry.entry)
    }
}

impl<T> From<(u64, u32, Entry<T>)> for StampedRow<T> {
    ghost use Rattle.std.specs.Prelude.{◌≡◌};
    ghost use Rattle.entries.specs.Rows.{stamped_row};

    ghost from_gives = { λ triple row. row ≡ stamped_row triple.0 triple.1 triple.2 };

    fn from(triple: (u64, u32, Entry<T>)) -> StampedRow<T> {
        let (stamp, vertex, entry) = triple;
        StampedRow {
            stamp,
            vertex,
            entry,
        }
    }
}

impl<T> From<StampedRow<T>> for (u64, u32, Entry<T>) {
    ghost use Rattle.std.specs.Prelude.{◌≡◌};

    ghost from_gives = { λ row triple. triple ≡ (row.stamp, row.vertex, row.entry) };

    fn from(row: StampedRow<T>) -> (u64, u32, Entry<T>) {
        (row.stamp, row.vertex, row.entry)
    }
}
