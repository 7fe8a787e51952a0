//! Things that change places with those at the other ends of the links.

ghost use Rattle.std.specs.Prelude.{◌≡◌, ◌+◌, ◌<◌, ◌≤◌, IfOk, List, length, vec_len};
ghost use Rattle.interference.specs.Net.{IsNetwork, IsVertex, count_of, degree_of};
ghost use Rattle.port_rows.specs.Crossing.{IsCrossedTo, IsSwapped, place, with_row};
ghost use Rattle.port_rows.specs.Rows.{AreCrossed, HasShape, row_at, rows_of};

use interference::Network;
use std::alloc::{AllocError, Global};
use std::mem;

// A thing of the row of vertex `v`, which has been taken out of the rows, changes places with one of that of `w`.
fn swap_things<T>(v: u32, row: &mut Vec<T>, i: u32, rows: &mut Vec<Vec<T>>, w: u32, j: u32)
    requires vertices { (1 ≤ v) × (v < w) × (w ≤ vec_len rows.old) }
    requires here { i < vec_len row.old }
    requires there { j < length (row_at (rows_of rows.old.items) w) }
    ensures swapped { IsSwapped (with_row (rows_of rows.old.items) v row.old.items) v i w j
        (with_row (rows_of rows.new.items) v row.new.items) }
    ensures count { vec_len rows.new ≡ vec_len rows.old }
{
    mem::swap(
        &mut row[i as usize],
        &mut rows[(w - 1) as usize][j as usize],
    );
}

// A thing of the row of vertex `v`, which has been taken out of the rows, changes places with the one at the other end
// of its link, if that is at a greater vertex.
fn cross_link<T>(net: &Network, v: u32, i: u32, row: &mut Vec<T>, rows: &mut Vec<Vec<T>>)
    requires vertex { IsVertex net.now v }
    requires port { i < degree_of net.now v }
    requires count { vec_len rows.old ≡ count_of net.now }
    requires shape { HasShape net.now (with_row (rows_of rows.old.items) v row.old.items) }
    ensures count { vec_len rows.new ≡ count_of net.now }
    ensures shape { HasShape net.now (with_row (rows_of rows.new.items) v row.new.items) }
    ensures crossed { (all : List (List T))
        → IsCrossedTo net.now all (place v i) (with_row (rows_of rows.old.items) v row.old.items)
        → IsCrossedTo net.now all (place v (i + 1)) (with_row (rows_of rows.new.items) v row.new.items) }
{
    let w = net.neighbour(v, i);
    if w < v {
        return;
    }
    swap_things(v, row, i, rows, w, net.back_port(v, i));
}

// The same for each thing of the row.
fn cross_row<T>(net: &Network, v: u32, row: &mut Vec<T>, rows: &mut Vec<Vec<T>>)
    requires vertex { IsVertex net.now v }
    requires count { vec_len rows.old ≡ count_of net.now }
    requires shape { HasShape net.now (with_row (rows_of rows.old.items) v row.old.items) }
    ensures count { vec_len rows.new ≡ count_of net.now }
    ensures crossed { (all : List (List T))
        → IsCrossedTo net.now all (place v 0) (with_row (rows_of rows.old.items) v row.old.items)
        → IsCrossedTo net.now all (place (v + 1) 0) (with_row (rows_of rows.new.items) v row.new.items) }
{
    for i in 0..net.degree(v) {
        cross_link(net, v, i, row, rows);
    }
}

/// Each thing of these rows, which have one for each vertex and port, at the vertex and port of the other end of its
/// link. They change places, which takes no memory.
///
/// # Errors
///
/// None today: an `AllocError` stays in the type for its callers.
pub fn crossed<T: Drop>(
    alloc: Global,
    net: &Network,
    rows: Vec<Vec<T>>,
) -> Result<Vec<Vec<T>>, AllocError>
    requires shape { HasShape net.now (rows_of rows.items) }
    ensures crossed { IfOk result (λ all. AreCrossed net.now (rows_of rows.items) (rows_of all.items)) }
    ensures network { IfOk result (λ _. IsNetwork net.now) }
{
    let mut rows = rows;
    for v in 0..net.nodes() {
        let mut row = mem::replace(&mut rows[v as usize], Vec::new(alloc));
        cross_row(net, v + 1, &mut row, &mut rows);
        rows[v as usize] = row;
    }
    Ok(rows)
}
