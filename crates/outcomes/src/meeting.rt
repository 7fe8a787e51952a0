//! Each link's ends meet.

ghost use Rattle.std.specs.Prelude.{◌≡◌, ◌≤◌, ℕ, All, IfOk, length, map};
ghost use Rattle.link_queue.specs.Ends.{held_stamped, put_stamped, taken_stamped};
ghost use Rattle.wired_nodes.specs.Links.{HoldAtMost};
ghost use Rattle.outcomes.specs.Meets.{AreMet, RowsAreMet};

use interference::Memory;
use link_queue::Met;
use node_api::NodeProgram;
use port_rows::pairs;
use std::alloc::Global;
use std::sync::Wait;
use wired_nodes::{Links, WiredPut, WiredTake, Wiring};

// The ends of the links out of a vertex, by port.
type Row<J: Wiring, P: NodeProgram> = (Vec<WiredPut<J, P::Payload>>, Vec<WiredTake<J, P::Payload>>);

// The links of a row of ends.
fn meet_row<J: Wiring, P: NodeProgram, R: Wait>(
    rt: &R,
    alloc: Global,
    links: &Links<J, P>,
    row: Vec<(WiredPut<J, P::Payload>, WiredTake<J, P::Payload>)>,
) -> Result<Vec<Met<P::Payload>>, Memory>
    requires same { All (λ x. (x.1.vertex ≡ x.0.vertex) × (x.1.port ≡ x.0.port)) row.items }
    ensures met { IfOk result (λ mets. AreMet mets.items (map (λ x. put_stamped x.0.end) row.items)
        (map (λ x. taken_stamped x.1.end) row.items)) }
    ensures room { IfOk result (λ mets. (capacity : ℕ)
        → HoldAtMost links.now capacity → All (λ met. length (held_stamped met) ≤ capacity) mets.items) }
{
    let mut mets = Vec::with_capacity(alloc, row.len())?;
    for (put, take) in row {
        mets.push_reserved(links.meet(rt, alloc, put, take)?);
    }
    Ok(mets)
}

/// The links out of a vertex meet their ends, given by port.
///
/// # Errors
///
/// `Memory` if memory is refused.
pub fn meet_ends<J: Wiring, P: NodeProgram, R: Wait>(
    rt: &R,
    alloc: Global,
    links: &Links<J, P>,
    puts: Vec<WiredPut<J, P::Payload>>,
    takes: Vec<WiredTake<J, P::Payload>>,
) -> Result<Vec<Met<P::Payload>>, Memory>
    requires takes { map {B = ℕ × ℕ} (λ e. (e.vertex, e.port)) takes.items
        ≡ map {B = ℕ × ℕ} (λ e. (e.vertex, e.port)) puts.items }
    ensures met { IfOk result (λ mets. AreMet mets.items (map (λ e. put_stamped e.end) puts.items)
        (map (λ e. taken_stamped e.end) takes.items)) }
    ensures room { IfOk result (λ mets. (capacity : ℕ)
        → HoldAtMost links.now capacity → All (λ met. length (held_stamped met) ≤ capacity) mets.items) }
{
    let row = pairs(alloc, puts, takes)?;
    meet_row(rt, alloc, links, row)
}

// The links of each row of ends.
fn meet_each<J: Wiring, P: NodeProgram, R: Wait>(
    rt: &R,
    alloc: Global,
    links: &Links<J, P>,
    rows: Vec<Row<J, P>>,
) -> Result<Vec<Vec<Met<P::Payload>>>, Memory>
    requires takes { All (λ x. map {B = ℕ × ℕ} (λ e. (e.vertex, e.port)) x.1.items
        ≡ map {B = ℕ × ℕ} (λ e. (e.vertex, e.port)) x.0.items) rows.items }
    ensures met { IfOk result (λ all. RowsAreMet (map (λ mets. mets.items) all.items)
        (map (λ x. map (λ e. put_stamped e.end) x.0.items) rows.items)
        (map (λ x. map (λ e. taken_stamped e.end) x.1.items) rows.items)) }
    ensures room { IfOk result (λ all. (capacity : ℕ)
        → HoldAtMost links.now capacity
        → All (λ mets. All (λ met. length (held_stamped met) ≤ capacity) mets.items) all.items) }
{
    let mut all = Vec::with_capacity(alloc, rows.len())?;
    for (puts, takes) in rows {
        all.push_reserved(meet_ends(rt, alloc, links, puts, takes)?);
    }
    Ok(all)
}

/// The links of a run meet their ends, given in rows: each end that puts, and at the same place the one that takes of
/// its link.
///
/// # Errors
///
/// `Memory` if memory is refused.
pub fn meet_rows<J: Wiring, P: NodeProgram, R: Wait>(
    rt: &R,
    alloc: Global,
    links: &Links<J, P>,
    puts: Vec<Vec<WiredPut<J, P::Payload>>>,
    takes: Vec<Vec<WiredTake<J, P::Payload>>>,
) -> Result<Vec<Vec<Met<P::Payload>>>, Memory>
    requires takes { map (λ row. map {B = ℕ × ℕ} (λ e. (e.vertex, e.port)) row.items) takes.items
        ≡ map (λ row. map {B = ℕ × ℕ} (λ e. (e.vertex, e.port)) row.items) puts.items }
    ensures met { IfOk result (λ all. RowsAreMet (map (λ mets. mets.items) all.items)
        (map (λ row. map (λ e. put_stamped e.end) row.items) puts.items)
        (map (λ row. map (λ e. taken_stamped e.end) row.items) takes.items)) }
    ensures room { IfOk result (λ all. (capacity : ℕ)
        → HoldAtMost links.now capacity
        → All (λ mets. All (λ met. length (held_stamped met) ≤ capacity) mets.items) all.items) }
{
    let rows = pairs(alloc, puts, takes)?;
    meet_each(rt, alloc, links, rows)
}
