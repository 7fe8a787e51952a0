//! The check of a plan.

ghost use Rattle.std.specs.Prelude.{◌≡◌, ◌≤◌, [], IfOk, IfErr, None, length};
ghost use Rattle.interference.specs.Net.{IsNetwork, IsVertex, count_of};
ghost use Rattle.channel_plan.specs.Checked.{IsFaultOfPlan, IsFaultOfRow, IsProper, IsTable, RefusesRow, TakesRow};
ghost use Rattle.channel_plan.specs.Checked.{clash_at, first_clash, first_missing, greatest_channel, is_channel_barred};
ghost use Rattle.channel_plan.specs.Checked.{channels_in, most_channel, rows_fault, same_channel};

use crate::laws::plans_without_a_fault_are_proper;
use crate::plan::{CheckFault, Plan};
use interference::Network;
use std::alloc::Global;

// Puts the channel of a row into the table.
fn put_row(net: &Network, table: &mut [Option<u32>], row: (u32, u32)) -> Result<(), CheckFault>
    requires size { length table.old ≡ count_of net.now }
    ensures ok { IfOk result (λ _. TakesRow net.now row table.old table.new) }
    ensures fault { IfErr result (RefusesRow net.now row table.old) }
{
    let (v, channel) = row;
    if v == 0 || v > net.nodes() {
        return Err(CheckFault::Stranger(v));
    }
    let place = (v - 1) as usize;
    if table[place].is_some() {
        return Err(CheckFault::Twice(v));
    }
    if channel > net.greatest_degree() + net.greatest_bars() + 1 {
        return Err(CheckFault::TooHigh(v));
    }
    if is_channel_barred(net, v, channel) {
        return Err(CheckFault::Barred(v));
    }
    table[place] = Some(channel);
    Ok(())
}

// Whether a channel is barred at a vertex; there is no channel 0.
fn is_channel_barred(net: &Network, v: u32, channel: u32) -> bool
    requires vertex { IsVertex net.now v }
    requires within { channel ≤ most_channel net.now }
    requires network { IsNetwork net.now }
    ensures { result ≡ is_channel_barred net.now v channel }
{
    channel > 0 && net.is_barred(v, (channel - 1) as u16)
}

// Puts the channels of the rows into the table, up to the first wrong row.
fn put_rows(net: &Network, table: &mut [Option<u32>], rows: &[(u32, u32)]) -> Result<(), CheckFault>
    requires empty { IsTable net.now [] table.old }
    ensures good { IfOk result (λ _. rows_fault net.now [] rows.now ≡ None) }
    ensures table { IfOk result (λ _. IsTable net.now rows.now table.new) }
    ensures fault { IfErr result (IsFaultOfRow (rows_fault net.now [] rows.now)) }
{
    for row in rows {
        put_row(net, table, *row)?;
    }
    Ok(())
}

// The channels by vertex, where no row is wrong.
fn table_of(
    alloc: Global,
    net: &Network,
    rows: &[(u32, u32)],
) -> Result<Vec<Option<u32>>, CheckFault>
    ensures good { IfOk result (λ table. rows_fault net.now [] rows.now ≡ None) }
    ensures table { IfOk result (λ table. IsTable net.now rows.now table.items) }
    ensures network { IfOk result (λ _. IsNetwork net.now) }
    ensures fault { IfErr result (IsFaultOfRow (rows_fault net.now [] rows.now)) }
{
    let mut table = vec![in alloc; None; net.nodes() as usize]?;
    put_rows(net, &mut table, rows)?;
    Ok(table)
}

// The least vertex that has no channel.
fn missing(net: &Network, table: &[Option<u32>]) -> Option<u32>
    requires { length table.now ≡ count_of net.now }
    ensures { result ≡ first_missing net.now (channels_in table.now) }
{
    for i in 0..net.nodes() {
        if table[i as usize].is_none() {
            return Some(i + 1);
        }
    }
    None
}

fn share(first: Option<u32>, second: Option<u32>) -> bool
    ensures { result ≡ same_channel first second }
{
    match (first, second) {
        (Some(first), Some(second)) => first == second,
        _ => false,
    }
}

// The least greater neighbour that has the channel of v, with v before it.
fn clash_of(net: &Network, table: &[Option<u32>], v: u32) -> Option<(u32, u32)>
    requires size { length table.now ≡ count_of net.now }
    requires vertex { IsVertex net.now v }
    ensures { result ≡ clash_at net.now (channels_in table.now) v }
{
    let own = table[(v - 1) as usize];
    for w in net.neighbours(v) {
        if v < *w && share(own, table[(*w - 1) as usize]) {
            return Some((v, *w));
        }
    }
    None
}

// Of the neighbours that share a channel, the first two.
fn clash(net: &Network, table: &[Option<u32>]) -> Option<(u32, u32)>
    requires size { length table.now ≡ count_of net.now }
    ensures { result ≡ first_clash net.now (channels_in table.now) }
{
    for i in 0..net.nodes() {
        if let Some(pair) = clash_of(net, table, i + 1) {
            return Some(pair);
        }
    }
    None
}

fn greatest(rows: &[(u32, u32)]) -> u32
    ensures { result ≡ greatest_channel rows.now }
{
    let mut most = 0;
    for row in rows {
        most = most.max(row.1);
    }
    most
}

/// The greatest channel of a plan in which each vertex of the network has one row, no row is of another
/// vertex, no channel is above the greatest degree plus the greatest number of bars plus one, none is
/// barred at its vertex, and no two neighbours share a channel; 0 for no nodes.
///
/// # Errors
///
/// Of the first wrong row: `Stranger`, else `Twice`, else `TooHigh`, else `Barred`. Where no row is wrong,
/// `Missing` with the least vertex that has none; else `Clash` with the first two neighbours that share a
/// channel, by the smaller vertex and then by the greater. `Memory` where memory is refused.
pub fn check(alloc: Global, net: &Network, plan: &Plan) -> Result<u32, CheckFault>
    ensures proper { IfOk result (λ _. IsProper net.now plan.now.rows.items) }
    ensures greatest { IfOk result (λ greatest. greatest ≡ greatest_channel plan.now.rows.items) }
    ensures fault { IfErr result (IsFaultOfPlan net.now plan.now.rows.items) }
{
    plans_without_a_fault_are_proper();
    let table = table_of(alloc, net, &plan.rows)?;
    if let Some(v) = missing(net, &table) {
        return Err(CheckFault::Missing(v));
    }
    if let Some((v, w)) = clash(net, &table) {
        return Err(CheckFault::Clash(v, w));
    }
    Ok(greatest(&plan.rows))
}
