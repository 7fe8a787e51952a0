//! Whether a network takes a list of bars, and how the barred colours are packed.

ghost use Rattle.std.specs.Prelude.{◌≡◌, ◌↔◌, ℕ, ◌+◌, ◌<◌, ◌≤◌, All, IfOk, IsTrue, Some, length, map, slice_index};
ghost use Rattle.graph_limits.specs.Pairs.{IsBarOf, bars_at};
ghost use Rattle.interference.specs.Filling.{ArePackedBars};
ghost use Rattle.interference.specs.Making.{BarsFit, colour_of};

use crate::degrees::{greatest, starts_of};
use crate::edges::comes_before;
use crate::fault::Memory;
use graph_limits::{MAX_BARS, MAX_CHANNEL, MAX_NODES};
use std::alloc::Global;

/// The barred colours of all vertices, ascending by vertex and then by colour.
#[derive(Drop)]
pub(crate) struct PackedBars {
    // Entry v - 1 is where the colours of v begin, entry v where they end.
    pub(crate) starts: Vec<u32>,
    pub(crate) colours: Vec<u16>,
    // The greatest number of colours of any vertex.
    pub(crate) greatest: u32,
}

impl PackedBars {
    // The same in memory of its own.
    pub(crate) fn copy(&self, alloc: Global) -> Result<PackedBars, Memory>
        ensures starts { IfOk result (λ copy. copy.starts.items ≡ self.now.starts.items) }
        ensures colours { IfOk result (λ copy. copy.colours.items ≡ self.now.colours.items) }
        ensures greatest { IfOk result (λ copy. copy.greatest ≡ self.now.greatest) }
    {
        Ok(PackedBars {
            starts: self.starts.to_vec(alloc)?,
            colours: self.colours.to_vec(alloc)?,
            greatest: self.greatest,
        })
    }
}

/// Whether `Network::new` takes the bars: each a vertex, from 1 to `nodes`, and a channel, from 1 to
/// `MAX_CHANNEL`; at most `MAX_BARS` of one vertex; the bars ascending, none twice.
pub fn bars_fit(nodes: u32, bars: &[(u32, u16)]) -> bool
    ensures { IsTrue result ↔ BarsFit nodes bars.now }
{
    let mut last = (0, 0);
    let mut count = 0;
    for bar in bars {
        let next = (bar.0, u32::from(bar.1));
        if !is_bar(nodes, *bar) || !comes_before(last, next) {
            return false;
        }
        count = if next.0 == last.0 { count + 1 } else { 1 };
        if count > MAX_BARS {
            return false;
        }
        last = next;
    }
    true
}

// Whether a bar is of a vertex, and its channel from 1 to the greatest.
fn is_bar(nodes: u32, bar: (u32, u16)) -> bool
    ensures { IsTrue result ↔ IsBarOf (Some nodes) bar }
{
    bar.0 >= 1 && bar.0 <= nodes && bar.1 >= 1 && bar.1 <= MAX_CHANNEL
}

// The barred colours that a list of bars gives the vertices.
pub(crate) fn packed_bars(
    alloc: Global,
    nodes: u32,
    bars: &[(u32, u16)],
) -> Result<PackedBars, Memory>
    requires nodes { nodes ≤ MAX_NODES }
    requires fit { BarsFit nodes bars.now }
    ensures { IfOk result (λ packed.
        ArePackedBars nodes bars.now packed.starts.items packed.colours.items packed.greatest) }
{
    let counts = counts_of(alloc, nodes, bars)?;
    let greatest = greatest(&counts);
    let starts = starts_of(counts);
    let colours = colours_of(alloc, bars)?;
    Ok(PackedBars {
        starts,
        colours,
        greatest,
    })
}

// How many of the bars each vertex has, with 0 before them.
fn counts_of(alloc: Global, nodes: u32, bars: &[(u32, u16)]) -> Result<Vec<u32>, Memory>
    requires nodes { nodes ≤ MAX_NODES }
    requires fit { BarsFit nodes bars.now }
    ensures size { IfOk result (λ counts. length counts.items ≡ nodes + 1) }
    ensures each { IfOk result (λ counts. (v : ℕ) → v ≤ nodes → slice_index counts.items v ≡ bars_at bars.now v) }
{
    let mut counts = vec![in alloc; 0u32; nodes as usize + 1]?;
    count_bars(nodes, bars, &mut counts);
    Ok(counts)
}

// Entry v becomes the number of bars at v.
fn count_bars(nodes: u32, bars: &[(u32, u16)], counts: &mut [u32])
    requires fit { BarsFit nodes bars.now }
    requires size { length counts.old ≡ nodes + 1 }
    requires zero { All (λ count. count ≡ 0) counts.old }
    ensures { (v : ℕ) → v ≤ nodes → slice_index counts.new v ≡ bars_at bars.now v }
{
    for bar in bars {
        counts[bar.0 as usize] += 1;
    }
}

// The colours of the bars, in their order.
fn colours_of(alloc: Global, bars: &[(u32, u16)]) -> Result<Vec<u16>, Memory>
    requires { All (λ bar. 0 < bar.1) bars.now }
    ensures { IfOk result (λ colours. colours.items ≡ map colour_of bars.now) }
{
    let mut colours = Vec::with_capacity(alloc, bars.len())?;
    for bar in bars {
        colours.push(bar.1 - 1)?;
    }
    Ok(colours)
}
