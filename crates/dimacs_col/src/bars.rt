//! The set of the bars read so far, and how many each vertex has.

ghost use Rattle.std.specs.Prelude.{◌≡◌, ◌++◌, ◌∷◌, [], IfOk, IsTrue, filter, nat_lt, not};
ghost use Rattle.std.specs.List.Sorted.{IsStrictlySortedBy};
ghost use Rattle.std.specs.Set.{distinct_count};
ghost use Rattle.dimacs_col.specs.BarSets.{IsCounted, count_in};
ghost use Rattle.dimacs_col.specs.Bag.{SameMembers};
ghost use Rattle.graph_limits.specs.Pairs.{is_bar_at, pair_cmp, same_pair};

use graph_limits::MAX_BARS;
use std::alloc::{AllocError, Global};
use std::collections::{BTreeMap, BTreeSet};

/// A set of bars, each a vertex and a channel.
#[derive(Drop)]
pub(crate) struct BarSet {
    bars: BTreeSet<(u32, u16)>,
    // How many of the bars each vertex has; a vertex without bars has no entry.
    counts: BTreeMap<u32, u32>,
}

impl BarSet {
    // The empty set. It takes no memory.
    pub(crate) fn new(alloc: Global) -> BarSet
        ensures empty { result.bars.keys ≡ [] }
        ensures counted { IsCounted result }
    {
        BarSet {
            bars: BTreeSet::new(alloc),
            counts: BTreeMap::new(alloc),
        }
    }

    // How many bars a vertex has.
    fn count_of(&self, v: u32) -> u32
        ensures { result ≡ count_in self.now v }
    {
        self.counts.get(&v).copied().unwrap_or(0)
    }

    // Adds a bar; one that is there already stays. Whether its vertex now has no more bars than the limit.
    pub(crate) fn insert(&mut self, bar: (u32, u16)) -> Result<bool, AllocError>
        ensures within { IsCounted self.old → IfOk result (λ within. within ≡ not (nat_lt MAX_BARS
            (distinct_count same_pair (filter (is_bar_at bar.0) (self.old.bars.keys ++ bar ∷ []))))) }
        ensures members { IfOk result (λ within. SameMembers self.new.bars.keys (self.old.bars.keys ++ bar ∷ [])) }
        ensures counted { IsCounted self.old → IfOk result (λ within. IsTrue within → IsCounted self.new) }
    {
        if !self.bars.insert(bar)? {
            return Ok(true);
        }
        let count = self.count_of(bar.0);
        if count >= MAX_BARS {
            return Ok(false);
        }
        self.counts.insert(bar.0, count + 1)?;
        Ok(true)
    }

    // The bars by vertex and then by channel.
    pub(crate) fn into_ascending(self, alloc: Global) -> Result<Vec<(u32, u16)>, AllocError>
        ensures items { IfOk result (λ bars. bars.items ≡ self.bars.keys) }
        ensures ascending { IsStrictlySortedBy pair_cmp self.bars.keys }
    {
        self.bars.into_iter().collect(alloc)
    }
}
