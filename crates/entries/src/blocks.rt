//! A list in blocks that are never moved.

ghost use Rattle.std.specs.Prelude.{◌≡◌, ◌<◌, ◌+◌, ◌++◌, ◌∷◌, [], length, OnOk, OnErr};
ghost use Rattle.std.specs.Iterator.{YieldsFirst, item_count};
ghost use Rattle.entries.specs.Blocks.{AreFilled, joined};

use std::alloc::{AllocError, Global};
use std::marker::Model;
use std::mem::replace;

// How many items the first block has. Each further block has as many as all blocks before it together, but at most
// SMALL_BLOCK. So few places are unused in a list of up to MANY_ITEMS.
const FIRST_BLOCK: usize = 16;

const SMALL_BLOCK: usize = 128;

// From how many items on the next block is large.
const MANY_ITEMS: usize = 1_024;

// How many items a large block has. At 8 bytes an item or more it has 128 KiB at least, from which on the C library
// maps a block by itself, unless a mapped block as large was freed before. Places of a mapped block that were never
// written take address space alone, and it goes back to the system when it is dropped.
const LARGE_BLOCK: usize = 16_384;

/// A list that grows by whole blocks. Contracts see the list (`items`), and for how many more there is room (`room`).
#[derive(Drop)]
pub(crate) struct Blocks<X> {
    // The blocks before the last, each of them full.
    full: Vec<Vec<X>>,
    // How many items these have.
    full_len: usize,
    // The block to which items are appended.
    last: Vec<X>,
}

impl<X> Model for Blocks<X> {
    ghost use Rattle.std.specs.Prelude.{◌-◌, ◌++◌, vec_capacity, vec_len};
    ghost use Rattle.entries.specs.Blocks.{ItemList};

    ghost Value = { ItemList X };

    ghost use Rattle.entries.specs.Blocks.{AreBlocks, joined};

    ghost view = { λ b. record {
      items = joined b.full.items ++ b.last.items;
      room = vec_capacity b.last - vec_len b.last;
    } };

    ghost invariant = { λ b. AreBlocks b.full.items b.full_len b.last };
}

// How many items the block has that is added to a list of `len` items.
fn block_size(len: usize) -> usize
    ensures some { 0 < result }
{
    if len < MANY_ITEMS {
        len.clamp(FIRST_BLOCK, SMALL_BLOCK)
    } else {
        LARGE_BLOCK
    }
}

impl<X> Blocks<X> {
    // No items, which take no memory.
    pub(crate) fn new(alloc: Global) -> Blocks<X>
        ensures items { result.items ≡ [] }
    {
        Blocks {
            full: Vec::new(alloc),
            full_len: 0,
            last: Vec::new(alloc),
        }
    }

    // How many items there are.
    pub(crate) fn len(&self) -> usize
        ensures len { result ≡ length self.now.items }
    {
        self.full_len + self.last.len()
    }

    // Room for one item more.
    pub(crate) fn reserve(&mut self) -> Result<(), AllocError>
        ensures items { self.new.items ≡ self.old.items }
        ensures room { OnOk result (0 < self.new.room) }
        ensures refused { OnErr result ((self.new ≡ self.old) × (self.old.room ≡ 0)) }
    {
        if self.last.len() < self.last.capacity() {
            return Ok(());
        }
        self.add_block()
    }

    // Makes room by a new block. Never inlined, since most calls of `reserve` find room.
    #[inline(never)]
    fn add_block(&mut self) -> Result<(), AllocError>
        requires full { self.old.room ≡ 0 }
        ensures items { self.new.items ≡ self.old.items }
        ensures room { OnOk result (0 < self.new.room) }
        ensures refused { OnErr result (self.new ≡ self.old) }
    {
        let len = self.len();
        let places = block_size(len);
        // Never so, since no memory has that many items; but no contract says it.
        if usize::MAX - len < places {
            return Err(AllocError);
        }
        if self.last.is_empty() {
            return self.last.reserve_exact(places);
        }
        self.full.reserve(1)?;
        let block = Vec::with_capacity(*self.full.allocator(), places)?;
        self.full.push_reserved(replace(&mut self.last, block));
        self.full_len = len;
        Ok(())
    }

    // Appends an item, for which there is room.
    pub(crate) fn push_reserved(&mut self, item: X)
        requires room { 0 < self.old.room }
        ensures items { self.new.items ≡ self.old.items ++ item ∷ [] }
        ensures room { self.old.room ≡ self.new.room + 1 }
    {
        self.last.push_reserved(item);
    }

    // The items from the first, each by value.
    pub(crate) fn iter(&self) -> BlockIter<'_, X>
        ensures items { result ≡ self.now.items }
    {
        BlockIter {
            block: &[],
            more: self.full.as_slice(),
            last: self.last.as_slice(),
        }
    }
}

/// The items of a `Blocks`, by value, seen as the list of those that are left.
#[derive(Drop)]
pub(crate) struct BlockIter<'a, X> {
    // The items that are left of a block.
    block: &'a [X],
    // The full blocks that come after it.
    more: &'a [Vec<X>],
    // The last block, empty once it is `block`.
    last: &'a [X],
}

impl<'a, X> Model for BlockIter<'a, X> {
    ghost use Rattle.std.specs.Prelude.{◌++◌, List};

    ghost Value = { List X };

    ghost use Rattle.entries.specs.Blocks.{AreFilled, joined};

    ghost view = { λ it. it.block.now ++ joined it.more.now ++ it.last.now };

    ghost invariant = { λ it. AreFilled it.more.now };
}

// The block that is read next, the full blocks after it, and the last block.
fn next_block<'a, X>(more: &'a [Vec<X>], last: &'a [X]) -> (&'a [X], &'a [Vec<X>], &'a [X])
    requires filled { AreFilled more.now }
    ensures items { result.0.now ++ joined result.1.now ++ result.2.now ≡ joined more.now ++ last.now }
    ensures filled { AreFilled result.1.now }
    ensures end { result.0.now ≡ [] → joined more.now ++ last.now ≡ [] }
{
    match more.split_first() {
        Some((block, more)) => (block.as_slice(), more, last),
        None => (last, more, &[]),
    }
}

impl<'a, X: Copy> Iterator for BlockIter<'a, X> {
    type Item = X;

    ghost next_gives = { YieldsFirst (λ rest. rest) };

    ghost remaining = { item_count (λ rest. rest) };

    fn next(&mut self) -> Option<X> {
        if self.block.is_empty() {
            (self.block, self.more, self.last) = next_block(self.more, self.last);
        }
        let (item, rest) = self.block.split_first()?;
        self.block = rest;
        Some(*item)
    }
}
