//! The entries that all nodes have left to write, the least first.

ghost use Rattle.std.specs.Prelude.{◌≡◌, ◌<◌, ◌^◌, IfOk, MatchOption, OnOk, drop, length};
ghost use Rattle.std.specs.BinaryHeap.{KeepsHeap, heap_items, heap_len};
ghost use Rattle.transcripts.specs.Merge.{AreKeys, IsKeyAdded, IsTaken, NoneLeft, key_cmp};

use crate::left_entries::LeftEntries;
use entries::StampedRow;
use std::alloc::{AllocError, Global};
use std::cmp::Reverse;
use std::collections::BinaryHeap;
use std::collections::binary_heap::PeekMut;

// Stamps, each with the index of its node, the least on top.
type Keys = BinaryHeap<Reverse<(u64, usize)>>;

/// The entries that nodes have left, which are taken in the order of their stamps and then of the vertices. To take one
/// takes time by the logarithm of the number of nodes.
#[derive(Drop)]
pub struct Merging<'a, T> {
    // Those of each node.
    lefts: Vec<LeftEntries<'a, T>>,
    // The stamp of the first of them, for each node that has some left.
    keys: Keys,
}

// Adds the key of a node, if it has entries left.
fn push_key<T: Copy>(
    keys: &mut Keys,
    left: &LeftEntries<'_, T>,
    index: usize,
) -> Result<(), AllocError>
    ensures added { OnOk result (IsKeyAdded left.now index (heap_items keys.old) (heap_items keys.new)) }
    ensures heap { OnOk result (KeepsHeap key_cmp (heap_items keys.old) (heap_items keys.new)) }
{
    if let Some(stamp) = left.stamp() {
        keys.push(Reverse((stamp, index)))?;
    }
    Ok(())
}

// Puts the key of a node in the place of the one on top, or takes that off if the node has no entry left.
fn replace_top<T: Copy>(keys: &mut Keys, left: &LeftEntries<'_, T>, index: usize)
    requires { 0 < heap_len keys.old }
    ensures replaced { IsKeyAdded left.now index (drop 1 (heap_items keys.old)) (heap_items keys.new) }
    ensures heap { KeepsHeap key_cmp (heap_items keys.old) (heap_items keys.new) }
{
    if let Some(mut top) = keys.peek_mut() {
        match left.stamp() {
            Some(stamp) => *top = Reverse((stamp, index)),
            None => {
                PeekMut::pop(top);
            }
        }
    }
}

// The keys of lists of entries, each with the index of its list.
fn keys_of<T: Copy>(alloc: Global, lefts: &[LeftEntries<'_, T>]) -> Result<Keys, AllocError>
    ensures { IfOk result (λ keys. AreKeys lefts.now (heap_items keys)) }
{
    let mut keys = BinaryHeap::new(alloc);
    for (index, left) in lefts.iter().enumerate() {
        push_key(&mut keys, left, index)?;
    }
    Ok(keys)
}

impl<'a, T: Copy> Merging<'a, T> {
    /// All entries of these lists, of which each next one is of the next vertex, from 1.
    ///
    /// # Errors
    ///
    /// If memory ran out.
    pub fn new(alloc: Global, lefts: Vec<LeftEntries<'a, T>>) -> Result<Merging<'a, T>, AllocError>
        ensures lefts { IfOk result (λ merging. merging.lefts.items ≡ lefts.entry.items) }
        ensures keys { IfOk result (λ merging. AreKeys merging.lefts.items (heap_items merging.keys)) }
    {
        let keys = keys_of(alloc, lefts.as_slice())?;
        Ok(Merging { lefts, keys })
    }

    /// Takes the least entry, if there is one, with its stamp and the vertex of its node.
    pub fn take(&mut self) -> Option<StampedRow<T>>
        requires few { length self.old.lefts.items < 2 ^ 32 }
        requires keys { AreKeys self.old.lefts.items (heap_items self.old.keys) }
        ensures keys { AreKeys self.new.lefts.items (heap_items self.new.keys) }
        ensures taken { MatchOption result (NoneLeft self.old.lefts.items)
            (IsTaken self.old.lefts.items self.new.lefts.items) }
    {
        let Reverse((_, index)) = *self.keys.peek()?;
        let left = &mut self.lefts[index];
        let first = left.take()?;
        replace_top(&mut self.keys, left, index);
        Some(StampedRow {
            stamp: first.stamp,
            vertex: (index + 1) as u32,
            entry: first.entry,
        })
    }
}
