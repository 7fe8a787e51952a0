//! Words of 64 bits, the first of them in place.

ghost use Rattle.std.specs.Prelude.{◌≡◌, ◌<◌, ◌≤◌, IfOk, get_or, length, max, replicate, slice_set};

use interference::Memory;
use std::alloc::Global;
use std::marker::Model;

// One or more words. The first is in place, so that few marks take no block of memory of their own. Contracts see
// a list.
#[derive(Drop)]
pub(crate) struct InlineWords {
    first: u64,
    more: Vec<u64>,
}

impl Model for InlineWords {
    ghost use Rattle.std.specs.Prelude.{◌∷◌, ℕ, List};

    ghost Value = { List ℕ };

    ghost view = { λ a. a.first ∷ a.more.items };
}

impl InlineWords {
    // So many words, and at least one. All are 0.
    //
    // # Errors
    //
    // `Memory` if memory is refused. No later call takes any.
    pub(crate) fn new(alloc: Global, count: u32) -> Result<InlineWords, Memory>
        ensures zeros { IfOk result (λ words. words ≡ replicate (max 1 count) 0) }
    {
        let more = vec![in alloc; 0u64; count.saturating_sub(1) as usize]?;
        Ok(InlineWords { first: 0, more })
    }

    // A word.
    pub(crate) fn get(&self, index: usize) -> u64
        requires index { index < length self.now }
        ensures word { result ≡ get_or self.now index 0 }
    {
        if index == 0 {
            self.first
        } else {
            self.more[index - 1]
        }
    }

    // Writes a word.
    pub(crate) fn set(&mut self, index: usize, word: u64)
        requires index { index < length self.old }
        ensures word { self.new ≡ slice_set self.old index word }
    {
        if index == 0 {
            self.first = word;
        } else {
            self.more[index - 1] = word;
        }
    }

    // Makes all words 0.
    pub(crate) fn clear(&mut self)
        ensures zeros { self.new ≡ replicate (length self.old) 0 }
    {
        match self.more.len() {
            0 => (),
            // A word by itself, as one of a loop takes three times the instructions.
            1 => self.more[0] = 0,
            _ => clear_all(&mut self.more),
        }
        self.first = 0;
    }
}

// Makes all words 0. Never inlined, since most marks have at most two words.
#[inline(never)]
fn clear_all(words: &mut [u64])
    ensures zeros { words.new ≡ replicate (length words.old) 0 }
{
    words.fill(0);
}
