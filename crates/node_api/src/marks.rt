//! Marks of places, in words of 64 bits: an inbox marks the ports at which a payload is.

ghost use Rattle.std.specs.Prelude.{◌≡◌, ◌<◌, ◌≤◌, ℕ, IfOk, false, length, replicate, slice_index_or, slice_set, true};
ghost use Rattle.node_api.specs.Marks.{count_marks, is_marked};

use crate::inline_words::InlineWords;
use interference::Memory;
use std::alloc::Global;
use std::marker::Model;

// A mark or none at each of so many places, with a count of the marks. Places count from 0. Contracts see a list
// that says of each place whether it is marked.
#[derive(Drop)]
pub(crate) struct Marks {
    // Bit b of word w is the place 64 * w + b.
    words: InlineWords,
    places: u32,
    count: u32,
}

impl Model for Marks {
    ghost use Rattle.std.specs.Prelude.{Bool, List};
    ghost use Rattle.node_api.specs.Marks.{AreMarks, marks_in};

    ghost Value = { List Bool };

    ghost view = { λ a. marks_in a.places a.words };

    ghost invariant = { λ a. AreMarks a.places a.count a.words };
}

impl Marks {
    // No place is marked.
    //
    // # Errors
    //
    // `Memory` if memory is refused. No later call takes any.
    pub(crate) fn new(alloc: Global, places: u32) -> Result<Marks, Memory>
        ensures none { IfOk result (λ marks. marks ≡ replicate places false) }
    {
        let words = InlineWords::new(alloc, places.div_ceil(64))?;
        Ok(Marks {
            words,
            places,
            count: 0,
        })
    }

    // How many places there are.
    pub(crate) fn len(&self) -> u32
        ensures places { result ≡ length self.now }
    {
        self.places
    }

    // How many places are marked.
    pub(crate) fn count(&self) -> u32
        ensures count { result ≡ count_marks self.now }
    {
        self.count
    }

    // Whether a place is marked.
    pub(crate) fn has(&self, place: u32) -> bool
        requires place { place < length self.now }
        ensures marked { result ≡ is_marked self.now place }
    {
        self.words.get(place as usize / 64) & (1 << (place % 64)) != 0
    }

    // Marks a place that isn't marked (`has`).
    pub(crate) fn add(&mut self, place: u32)
        requires place { place < length self.old }
        requires free { is_marked self.old place ≡ false }
        ensures marked { self.new ≡ slice_set self.old place true }
    {
        let index = place as usize / 64;
        let word = self.words.get(index);
        self.words.set(index, word | (1 << (place % 64)));
        self.count += 1;
    }

    // Takes all marks away.
    pub(crate) fn clear(&mut self)
        ensures none { self.new ≡ replicate (length self.old) false }
    {
        self.words.clear();
        self.count = 0;
    }

    // The least marked place from this one on; there is one.
    pub(crate) fn first_from(&self, from: u32) -> u32
        requires some { (place : ℕ) × (from ≤ place) × (place < length self.now) × (is_marked self.now place ≡ true) }
        ensures later { from ≤ result }
        ensures within { result < length self.now }
        ensures marked { is_marked self.now result ≡ true }
        ensures first { (place : ℕ) → from ≤ place → place < result → is_marked self.now place ≡ false }
    {
        let mut word = from as usize / 64;
        let mut rest = self.words.get(word) & (u64::MAX << (from % 64));
        while rest == 0 {
            word += 1;
            rest = self.words.get(word);
        }
        (word * 64) as u32 + rest.trailing_zeros()
    }
}
