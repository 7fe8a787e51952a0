//! Sets of colours: those that neighbours have chosen, and those that are barred.

ghost use Rattle.std.specs.Prelude.{◌≡◌, ◌<◌, ◌≤◌, ◌*◌, ◌||◌, ℕ, true, false};
ghost use Rattle.std.specs.FinSet.{contains, empty, insert};

use std::marker::Model;

/// How many colours a `ChosenSet` has room for: the colours from 0 and below this.
pub const COLOURS: u16 = 2048;

/// How many words hold one bit for each colour.
pub const WORDS: usize = COLOURS as usize / 64;

/// A set of all colours that a node may choose, 0 to 2,047.
pub type ChosenSet = ColourSet<WORDS>;

/// A set of colours from 0 and below 64 times `N`, in fixed bits: it takes no memory of its own. `N` is at most
/// `WORDS`. A node whose neighbours are few has one of fewer words than a `ChosenSet`.
#[derive(Drop)]
pub struct ColourSet<const N: usize> {
    words: [u64; N],
}

impl<const N: usize> Model for ColourSet<N> {
    ghost use Rattle.std.specs.Prelude.{◌≤◌, length};
    ghost use Rattle.std.specs.FinSet.{FinSet, code};
    ghost use Rattle.std.specs.Ordering.{nat_cmp};
    ghost use Rattle.std.specs.Coded.{coded_ℕ};
    ghost use Rattle.forest_merge.specs.Words.{colours_of};
    ghost use Rattle.forest_merge.specs.declared.chosen.TheConstants.{WORDS};

    ghost Value = { FinSet nat_cmp };

    ghost coded = { code coded_ℕ };

    // bit b of word w is the colour 64 * w + b
    ghost view = { λ a. colours_of a.words };

    ghost invariant = { λ a. N ≤ WORDS };
}

impl<const N: usize> ColourSet<N> {
    /// The empty set, with room for the colours below 64 times `N`.
    pub fn new() -> Self
        requires room { N ≤ WORDS }
        ensures empty { result ≡ empty }
        ensures most { COLOURS ≡ 2048 }
    {
        Self { words: [0; N] }
    }

    /// A set of the same colours.
    pub fn copy(&self) -> Self
        ensures { result ≡ self.now }
    {
        Self { words: self.words }
    }

    /// Empties the set.
    pub fn clear(&mut self)
        ensures { self.new ≡ empty }
    {
        self.words.fill(0);
    }

    /// Puts a colour into the set; one that is there already stays.
    pub fn add(&mut self, colour: u16)
        requires { colour < 64 * N }
        ensures { self.new ≡ insert self.old colour }
    {
        self.words[colour as usize / 64] |= 1 << (colour % 64);
    }

    /// Whether a colour is in the set.
    pub fn has(&self, colour: u16) -> bool
        requires { colour < 64 * N }
        ensures { result ≡ contains self.now colour }
    {
        self.words[colour as usize / 64] & (1 << (colour % 64)) != 0
    }

    // The colours that are in either set.
    pub(crate) fn joined(&self, other: &Self) -> Self
        ensures { (c : ℕ) → contains result c ≡ (contains self.now c || contains other.now c) }
    {
        let mut words = self.words;
        for i in 0..N {
            words[i] |= other.words[i];
        }
        Self { words }
    }

    // The least colour that is not in the set: the first that it has no room for if it is full.
    pub(crate) fn first_free(&self) -> u16
        ensures free { contains self.now result ≡ false }
        ensures first { (c : ℕ) → c < result → contains self.now c ≡ true }
    {
        for (i, word) in self.words.iter().enumerate() {
            if *word != u64::MAX {
                return (i * 64) as u16 + word.trailing_ones() as u16;
            }
        }
        (N * 64) as u16
    }
}
