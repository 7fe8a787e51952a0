//! The colours of a node in the forests, from its identifier to the three that are merged.
ghost use Rattle.std.specs.Prelude.{◌≡◌, ◌<◌, ℕ, IfOk, length, replicate, slice_index};
ghost use Rattle.std.specs.List.{list_any};
ghost use Rattle.colour_rules.specs.InForests.{before_in, colour_by, colours_in};
ghost use Rattle.colour_rules.specs.Table.{is_above};

use crate::phase::Reduction;
use crate::ports::is_above;
use cole_vishkin::Identifier;
use interference::Memory;
use std::alloc::Global;

// What a node writes down of its colour in a forest: the colour after a bit step, and that before the last shift.
#[derive(Debug, Clone, Copy, PartialEq, Eq)]
pub(crate) struct InForest {
    pub(crate) colour: u8,
    pub(crate) before: u8,
}

// The colour in each forest. Only `make` takes memory.
#[derive(Drop)]
pub(crate) struct InForests {
    // By forest.
    pub(crate) each: Vec<InForest>,
    // Whether the colour is the node's identifier in every forest, which isn't written down for each.
    pub(crate) is_seeded: bool,
}

impl InForest {
    // The colour, which is the identifier where the forests are seeded.
    pub(crate) fn own(self, id: Identifier, is_seeded: bool) -> Identifier
        ensures { result ≡ colour_by id is_seeded self }
    {
        if is_seeded {
            id
        } else {
            Identifier::from(self.colour)
        }
    }
}

impl InForests {
    // The colour 0 in each forest.
    pub(crate) fn make(alloc: Global, forests: u16) -> Result<InForests, Memory>
        ensures colours { (id : ℕ) → IfOk result (λ all. colours_in id all ≡ replicate forests 0) }
        ensures before { IfOk result (λ all. before_in all ≡ replicate forests 0) }
    {
        let none = InForest {
            colour: 0,
            before: 0,
        };
        let each = vec![in alloc; none; forests as usize]?;
        Ok(InForests {
            each,
            is_seeded: false,
        })
    }

    // The colour in a forest.
    pub(crate) fn own(&self, id: Identifier, forest: u16) -> Identifier
        requires { forest < length (before_in self.now) }
        ensures { result ≡ slice_index (colours_in id self.now) forest }
    {
        self.each[forest as usize].own(id, self.is_seeded)
    }

    // Makes the identifier the colour in each forest.
    pub(crate) fn seed(&mut self)
        ensures colours { (id : ℕ) → colours_in id self.new ≡ replicate (length (before_in self.old)) id }
        ensures before { before_in self.new ≡ before_in self.old }
    {
        self.is_seeded = true;
    }

    // Whether a colour is too high.
    pub(crate) fn has_above(&self, id: Identifier, reduction: Reduction) -> bool
        ensures { result ≡ list_any (is_above reduction) (colours_in id self.now) }
    {
        for forest in 0..self.each.len() {
            if is_above(reduction, self.each[forest].own(id, self.is_seeded)) {
                return true;
            }
        }
        false
    }
}
