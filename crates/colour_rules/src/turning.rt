//! The next colours of a node in the forests, by the colours of its parents.
ghost use Rattle.std.specs.Prelude.{◌≡◌, ◌≢◌, ◌<◌, ◌≤◌, ℕ, IfSome, None, Some, false, length, not, slice_set};
ghost use Rattle.std.specs.FinSet.{contains, empty};
ghost use Rattle.cole_vishkin.specs.BitStep.{bit_by};
ghost use Rattle.interference.specs.declared.limits.TheConstants.{MAX_DEGREE};
ghost use Rattle.colour_rules.specs.InForests.{AreTurned, IsReadyAt, before_in, colours_in, in_forest, turned_in};
ghost use Rattle.colour_rules.specs.Program.{AreReady, BringColours, IsReady, colour_in, from_parent};
ghost use Rattle.colour_rules.specs.Program.{kept_colour, kept_all, next_colour, turned_all};

use crate::colours::{InForest, InForests};
use crate::payload::Payload;
use crate::phase::Reduction;
use cole_vishkin::{Identifier, bit_step};
use forest_merge::ColourSet;
use forests::Role;
use interference::MAX_DEGREE;
use node_api::Inbox;
use shift_down::{drop_class, shift};

// How many words hold one bit for each forest.
const FOREST_WORDS: usize = MAX_DEGREE as usize / 64 + 1;

// A set of forests, which are numbers from 0 on as colours are.
type ForestSet = ColourSet<FOREST_WORDS>;

impl InForests {
    // Takes the next colour in each forest.
    pub(crate) fn turn_all(
        &mut self,
        reduction: Reduction,
        id: Identifier,
        roles: &[Role],
        inbox: &Inbox<Payload>,
    )
        requires brought { BringColours (length (before_in self.old)) roles.now inbox.now.slots }
        requires ready { AreReady reduction (colours_in id self.old) (before_in self.old)
            (λ f. from_parent f roles.now inbox.now.slots) }
        ensures colours { colours_in id self.new ≡ turned_all reduction (colours_in id self.old) (before_in self.old)
            (λ f. from_parent f roles.now inbox.now.slots) }
        ensures before { before_in self.new ≡ kept_all reduction (colours_in id self.old) (before_in self.old) }
    {
        let mut heard = ForestSet::new();
        self.turn_as_child(reduction, id, roles, inbox, &mut heard);
        self.turn_as_root(reduction, id, &heard);
        self.is_seeded = false;
    }

    // Takes the next colour in each forest below a parent, as the parent's colour is read, and adds these forests to an
    // empty set. If two ports lead to a parent in one forest, the first counts.
    fn turn_as_child(
        &mut self,
        reduction: Reduction,
        id: Identifier,
        roles: &[Role],
        inbox: &Inbox<Payload>,
        heard: &mut ForestSet,
    )
        requires brought { BringColours (length (before_in self.old)) roles.now inbox.now.slots }
        requires ready { AreReady reduction (colours_in id self.old) (before_in self.old)
            (λ f. from_parent f roles.now inbox.now.slots) }
        requires none { heard.old ≡ empty }
        ensures turned { AreTurned reduction id (λ f. from_parent f roles.now inbox.now.slots) (contains heard.new)
            self.old self.new }
        ensures rest { (f : ℕ) → contains heard.new f ≡ false → from_parent f roles.now inbox.now.slots ≡ None }
    {
        let mut reader = inbox.reader();
        while reader.has_next() {
            let payload = reader.next();
            if let Role::Up(forest) = roles[reader.sender() as usize] {
                if !heard.has(forest) {
                    heard.add(forest);
                    self.turn(reduction, id, forest, colour_of(payload));
                }
            }
        }
    }

    // Takes the next colour in each forest of which nothing was heard: the node is a root there.
    fn turn_as_root(&mut self, reduction: Reduction, id: Identifier, heard: &ForestSet)
        requires few { length (before_in self.old) ≤ MAX_DEGREE }
        requires ready { (f : ℕ) → f < length (before_in self.old) → contains heard.now f ≡ false
            → IsReadyAt reduction id None self.old f }
        ensures turned { AreTurned reduction id (λ f. None) (λ f. not (contains heard.now f)) self.old self.new }
    {
        for forest in 0..self.each.len() as u16 {
            if !heard.has(forest) {
                self.turn(reduction, id, forest, None);
            }
        }
    }

    // Takes the next colour in a forest, and writes it down.
    fn turn(
        &mut self,
        reduction: Reduction,
        id: Identifier,
        forest: u16,
        parent: Option<Identifier>,
    )
        requires forest { forest < length (before_in self.old) }
        requires ready { IsReadyAt reduction id parent self.old forest }
        ensures each { let next = turned_in reduction id self.old.is_seeded parent (in_forest self.old forest) in
            self.new.each.items ≡ slice_set self.old.each.items forest next }
        ensures seeded { self.new.is_seeded ≡ self.old.is_seeded }
    {
        let one = self.each[forest as usize];
        let own = one.own(id, self.is_seeded);
        self.each[forest as usize] = next_colour(reduction, own, one.before, parent);
    }
}

// The colour in a payload, if it has one.
fn colour_of(payload: Payload) -> Option<Identifier>
    ensures { result ≡ colour_in (Some payload) }
{
    match payload {
        Payload::Colour(colour) => Some(colour.get()),
        _ => None,
    }
}

// What is written down of the next colour in a forest.
fn next_colour(
    reduction: Reduction,
    own: Identifier,
    before: u8,
    parent: Option<Identifier>,
) -> InForest
    requires ready { IsReady reduction own before parent }
    ensures colour { result.colour ≡ next_colour reduction own before parent }
    ensures before { result.before ≡ kept_colour reduction own before }
{
    match reduction {
        Reduction::Step(_) => InForest {
            colour: stepped(own, parent),
            before,
        },
        Reduction::Shift(_) => InForest {
            colour: shift(own as u8, small(parent)),
            before: own as u8,
        },
        Reduction::Drop(class) => InForest {
            colour: drop_class(class, own as u8, before, small(parent)),
            before,
        },
    }
}

// The colour after a bit step: that of a place, and so low.
fn stepped(own: Identifier, parent: Option<Identifier>) -> u8
    requires { parent ≢ Some own }
    ensures { result ≡ bit_by own parent }
{
    match parent {
        Some(parent) => stepped_below(own, parent),
        None => bit_step(own, None) as u8,
    }
}

// The same, below a parent: a function of its own, since the checker knows the range of a parameter, and not of what
// an `Option` holds.
fn stepped_below(own: Identifier, parent: Identifier) -> u8
    requires { parent ≢ own }
    ensures { result ≡ bit_by own (Some parent) }
{
    bit_step(own, Some(parent)) as u8
}

// A colour below 6, if there is one, as a byte.
fn small(colour: Option<Identifier>) -> Option<u8>
    requires { IfSome colour (λ c. c < 6) }
    ensures { result ≡ colour }
{
    match colour {
        Some(colour) => Some(colour as u8),
        None => None,
    }
}
