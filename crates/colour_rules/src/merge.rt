//! A step of the merging of a forest with those before it.
ghost use Rattle.std.specs.Prelude.{◌≡◌, ◌<◌, ◌≤◌, ◌*◌, ◌↔◌, ℕ, IsTrue, Some, None, [], true, if◌then◌else◌, length};
ghost use Rattle.forest_merge.specs.Free.{HasFree};
ghost use Rattle.node_api.specs.Boxes.{at_port, nothing};
ghost use Rattle.node_api.specs.Program.{span};
ghost use Rattle.colour_rules.specs.declared.payload.Payload.TheVariants.{Chosen};
ghost use Rattle.colour_rules.specs.declared.phase.Phase.TheVariants.{Merge};
ghost use Rattle.colour_rules.specs.Node.{IsPhase, ports, steps};
ghost use Rattle.colour_rules.specs.Choice.{ChosenWithin, chooses, free_for, with_heard, is_taken, with_chosen};
ghost use Rattle.colour_rules.specs.Refusals.{own_rule};
ghost use Rattle.colour_rules.specs.Program.{work_of};

use crate::node::ColourNode;
use crate::payload::Payload;
use crate::rules::COLOUR_RANGE;
use forest_merge::ColourSet;
use node_api::{Inbox, Outbox};

// Puts the colours that came as chosen into a set.
pub(crate) fn add_chosen<const N: usize>(chosen: &mut ColourSet<N>, inbox: &Inbox<Payload>)
    requires colours { (port c : ℕ) → at_port inbox.now.slots port ≡ Some (Chosen c) → c < 64 * N }
    ensures chosen { chosen.new ≡ with_chosen chosen.old inbox.now.slots }
{
    let mut reader = inbox.reader();
    while reader.has_next() {
        if let Payload::Chosen(colour) = reader.next() {
            chosen.add(colour.get());
        }
    }
}

impl ColourNode {
    // Whether the node chooses its colour at a step of a forest: the step is that of the pair of its
    // three-colour and its old colour.
    fn chooses(&self, forest: u16, step: u32) -> bool
        requires forest { forest < self.now.sizes.forests }
        requires step { step < steps self.now.sizes }
        ensures { result ≡ chooses (with_heard self.now step []) forest step }
    {
        let old = if step == 0 {
            self.merged
        } else {
            self.colour_before
        };
        let three = self.colours.own(self.id, forest);
        let width = u32::from(self.span()) + 1;
        three <= 2 && three as u32 * width + u32::from(old) == step
    }

    // Whether the node has to choose at this step and every colour is taken.
    pub(crate) fn has_no_choice(&self, forest: u16, step: u32, inbox: &Inbox<Payload>) -> bool
        requires forest { forest < self.now.sizes.forests }
        requires step { step < steps self.now.sizes }
        requires colours { ChosenWithin (span self.now.sizes) inbox.now.slots }
        ensures refused { let rule = own_rule self.now (Merge forest step) inbox.now.slots in
            rule ≡ (if result then Some COLOUR_RANGE else None) }
    {
        if !self.chooses(forest, step) {
            return false;
        }
        !self.has_free_at(step, inbox)
    }

    // Whether neighbours have left a colour free in the forest, with what came at this step of it.
    fn has_free_at(&self, step: u32, inbox: &Inbox<Payload>) -> bool
        requires colours { ChosenWithin (span self.now.sizes) inbox.now.slots }
        ensures free { let here = with_heard self.now step inbox.now.slots in
            IsTrue result ↔ HasFree (span self.now.sizes) (is_taken here) }
    {
        step == 0 || self.taken.has_free_with(self.span(), inbox)
    }

    // A step of the merging: the first of a forest begins with the colour so far, the others take in what
    // was chosen; and at the node's turn it takes the least free colour and sends it.
    pub(crate) fn merge(
        &mut self,
        forest: u16,
        step: u32,
        inbox: &Inbox<Payload>,
        out: &mut Outbox<Payload>,
    )
        requires real { IsPhase self.old.sizes (Merge forest step) }
        requires ports { length inbox.now.slots ≡ ports self.old }
        requires out { out.old ≡ nothing (ports self.old) }
        requires colours { ChosenWithin (span self.old.sizes) inbox.now.slots }
        requires free { let here = with_heard self.old step inbox.now.slots in
            chooses here forest step ≡ true → free_for here ≤ span self.old.sizes }
        ensures node { (self.new, out.new) ≡ work_of self.old (Merge forest step) inbox.now.slots }
    {
        let is_turn = self.chooses(forest, step);
        self.gather(step, inbox);
        if is_turn {
            self.merged = self.taken.least_free(self.span());
            if step + 1 != self.steps() {
                self.tell_chosen(forest, out);
            }
        }
    }

    // Hears what was chosen; at the first step of a forest, begins with the colour so far.
    fn gather(&mut self, step: u32, inbox: &Inbox<Payload>)
        requires colours { ChosenWithin (span self.old.sizes) inbox.now.slots }
        ensures node { self.new ≡ with_heard self.old step inbox.now.slots }
    {
        if step == 0 {
            self.colour_before = self.merged;
            self.taken.clear();
        } else {
            self.taken.add_all(inbox);
        }
    }
}
