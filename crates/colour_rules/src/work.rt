//! The work of the pulses before the merging: numbering the ports, and the colours of the forests.
ghost use Rattle.std.specs.Prelude.{◌≡◌, ◌≢◌, ◌≤◌, Some, count_by, length, map, nat_lt};
ghost use Rattle.std.specs.List.{All, AllPairs};
ghost use Rattle.forests.specs.Forests.{role_by};
ghost use Rattle.node_api.specs.Boxes.{nothing};
ghost use Rattle.colour_rules.specs.declared.phase.Phase.TheVariants.{Seed, Work};
ghost use Rattle.colour_rules.specs.Node.{ports};
ghost use Rattle.colour_rules.specs.Refusals.{IsAccepted};
ghost use Rattle.colour_rules.specs.Program.{LabelsBelow, all_labelled, role_after_seed, tells_label};
ghost use Rattle.colour_rules.specs.Program.{with_roles, work_of};

use crate::node::ColourNode;
use crate::payload::Payload;
use crate::phase::Reduction;
use cole_vishkin::Identifier;
use forests::{Role, number_up};
use node_api::{Inbox, Outbox};

impl ColourNode {
    // Numbers the ports to higher identifiers, and sends each parent the forest; `identifiers` are the
    // identifiers by port. Never inlined, so that other pulses don't pay for room on the stack.
    #[inline(never)]
    pub(crate) fn orient(&mut self, identifiers: &[Identifier], out: &mut Outbox<Payload>)
        requires ports { length identifiers.now ≡ ports self.old }
        requires distinct { AllPairs (λ x y. x ≢ y) identifiers.now }
        requires others { All (λ id. id ≢ self.old.id) identifiers.now }
        requires few { count_by (nat_lt self.old.id) identifiers.now ≤ self.old.sizes.forests }
        requires out { out.old ≡ nothing (ports self.old) }
        ensures node { self.new ≡ with_roles self.old (map (role_by self.old.id identifiers.now) identifiers.now) }
        ensures out { out.new ≡ map tells_label self.new.roles }
    {
        number_up(self.id, identifiers, &mut self.roles);
        self.tell_labels(out);
    }

    // Makes children of the ports that brought a label, begins with the identifier as the colour in
    // each forest, and sends it to each child.
    pub(crate) fn seed(&mut self, inbox: &Inbox<Payload>, out: &mut Outbox<Payload>)
        requires ports { length inbox.now.slots ≡ ports self.old }
        requires labels { LabelsBelow self.old.sizes.forests inbox.now.slots }
        requires out { out.old ≡ nothing (ports self.old) }
        ensures node { (self.new, out.new) ≡ work_of self.old Seed inbox.now.slots }
    {
        self.label(inbox);
        self.colours.seed();
        self.tell_colours(out);
    }

    // Makes children of the ports that brought a label.
    fn label(&mut self, inbox: &Inbox<Payload>)
        requires ports { length inbox.now.slots ≡ ports self.old }
        requires labels { LabelsBelow self.old.sizes.forests inbox.now.slots }
        ensures node { self.new ≡ with_roles self.old (all_labelled self.old.roles inbox.now.slots) }
    {
        let mut reader = inbox.reader();
        while reader.has_next() {
            let payload = reader.next();
            let port = reader.sender() as usize;
            self.roles[port] = role_after_seed(self.roles[port], payload);
        }
    }

    // Takes the next colour in each forest, and sends it to each child unless these are the last. Never inlined, so
    // that other pulses don't pay for the set of forests on the stack.
    #[inline(never)]
    pub(crate) fn work(
        &mut self,
        reduction: Reduction,
        inbox: &Inbox<Payload>,
        out: &mut Outbox<Payload>,
    )
        requires accepted { IsAccepted self.old (Work reduction) inbox.now.slots }
        requires out { out.old ≡ nothing (ports self.old) }
        ensures node { (self.new, out.new) ≡ work_of self.old (Work reduction) inbox.now.slots }
    {
        self.colours
            .turn_all(reduction, self.id, &self.roles, inbox);
        if !reduction.is_last() {
            self.tell_colours(out);
        }
    }
}

// What a port is, once its payload is read: an unknown port that brought a label leads to a child.
fn role_after_seed(role: Role, payload: Payload) -> Role
    ensures { result ≡ role_after_seed role (Some payload) }
{
    match (role, payload) {
        (Role::Unknown, Payload::Label(forest)) => Role::Down(forest.get()),
        _ => role,
    }
}
