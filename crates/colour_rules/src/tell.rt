//! What a node sends by the roles of its ports.
ghost use Rattle.std.specs.Prelude.{◌≡◌, map};
ghost use Rattle.std.specs.List.{list_all};
ghost use Rattle.node_api.specs.Boxes.{nothing};
ghost use Rattle.colour_rules.specs.Node.{ports};
ghost use Rattle.colour_rules.specs.Program.{tells_chosen, tells_colour, tells_label};
ghost use Rattle.colour_rules.specs.Table.{is_merged};

use crate::node::ColourNode;
use crate::numbers::{Long, Short};
use crate::payload::Payload;
use crate::ports::is_merged;
use forests::Role;
use node_api::Outbox;

impl ColourNode {
    // Tells each parent the forest.
    pub(crate) fn tell_labels(&self, out: &mut Outbox<Payload>)
        requires { out.old ≡ nothing (ports self.now) }
        ensures { out.new ≡ map tells_label self.now.roles }
    {
        for port in 0..self.roles.len() {
            if let Role::Up(forest) = self.roles[port] {
                out.send(port as u32, Payload::Label(Short::new(forest)));
            }
        }
    }

    // Tells each child the node's colour in their forest.
    pub(crate) fn tell_colours(&self, out: &mut Outbox<Payload>)
        requires { out.old ≡ nothing (ports self.now) }
        ensures { out.new ≡ map (tells_colour self.now.colours) self.now.roles }
    {
        for port in 0..self.roles.len() {
            if let Role::Down(forest) = self.roles[port] {
                out.send(
                    port as u32,
                    Payload::Colour(Long::new(self.colours.own(self.id, forest))),
                );
            }
        }
    }

    // Tells each neighbour of the forests up to this one the colour that the node has chosen.
    pub(crate) fn tell_chosen(&self, forest: u16, out: &mut Outbox<Payload>)
        requires { out.old ≡ nothing (ports self.now) }
        ensures { out.new ≡ map (tells_chosen forest self.now.merged) self.now.roles }
    {
        // In the last forests these are all neighbours, and a broadcast costs no walk over the ports later on.
        if are_merged(forest, &self.roles) {
            out.broadcast(Payload::Chosen(Short::new(self.merged)));
        } else {
            self.tell_merged(forest, out);
        }
    }

    // The same, port by port.
    fn tell_merged(&self, forest: u16, out: &mut Outbox<Payload>)
        requires { out.old ≡ nothing (ports self.now) }
        ensures { out.new ≡ map (tells_chosen forest self.now.merged) self.now.roles }
    {
        for port in 0..self.roles.len() {
            if is_merged(forest, self.roles[port]) {
                out.send(port as u32, Payload::Chosen(Short::new(self.merged)));
            }
        }
    }
}

// Whether every port is of one of the forests up to this one.
fn are_merged(forest: u16, roles: &[Role]) -> bool
    ensures { result ≡ list_all (is_merged forest) roles.now }
{
    roles.iter().all(|role| is_merged(forest, *role))
}
