//! What a node shows of its colours after a pulse, to those who write its rounds down.
ghost use Rattle.std.specs.Prelude.{◌≡◌, ◌<◌, slice_index, slice_index_or};
ghost use Rattle.forests.specs.declared.numbering.Role.TheVariants.{Unknown};
ghost use Rattle.colour_rules.specs.Choice.{chooses};
ghost use Rattle.colour_rules.specs.Node.{ports};

use crate::node::ColourNode;
use cole_vishkin::Identifier;
use forests::Role;

impl ColourNode {
    /// How many forests there are.
    pub fn forests(&self) -> u16
        ensures { result ≡ self.now.sizes.forests }
    {
        self.forests
    }

    /// The node's colour in a forest.
    pub fn forest_colour(&self, forest: u16) -> Identifier
        requires forest { forest < self.now.sizes.forests }
        ensures { result ≡ slice_index self.now.colours forest }
    {
        self.colours.own(self.id, forest)
    }

    /// How many ports the node has.
    pub fn degree(&self) -> u32
        ensures { result ≡ ports self.now }
    {
        self.roles.len() as u32
    }

    /// What a port is to the node.
    pub fn role(&self, port: u32) -> Role
        requires port { port < ports self.now }
        ensures { result ≡ slice_index_or self.now.roles port Unknown }
    {
        self.roles[port as usize]
    }

    /// Whether the node, after this step of the merging of a forest, is one of those that chose at it: its three-colour
    /// and its old colour are the pair of the step.
    pub fn chose_at(&self, forest: u16, step: u32) -> bool
        requires forest { forest < self.now.sizes.forests }
        ensures { result ≡ chooses self.now forest step }
    {
        let (three, old) = self.schedule().pair(step);
        self.colours.own(self.id, forest) == Identifier::from(three)
            && u32::from(self.colour_before) == old
    }
}
