//! What a node knows of its distance from the root.

ghost use Rattle.std.specs.Prelude.{◌≡◌, ◌<◌, ℕ, IsTrue, false};
ghost use Rattle.layers.specs.Layering.{is_due, layer_after, first_layer};

/// The identifier of the root.
pub const ROOT_ID: u128 = 1;

const _: () = prove!(ROOT_ID == 1);

/// What a node knows of its distance from the root.
#[derive(Debug, Clone, Copy, PartialEq, Eq)]
pub enum Layer {
    /// Nothing came so far.
    Unreached,
    /// The node is the root.
    Root,
    /// How many links lead to the root, and the port, from 0, that leads one link closer.
    Away(u32, u32),
}

impl Layer {
    // The layer of a node before anything came.
    pub(crate) fn first(id: u128) -> Layer
        ensures { result ≡ first_layer id }
    {
        if id == ROOT_ID {
            Layer::Root
        } else {
            Layer::Unreached
        }
    }

    // Whether a node sends at this pulse: it is its distance.
    pub(crate) fn is_due(self, pulse: u32) -> bool
        ensures { result ≡ is_due self pulse }
    {
        match self {
            Layer::Unreached => false,
            Layer::Root => pulse == 0,
            Layer::Away(hops, _) => pulse == hops,
        }
    }

    // Whether the node sends at no later pulse.
    pub(crate) fn is_over(self, pulse: u32) -> bool
        ensures over { IsTrue result → (q : ℕ) → pulse < q → is_due self q ≡ false }
    {
        match self {
            Layer::Away(hops, _) => hops <= pulse,
            _ => true,
        }
    }

    // The layer after a pulse at which something came first at this port, or nothing.
    pub(crate) fn after(self, pulse: u32, first: Option<u32>) -> Layer
        ensures { result ≡ layer_after self pulse first }
    {
        match (self, first) {
            (Layer::Unreached, Some(port)) => Layer::Away(pulse, port),
            _ => self,
        }
    }
}
