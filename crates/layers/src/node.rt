//! Breadth-first layers as a program of nodes.

ghost use Rattle.std.specs.Prelude.{◌≡◌};
ghost use Rattle.node_api.specs.Boxes.{nothing};
ghost use Rattle.layers.specs.Layering.{sends};

use crate::hearing::first_port;
use crate::hops::Hops;
use crate::layer::Layer;
use interference::{Memory, Network};
use node_api::{Inbox, NodeProgram, Outbox, Refused};
use std::alloc::Global;
use std::marker::Model;

/// A node that finds its layer. Contracts see the layer, how many ports the node has, and its last pulse.
#[derive(Drop)]
pub struct Layers {
    layer: Layer,
    degree: u32,
    last: u32,
}

impl Model for Layers {
    ghost use Rattle.layers.specs.Layered.{Layered};

    ghost Value = { Layered };

    ghost view = { λ a. record { layer = a.layer; degree = a.degree; last = a.last } };
}

impl Layers {
    /// What the node knows of its distance from the root.
    pub fn layer(&self) -> Layer
        ensures { result ≡ self.now.layer }
    {
        self.layer
    }

    // Sends the distance at the pulse that is the distance, before the last pulse.
    fn send(&self, pulse: u32, out: &mut Outbox<Hops>)
        requires out { out.old ≡ nothing self.now.degree }
        ensures sent { out.new ≡ sends pulse self.now }
    {
        if pulse < self.last && self.layer.is_due(pulse) {
            out.broadcast(Hops(pulse));
        }
    }
}

impl NodeProgram for Layers {
    ghost use Rattle.layers.specs.Layering.{layering};
    ghost use Rattle.layers.specs.LayeringLaws.{layering_is_program};

    type Payload = Hops;

    ghost program = { layering };

    ghost laws = { layering_is_program };

    fn last_pulse(net: &Network) -> u32 {
        net.nodes().saturating_sub(1)
    }

    fn make(_alloc: Global, net: &Network, v: u32) -> Result<Self, Memory> {
        Ok(Layers {
            layer: Layer::first(net.id(v)),
            degree: net.degree(v),
            last: net.nodes().saturating_sub(1),
        })
    }

    fn init(&mut self, out: &mut Outbox<Hops>) {
        self.send(0, out);
    }

    fn pre_step(&mut self, _pulse: u32) {}

    fn handle_messages(
        &mut self,
        pulse: u32,
        inbox: &mut Inbox<Hops>,
        out: &mut Outbox<Hops>,
    ) -> Result<(), Refused> {
        let first = first_port(self.last, pulse, inbox)?;
        self.layer = self.layer.after(pulse, first);
        self.send(pulse, out);
        Ok(())
    }

    fn post_step(&mut self, _pulse: u32) {}

    fn rests_until(&self, pulse: u32) -> u32 {
        if self.layer.is_over(pulse) {
            u32::MAX
        } else {
            0
        }
    }
}
