//! The events of a network.

ghost use Rattle.std.specs.Prelude.{◌≡◌, ◌≢◌, IfErr, OnErr};
ghost use Rattle.event_rule.specs.declared.event.Event.{Event};
ghost use Rattle.event_rule.specs.declared.refused.StepRefused.{StepRefused};
ghost use Rattle.event_rule.specs.Events.{NeedsMemory};
ghost use Rattle.event_rule.specs.Simulation.{IsSimulation};
ghost use Rattle.event_rule.specs.Step.{StepMatches, has_port, is_vertex};

use crate::state::NetState;
use event_rule::{Event, StepRefused};
use interference::Network;
use node_api::NodeProgram;

fn is_vertex(net: &Network, v: u32) -> bool
    ensures vertex { result ≡ is_vertex net.now v }
{
    1 <= v && v <= net.nodes()
}

fn has_port(net: &Network, v: u32, port: u32) -> bool
    ensures port { result ≡ has_port net.now v port }
{
    is_vertex(net, v) && port < net.degree(v)
}

impl<P: NodeProgram> NetState<P> {
    /// Makes an event, in time that grows with the degree of its vertex alone, but when a link's list is moved as it
    /// grows.
    ///
    /// # Errors
    ///
    /// `NoSuch` if there is no such vertex or port, which is looked at first; `NotReady`, `NothingToPut` and
    /// `LinkEmpty` if a pulse, a put and a take isn't possible; `Memory` if memory is refused. The state stays
    /// as it was.
    pub fn step(&mut self, event: Event) -> Result<(), StepRefused>
        ensures step { StepMatches P.program self.old event result self.new }
        ensures growth { IfErr result (λ refused. refused ≡ StepRefused.Memory
            → NeedsMemory P.program self.old.net self.old.state event) }
        ensures net { self.new.net ≡ self.old.net }
        ensures refused { OnErr result (self.new ≡ self.old) }
        ensures simulates { IsSimulation P.program self.new.net self.new.state }
    {
        let result = match event {
            Event::Pulse(v) => self.pulse(v),
            Event::Put(v, port) => self.put(v, port),
            Event::Take(v, port) => self.take(v, port),
        };
        self.is_simulation();
        result
    }

    /// The vertex makes its next pulse.
    fn pulse(&mut self, v: u32) -> Result<(), StepRefused>
        ensures step { StepMatches P.program self.old (Event.Pulse v) result self.new }
        ensures growth { IfErr result (λ refused. refused ≢ StepRefused.Memory) }
        ensures net { self.new.net ≡ self.old.net }
        ensures refused { OnErr result (self.new ≡ self.old) }
    {
        if !is_vertex(&self.net, v) {
            return Err(StepRefused::NoSuch);
        }
        let node = &mut self.nodes[(v - 1) as usize];
        if !node.can_pulse() {
            return Err(StepRefused::NotReady);
        }
        match node.pulse() {
            Ok(()) => Ok(()),
            // No program refuses a pulse that its node can make.
            Err(_) => unreachable!(),
        }
    }

    /// The vertex puts the oldest wire of the port's out-list on the link.
    fn put(&mut self, v: u32, port: u32) -> Result<(), StepRefused>
        ensures step { StepMatches P.program self.old (Event.Put v port) result self.new }
        ensures growth { IfErr result (λ refused. refused ≡ StepRefused.Memory
            → NeedsMemory P.program self.old.net self.old.state (Event.Put v port)) }
        ensures net { self.new.net ≡ self.old.net }
        ensures refused { OnErr result (self.new ≡ self.old) }
    {
        if !has_port(&self.net, v, port) {
            return Err(StepRefused::NoSuch);
        }
        let node = &mut self.nodes[(v - 1) as usize];
        let wire = match node.front(port) {
            Some(wire) => wire,
            None => return Err(StepRefused::NothingToPut),
        };
        self.links.put(v, port, wire)?;
        node.put_done(port);
        Ok(())
    }

    /// The vertex takes the oldest wire of the link that comes by the port, and reacts.
    fn take(&mut self, v: u32, port: u32) -> Result<(), StepRefused>
        ensures step { StepMatches P.program self.old (Event.Take v port) result self.new }
        ensures growth { IfErr result (λ refused. refused ≢ StepRefused.Memory) }
        ensures net { self.new.net ≡ self.old.net }
        ensures refused { OnErr result (self.new ≡ self.old) }
    {
        if !has_port(&self.net, v, port) {
            return Err(StepRefused::NoSuch);
        }
        let from = self.net.neighbour(v, port);
        let back = self.net.back_port(v, port);
        let wire = match self.links.next(from, back) {
            Some(wire) => wire,
            None => return Err(StepRefused::LinkEmpty),
        };
        let node = &mut self.nodes[(v - 1) as usize];
        match node.on_wire(port, wire) {
            Ok(()) => {
                self.links.take(from, back);
                Ok(())
            }
            // No node refuses the next wire of a link.
            Err(_) => unreachable!(),
        }
    }
}
