//! A network in packed lists, and how it is read.

ghost use Rattle.std.specs.Prelude.{◌≡◌, ◌↔◌, ◌<◌, ◌≤◌, ◌+◌, ◌-◌, IfOk, IsTrue, length};
ghost use Rattle.interference.specs.Net.{Net, IsBarred, IsNetwork, IsVertex, bars_of, count_of, degree_of, id_of};
ghost use Rattle.interference.specs.Net.{neighbours, back_port_of, neighbour_of, forest_count_of, greatest_bars_of};
ghost use Rattle.interference.specs.Net.{greatest_degree_of, repeated};

use crate::bars::PackedBars;
use crate::fault::Memory;
use crate::limits::MAX_DEGREE;
use std::alloc::Global;
use std::marker::Model;

/// A network. Contracts see its `Net`: identifiers, neighbours and barred colours. What every network keeps is said by
/// the clause `network` of the calls that read it.
pub struct Network {
    pub(crate) ids: Vec<u128>,
    // Entry v - 1 is where the neighbours of v begin, entry v where they end.
    pub(crate) starts: Vec<u32>,
    pub(crate) ports: Vec<u32>,
    // Beside each neighbour the port of it that leads back.
    pub(crate) backs: Vec<u32>,
    pub(crate) bars: PackedBars,
    pub(crate) greatest_degree: u32,
    pub(crate) forest_count: u32,
    // How many times more a program that repeats itself does so.
    pub(crate) again: u8,
}

impl Drop for Network {
    fn drop(self) {
        let Network {
            ids: _,
            starts: _,
            ports: _,
            backs: _,
            bars: _,
            greatest_degree: _,
            forest_count: _,
            again: _,
        } = self;
    }
}

impl Model for Network {
    ghost use Rattle.interference.specs.Net.{Net};
    ghost use Rattle.interference.specs.Rows.{IsStored, net_from};

    ghost Value = { Net };

    ghost view = { λ a. net_from a.ids.items a.starts.items a.ports.items
        a.bars.starts.items a.bars.colours.items a.again };

    ghost invariant = { λ a. IsStored a.ids.items a.starts.items a.ports.items a.backs.items
        a.bars.starts.items a.bars.colours.items a.again a.greatest_degree a.forest_count a.bars.greatest };
}

impl Network {
    /// How many nodes there are: the vertices are 1 to this.
    pub fn nodes(&self) -> u32
        ensures count { result ≡ count_of self.now }
        ensures network { IsNetwork self.now }
    {
        self.ids.len() as u32
    }

    /// Δ: the greatest degree of any node, 0 for no nodes.
    pub fn greatest_degree(&self) -> u32
        ensures value { result ≡ greatest_degree_of self.now }
        ensures network { IsNetwork self.now }
    {
        self.greatest_degree
    }

    /// U: the greatest number of neighbours of higher identifier of any node, 0 for no nodes.
    pub fn forest_count(&self) -> u32
        ensures value { result ≡ forest_count_of self.now }
        ensures network { IsNetwork self.now }
    {
        self.forest_count
    }

    /// B: the greatest number of bars of any node, 0 for no nodes.
    pub fn greatest_bars(&self) -> u32
        ensures { result ≡ greatest_bars_of self.now }
    {
        self.bars.greatest
    }

    /// How many times more a program that repeats itself does so: 0 for a network as it is made.
    pub fn again(&self) -> u8
        ensures { result ≡ self.now.again }
    {
        self.again
    }

    /// The same network, for programs that repeat themselves `again` times more.
    pub fn repeating(mut self, again: u8) -> Network
        ensures { result ≡ repeated again self }
    {
        self.again = again;
        self
    }

    /// The identifier of vertex `v`.
    pub fn id(&self, v: u32) -> u128
        requires { IsVertex self.now v }
        ensures { result ≡ id_of self.now v }
    {
        self.ids[(v - 1) as usize]
    }

    /// How many neighbours vertex `v` has: its ports are 0 to one less.
    pub fn degree(&self, v: u32) -> u32
        requires { IsVertex self.now v }
        ensures value { result ≡ degree_of self.now v }
        ensures limit { result ≤ MAX_DEGREE }
        ensures network { IsNetwork self.now }
    {
        self.starts[v as usize] - self.starts[(v - 1) as usize]
    }

    /// The neighbour of vertex `v` at `port`.
    pub fn neighbour(&self, v: u32, port: u32) -> u32
        requires vertex { IsVertex self.now v }
        requires port { port < degree_of self.now v }
        ensures value { result ≡ neighbour_of self.now v port }
        ensures vertex { IsVertex self.now result }
        ensures network { IsNetwork self.now }
    {
        self.ports[(self.starts[(v - 1) as usize] + port) as usize]
    }

    /// The port at the neighbour of vertex `v` at `port` that leads back to `v`.
    pub fn back_port(&self, v: u32, port: u32) -> u32
        requires vertex { IsVertex self.now v }
        requires port { port < degree_of self.now v }
        ensures value { result ≡ back_port_of self.now v port }
        ensures port { result < degree_of self.now (neighbour_of self.now v port) }
        ensures network { IsNetwork self.now }
    {
        self.backs[(self.starts[(v - 1) as usize] + port) as usize]
    }

    /// The neighbours of vertex `v`, by port.
    pub fn neighbours(&self, v: u32) -> &[u32]
        requires { IsVertex self.now v }
        ensures value { result.now ≡ neighbours self.now v }
        ensures network { IsNetwork self.now }
    {
        &self.ports[self.starts[(v - 1) as usize] as usize..self.starts[v as usize] as usize]
    }

    /// The colours that are barred at vertex `v`, ascending; a colour is its channel less one.
    pub fn bars(&self, v: u32) -> &[u16]
        requires { IsVertex self.now v }
        ensures value { result.now ≡ bars_of self.now v }
        ensures network { IsNetwork self.now }
    {
        let starts = &self.bars.starts;
        &self.bars.colours[starts[(v - 1) as usize] as usize..starts[v as usize] as usize]
    }

    /// Whether a colour is barred at vertex `v`.
    pub fn is_barred(&self, v: u32, colour: u16) -> bool
        requires { IsVertex self.now v }
        ensures { IsTrue result ↔ IsBarred self.now v colour }
    {
        self.bars(v).binary_search(&colour).is_ok()
    }

    /// An equal network, in memory of its own.
    ///
    /// # Errors
    ///
    /// `Memory` only if a growth is refused.
    pub fn copy(&self, alloc: Global) -> Result<Network, Memory>
        ensures { IfOk result (λ net. net ≡ self.now) }
    {
        let ids = self.ids.to_vec(alloc)?;
        let starts = self.starts.to_vec(alloc)?;
        let ports = self.ports.to_vec(alloc)?;
        let backs = self.backs.to_vec(alloc)?;
        let bars = self.bars.copy(alloc)?;
        Ok(Network {
            ids,
            starts,
            ports,
            backs,
            bars,
            greatest_degree: self.greatest_degree,
            forest_count: self.forest_count,
            again: self.again,
        })
    }
}
