//! All links of a network.

ghost use Rattle.std.specs.Prelude.{◌≡◌, ◌<◌, IfOk, OnErr, length, replicate, slice_get};
ghost use Rattle.event_rule.specs.State.{HasLink, empty_links, link_at, no_link, put_one, set_link, take_one};

use crate::wire_list::Wires;
use interference::{Memory, Network};
use std::alloc::Global;
use std::marker::Model;
use wires::Wire;

/// The links of a network. Contracts see them as rows: entry `v - 1` has the links out of vertex `v`, by
/// port.
#[derive(Drop)]
pub(crate) struct Links<T> {
    rows: Vec<Vec<Wires<T>>>,
}

impl<T> Model for Links<T> {
    ghost use Rattle.std.specs.Prelude.{List, map};
    ghost use Rattle.event_rule.specs.State.{Link};

    ghost Value = { List (List (Link T)) };

    ghost view = { λ a. map (λ row. row.items) a.rows.items };
}

/// So many links on which nothing was put.
fn row<T: Copy>(alloc: Global, degree: u32) -> Result<Vec<Wires<T>>, Memory>
    ensures row { IfOk result (λ row. row.items ≡ replicate degree no_link) }
{
    let mut row = Vec::new(alloc);
    for _ in 0..degree {
        row.push(Wires::new(alloc))?;
    }
    Ok(row)
}

impl<T: Copy> Links<T> {
    /// The links of a network, on which nothing was put.
    pub(crate) fn new(alloc: Global, net: &Network) -> Result<Links<T>, Memory>
        ensures links { IfOk result (λ links. links ≡ empty_links net.now) }
    {
        let mut rows = Vec::new(alloc);
        for i in 0..net.nodes() {
            let row = row(alloc, net.degree(i + 1))?;
            rows.push(row)?;
        }
        Ok(Links { rows })
    }

    /// The oldest wire that the link out of a vertex by a port holds.
    pub(crate) fn next(&self, v: u32, port: u32) -> Option<Wire<T>>
        requires link { HasLink self.now v port }
        ensures next { result ≡ slice_get (link_at self.now v port).held 0 }
    {
        self.rows[(v - 1) as usize][port as usize].next()
    }

    /// How many wires it holds.
    pub(crate) fn waiting(&self, v: u32, port: u32) -> usize
        requires link { HasLink self.now v port }
        ensures waiting { result ≡ length (link_at self.now v port).held }
    {
        self.rows[(v - 1) as usize][port as usize].waiting()
    }

    /// How many wires were taken from it, and those that it holds, oldest first.
    pub(crate) fn parts(&self, v: u32, port: u32) -> (usize, &[Wire<T>])
        requires link { HasLink self.now v port }
        ensures taken { result.0 ≡ length (link_at self.now v port).taken }
        ensures held { result.1.now ≡ (link_at self.now v port).held }
    {
        self.rows[(v - 1) as usize][port as usize].parts()
    }

    /// Puts a wire on it. All links stay as they were if memory is refused.
    pub(crate) fn put(&mut self, v: u32, port: u32, wire: Wire<T>) -> Result<(), Memory>
        requires link { HasLink self.old v port }
        ensures put { IfOk result (λ _. self.new ≡ set_link self.old v port (put_one wire (link_at self.old v port))) }
        ensures refused { OnErr result (self.new ≡ self.old) }
    {
        self.rows[(v - 1) as usize][port as usize].put(wire)?;
        Ok(())
    }

    /// Takes the oldest wire that it holds; there is one.
    pub(crate) fn take(&mut self, v: u32, port: u32)
        requires link { HasLink self.old v port }
        requires some { 0 < length (link_at self.old v port).held }
        ensures taken { self.new ≡ set_link self.old v port (take_one (link_at self.old v port)) }
    {
        self.rows[(v - 1) as usize][port as usize].take();
    }
}
