//! The wires that a node has still to put, by port.

ghost use Rattle.std.specs.Prelude.{◌≡◌, ◌<◌, ◌≤◌, ◌++◌, ◌∷◌, [], IfOk, drop, length, replicate};
ghost use Rattle.std.specs.Prelude.{slice_get, slice_index_or, slice_set};
ghost use Rattle.arrayvec.specs.ArrayVec.{array_vec_len};
ghost use Rattle.alpha_core.specs.OutLists.{PayloadFits, payloads_in, payloads_out, wires_of};
ghost use Rattle.alpha_core.specs.Rows.{all_within, out_at, push_out};

use crate::bare::{BareWire, bare_of};
use crate::marks::one_if;
use crate::payloads::Payloads;
use arrayvec::ArrayVec;
use interference::Memory;
use std::alloc::Global;
use std::marker::Model;
use wires::Wire;

/// How many wires an out-list has room for.
const ROOM: usize = 4;

// The wires of a port: without their payloads, oldest first, and the payloads, as many as there are payload wires, in
// their order.
#[derive(Drop)]
struct OutList<T> {
    wires: ArrayVec<BareWire, ROOM>,
    payloads: Payloads<T>,
}

/// A list of wires for each port, with room for four.
#[derive(Drop)]
pub(crate) struct OutLists<T> {
    // By port, in one block of memory.
    lists: Vec<OutList<T>>,
    // How many lists are full: so no question about all ports costs a walk.
    full: usize,
    // How many lists have a wire. Beside `full`, both would be moved as a pair, which takes more instructions.
    busy: usize,
}

impl<T> Model for OutLists<T> {
    ghost use Rattle.std.specs.Prelude.{List};
    ghost use Rattle.wires.specs.declared.wire.Wire.{Wire};
    ghost use Rattle.alpha_core.specs.OutLists.{AreOutLists, outs_of};

    ghost Value = { List (List (Wire T)) };

    ghost view = { λ a. outs_of (λ x. x.wires.items) (λ x. x.payloads) a.lists.items };

    ghost invariant = { λ a. AreOutLists (λ x. x.wires.items) (λ x. x.payloads) a.lists.items a.full a.busy };
}

impl<T: Copy> OutLists<T> {
    /// Empty lists for `degree` ports. No later call can return out-of-memory.
    pub(crate) fn new(alloc: Global, degree: u32) -> Result<OutLists<T>, Memory>
        ensures empty { IfOk result (λ outs. outs ≡ replicate degree []) }
    {
        let mut lists = Vec::with_capacity(alloc, degree as usize)?;
        for _port in 0..degree {
            let wires = ArrayVec::new();
            let payloads = Payloads::new();
            lists.push(OutList { wires, payloads })?;
        }
        Ok(OutLists {
            lists,
            full: 0,
            busy: 0,
        })
    }

    /// Whether no list has a wire.
    pub(crate) fn is_empty(&self) -> bool
        ensures empty { result ≡ all_within 0 self.now }
    {
        self.busy == 0
    }

    /// Whether there is room for one wire more in every list.
    pub(crate) fn has_room(&self) -> bool
        ensures room { result ≡ all_within 3 self.now }
    {
        self.full == 0
    }

    /// The oldest wire of a port.
    pub(crate) fn front(&self, port: u32) -> Option<Wire<T>>
        requires port { port < length self.now }
        ensures oldest { result ≡ slice_get (out_at self.now port) 0 }
    {
        let list = &self.lists[port as usize];
        first_wire(&list.wires, &list.payloads)
    }

    /// Puts a wire last, where the port has at most three.
    pub(crate) fn push(&mut self, port: u32, wire: Wire<T>)
        requires port { port < length self.old }
        requires room { length (out_at self.old port) ≤ 3 }
        requires payload { PayloadFits wire (payloads_out (out_at self.old port)) }
        ensures outs { self.new ≡ push_out self.old port wire }
    {
        let list = &mut self.lists[port as usize];
        let count = push_last(&mut list.wires, bare_of(&wire));
        list.payloads.push_of(wire);
        self.full += one_if(count == ROOM);
        self.busy += one_if(count < 2);
    }

    /// Takes the oldest wire of a port off.
    #[inline(always)]
    pub(crate) fn pop(&mut self, port: u32)
        requires port { port < length self.old }
        requires some { 0 < length (out_at self.old port) }
        ensures outs { self.new ≡ slice_set self.old port (drop 1 (out_at self.old port)) }
    {
        let list = &mut self.lists[port as usize];
        let count = list.wires.len();
        let bare = take_first(&mut list.wires);
        list.payloads.pop_of(bare);
        self.full -= one_if(count == ROOM);
        self.busy -= one_if(count < 2);
    }
}

// The first of a port's wires, with its payload.
fn first_wire<T: Copy>(wires: &ArrayVec<BareWire, ROOM>, payloads: &Payloads<T>) -> Option<Wire<T>>
    requires payloads { payloads_in wires.now.items ≡ length payloads.now }
    ensures first { result ≡ slice_get (wires_of wires.now.items payloads.now) 0 }
{
    match *wires.first()? {
        BareWire::Payload(pulse) => Some(Wire::Payload(pulse, payloads.first()?)),
        BareWire::Ack(pulse) => Some(Wire::Ack(pulse)),
        BareWire::Safe(pulse) => Some(Wire::Safe(pulse)),
        BareWire::Close => Some(Wire::Close),
    }
}

// Puts a wire last, which has room, and returns how many there are now.
fn push_last(wires: &mut ArrayVec<BareWire, ROOM>, bare: BareWire) -> usize
    requires room { array_vec_len wires.old ≤ 3 }
    ensures items { wires.new.items ≡ wires.old.items ++ bare ∷ [] }
    ensures count { result ≡ length wires.new.items }
{
    wires.push(bare);
    wires.len()
}

// Takes the first wire off.
#[inline(always)]
fn take_first(wires: &mut ArrayVec<BareWire, ROOM>) -> BareWire
    requires some { 0 < array_vec_len wires.old }
    ensures first { result ≡ slice_index_or wires.old.items 0 result }
    ensures items { wires.new.items ≡ drop 1 wires.old.items }
{
    if wires.len() > 1 {
        return wires.remove(0);
    }
    wires.pop().unwrap()
}
