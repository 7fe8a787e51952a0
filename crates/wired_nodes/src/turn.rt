//! What a node does in a turn.

ghost use Rattle.std.specs.Prelude.{◌≡◌, ◌<◌, ◌≤◌, ◌+◌, ◌^◌, ℕ, max, IfErr, IfOk, IsSome, IsTrue, None, Ok, Err};
ghost use Rattle.std.specs.Prelude.{false, true};
ghost use Rattle.alpha_core.specs.View.{can_pulse, can_take};
ghost use Rattle.link_queue.specs.Queued.{stamped_of};
ghost use Rattle.wired_nodes.specs.Blocked.{HasPutRoom, HasTakeRoom, IsUnmoved, PutBlocked};
ghost use Rattle.entries.specs.Recorded.{HasRoom};
ghost use Rattle.wired_nodes.specs.Counted.{CountsOn, CountsPut, CountsTake, events_of};
ghost use Rattle.wired_nodes.specs.HasStamps.{aside_stamp};
ghost use Rattle.wired_nodes.specs.Stepped.{Stepped, Turned, refusal_after, refusal_of};

use crate::aside::{Aside, WhyAside};
use crate::gate::Gate;
use crate::links::Links;
use crate::node::Node;
use crate::refused::TurnRefused;
use crate::wiring::Wiring;
use entries::Entry;
use link_queue::Queued;
use node_api::{NodeProgram, PayloadText};
use std::sync::Wait;
use wires::{Stamped, Wire};

// How many wires a node takes by one port in a turn, at most.
const TAKES: u32 = 4;

// How many wires it puts by one port in a turn, at most: as many as an out-list has.
const PUTS: u32 = 4;

const _: () = prove!(TAKES == 4 && PUTS == 4);

// The wire that the queue of a link held, without its stamp.
fn wire_of<T: PayloadText>(item: Queued<T>) -> Wire<T>
    ensures wire { result ≡ (stamped_of item).wire }
{
    match item {
        Queued::Payload(pulse, _, payload) => Wire::Payload(pulse, payload.by_words()),
        Queued::Ack(pulse, _) => Wire::Ack(pulse),
        Queued::Safe(pulse, _) => Wire::Safe(pulse),
        Queued::Close(_) => Wire::Close,
    }
}

// What a node remembers after a refused turn: that memory was refused, if it ever was.
fn remembered(old: Option<TurnRefused>, refused: TurnRefused) -> Option<TurnRefused>
    ensures refusal { result ≡ refusal_after old (Err refused) }
{
    match old {
        Some(TurnRefused::Memory) => Some(TurnRefused::Memory),
        _ => Some(refused),
    }
}

impl<J: Wiring, P: NodeProgram> Node<J, P> {
    // Takes a wire by a port, if there is one, and reacts to it. Returns whether there was one.
    fn take_one<const ON: bool>(
        &mut self,
        links: &Links<J, P>,
        port: u32,
    ) -> Result<bool, TurnRefused>
        requires transcript { J.transcript ≡ ON }
        requires port { port < self.old.degree }
        requires going { self.old.aside ≡ None }
        requires room { IsTrue (can_take self.old.alpha.node.view) }
        ensures stepped { Stepped self.old self.new result }
        ensures counted { IfOk result (λ did. did ≡ true → CountsTake port self.old self.new) }
        ensures room { IfOk result (λ did. did ≡ false → HasRoom self.new.recorder) }
    {
        self.recorder.reserve::<ON>()?;
        let end = &mut self.takes[port as usize];
        match links.try_take(end) {
            None => Ok(false),
            Some(item) => {
                let stamp = item.stamp();
                let wire = wire_of(item);
                let Ok(next) = self.counter.peek_past(stamp) else {
                    let why = WhyAside::StampFull(stamp);
                    self.aside = Some(Aside { port, wire, why });
                    return Err(TurnRefused::StampFull);
                };
                match self.alpha.on_wire(port, wire) {
                    Ok(()) => {
                        self.counter.advance(next);
                        let entry = Entry::Take(end.vertex, wire);
                        self.recorder.write::<ON>(next, entry);
                    }
                    Err(_) => {
                        let why = WhyAside::Refused;
                        self.aside = Some(Aside { port, wire, why });
                    }
                }
                Ok(true)
            }
        }
    }

    // Takes a wire by a port, and further ones while it expects them, at most `TAKES`. Returns whether it took one.
    fn take_some<const ON: bool>(
        &mut self,
        links: &Links<J, P>,
        port: u32,
    ) -> Result<bool, TurnRefused>
        requires transcript { J.transcript ≡ ON }
        requires port { port < self.old.degree }
        ensures stepped { Stepped self.old self.new result }
        ensures stopped { IfOk result (λ did. IsSome self.old.aside → did ≡ false) }
        ensures room { IfOk result (λ did. did ≡ false → self.new.aside ≡ None → HasTakeRoom self.new) }
    {
        for take in 0..TAKES {
            if self.aside.is_some() || !self.alpha.can_take() {
                return Ok(take > 0);
            }
            if !self.take_one::<ON>(links, port)? {
                return Ok(take > 0);
            }
            if !self.alpha.expects(port) {
                return Ok(true);
            }
        }
        Ok(true)
    }

    // Takes by each port, ascending. Returns whether it took a wire.
    fn take_all<const ON: bool>(&mut self, links: &Links<J, P>) -> Result<bool, TurnRefused>
        requires transcript { J.transcript ≡ ON }
        ensures stepped { Stepped self.old self.new result }
        ensures stopped { IfOk result (λ did. IsSome self.old.aside → did ≡ false) }
        ensures room { IfOk result
            (λ did. did ≡ false → self.new.aside ≡ None → 0 < self.new.degree → HasTakeRoom self.new) }
    {
        let mut took = false;
        for port in 0..self.degree {
            if self.take_some::<ON>(links, port)? {
                took = true;
            }
        }
        Ok(took)
    }

    // Makes the next pulse, if the node can; its program doesn't refuse it. Returns whether it made one.
    fn pulse<const ON: bool>(&mut self) -> Result<bool, TurnRefused>
        requires transcript { J.transcript ≡ ON }
        requires going { self.old.aside ≡ None }
        ensures stepped { Stepped self.old self.new result }
        ensures counted { IfOk result (λ did. did ≡ true → self.new.counter ≡ self.old.counter + 1) }
        ensures blocked { IfOk result
            (λ did. did ≡ false → can_pulse self.new.alpha.last self.new.alpha.node.view ≡ false) }
        ensures going { self.new.aside ≡ None }
    {
        if !self.alpha.can_pulse() {
            return Ok(false);
        }
        let stamp = self.counter.peek()?;
        self.recorder.reserve::<ON>()?;
        match self.alpha.pulse() {
            Ok(()) => {
                self.counter.advance(stamp);
                let number = self.alpha.pulse_number();
                self.recorder.write::<ON>(stamp, Entry::Pulse(number));
                Ok(true)
            }
            Err(_) => unreachable!(),
        }
    }

    // Puts the oldest wire of a port by one attempt, if there is one. Returns whether it put one.
    #[inline(always)]
    fn put_one<const ON: bool>(
        &mut self,
        links: &Links<J, P>,
        port: u32,
    ) -> Result<bool, TurnRefused>
        requires transcript { J.transcript ≡ ON }
        requires port { port < self.old.degree }
        requires going { self.old.aside ≡ None }
        ensures stepped { Stepped self.old self.new result }
        ensures counted { IfOk result (λ did. did ≡ true → CountsPut port self.old self.new) }
        ensures room { IfOk result (λ did. did ≡ false → HasPutRoom port self.new) }
        ensures going { self.new.aside ≡ None }
    {
        let Some(wire) = self.alpha.front(port) else {
            return Ok(false);
        };
        let stamp = self.counter.peek()?;
        self.recorder.reserve::<ON>()?;
        match links.try_put(&mut self.puts[port as usize], Stamped { stamp, wire }) {
            Err(_) => Ok(false),
            Ok(()) => {
                self.alpha.put_done(port);
                self.counter.advance(stamp);
                let neighbour = &self.takes[port as usize];
                let entry = Entry::Put(neighbour.vertex, wire);
                self.recorder.write::<ON>(stamp, entry);
                Ok(true)
            }
        }
    }

    // Puts by a port, at most `PUTS` wires, until nothing is left or an attempt fails. Returns whether it put a wire.
    // Always inlined, as `put_one`, though it is called twice.
    #[inline(always)]
    fn put_some<const ON: bool>(
        &mut self,
        links: &Links<J, P>,
        port: u32,
    ) -> Result<bool, TurnRefused>
        requires transcript { J.transcript ≡ ON }
        requires port { port < self.old.degree }
        requires going { self.old.aside ≡ None }
        ensures stepped { Stepped self.old self.new result }
        ensures room { IfOk result (λ did. did ≡ false → HasPutRoom port self.new) }
        ensures going { self.new.aside ≡ None }
    {
        for put in 0..PUTS {
            if !self.put_one::<ON>(links, port)? {
                return Ok(put > 0);
            }
        }
        Ok(true)
    }

    // Whether no wire waits by a port, or its link was full at a moment of the call.
    fn is_blocked(&mut self, links: &Links<J, P>, port: u32) -> bool
        requires port { port < self.old.degree }
        requires going { self.old.aside ≡ None }
        ensures stepped { Stepped self.old self.new (Ok false) }
        ensures blocked { IsTrue result → PutBlocked port self.old }
        ensures going { self.new.aside ≡ None }
    {
        if self.alpha.front(port).is_none() {
            return true;
        }
        links.was_full(&mut self.puts[port as usize])
    }

    // Puts by a port after an attempt that failed though the link wasn't full, until a wire is put or the port is
    // blocked. Returns whether it put one. Never inlined, since few runs come here.
    #[inline(never)]
    fn put_again<const ON: bool, R: Wait>(
        &mut self,
        rt: &R,
        links: &Links<J, P>,
        port: u32,
    ) -> Result<bool, TurnRefused>
        requires transcript { J.transcript ≡ ON }
        requires port { port < self.old.degree }
        requires going { self.old.aside ≡ None }
        ensures stepped { Stepped self.old self.new result }
        ensures blocked { IfOk result (λ did. did ≡ false → PutBlocked port self.old) }
        ensures going { self.new.aside ≡ None }
    {
        for _ in rt.forever() {
            let put = self.put_some::<ON>(links, port)?;
            if put {
                return Ok(true);
            }
            if self.is_blocked(links, port) {
                return Ok(false);
            }
        }
        unreachable!()
    }

    // Puts by each port, ascending. Returns whether it put a wire. It calls a function that may wait only after an
    // attempt that failed by a port that isn't blocked.
    fn put_all<const ON: bool, R: Wait>(
        &mut self,
        rt: &R,
        links: &Links<J, P>,
    ) -> Result<bool, TurnRefused>
        requires transcript { J.transcript ≡ ON }
        requires going { self.old.aside ≡ None }
        ensures stepped { Stepped self.old self.new result }
        ensures blocked { IfOk result
            (λ did. did ≡ false → (port : ℕ) → port < self.old.degree → PutBlocked port self.old) }
        ensures going { self.new.aside ≡ None }
    {
        let mut put = false;
        for port in 0..self.degree {
            if self.put_some::<ON>(links, port)? {
                put = true;
                continue;
            }
            if self.is_blocked(links, port) {
                continue;
            }
            if self.put_again::<ON, R>(rt, links, port)? {
                put = true;
            }
        }
        Ok(put)
    }

    // The parts of a turn, one after the other. Returns whether the node did anything, but false if it has a wire
    // aside. `ON` says in all parts whether the node writes a transcript, so that none of them asks.
    fn parts<const ON: bool, R: Wait, G: Gate>(
        &mut self,
        rt: &R,
        links: &Links<J, P>,
        gate: &G,
        worker: u32,
    ) -> Result<bool, TurnRefused>
        requires transcript { J.transcript ≡ ON }
        ensures turned { Turned self.old self.new result }
    {
        let took = self.take_all::<ON>(links)?;
        gate.middle(rt, worker, self.vertex);
        if self.aside.is_some() {
            return Ok(false);
        }
        let pulsed = self.pulse::<ON>()?;
        let put = self.put_all::<ON, R>(rt, links)?;
        Ok(took || pulsed || put)
    }

    // `parts`, with a transcript or without.
    fn parts_of_turn<R: Wait, G: Gate>(
        &mut self,
        rt: &R,
        links: &Links<J, P>,
        gate: &G,
        worker: u32,
    ) -> Result<bool, TurnRefused>
        ensures turned { Turned self.old self.new result }
    {
        if self.recorder.is_on() {
            self.parts::<true, R, G>(rt, links, gate, worker)
        } else {
            self.parts::<false, R, G>(rt, links, gate, worker)
        }
    }

    /// One turn: takes by each port, then one pulse if the node can make it, then puts by each port. Returns whether
    /// the node did anything, but false if it has a wire aside.
    ///
    /// # Errors
    ///
    /// `Memory` if memory for an entry is refused; the node is as after its last event. `StampFull` if a stamp would
    /// pass 18446744073709551615; the node is as after its last event, but a wire whose take would have that stamp is
    /// set aside. The node remembers the refusal (`refusal`): memory also if a later turn has no stamp left.
    pub fn turn<R: Wait, G: Gate>(
        &mut self,
        rt: &R,
        links: &Links<J, P>,
        gate: &G,
        worker: u32,
    ) -> Result<bool, TurnRefused>
        ensures vertex { self.new.vertex ≡ self.old.vertex }
        ensures refusal { refusal_of self.new ≡ refusal_after (refusal_of self.old) result }
        ensures counted { CountsOn self.old self.new }
        ensures aside { IfOk result (λ did. IsSome self.new.aside → did ≡ false) }
        ensures moved { IfOk result (λ did. did ≡ true → events_of self.old < events_of self.new) }
        ensures unmoved { IfOk result
            (λ did. did ≡ false → self.new.aside ≡ self.old.aside → IsUnmoved self.old self.new) }
        ensures blocked { IfOk result (λ did. did ≡ false → self.new.aside ≡ None
            → can_pulse self.new.alpha.last self.new.alpha.node.view ≡ false) }
        ensures puts_blocked { IfOk result (λ did. did ≡ false → self.new.aside ≡ None
            → (port : ℕ) → port < self.new.degree → PutBlocked port self.new) }
        ensures room { IfOk result
            (λ did. did ≡ false → self.new.aside ≡ None → 0 < self.new.degree → HasTakeRoom self.new) }
        ensures refused { IfErr result (λ error. error ≡ TurnRefused.Memory → IsTrue J.transcript) }
        ensures full { IfErr result (λ error. error ≡ TurnRefused.StampFull
            → 2 ^ 64 ≤ max self.new.counter (aside_stamp self.new.aside) + 1) }
    {
        match self.parts_of_turn(rt, links, gate, worker) {
            Ok(did) => Ok(did),
            Err(refused) => {
                self.refusal = remembered(self.refusal, refused);
                Err(refused)
            }
        }
    }
}
