//! A bounded directed link.

ghost use Rattle.std.specs.Prelude.{◌≡◌, ◌<◌, ◌≤◌, ◌+◌, [], ◌∷◌, ◌++◌, true, length, IfOk, IfErr, IfSome, IfNone};
ghost use Rattle.std.specs.Prelude.{vec_capacity, IsTrue, ◌↔◌, Contains};
ghost use Rattle.wires.specs.declared.wire.Wire.{Wire};
ghost use Rattle.crossbeam_queue.specs.Passes.{view, IsPassOf};
ghost use Rattle.link_rule.specs.Legal.{name_of, IsLegalOn, LegalFor};
ghost use Rattle.wires.specs.StampedWires.{StampsRise, last_stamp, wires_of};
ghost use Rattle.link_queue.specs.Queued.{stamped_of};
ghost use Rattle.link_queue.specs.Rule.{end_view, has_close};
ghost use Rattle.link_queue.specs.Ends.{AreAsBefore, HasMet, IsNewPutEnd, IsNewTakeEnd, IsPutEndOf, IsTakeEndOf};
ghost use Rattle.link_queue.specs.Ends.{StaysPutEnd, StaysTakeEnd, WasEmpty, WasFull, held_stamped, link_capacity};
ghost use Rattle.link_queue.specs.Ends.{put_list, put_name, put_stamped, take_name, taken_list, taken_stamped};

use crate::ends::{PutEnd, PutSide, TakeEnd, TakeSide};
use crate::met::{Full, Met};
use crate::queued::Queued;
use crate::rule::{LinkRule, Named, Naming, Puts, Takes, TakesAll, TwoEnds};
use crate::view::EndView;
use crossbeam_queue::{Pass, RuledArrayQueue};
use interference::{Memory, Network};
use node_api::NodeProgram;
use run_options::MAX_CAPACITY;
use std::alloc::Global;
use std::marker::Brand;
use std::snapshot::Snapshot;
use std::sync::Wait;
use wires::{Stamped, Wire};

/// A bounded, lock-free, directed link of the program `P`: wires that one end puts, the other takes in the same order.
/// It lives outside the scope of the threads that use it.
pub struct Link<P: NodeProgram> {
    queue: RuledArrayQueue<Queued<P::Payload>, EndView<P::Payload>, LinkRule<P>>,
}

impl<P: NodeProgram> Drop for Link<P> {
    fn drop(self) {
        let Link { queue: _ } = self;
    }
}

/// The ends, as they were, if memory for what is held was refused.
#[derive(Drop)]
pub struct MeetRefused<P: NodeProgram> {
    pub put_end: PutEnd<P>,
    pub take_end: TakeEnd<P>,
}

impl<T> PutSide<T> {
    /// Whether this end put a close.
    pub fn is_closed(&self) -> bool
        ensures { IsTrue result ↔ Contains (put_list self.now) Wire.Close }
    {
        self.closed
    }
}

// The end that puts, of a pass that may.
fn put_end_of<T>(pass: Pass<Queued<T>, EndView<T>>, closed: bool) -> PutSide<T>
    requires puts { (pass.me.1 ≡ []) × ((view pass).puts ≡ true) }
    requires closed { closed ≡ has_close (wires_of (view pass).put) }
    ensures { result.pass ≡ pass }
{
    PutSide { pass, closed }
}

// The end that takes, of a pass that may.
fn take_end_of<T>(pass: Pass<Queued<T>, EndView<T>>) -> TakeSide<T>
    requires { (pass.me.1 ≡ []) × ((view pass).takes ≡ true) }
    ensures { result.pass ≡ pass }
{
    TakeSide { pass }
}

type Made<P: NodeProgram> = (Link<P>, PutEnd<P>, TakeEnd<P>);

// The vertex and port at which a link leaves, in its network: they are its name.
#[derive(Drop)]
struct Place<'a> {
    network: &'a Network,
    vertex: u32,
    port: u32,
}

// A new link, whose name is picked when it is made. The place is there for the name alone: a ghost, without bytes.
fn named<J: Naming, P: NodeProgram>(
    alloc: Global,
    _place: Snapshot<Place<'_>>,
    capacity: usize,
) -> Result<Made<P>, Memory>
    requires capacity { (0 < capacity) × (capacity ≤ MAX_CAPACITY) }
    requires name { J.name ≡ name_of _place.value.network.now _place.value.vertex _place.value.port }
    ensures put_end { IfOk result (λ made. IsNewPutEnd made.0 made.1 J.name) }
    ensures take_end { IfOk result (λ made. IsNewTakeEnd made.0 made.2 J.name) }
    ensures capacity { IfOk result (λ made. link_capacity made.0 ≡ capacity) }
{
    let (queue, mut pass) = RuledArrayQueue::ruled(alloc, capacity)?;
    let _spent = queue.another::<Named<J>>(&mut pass);
    let other = queue.another::<TwoEnds>(&mut pass);
    Ok((Link { queue }, put_end_of(pass, false), take_end_of(other)))
}

impl<P: NodeProgram> Link<P> {
    /// The link out of a vertex by a port, with its two ends. It holds at most `capacity` wires, 1 to `MAX_CAPACITY`.
    ///
    /// # Errors
    /// `Memory` if memory was refused.
    pub fn new(
        alloc: Global,
        network: &Network,
        vertex: u32,
        port: u32,
        capacity: usize,
    ) -> Result<(Link<P>, PutEnd<P>, TakeEnd<P>), Memory>
        requires capacity { (0 < capacity) × (capacity ≤ MAX_CAPACITY) }
        ensures put_end { IfOk result (λ made. IsNewPutEnd made.0 made.1 (name_of network.now vertex port)) }
        ensures take_end { IfOk result (λ made. IsNewTakeEnd made.0 made.2 (name_of network.now vertex port)) }
        ensures capacity { IfOk result (λ made. link_capacity made.0 ≡ capacity) }
    {
        let place = Place {
            network,
            vertex,
            port,
        };
        named::<Brand, P>(alloc, Snapshot::of(&place), capacity)
    }

    /// One attempt to put a wire with its stamp at the end of the link, without waiting.
    ///
    /// What the end has put and then the wire has to begin a legal list of the link; so nothing is put after a close.
    /// The stamp has to be above that of the last wire that the end put, or above 0 if it is the first.
    ///
    /// # Errors
    /// `Full` hands the same wire back with its stamp, and the end's list is as it was: the link was full, or the other
    /// end was in the way. Which of these it was, no clause says; `was_full` does.
    #[inline(always)]
    pub fn try_put(
        &self,
        end: &mut PutEnd<P>,
        item: Stamped<P::Payload>,
    ) -> Result<(), Full<Stamped<P::Payload>>>
        requires end { IsPutEndOf self.now end.old }
        requires legal { LegalFor (IsLegalOn P.program) (put_name end.old) (put_list end.old ++ item.wire ∷ []) }
        requires above { last_stamp (put_stamped end.old) < item.stamp }
        ensures end { StaysPutEnd self.now end.old end.new }
        ensures put { IfOk result (λ _. put_list end.new ≡ put_list end.old ++ item.wire ∷ []) }
        ensures stamped { IfOk result (λ _. put_stamped end.new ≡ put_stamped end.old ++ item ∷ []) }
        ensures same_wire { IfErr result (λ full. full.0 ≡ item) }
        ensures unchanged { IfErr result (λ _. put_stamped end.new ≡ put_stamped end.old) }
    {
        let queued = Queued::of(item);
        match self.queue.try_push_as::<Puts>(&mut end.pass, queued) {
            Ok(()) => {
                if let Wire::Close = item.wire {
                    end.closed = true;
                }
                Ok(())
            }
            Err(_) => Err(Full(item)),
        }
    }

    /// Whether the link was full at a moment of the call. That it was is the queue's promise; the clause `full` says
    /// less.
    pub fn was_full(&self, end: &mut PutEnd<P>) -> bool
        requires end { IsPutEndOf self.now end.old }
        ensures end { StaysPutEnd self.now end.old end.new }
        ensures unchanged { put_stamped end.new ≡ put_stamped end.old }
        ensures full { IsTrue result → WasFull self.now (put_list end.old) }
    {
        self.queue.is_full_as::<Puts>(&mut end.pass)
    }

    /// Puts a wire with its stamp at the end of the link. It can't return out-of-memory, and may spin.
    ///
    /// It asks of the wire and the stamp what `try_put` does.
    ///
    /// # Errors
    /// `Full` hands the same wire back with its stamp, and the end's list is as it was. That the link was full at a
    /// moment of the call is the queue's promise; the clause `full` says less.
    pub fn put<R: Wait>(
        &self,
        rt: &R,
        end: &mut PutEnd<P>,
        item: Stamped<P::Payload>,
    ) -> Result<(), Full<Stamped<P::Payload>>>
        requires end { IsPutEndOf self.now end.old }
        requires legal { LegalFor (IsLegalOn P.program) (put_name end.old) (put_list end.old ++ item.wire ∷ []) }
        requires above { last_stamp (put_stamped end.old) < item.stamp }
        ensures end { StaysPutEnd self.now end.old end.new }
        ensures put { IfOk result (λ _. put_list end.new ≡ put_list end.old ++ item.wire ∷ []) }
        ensures stamped { IfOk result (λ _. put_stamped end.new ≡ put_stamped end.old ++ item ∷ []) }
        ensures same_wire { IfErr result (λ full. full.0 ≡ item) }
        ensures unchanged { IfErr result (λ _. put_stamped end.new ≡ put_stamped end.old) }
        ensures full { IfErr result (λ _. WasFull self.now (put_list end.old)) }
    {
        for _ in rt.forever() {
            if self.try_put(end, item).is_ok() {
                return Ok(());
            }
            if self.was_full(end) {
                return Err(Full(item));
            }
        }
        unreachable!()
    }

    /// One attempt to take the oldest wire off the link, in the form in which the queue holds it, without waiting.
    /// `None` if the queue is empty, or the other end is in the way.
    #[inline(always)]
    pub fn try_take(&self, end: &mut TakeEnd<P>) -> Option<Queued<P::Payload>>
        requires end { IsTakeEndOf self.now end.old }
        ensures end { StaysTakeEnd self.now end.old end.new }
        ensures taken { IfSome result
            (λ item. taken_list end.new ≡ taken_list end.old ++ (stamped_of item).wire ∷ []) }
        ensures stamped { IfSome result
            (λ item. taken_stamped end.new ≡ taken_stamped end.old ++ stamped_of item ∷ []) }
        ensures legal { IfSome result (λ _. LegalFor (IsLegalOn P.program) (take_name end.old) (taken_list end.new)) }
        ensures rise { IfSome result (λ _. StampsRise (taken_stamped end.new)) }
        ensures unchanged { IfNone result (taken_stamped end.new ≡ taken_stamped end.old) }
    {
        self.queue.try_pop_as::<Takes<P>>(&mut end.pass)
    }

    /// Takes the oldest wire off the link; `None` if the queue is empty. That it was, at a moment of the call, is the
    /// queue's promise; the clause `empty` says less. It can't return out-of-memory, and may spin.
    pub fn take<R: Wait>(&self, rt: &R, end: &mut TakeEnd<P>) -> Option<Stamped<P::Payload>>
        requires end { IsTakeEndOf self.now end.old }
        ensures end { StaysTakeEnd self.now end.old end.new }
        ensures taken { IfSome result (λ item. taken_list end.new ≡ taken_list end.old ++ item.wire ∷ []) }
        ensures stamped { IfSome result (λ item. taken_stamped end.new ≡ taken_stamped end.old ++ item ∷ []) }
        ensures legal { IfSome result (λ _. LegalFor (IsLegalOn P.program) (take_name end.old) (taken_list end.new)) }
        ensures rise { IfSome result (λ _. StampsRise (taken_stamped end.new)) }
        ensures unchanged { IfNone result (taken_stamped end.new ≡ taken_stamped end.old) }
        ensures empty { IfNone result (WasEmpty (IsLegalOn P.program) (take_name end.old) (taken_list end.old)) }
    {
        match self.queue.pop_as::<Takes<P>, R>(rt, &mut end.pass) {
            Some(queued) => Some(queued.stamped()),
            None => None,
        }
    }

    // Takes the n wires that are on the link, by the pass of both ends, into reserved room.
    fn take_all<R: Wait>(
        &self,
        rt: &R,
        mut pass: Pass<Queued<P::Payload>, EndView<P::Payload>>,
        mut held: Vec<Stamped<P::Payload>>,
        n: usize,
    ) -> (
        Pass<Queued<P::Payload>, EndView<P::Payload>>,
        Vec<Stamped<P::Payload>>,
    )
        requires pass { IsPassOf self.now.queue pass × ((view pass).puts ≡ true) × ((view pass).takes ≡ true) }
        requires count { length (view pass).put ≡ length (view pass).taken + n }
        requires room { (held.items ≡ []) × (n ≤ vec_capacity held) }
        ensures view { view result.0
            ≡ end_view (view pass).name true true (view pass).put ((view pass).taken ++ result.1.items) }
        ensures count { length result.1.items ≡ n }
        ensures all { (view pass).put ≡ (view pass).taken ++ result.1.items }
    {
        for _ in 0..n {
            match self.queue.pop_as::<TakesAll<P>, R>(rt, &mut pass) {
                Some(queued) => held.push_reserved(queued.stamped()),
                None => unreachable!(),
            }
        }
        self.queue.learn_as::<TakesAll<P>>(&mut pass);
        (pass, held)
    }

    /// What a link holds once both its ends are back: all that was put is what was taken and then what is held, a
    /// legal list, and no more is held than the capacity.
    ///
    /// # Errors
    /// `MeetRefused` hands the ends back as they were, if memory for what is held was refused; they can meet again.
    pub fn meet<R: Wait>(
        &self,
        rt: &R,
        alloc: Global,
        put_end: PutEnd<P>,
        take_end: TakeEnd<P>,
    ) -> Result<Met<P::Payload>, MeetRefused<P>>
        requires put_end { IsPutEndOf self.now put_end }
        requires take_end { IsTakeEndOf self.now take_end }
        requires name { put_name put_end ≡ take_name take_end }
        ensures met { IfOk result
            (λ met. HasMet met (put_name put_end) (put_stamped put_end) (taken_stamped take_end)) }
        ensures legal { IfOk result (λ _. LegalFor (IsLegalOn P.program) (put_name put_end) (put_list put_end)) }
        ensures room { IfOk result (λ met. length (held_stamped met) ≤ link_capacity self.now) }
        ensures refused { IfErr result
            (λ back. AreAsBefore self.now back.put_end put_end back.take_end take_end) }
    {
        let PutSide {
            pass: mut both,
            closed,
        } = put_end;
        let TakeSide { pass: other } = take_end;
        self.queue.absorb::<TwoEnds>(&mut both, other);
        let n = self.queue.len_as::<TakesAll<P>, R>(rt, &mut both);
        match Vec::with_capacity(alloc, n) {
            Ok(held) => {
                let (both, held) = self.take_all(rt, both, held, n);
                Ok(Met::of(held, both))
            }
            Err(_) => {
                let other = self.queue.another::<TwoEnds>(&mut both);
                Err(MeetRefused {
                    put_end: put_end_of(both, closed),
                    take_end: take_end_of(other),
                })
            }
        }
    }
}
