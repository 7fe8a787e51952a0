//! All links of a run, which threads share.

ghost use Rattle.std.specs.Prelude.{◌≡◌, ◌<◌, ◌≤◌, ◌++◌, ◌∷◌, [], ℕ, Some, IsSome, length, map};
ghost use Rattle.std.specs.Prelude.{IfOk, IfErr, IfSome, IfNone, IsTrue, slice_get};
ghost use Rattle.link_rule.specs.Legal.{IsLegalOn, LegalFor};
ghost use Rattle.wires.specs.StampedWires.{StampsRise, last_stamp};
ghost use Rattle.link_queue.specs.Ends.{put_list, put_name, put_stamped, take_name, taken_list};
ghost use Rattle.link_queue.specs.Ends.{HasMet, held_stamped, taken_stamped};
ghost use Rattle.link_queue.specs.Queued.{stamped_of};
ghost use Rattle.wired_nodes.specs.Tables.{LinkWasFull, table_of};

use crate::wired::{WiredPut, WiredTake};
use crate::wiring::Wiring;
use interference::Memory;
use link_queue::{Full, Link, Met, Queued};
use node_api::NodeProgram;
use std::alloc::Global;
use std::marker::PhantomData;
use std::sync::Wait;
use wires::Stamped;

/// The links of a run, in one list, in which an end finds its link by the link's index. No clause says in which order
/// they are.
pub struct Links<J: Wiring, P: NodeProgram> {
    list: Vec<Link<P>>,
    of: PhantomData<J>,
    pub ghost are: { map table_of list.items ≡ J.links },
}

impl<J: Wiring, P: NodeProgram> Drop for Links<J, P> {
    fn drop(self) {
        let Links { list: _, of: _ } = self;
    }
}

impl<J: Wiring, P: NodeProgram> Links<J, P> {
    ghost use Rattle.wired_nodes.specs.Links.{HoldAtMost};

    /// These links, whose queues the run has picked.
    pub fn new(list: Vec<Link<P>>) -> Links<J, P>
        requires picked { map table_of list.items ≡ J.links }
        ensures list { result.list ≡ list }
    {
        Links {
            list,
            of: PhantomData,
        }
    }

    // The link of an index.
    #[inline]
    fn link(&self, index: u32) -> &Link<P>
        requires link { IsSome (slice_get J.links index) }
        ensures link { slice_get J.links index ≡ Some (table_of result.now) }
        ensures listed { slice_get self.now.list.items index ≡ Some result.now }
    {
        &self.list[index as usize]
    }

    /// One attempt to put a wire with its stamp on the end's link: `link_queue::Link::try_put`, at the link that the
    /// end is of.
    ///
    /// # Errors
    /// `Full` hands the same wire back with its stamp, and the end's list is as it was.
    #[inline(always)]
    pub fn try_put(
        &self,
        end: &mut WiredPut<J, P::Payload>,
        item: Stamped<P::Payload>,
    ) -> Result<(), Full<Stamped<P::Payload>>>
        requires legal { LegalFor (IsLegalOn P.program) (put_name end.old.end)
            (put_list end.old.end ++ item.wire ∷ []) }
        requires above { last_stamp (put_stamped end.old.end) < item.stamp }
        ensures place { (end.new.vertex ≡ end.old.vertex) × (end.new.port ≡ end.old.port) }
        ensures put { IfOk result (λ _. put_list end.new.end ≡ put_list end.old.end ++ item.wire ∷ []) }
        ensures stamped { IfOk result (λ _. put_stamped end.new.end ≡ put_stamped end.old.end ++ item ∷ []) }
        ensures same_wire { IfErr result (λ full. full.0 ≡ item) }
        ensures unchanged { IfErr result (λ _. put_stamped end.new.end ≡ put_stamped end.old.end) }
    {
        self.link(end.index).try_put(&mut end.end, item)
    }

    /// Whether the end's link was full at a moment of the call: `link_queue::Link::was_full`, at the link that the end
    /// is of.
    pub fn was_full(&self, end: &mut WiredPut<J, P::Payload>) -> bool
        ensures place { (end.new.vertex ≡ end.old.vertex) × (end.new.port ≡ end.old.port) }
        ensures unchanged { put_stamped end.new.end ≡ put_stamped end.old.end }
        ensures full { IsTrue result
            → LinkWasFull P J.tables end.old.vertex end.old.port (put_list end.old.end) }
    {
        self.link(end.index).was_full(&mut end.end)
    }

    /// One attempt to take the oldest wire off the end's link: `link_queue::Link::try_take`, at the link that the end
    /// is of.
    #[inline(always)]
    pub fn try_take(&self, end: &mut WiredTake<J, P::Payload>) -> Option<Queued<P::Payload>>
        ensures place { (end.new.vertex ≡ end.old.vertex) × (end.new.port ≡ end.old.port) }
        ensures taken { IfSome result
            (λ item. taken_list end.new.end ≡ taken_list end.old.end ++ (stamped_of item).wire ∷ []) }
        ensures stamped { IfSome result
            (λ item. taken_stamped end.new.end ≡ taken_stamped end.old.end ++ stamped_of item ∷ []) }
        ensures legal { IfSome result
            (λ _. LegalFor (IsLegalOn P.program) (take_name end.old.end) (taken_list end.new.end)) }
        ensures rise { IfSome result (λ _. StampsRise (taken_stamped end.new.end)) }
        ensures unchanged { IfNone result (taken_stamped end.new.end ≡ taken_stamped end.old.end) }
    {
        self.link(end.index).try_take(&mut end.end)
    }

    /// What a link holds once both its ends are back: `link_queue::Link::meet`, at the link that the ends are of.
    ///
    /// # Errors
    /// `Memory` if memory for what is held was refused; the ends are dropped then, and the links stay.
    pub fn meet<R: Wait>(
        &self,
        rt: &R,
        alloc: Global,
        put: WiredPut<J, P::Payload>,
        take: WiredTake<J, P::Payload>,
    ) -> Result<Met<P::Payload>, Memory>
        requires same { (take.vertex ≡ put.vertex) × (take.port ≡ put.port) }
        ensures met { IfOk result
            (λ met. HasMet met (put_name put.end) (put_stamped put.end) (taken_stamped take.end)) }
        ensures room { IfOk result (λ met. (capacity : ℕ)
            → HoldAtMost self.now capacity → length (held_stamped met) ≤ capacity) }
    {
        let link = self.link(put.index);
        match link.meet(rt, alloc, put.into_end(), take.into_end()) {
            Ok(met) => Ok(met),
            Err(_) => Err(Memory),
        }
    }
}
