//! The rule of a link, and what each of its steps says.
//!
//! Eight kinds of step: put, put refused as full, take, take refused as empty, and, by one caller that has all passes,
//! the making of the queue, the naming of its view, the splitting into two ends and their joining. A take is by the
//! take end, or by the view of both ends once they are joined.

use crate::queued::Queued;
use crate::view::EndView;
use crossbeam_queue::protocol::{Join, Lesson, Outcome, Protocol, Split};
use node_api::NodeProgram;
use std::marker::{Brand, PhantomData};

// What was put is what was taken and then what is on the queue, and is legal on the link of that name.
pub struct LinkRule<P> {
    program: PhantomData<P>,
}

impl<P: NodeProgram> Protocol<Queued<P::Payload>, EndView<P::Payload>> for LinkRule<P> {
    ghost use Rattle.std.specs.Prelude.{None, true, []};
    ghost use Rattle.link_rule.specs.Legal.{IsLegalOn};
    ghost use Rattle.link_queue.specs.Queued.{all_stamped};
    ghost use Rattle.link_queue.specs.Rule.{end_view, Linked};

    ghost holds = { λ items. Linked (IsLegalOn P.program) (all_stamped items) };

    ghost first = { end_view None true true [] [] };
}

// Which link it is. Each making of a link picks it.
pub trait Naming {
    ghost use Rattle.link_rule.specs.declared.name.LinkName.{LinkName};

    ghost name: { LinkName };
}

impl Naming for Brand {
    ghost use Rattle.std.specs.Prelude.{[]};

    ghost name = { record { network = record { ids = []; ports = []; bars = []; again = 0 }; vertex = 0; port = 0 } };
}

// Naming a new link: its one view gets the name; the second pass that the splitting makes is not used.
pub struct Named<J> {
    name: PhantomData<J>,
}

impl<J: Naming, T> Split<EndView<T>> for Named<J> {
    ghost use Rattle.std.specs.Prelude.{Some, None, false, []};
    ghost use Rattle.link_queue.specs.Rule.{end_view};

    ghost left = { λ v. end_view (Some J.name) v.puts v.takes v.put v.taken };

    ghost right = { λ v. end_view None false false [] [] };
}

// The splitting of one view into the two ends, and their joining.
pub struct TwoEnds;

impl<T> Split<EndView<T>> for TwoEnds {
    ghost use Rattle.std.specs.Prelude.{true, false, []};
    ghost use Rattle.link_queue.specs.Rule.{end_view};

    ghost left = { λ v. end_view v.name true false v.put [] };

    ghost right = { λ v. end_view v.name false true [] v.taken };
}

impl<T> Join<EndView<T>> for TwoEnds {
    ghost use Rattle.std.specs.Prelude.{None, true, false, []};
    ghost use Rattle.link_queue.specs.Rule.{end_view};

    ghost both = { λ v w. end_view v.name true true v.put w.taken };

    ghost spent = { end_view None false false [] [] };
}

// A put, and what a refused one says.
pub struct Puts;

impl<T> Outcome<Queued<T>, EndView<T>> for Puts {
    ghost use Rattle.std.specs.Prelude.{◌≡◌, [], ◌∷◌, ◌++◌};
    ghost use Rattle.link_queue.specs.Queued.{stamped_of};
    ghost use Rattle.link_queue.specs.Rule.{end_view};

    ghost then = { λ v x w. w ≡ end_view v.name v.puts v.takes (v.put ++ stamped_of x ∷ []) v.taken };
}

impl<T> Lesson<Queued<T>, EndView<T>> for Puts {
    ghost use Rattle.wires.specs.StampedWires.{wires_of};
    ghost use Rattle.link_queue.specs.Queued.{all_stamped};
    ghost use Rattle.link_queue.specs.Rule.{AreLastOf};

    ghost fact = { λ v items. AreLastOf (wires_of v.put) (all_stamped items) };
}

// A take, and what a refused one says.
pub struct Takes<P> {
    program: PhantomData<P>,
}

impl<P: NodeProgram> Outcome<Queued<P::Payload>, EndView<P::Payload>> for Takes<P> {
    ghost use Rattle.link_rule.specs.Legal.{IsLegalOn};
    ghost use Rattle.link_queue.specs.Queued.{stamped_of};
    ghost use Rattle.link_queue.specs.Rule.{Taking};

    ghost then = { λ v x. Taking (IsLegalOn P.program) v (stamped_of x) };
}

impl<P: NodeProgram> Lesson<Queued<P::Payload>, EndView<P::Payload>> for Takes<P> {
    ghost use Rattle.link_rule.specs.Legal.{IsLegalOn};
    ghost use Rattle.wires.specs.StampedWires.{wires_of};
    ghost use Rattle.link_queue.specs.Queued.{all_stamped};
    ghost use Rattle.link_queue.specs.Rule.{MayFollow};

    ghost fact = { λ v items. MayFollow (IsLegalOn P.program) v.name (wires_of v.taken) (all_stamped items) };
}

// A take by a view of both ends, which knows all wires on the queue.
pub struct TakesAll<P> {
    program: PhantomData<P>,
}

impl<P: NodeProgram> Lesson<Queued<P::Payload>, EndView<P::Payload>> for TakesAll<P> {
    ghost use Rattle.link_rule.specs.Legal.{IsLegalOn};
    ghost use Rattle.link_queue.specs.Queued.{all_stamped};
    ghost use Rattle.link_queue.specs.Rule.{IsAllOf};

    ghost fact = { λ v items. IsAllOf (IsLegalOn P.program) v (all_stamped items) };
}

impl<P: NodeProgram> Outcome<Queued<P::Payload>, EndView<P::Payload>> for TakesAll<P> {
    ghost use Rattle.link_rule.specs.Legal.{IsLegalOn};
    ghost use Rattle.link_queue.specs.Queued.{stamped_of};
    ghost use Rattle.link_queue.specs.Rule.{Taking};

    ghost then = { λ v x. Taking (IsLegalOn P.program) v (stamped_of x) };
}
