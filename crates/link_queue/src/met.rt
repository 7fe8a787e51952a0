//! What is left of a link when its ends have met, and a wire that found no room.

ghost use Rattle.std.specs.Prelude.{◌≡◌};
ghost use Rattle.link_queue.specs.Ends.{held_stamped};

use crate::queued::Queued;
use crate::view::EndView;
use crossbeam_queue::Pass;
use wires::Stamped;

/// The wire for which the link had no room.
#[derive(Clone, Copy)]
pub struct Full<W>(pub W);

/// What was on a link when its ends met: the wires put and not taken, oldest first, each with its stamp.
pub struct Met<T> {
    held: Vec<Stamped<T>>,
    pass: Pass<Queued<T>, EndView<T>>,
}

impl<T: Drop> Drop for Met<T> {
    fn drop(self) {
        let Met { held: _, pass: _ } = self;
    }
}

impl<T> Met<T> {
    pub(crate) fn of(held: Vec<Stamped<T>>, pass: Pass<Queued<T>, EndView<T>>) -> Met<T>
        ensures held { result.held ≡ held }
        ensures pass { result.pass ≡ pass }
    {
        Met { held, pass }
    }

    /// The wires put and not taken, oldest first, each with its stamp.
    pub fn held(&self) -> &[Stamped<T>]
        ensures { result.now ≡ held_stamped self.now }
    {
        self.held.as_slice()
    }
}
