//! A pass at another worker's deque.

ghost use Rattle.std.specs.Prelude.{◌≡◌, ◌++◌, ◌∷◌, [], IfNone, IfSome, None};
ghost use Rattle.crossbeam_deque.specs.Handles.{stealer_deque, view};
ghost use Rattle.deque_rule.specs.Ledgers.{ledger};
ghost use Rattle.deque_rule.specs.Deques.{deque_of};

use crate::ledger::{Balance, Ledger, StealStep};
use crate::task::Task;
use crossbeam_deque::{Pass, Stealer, Worker};
use std::alloc::Global;

/// A worker's own deque.
pub type Own<T: Task> = Worker<Box<T>, Global, Ledger, Balance>;

/// What takes tasks from a worker's deque, by any thread.
pub type StealHandle<T: Task> = Stealer<Box<T>, Global, Ledger, Balance>;

/// A pass at a worker's deque, between two calls, with one share.
#[derive(Drop)]
pub struct StealPass<T: Task> {
    pub pass: Pass<Box<T>, Ledger>,
    pub ghost rests: { (pass.me.hand ≡ None) × (pass.me.spare ≡ None) },
    pub ghost share: { (view pass).shares ≡ 1 },
}

impl<T: Task> StealPass<T> {
    /// A pass that was just made.
    pub fn new(pass: Pass<Box<T>, Ledger>) -> StealPass<T>
        requires rests { (pass.me.hand ≡ None) × (pass.me.spare ≡ None) }
        requires share { (view pass).shares ≡ 1 }
        ensures pass { result.pass ≡ pass }
    {
        StealPass { pass }
    }

    /// One attempt to take the first task of the deque.
    pub fn steal(&mut self, stealer: &StealHandle<T>) -> Option<Box<T>>
        requires deque { deque_of self.old.pass ≡ stealer_deque stealer.now }
        ensures deque { deque_of self.new.pass ≡ deque_of self.old.pass }
        ensures none { IfNone result (view self.new.pass ≡ view self.old.pass) }
        ensures some { IfSome result (λ b. view self.new.pass ≡ ledger (view self.old.pass).shares
            (view self.old.pass).pushed ((view self.old.pass).taken ++ T.number_of b.value ∷ [])) }
    {
        stealer.steal_as::<StealStep>(&mut self.pass).success()
    }
}
