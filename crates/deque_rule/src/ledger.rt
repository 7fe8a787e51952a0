//! The rule of a worker's deque, and what each of its steps says.
//!
//! Five kinds of step are the deque's own: push by its owner, pop by its owner, steal, and the pop and the steal that
//! find nothing. A push that is refused changes neither the deque nor what its owner knows. Besides, by one caller, the
//! making of the deque, the splitting of a pass and the joining of passes.

use crate::task::Task;
use crossbeam_deque::protocol::{Join, Outcome, Protocol, Split};
use std::collections::LinkedList;

/// What a pass of a deque knows: its shares of the right to know the whole, and the numbers of the tasks that it
/// pushed and took, each as often as it did. Contracts speak of it; no value of it is made.
pub struct Ledger {
    pub shares: u64,
    pub pushed: LinkedList<usize>,
    pub taken: LinkedList<usize>,
}

// What was pushed to a deque is what was taken from it and what it holds.
pub struct Balance;

impl<T: Task> Protocol<Box<T>, Ledger> for Balance {
    ghost use Rattle.std.specs.Prelude.{[], map};
    ghost use Rattle.deque_rule.specs.Ledgers.{Balanced, all_shares, ledger};

    ghost holds = { λ items views. Balanced (map (λ b. T.number_of b.value) items) views };

    ghost first = { ledger all_shares [] [] };

    ghost guest = { ledger 0 [] [] };
}

// A share is cut off, or comes back with what was pushed and taken by it.
pub struct OneShare;

impl Split<Ledger> for OneShare {
    ghost use Rattle.std.specs.Prelude.{[], ◌-◌};
    ghost use Rattle.deque_rule.specs.Ledgers.{ledger};

    ghost left = { λ v. ledger (v.shares - 1) v.pushed v.taken };

    ghost right = { λ v. ledger 1 [] [] };
}

impl Join<Ledger> for OneShare {
    ghost use Rattle.std.specs.Prelude.{[], ◌+◌, ◌++◌};
    ghost use Rattle.deque_rule.specs.Ledgers.{ledger};

    ghost both = { λ v w. ledger (v.shares + w.shares) (v.pushed ++ w.pushed) (v.taken ++ w.taken) };

    ghost spent = { ledger 0 [] [] };
}

// A task goes to the deque.
pub struct PushStep;

impl<T: Task> Outcome<Box<T>, Ledger> for PushStep {
    ghost use Rattle.std.specs.Prelude.{◌≡◌, ◌++◌, map};
    ghost use Rattle.deque_rule.specs.Ledgers.{ledger};

    ghost then = { λ v xs w. w ≡ ledger v.shares (v.pushed ++ map (λ b. T.number_of b.value) xs) v.taken };
}

// A task comes from the deque by its owner; or the deque was empty.
pub struct PopStep;

impl<T: Task> Outcome<Box<T>, Ledger> for PopStep {
    ghost use Rattle.std.specs.Prelude.{◌≡◌, ◌++◌, map};
    ghost use Rattle.deque_rule.specs.Ledgers.{KnowsEmpty, ledger};

    ghost then = { λ v xs w. w ≡ ledger v.shares v.pushed (v.taken ++ map (λ b. T.number_of b.value) xs) };

    ghost empty = { KnowsEmpty };
}

// A task comes from the deque by another worker.
pub struct StealStep;

impl<T: Task> Outcome<Box<T>, Ledger> for StealStep {
    ghost use Rattle.std.specs.Prelude.{◌≡◌, ◌++◌, map};
    ghost use Rattle.deque_rule.specs.Ledgers.{ledger};

    ghost then = { λ v stolen w. w ≡ ledger v.shares v.pushed (v.taken ++ map (λ b. T.number_of b.value) stolen) };
}
