//! What a worker gives to its own deque.

ghost use Rattle.std.specs.Prelude.{◌≡◌, ◌<◌, ◌++◌, ◌∷◌, [], IfNone, IfSome};
ghost use Rattle.crossbeam_deque.specs.Handles.{worker_deque, worker_view};
ghost use Rattle.deque_rule.specs.Ledgers.{ledger};

use crate::ledger::PushStep;
use crate::steal_pass::Own;
use crate::task::Task;

/// Puts a task on the worker's own deque. Returns it if the deque refuses it.
pub fn give_back<T: Task>(own: &mut Own<T>, task: Box<T>) -> Option<Box<T>>
    requires some { 0 < (worker_view own.old).shares }
    ensures deque { worker_deque own.new ≡ worker_deque own.old }
    ensures none { IfNone result (worker_view own.new ≡ ledger (worker_view own.old).shares
        ((worker_view own.old).pushed ++ T.number_of task.value ∷ []) (worker_view own.old).taken) }
    ensures some { IfSome result (λ b. (b ≡ task) × (worker_view own.new ≡ worker_view own.old)) }
{
    match own.push_as::<PushStep>(task) {
        Ok(()) => None,
        Err(task) => Some(task),
    }
}
