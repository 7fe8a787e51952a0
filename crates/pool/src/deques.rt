//! The deques of a run, before its workers begin.

ghost use Rattle.std.specs.Prelude.{◌≡◌, ◌<◌, ◌≤◌, ◌+◌, ◌-◌, ◌%◌, ℕ, [], All, IfOk, map, slice_index_or, vec_len};
ghost use Rattle.crossbeam_deque.specs.Handles.{stealer_deque, view, worker_capacity, worker_deque, worker_index};
ghost use Rattle.crossbeam_deque.specs.Handles.{worker_view};
ghost use Rattle.deque_rule.specs.Ledgers.{AreDealt, CanSplit, all_shares, ledger, shares_of};
ghost use Rattle.pool.specs.Dealt.{begun_by};
ghost use Rattle.pool.specs.Passes.{deques_of};

use crossbeam_deque::protocol::Split;
use deque_rule::{Ledger, Own, PushStep, StealHandle, StealPass, Task};
use std::alloc::{AllocError, Global};

/// A deque for each worker, with room for all tasks, and what takes tasks from each.
pub fn make_deques<T: Task>(
    alloc: Global,
    tasks: usize,
    workers: u32,
) -> Result<(Vec<Own<T>>, Vec<StealHandle<T>>), AllocError>
    ensures deques { IfOk result (λ r. map worker_deque r.0.items ≡ map stealer_deque r.1.items) }
    ensures workers { IfOk result (λ r. vec_len r.0 ≡ workers) }
    ensures new { IfOk result (λ r. All (λ o. worker_view o ≡ ledger all_shares [] []) r.0.items) }
    ensures room { IfOk result (λ r. All (λ o. worker_index o + tasks ≤ worker_capacity o) r.0.items) }
{
    let mut owns = Vec::with_capacity(alloc, workers as usize)?;
    let mut stealers = Vec::with_capacity(alloc, workers as usize)?;
    for _ in 0..workers {
        let own = Own::<T>::fifo_as(alloc, tasks.max(1))?;
        stealers.push_reserved(own.stealer()?);
        owns.push_reserved(own);
    }
    Ok((owns, stealers))
}

// Which worker begins with the task of a number.
fn dealt_to(number: usize, workers: usize) -> usize
    requires some { 0 < workers }
    ensures place { result ≡ number % workers }
    ensures within { result < workers }
{
    number % workers
}

/// All tasks go to the deques, the last first: each to the deque of the worker of its number modulo workers, behind
/// those that are there.
pub fn deal<T: Task>(mut owns: Vec<Own<T>>, mut tasks: Vec<Box<T>>) -> Vec<Own<T>>
    requires some { 0 < vec_len owns }
    requires new { All (λ o. worker_view o ≡ ledger all_shares [] []) owns.items }
    requires room { All (λ o. worker_index o + vec_len tasks ≤ worker_capacity o) owns.items }
    ensures deques { map worker_deque result.items ≡ map worker_deque owns.items }
    ensures shares { All (λ o. shares_of (worker_view o) ≡ all_shares) result.items }
    ensures dealt { AreDealt (map worker_view result.items) (map (λ b. T.number_of b.value) tasks.items) }
    ensures whose { (k : ℕ) → k < vec_len owns
        → (slice_index_or (map worker_view result.items) k (ledger 0 [] [])).pushed
        ≡ begun_by (vec_len owns) k (map (λ b. T.number_of b.value) tasks.items) }
{
    'each: while let Some(task) = tasks.pop() {
        let at = dealt_to(task.number(), owns.len());
        match owns[at].push_as::<PushStep>(task) {
            Ok(()) => {}
            Err(_) => unreachable!(),
        }
    }
    owns
}

/// A pass at each deque.
pub fn split_off<T: Task, M: Split<Ledger>>(
    alloc: Global,
    owns: Vec<Own<T>>,
) -> Result<(Vec<Own<T>>, Vec<StealPass<T>>), AllocError>
    requires rule { CanSplit M.left M.right }
    requires shares { All (λ o. 1 < shares_of (worker_view o)) owns.items }
    ensures owns { IfOk result (λ r. map worker_deque r.0.items ≡ map worker_deque owns.items) }
    ensures left { IfOk result (λ r. map worker_view r.0.items ≡ map (λ o. M.left (worker_view o)) owns.items) }
    ensures passes { IfOk result (λ r. deques_of r.1.items ≡ map worker_deque owns.items) }
    ensures right { IfOk result
        (λ r. map (λ g. view g.pass) r.1.items ≡ map (λ o. M.right (worker_view o)) owns.items) }
{
    let count = owns.len();
    let mut lefts = Vec::with_capacity(alloc, count)?;
    let mut passes = Vec::with_capacity(alloc, count)?;
    for mut own in owns {
        passes.push_reserved(StealPass::new(own.another::<M>()));
        lefts.push_reserved(own);
    }
    Ok((lefts, passes))
}
