//! What workers begin with.

ghost use Rattle.std.specs.Prelude.{◌≡◌, ◌<◌, ◌≤◌, ◌-◌, [], All, IfOk, map, vec_capacity, vec_len};
ghost use Rattle.crossbeam_deque.specs.Handles.{view, worker_deque, worker_view};
ghost use Rattle.run_options.specs.declared.TheConstants.{MAX_WORKERS};
ghost use Rattle.deque_rule.specs.Ledgers.{AreOut, all_shares, ledger};
ghost use Rattle.pool.specs.Passes.{deques_of};

use crate::deques::split_off;
use crate::worker_state::WorkerState;
use deque_rule::{OneShare, Own, StealPass, Task};
use std::alloc::{AllocError, Global};

// A pass at each deque for each worker.
fn make_passes<T: Task>(
    alloc: Global,
    mut owns: Vec<Own<T>>,
) -> Result<(Vec<Own<T>>, Vec<Vec<StealPass<T>>>), AllocError>
    requires few { vec_len owns ≤ MAX_WORKERS }
    requires new { All (λ o. worker_view o ≡ ledger (all_shares - 1) [] []) owns.items }
    ensures owns { IfOk result (λ r. map worker_deque r.0.items ≡ map worker_deque owns.items) }
    ensures left { IfOk result
        (λ r. All (λ o. worker_view o ≡ ledger (all_shares - 1 - vec_len owns) [] []) r.0.items) }
    ensures rows { IfOk result (λ r. vec_len r.1 ≡ vec_len owns) }
    ensures passes { IfOk result
        (λ r. All (λ row. deques_of row.items ≡ map worker_deque owns.items) r.1.items) }
    ensures fresh { IfOk result (λ r. All (λ row. AreOut (map (λ g. view g.pass) row.items) []) r.1.items) }
{
    let count = owns.len();
    let mut rows = Vec::with_capacity(alloc, count)?;
    for _ in 0..count {
        let (left, row) = split_off::<T, OneShare>(alloc, owns)?;
        owns = left;
        rows.push_reserved(row);
    }
    Ok((owns, rows))
}

// A worker with its finished places.
fn make_worker_state<T: Task>(
    alloc: Global,
    tasks: usize,
    own: Own<T>,
    passes: Vec<StealPass<T>>,
) -> Result<WorkerState<T>, AllocError>
    requires few { vec_len passes ≤ MAX_WORKERS }
    requires new { worker_view own ≡ ledger (all_shares - 1 - vec_len passes) [] [] }
    requires fresh { AreOut (map (λ g. view g.pass) passes.items) [] }
    ensures own { IfOk result (λ d. d.own ≡ own) }
    ensures passes { IfOk result (λ d. d.passes ≡ passes) }
    ensures places { IfOk result (λ d. tasks ≤ vec_capacity d.finished) }
{
    let mut finished = Vec::new(alloc);
    finished.reserve_exact(tasks)?;
    Ok(WorkerState {
        own,
        passes,
        task: None,
        finished,
    })
}

/// What each worker begins with: its deque, a pass at each deque, and a finished place for each task.
pub fn make_worker_states<T: Task>(
    alloc: Global,
    tasks: usize,
    owns: Vec<Own<T>>,
) -> Result<Vec<WorkerState<T>>, AllocError>
    requires few { vec_len owns ≤ MAX_WORKERS }
    requires new { All (λ o. worker_view o ≡ ledger (all_shares - 1) [] []) owns.items }
    ensures owns { IfOk result (λ ds. map (λ d. worker_deque d.own) ds.items ≡ map worker_deque owns.items) }
    ensures passes { IfOk result (λ ds. All (λ d. deques_of d.passes.items ≡ map worker_deque owns.items) ds.items) }
    ensures places { IfOk result (λ ds. All (λ d. tasks ≤ vec_capacity d.finished) ds.items) }
{
    let (owns, mut rows) = make_passes(alloc, owns)?;
    let mut all = Vec::with_capacity(alloc, owns.len())?;
    for own in owns {
        let Some(row) = rows.pop() else {
            unreachable!();
        };
        all.push_reserved(make_worker_state(alloc, tasks, own, row)?);
    }
    Ok(all)
}
