//! What a thread promises of what a worker hands back.

use crate::worker_state::WorkerState;
use deque_rule::Task;
use std::snapshot::Snapshot;
use std::thread::Promise;

/// The promise that a worker hands back the deque with which it began, and its passes at the same deques.
#[derive(Drop)]
pub struct SameDeques<T: Task>(pub Snapshot<WorkerState<T>>);

impl<T: Task> Promise<WorkerState<T>> for SameDeques<T> {
    ghost use Rattle.std.specs.Prelude.{◌≡◌};
    ghost use Rattle.crossbeam_deque.specs.Handles.{worker_deque};
    ghost use Rattle.pool.specs.Passes.{deques_of};

    ghost kept_by = { λ p r. (worker_deque r.own ≡ worker_deque p.0.value.own)
        × (deques_of r.passes.items ≡ deques_of p.0.value.passes.items) };
}
