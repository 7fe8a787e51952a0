//! The threads of a run: each worker has one of its own.

ghost use Rattle.std.specs.Prelude.{◌≡◌, ◌<◌, ◌≤◌, [], All, IfErr, IfOk, length, map, vec_capacity, vec_len};
ghost use Rattle.crossbeam_deque.specs.Handles.{stealer_deque, worker_deque};
ghost use Rattle.pool.specs.Passes.{deques_of};
ghost use Rattle.pool.specs.declared.faults.ThreadsFault.TheVariants.{Spawn};

use crate::faults::ThreadsFault;
use crate::looks::{Shared, Turned, work};
use crate::promise::SameDeques;
use crate::signals::Signals;
use crate::worker_state::WorkerState;
use deque_rule::{StealHandle, Task};
use interference::Memory;
use run_options::MAX_WORKERS;
use std::snapshot::Snapshot;
use std::sync::Wait;
use std::thread;
use std::thread::{PromisedHandle, Scope, Threads};

/// A worker in a thread of its own, which can be joined.
pub type Child<T: Task> = PromisedHandle<WorkerState<T>, SameDeques<T>>;

// Starts a worker in a thread of the scope.
fn start<'s, E, T: Task + Send, F: Fn(&mut Box<T>, u32) -> Turned + Sync>(
    scope: &Scope<'s, E>,
    shared: &'s Shared<F>,
    stealers: &'s [StealHandle<T>],
    worker: u32,
    state: WorkerState<T>,
) -> Result<Child<T>, ThreadsFault>
    requires callable { F.IsAlwaysCallable shared.now.turn }
    requires keeps { (b w r left : _) → F.post shared.now.turn b w r left
        → T.number_of left.now.value ≡ T.number_of b.now.value }
    requires worker { worker < length stealers.now }
    requires deques { deques_of state.passes.items ≡ map stealer_deque stealers.now }
    ensures state { IfOk result (λ h. h.promise.0.value ≡ state) }
    ensures spawn { IfErr result (λ fault. fault ≡ Spawn) }
{
    let started = scope.spawn_with(
        SameDeques(Snapshot::of(&state)),
        move || -> WorkerState<T>
            requires { F.IsAlwaysCallable shared.now.turn
                × ((b w r left : _) → F.post shared.now.turn b w r left
                → T.number_of left.now.value ≡ T.number_of b.now.value)
                × (worker < length stealers.now)
                × (deques_of state.passes.items ≡ map stealer_deque stealers.now) }
            ensures { (worker_deque result.own ≡ worker_deque state.own)
                × (deques_of result.passes.items ≡ deques_of state.passes.items) }
        { work(shared, stealers, worker, state) },
    );
    match started {
        Ok(child) => Ok(child),
        Err(_) => {
            shared.signals.fail();
            Err(ThreadsFault::Spawn)
        }
    }
}

/// Starts a worker for each of the states, in threads of the scope: worker k has state k, from 0. The list of threads
/// has room for all.
///
/// # Errors
///
/// `Spawn` if a thread is refused, and no other; the others stop, and the scope joins them.
pub fn start_all<'s, E, T: Task + Send, F: Fn(&mut Box<T>, u32) -> Turned + Sync>(
    scope: &Scope<'s, E>,
    shared: &'s Shared<F>,
    stealers: &'s [StealHandle<T>],
    states: Vec<WorkerState<T>>,
    mut children: Vec<Child<T>>,
) -> Result<Vec<Child<T>>, ThreadsFault>
    requires callable { F.IsAlwaysCallable shared.now.turn }
    requires keeps { (b w r left : _) → F.post shared.now.turn b w r left
        → T.number_of left.now.value ≡ T.number_of b.now.value }
    requires few { vec_len states ≤ MAX_WORKERS }
    requires workers { vec_len states ≡ length stealers.now }
    requires deques { All (λ d. deques_of d.passes.items ≡ map stealer_deque stealers.now) states.items }
    requires none { children.items ≡ [] }
    requires room { vec_len states ≤ vec_capacity children }
    ensures states { IfOk result (λ hs. map (λ h. h.promise.0.value) hs.items ≡ states.items) }
    ensures spawn { IfErr result (λ fault. fault ≡ Spawn) }
{
    let mut worker = 0;
    for state in states {
        children.push_reserved(start(scope, shared, stealers, worker, state)?);
        worker += 1;
    }
    Ok(children)
}

/// Joins all workers, and returns their states in the same order.
///
/// # Errors
///
/// `Memory` if memory for what they return is refused.
pub fn join_all<T: Task, R: Threads + Wait>(
    rt: &R,
    signals: &Signals,
    children: Vec<Child<T>>,
) -> Result<Vec<WorkerState<T>>, Memory>
    ensures owns { IfOk result (λ done. map (λ d. worker_deque d.own) done.items
        ≡ map (λ d. worker_deque d.own) (map (λ h. h.promise.0.value) children.items)) }
    ensures passes { IfOk result (λ done. map (λ d. deques_of d.passes.items) done.items
        ≡ map (λ d. deques_of d.passes.items) (map (λ h. h.promise.0.value) children.items)) }
{
    match thread::join_promised(rt, children) {
        Ok(done) => Ok(done),
        Err(_) => {
            signals.fail();
            Err(Memory)
        }
    }
}
