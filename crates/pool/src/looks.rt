//! What a worker does.

ghost use Rattle.std.specs.Prelude.{◌≡◌, ◌<◌, length, map};
ghost use Rattle.crossbeam_deque.specs.Handles.{stealer_deque, worker_deque};
ghost use Rattle.pool.specs.Passes.{deques_of};

use crate::signals::Signals;
use crate::worker_state::WorkerState;
use deque_rule::{StealHandle, Task, give_back};
use std::thread;

/// What a turn of a task says.
#[derive(Debug, Clone, Copy, PartialEq, Eq)]
pub enum Turned {
    /// The task did something.
    Moved,
    /// The task did nothing.
    Rested,
    /// Nothing is left for the task to do.
    Done,
    /// The run is to end. Why it is, is the task's to remember.
    Ended,
}

/// What all workers share besides the deques.
#[derive(Drop)]
pub struct Shared<F> {
    /// A turn of a task, by a worker, from 0.
    pub turn: F,
    pub signals: Signals,
    pub tasks: u64,
    /// How often each worker looks for a task at most.
    pub looks: u64,
}

// The task goes to the finished places, if nothing is left for it to do, or else to the worker's own deque. If that
// refuses it, it stays in hand.
fn put_back<T: Task>(signals: &Signals, state: &mut WorkerState<T>, is_done: bool)
    ensures own { worker_deque state.new.own ≡ worker_deque state.old.own }
    ensures passes { state.new.passes ≡ state.old.passes }
{
    let Some(task) = state.task.take() else {
        return;
    };
    if is_done && state.finished.len() < state.finished.capacity() {
        signals.finish();
        state.finished.push_reserved(task);
        return;
    }
    state.task = give_back(&mut state.own, task);
}

// A turn of a task.
fn turn<T: Task, F: Fn(&mut Box<T>, u32) -> Turned>(
    shared: &Shared<F>,
    worker: u32,
    task: &mut Box<T>,
) -> Turned
    requires callable { F.IsAlwaysCallable shared.now.turn }
    requires keeps { (b w r left : _) → F.post shared.now.turn b w r left
        → T.number_of left.now.value ≡ T.number_of b.now.value }
    ensures number { T.number_of task.new.value ≡ T.number_of task.old.value }
{
    (shared.turn)(task, worker)
}

// A turn of the task in hand, if there is one. If the run is to end, all workers stop.
fn turn_in_hand<T: Task, F: Fn(&mut Box<T>, u32) -> Turned>(
    shared: &Shared<F>,
    worker: u32,
    state: &mut WorkerState<T>,
) -> Turned
    requires callable { F.IsAlwaysCallable shared.now.turn }
    requires keeps { (b w r left : _) → F.post shared.now.turn b w r left
        → T.number_of left.now.value ≡ T.number_of b.now.value }
    ensures own { state.new.own ≡ state.old.own }
    ensures passes { state.new.passes ≡ state.old.passes }
{
    match &mut state.task {
        Some(task) => turn(shared, worker, task),
        None => Turned::Rested,
    }
}

// One look. A task that is found makes a turn and is put back.
fn look<T: Task, F: Fn(&mut Box<T>, u32) -> Turned>(
    shared: &Shared<F>,
    stealers: &[StealHandle<T>],
    worker: u32,
    state: &mut WorkerState<T>,
) -> Turned
    requires callable { F.IsAlwaysCallable shared.now.turn }
    requires keeps { (b w r left : _) → F.post shared.now.turn b w r left
        → T.number_of left.now.value ≡ T.number_of b.now.value }
    requires worker { worker < length stealers.now }
    requires deques { deques_of state.old.passes.items ≡ map stealer_deque stealers.now }
    ensures own { worker_deque state.new.own ≡ worker_deque state.old.own }
    ensures deques { deques_of state.new.passes.items ≡ map stealer_deque stealers.now }
{
    if !state.find(stealers, worker) {
        return Turned::Rested;
    }
    let turned = turn_in_hand(shared, worker, state);
    put_back(&shared.signals, state, turned == Turned::Done);
    turned
}

/// Makes the looks of a worker, and none after a turn by which the run is to end.
pub fn work<T: Task, F: Fn(&mut Box<T>, u32) -> Turned>(
    shared: &Shared<F>,
    stealers: &[StealHandle<T>],
    worker: u32,
    mut state: WorkerState<T>,
) -> WorkerState<T>
    requires callable { F.IsAlwaysCallable shared.now.turn }
    requires keeps { (b w r left : _) → F.post shared.now.turn b w r left
        → T.number_of left.now.value ≡ T.number_of b.now.value }
    requires worker { worker < length stealers.now }
    requires deques { deques_of state.passes.items ≡ map stealer_deque stealers.now }
    ensures own { worker_deque result.own ≡ worker_deque state.own }
    ensures deques { deques_of result.passes.items ≡ map stealer_deque stealers.now }
{
    for _ in 0..shared.looks {
        if shared.signals.is_over(shared.tasks) {
            break;
        }
        match look(shared, stealers, worker, &mut state) {
            Turned::Moved | Turned::Done => {}
            Turned::Rested => thread::yield_now(),
            Turned::Ended => {
                shared.signals.fail();
                break;
            }
        }
    }
    state
}
