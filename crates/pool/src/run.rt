//! A run of workers over their deques.

ghost use Rattle.std.specs.Prelude.{◌≡◌, ◌≤◌, All, IfOk, length, map, vec_len};
ghost use Rattle.std.specs.List.{range_with_len};
ghost use Rattle.crossbeam_deque.specs.Handles.{stealer_deque, worker_deque};
ghost use Rattle.deque_rule.specs.Ledgers.{AreSame};
ghost use Rattle.pool.specs.Passes.{deques_of};

use crate::deques::{deal, make_deques, split_off};
use crate::faults::ThreadsFault;
use crate::gathering::gather;
use crate::looks::{Shared, Turned};
use crate::place::make_places;
use crate::signals::Signals;
use crate::threads::{join_all, start_all};
use crate::worker_state::WorkerState;
use crate::worker_states::make_worker_states;
use crossbeam_deque::protocol::Split;
use deque_rule::{Ledger, StealHandle, Task};
use run_options::{MAX_WORKERS, Options};
use std::alloc::Global;
use std::sync::Wait;
use std::thread;
use std::thread::Threads;

// A share is split off with all that was pushed and taken so far.
pub struct Dealt;

impl Split<Ledger> for Dealt {
    ghost use Rattle.std.specs.Prelude.{[], ◌-◌};
    ghost use Rattle.deque_rule.specs.Ledgers.{ledger};

    ghost left = { λ v. ledger (v.shares - 1) [] [] };

    ghost right = { λ v. ledger 1 v.pushed v.taken };
}

// All workers look, each in a thread of its own, and hand back their states.
fn in_threads<T: Task + Send, F: Fn(&mut Box<T>, u32) -> Turned + Sync, R: Threads + Wait + Sync>(
    rt: &R,
    alloc: Global,
    shared: &Shared<F>,
    stealers: &[StealHandle<T>],
    states: Vec<WorkerState<T>>,
) -> Result<Vec<WorkerState<T>>, ThreadsFault>
    requires callable { F.IsAlwaysCallable shared.now.turn }
    requires keeps { (b w r left : _) → F.post shared.now.turn b w r left
        → T.number_of left.now.value ≡ T.number_of b.now.value }
    requires few { vec_len states ≤ MAX_WORKERS }
    requires workers { vec_len states ≡ length stealers.now }
    requires deques { All (λ d. deques_of d.passes.items ≡ map stealer_deque stealers.now) states.items }
    ensures owns { IfOk result (λ done. map (λ d. worker_deque d.own) done.items
        ≡ map (λ d. worker_deque d.own) states.items) }
    ensures passes { IfOk result (λ done. map (λ d. deques_of d.passes.items) done.items
        ≡ map (λ d. deques_of d.passes.items) states.items) }
{
    thread::scope(
        thread::scope_env(),
        rt,
        move |scope| -> Result<Vec<WorkerState<T>>, ThreadsFault>
            requires { F.IsAlwaysCallable shared.now.turn
                × ((b w r left : _) → F.post shared.now.turn b w r left
                → T.number_of left.now.value ≡ T.number_of b.now.value)
                × (vec_len states ≤ MAX_WORKERS) × (vec_len states ≡ length stealers.now)
                × All (λ d. deques_of d.passes.items ≡ map stealer_deque stealers.now) states.items }
            ensures owns { IfOk result (λ done. map (λ d. worker_deque d.own) done.items
                ≡ map (λ d. worker_deque d.own) states.items) }
            ensures passes { IfOk result (λ done. map (λ d. deques_of d.passes.items) done.items
                ≡ map (λ d. deques_of d.passes.items) states.items) }
        {
            let children = Vec::with_capacity(alloc, states.len())?;
            let children = start_all(scope, shared, stealers, states, children)?;
            Ok(join_all(rt, &shared.signals, children)?)
        },
    )
}

/// Makes turns of the tasks by `options.workers` workers, each of which makes at most `options.turns` looks, and
/// returns each task once, by ascending number, also one by whose turn the run was to end. The last task is dealt
/// first. `turn` is a turn of a task by a worker, from 0; it leaves the task's number.
///
/// # Errors
///
/// `Memory` if memory is refused, and `Spawn` if a thread is. The workers that had begun are joined.
pub fn run_tasks<
    T: Task + Send,
    F: Fn(&mut Box<T>, u32) -> Turned + Sync,
    R: Threads + Wait + Sync,
>(
    rt: &R,
    alloc: Global,
    turn: F,
    tasks: Vec<Box<T>>,
    options: Options,
) -> Result<Vec<Box<T>>, ThreadsFault>
    requires callable { F.IsAlwaysCallable turn }
    requires keeps { (b w r left : _) → F.post turn b w r left
        → T.number_of left.now.value ≡ T.number_of b.now.value }
    requires numbers { AreSame (map (λ b. T.number_of b.value) tasks.items) (range_with_len 0 (vec_len tasks)) }
    requires workers { (1 ≤ options.workers) × (options.workers ≤ MAX_WORKERS) }
    ensures order { IfOk result
        (λ all. map (λ b. T.number_of b.value) all.items ≡ range_with_len 0 (vec_len tasks)) }
{
    let count = tasks.len();
    let places = make_places(alloc, count)?;
    let (owns, stealers) = make_deques::<T>(alloc, count, options.workers)?;
    let owns = deal(owns, tasks);
    let (owns, dealt) = split_off::<T, Dealt>(alloc, owns)?;
    let states = make_worker_states(alloc, count, owns)?;
    let shared = Shared {
        turn,
        signals: Signals::new(),
        tasks: count as u64,
        looks: options.turns,
    };
    let done = in_threads(rt, alloc, &shared, stealers.as_slice(), states)?;
    Ok(gather(rt, alloc, places, dealt, done)?)
}
