//! In which order a worker takes tasks, without threads: from its own deque, as they were dealt, and then from the next
//! worker's, and so on, and round.

ghost use Rattle.std.specs.Prelude.{◌≡◌, ◌<◌, ◌≤◌, All, IfOk, length, map, vec_len};
ghost use Rattle.crossbeam_deque.specs.Handles.{stealer_deque};
ghost use Rattle.pool.specs.Passes.{deques_of};

use crossbeam_deque::protocol::Split;
use deque_rule::{Ledger, StealHandle, Task};
use pool::{WorkerState, deal, make_deques, make_worker_states, split_off};
use std::alloc::{AllocError, Global};

// A task that is only a number.
#[derive(Drop)]
struct Numbered {
    number: usize,
}

impl Task for Numbered {
    ghost number_of = { λ t. t.number };

    fn number(&self) -> usize {
        self.number
    }
}

// A share is split off with all that was pushed and taken so far.
struct Dealt;

impl Split<Ledger> for Dealt {
    ghost use Rattle.std.specs.Prelude.{[], ◌-◌};
    ghost use Rattle.deque_rule.specs.Ledgers.{ledger};

    ghost left = { λ v. ledger (v.shares - 1) [] [] };

    ghost right = { λ v. ledger 1 v.pushed v.taken };
}

// What three workers begin with.
struct Begun {
    states: Vec<WorkerState<Numbered>>,
    stealers: Vec<StealHandle<Numbered>>,
    ghost three: { vec_len stealers ≡ 3 },
    ghost deques: { All (λ d. deques_of d.passes.items ≡ map stealer_deque stealers.items)
        states.items },
}

// `count` tasks, with the numbers from `count - 1` down to 0.
fn make_tasks(alloc: Global, count: usize) -> Result<Vec<Box<Numbered>>, AllocError> {
    let mut tasks = Vec::new(alloc);
    for k in 0..count {
        let number = count - 1 - k;
        tasks.push(Box::new(alloc, Numbered { number })?)?;
    }
    Ok(tasks)
}

// Seven tasks are dealt to three workers.
fn begin(alloc: Global) -> Result<Begun, AllocError> {
    let tasks = make_tasks(alloc, 7)?;
    let count = tasks.len();
    let (owns, stealers) = make_deques::<Numbered>(alloc, count, 3)?;
    let owns = deal(owns, tasks);
    let (owns, _dealt) = split_off::<Numbered, Dealt>(alloc, owns)?;
    let states = make_worker_states(alloc, count, owns)?;
    Ok(Begun { states, stealers })
}

// Puts a task in hand among the finished ones, if there is one and room for it.
fn finish(state: &mut WorkerState<Numbered>)
    ensures passes { state.new.passes ≡ state.old.passes }
{
    if state.finished.len() == state.finished.capacity() {
        return;
    }
    if let Some(task) = state.task.take() {
        state.finished.push_reserved(task);
    }
}

// A worker looks this often, and finishes what it finds.
fn find_all(
    stealers: &[StealHandle<Numbered>],
    worker: u32,
    state: &mut WorkerState<Numbered>,
    looks: u32,
)
    requires worker { worker < length stealers.now }
    requires deques { deques_of state.old.passes.items ≡ map stealer_deque stealers.now }
{
    for _ in 0..looks {
        let _ = state.find(stealers, worker);
        finish(state);
    }
}

// Whether these are the numbers of the tasks.
fn are_numbered(tasks: &[Box<Numbered>], numbers: &[usize]) -> bool {
    if tasks.len() != numbers.len() {
        return false;
    }
    for (task, number) in tasks.iter().zip(numbers) {
        if task.number != *number {
            return false;
        }
    }
    true
}

// Whether the second of three workers finds these tasks if it looks this often.
fn second_finds(
    mut states: Vec<WorkerState<Numbered>>,
    stealers: Vec<StealHandle<Numbered>>,
    looks: u32,
    numbers: &[usize],
) -> bool
    requires three { vec_len stealers ≡ 3 }
    requires deques { All (λ d. deques_of d.passes.items ≡ map stealer_deque stealers.items) states.items }
{
    if states.len() < 2 {
        return false;
    }
    find_all(stealers.as_slice(), 1, &mut states[1], looks);
    are_numbered(states[1].finished.as_slice(), numbers)
}

// The same, of workers that begin.
fn finds(alloc: Global, looks: u32, numbers: &[usize]) -> bool {
    match begin(alloc) {
        Ok(Begun { states, stealers }) => second_finds(states, stealers, looks, numbers),
        Err(_) => false,
    }
}

#[test]
fn a_worker_takes_its_own_tasks_first(rt: HostRuntime) {
    let alloc: Global = rt.alloc();
    // Tasks 1 and 4 were dealt to worker 1, tasks 2 and 5 to worker 2, and tasks 0, 3 and 6 to worker 0.
    assert!(rt; finds(alloc, 1, &[1]));
    assert!(rt; finds(alloc, 2, &[1, 4]));
    assert!(rt; finds(alloc, 4, &[1, 4, 2, 5]));
    assert!(rt; finds(alloc, 8, &[1, 4, 2, 5, 0, 3, 6]));
}
