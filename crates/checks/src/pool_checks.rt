//! Tasks that count down, run by a worker.

ghost use Rattle.std.specs.Prelude.{◌≡◌, ◌∷◌, [], IfOk, map};

use deque_rule::Task;
use pool::{ThreadsFault, Turned, run_tasks};
use run_options::Options;
use std::alloc::{AllocError, Global};
use std::sync::Wait;
use std::thread::Threads;

// A task with so many turns left.
#[derive(Drop)]
struct Countdown {
    number: usize,
    left: u32,
}

impl Task for Countdown {
    ghost number_of = { λ t. t.number };

    fn number(&self) -> usize {
        self.number
    }
}

// A turn of a task, by which the run is to end once the task has so many turns left.
fn count_down(task: &mut Countdown, ends_at: u32) -> Turned
    ensures number { task.new.number ≡ task.old.number }
{
    task.left = task.left.saturating_sub(1);
    if task.left == ends_at {
        Turned::Ended
    } else if task.left == 0 {
        Turned::Done
    } else {
        Turned::Moved
    }
}

fn task(alloc: Global, number: usize) -> Result<Box<Countdown>, AllocError>
    ensures number { IfOk result (λ task. task.value.number ≡ number) }
{
    Ok(Box::new(alloc, Countdown { number, left: 3 })?)
}

// Two tasks of three turns, the last first.
fn two(alloc: Global) -> Result<Vec<Box<Countdown>>, AllocError>
    ensures numbers { IfOk result (λ tasks. map (λ b. b.value.number) tasks.items ≡ 1 ∷ 0 ∷ []) }
{
    let first = task(alloc, 0)?;
    let last = task(alloc, 1)?;
    let mut tasks = Vec::with_capacity(alloc, 2)?;
    tasks.push_reserved(last);
    tasks.push_reserved(first);
    Ok(tasks)
}

// The number of each task, and how many turns it has left.
fn lefts(tasks: &[Box<Countdown>]) -> Option<[(usize, u32); 2]> {
    match tasks {
        [first, last] => Some([(first.number, first.left), (last.number, last.left)]),
        _ => None,
    }
}

// What one worker leaves of two tasks.
fn left_by_one<R: Threads + Wait + Sync>(
    rt: &R,
    alloc: Global,
    ends_at: u32,
    looks: u64,
) -> Result<Option<[(usize, u32); 2]>, ThreadsFault> {
    let options = Options {
        workers: 1,
        capacity: 1,
        turns: looks,
        transcript: false,
    };
    let tasks = two(alloc)?;
    let turn = |task: &mut Box<Countdown>, _worker: u32| -> Turned
        ensures { task.new.value.number ≡ task.old.value.number }
    { count_down(task, ends_at) };
    let left = run_tasks(rt, alloc, turn, tasks, options)?;
    Ok(lefts(left.as_slice()))
}

// Task 0 was dealt first, and a task goes to the end of the deque after its turn.
#[test]
fn a_worker_makes_turns_until_it_is_over(rt: HostRuntime) {
    let alloc: Global = rt.alloc();
    assert!(rt; left_by_one(&rt, alloc, 9, 100) == Ok(Some([(0, 0), (1, 0)])));
    assert!(rt; left_by_one(&rt, alloc, 9, 3) == Ok(Some([(0, 1), (1, 2)])));
    assert!(rt; left_by_one(&rt, alloc, 2, 100) == Ok(Some([(0, 2), (1, 3)])));
}
