//! What workers hand back becomes all tasks of the run.

ghost use Rattle.std.specs.Prelude.{◌≡◌, ◌<◌, ◌≤◌, ◌+◌, ◌++◌, ℕ, List, All, IfOk, map, vec_len};
ghost use Rattle.std.specs.List.{range_with_len};
ghost use Rattle.crossbeam_deque.specs.Handles.{view, worker_deque, worker_view};
ghost use Rattle.deque_rule.specs.Ledgers.{AreDealt, AreSame, all_shares, in_hand, in_rows};
ghost use Rattle.deque_rule.specs.Ledgers.{pushed_by, shares_of, taken_by, weigh};
ghost use Rattle.run_options.specs.declared.TheConstants.{MAX_WORKERS};
ghost use Rattle.pool.specs.Passes.{deques_of};

use crate::order::by_number;
use crate::place::Places;
use crate::worker_state::WorkerState;
use deque_rule::{OneShare, Own, PopStep, StealPass, Task};
use std::alloc::{AllocError, Global};
use std::sync::Wait;

/// What all workers handed back: the deques, the passes at them and the tasks.
#[derive(Drop)]
pub struct Returned<T: Task> {
    pub owns: Vec<Own<T>>,
    pub rows: Vec<Vec<StealPass<T>>>,
    pub tasks: Vec<Box<T>>,
}

// All shares of a pass come back to its deque's owner.
fn absorb_row<T: Task>(owns: &mut Vec<Own<T>>, mut row: Vec<StealPass<T>>)
    requires deques { deques_of row.items ≡ map worker_deque owns.old.items }
    requires some { All (λ o. 0 < shares_of (worker_view o)) owns.old.items }
    ensures deques { map worker_deque owns.new.items ≡ map worker_deque owns.old.items }
    ensures some { All (λ o. 0 < shares_of (worker_view o)) owns.new.items }
    ensures shares { (p : ℕ) → All (λ o. shares_of (worker_view o) ≡ p) owns.old.items
        → All (λ o. shares_of (worker_view o) ≡ p + 1) owns.new.items }
    ensures pushed { (h : ℕ → ℕ) → pushed_by h (map worker_view owns.new.items)
        ≡ pushed_by h (map worker_view owns.old.items) + pushed_by h (map (λ g. view g.pass) row.items) }
    ensures taken { (h : ℕ → ℕ) → taken_by h (map worker_view owns.new.items)
        ≡ taken_by h (map worker_view owns.old.items) + taken_by h (map (λ g. view g.pass) row.items) }
{
    'each: while let Some(steal_pass) = row.pop() {
        let at = row.len();
        owns[at].absorb::<OneShare>(steal_pass.pass);
    }
}

// A deque is emptied, once no other pass of it is left.
fn drain<T: Task, R: Wait>(
    rt: &R,
    mut own: Own<T>,
    mut tasks: Vec<Box<T>>,
) -> Result<Vec<Box<T>>, AllocError>
    requires shares { (worker_view own).shares ≡ all_shares }
    ensures tasks { IfOk result (λ all. (h : ℕ → ℕ) →
        weigh h (worker_view own).taken + weigh h (map (λ b. T.number_of b.value) all.items)
        ≡ weigh h (worker_view own).pushed + weigh h (map (λ b. T.number_of b.value) tasks.items)) }
{
    for _ in rt.forever() {
        tasks.reserve(1)?;
        match own.pop_as::<PopStep>() {
            Some(task) => tasks.push_reserved(task),
            None => return Ok(tasks),
        }
    }
    unreachable!()
}

// All deques are emptied.
fn drain_all<T: Task, R: Wait>(
    rt: &R,
    owns: Vec<Own<T>>,
    tasks: Vec<Box<T>>,
) -> Result<Vec<Box<T>>, AllocError>
    requires shares { All (λ o. shares_of (worker_view o) ≡ all_shares) owns.items }
    ensures tasks { IfOk result (λ all. (h : ℕ → ℕ) →
        taken_by h (map worker_view owns.items) + weigh h (map (λ b. T.number_of b.value) all.items)
        ≡ pushed_by h (map worker_view owns.items) + weigh h (map (λ b. T.number_of b.value) tasks.items)) }
{
    let mut all = tasks;
    for own in owns {
        all = drain(rt, own, all)?;
    }
    Ok(all)
}

// All rows of passes come back to the deques' owners.
fn absorb_rows<T: Task>(owns: &mut Vec<Own<T>>, rows: Vec<Vec<StealPass<T>>>)
    requires deques { All (λ row. deques_of row.items ≡ map worker_deque owns.old.items) rows.items }
    requires some { All (λ o. 0 < shares_of (worker_view o)) owns.old.items }
    ensures shares { (p : ℕ) → All (λ o. shares_of (worker_view o) ≡ p) owns.old.items
        → All (λ o. shares_of (worker_view o) ≡ p + vec_len rows) owns.new.items }
    ensures pushed { (h : ℕ → ℕ) → pushed_by h (map worker_view owns.new.items)
        ≡ pushed_by h (map worker_view owns.old.items)
        + in_rows (pushed_by h) (map (λ row. map (λ g. view g.pass) row.items) rows.items) }
    ensures taken { (h : ℕ → ℕ) → taken_by h (map worker_view owns.new.items)
        ≡ taken_by h (map worker_view owns.old.items)
        + in_rows (taken_by h) (map (λ row. map (λ g. view g.pass) row.items) rows.items) }
{
    for row in rows {
        absorb_row(owns, row);
    }
}

// The tasks so far, with those that one worker handed back.
fn with_those_of<T: Task>(
    mut tasks: Vec<Box<T>>,
    task: Option<Box<T>>,
    mut finished: Vec<Box<T>>,
) -> Result<Vec<Box<T>>, AllocError>
    ensures tasks { IfOk result (λ all. (h : ℕ → ℕ) → weigh h (map (λ b. T.number_of b.value) all.items)
        ≡ weigh h (map (λ b. T.number_of b.value) tasks.items)
        + weigh h (in_hand (λ b. T.number_of b.value) task ++ map (λ b. T.number_of b.value) finished.items)) }
{
    tasks.append(&mut finished)?;
    let Some(task) = task else {
        return Ok(tasks);
    };
    tasks.push(task)?;
    Ok(tasks)
}

// What workers handed back, split into the deques, the passes at them and the tasks.
fn split_states<T: Task>(
    alloc: Global,
    done: Vec<WorkerState<T>>,
) -> Result<Returned<T>, AllocError>
    ensures owns { IfOk result
        (λ b. map worker_deque b.owns.items ≡ map (λ d. worker_deque d.own) done.items) }
    ensures rows { IfOk result (λ b. map (λ row. deques_of row.items) b.rows.items
        ≡ map (λ d. deques_of d.passes.items) done.items) }
    ensures shares { IfOk result (λ b. map (λ o. shares_of (worker_view o)) b.owns.items
        ≡ map (λ d. shares_of (worker_view d.own)) done.items) }
    ensures out { IfOk result (λ b. (h : ℕ → ℕ) →
        taken_by h (map worker_view b.owns.items)
        + in_rows (taken_by h) (map (λ row. map (λ g. view g.pass) row.items) b.rows.items)
        ≡ pushed_by h (map worker_view b.owns.items)
        + in_rows (pushed_by h) (map (λ row. map (λ g. view g.pass) row.items) b.rows.items)
        + weigh h (map (λ b. T.number_of b.value) b.tasks.items)) }
{
    let count = done.len();
    let mut owns = Vec::with_capacity(alloc, count)?;
    let mut rows = Vec::with_capacity(alloc, count)?;
    let mut tasks = Vec::new(alloc);
    for state in done {
        let WorkerState {
            own,
            passes,
            task,
            finished,
        } = state;
        owns.push_reserved(own);
        rows.push_reserved(passes);
        tasks = with_those_of(tasks, task, finished)?;
    }
    Ok(Returned { owns, rows, tasks })
}

// Each task once, in any order, of what was dealt and what all workers handed back.
fn gather_boxes<T: Task, R: Wait>(
    rt: &R,
    alloc: Global,
    dealt: Vec<StealPass<T>>,
    done: Vec<WorkerState<T>>,
) -> Result<Vec<Box<T>>, AllocError>
    requires deques { deques_of dealt.items ≡ map (λ d. worker_deque d.own) done.items }
    requires passes { All (λ d. deques_of d.passes.items ≡ deques_of dealt.items) done.items }
    requires few { vec_len dealt ≤ MAX_WORKERS }
    ensures once { (numbers : List ℕ) → AreDealt (map (λ g. view g.pass) dealt.items) numbers
        → IfOk result (λ all. AreSame (map (λ b. T.number_of b.value) all.items) numbers) }
{
    let Returned {
        mut owns,
        rows,
        tasks,
    } = split_states(alloc, done)?;
    absorb_row(&mut owns, dealt);
    absorb_rows(&mut owns, rows);
    Ok(drain_all(rt, owns, tasks)?)
}

/// Each task once, by ascending number, of what was dealt and what all workers handed back. The places are those that
/// were made for the tasks, empty.
///
/// # Errors
///
/// `AllocError` if memory is refused.
pub fn gather<T: Task, R: Wait>(
    rt: &R,
    alloc: Global,
    places: Places<T>,
    dealt: Vec<StealPass<T>>,
    done: Vec<WorkerState<T>>,
) -> Result<Vec<Box<T>>, AllocError>
    requires deques { deques_of dealt.items ≡ map (λ d. worker_deque d.own) done.items }
    requires passes { All (λ d. deques_of d.passes.items ≡ deques_of dealt.items) done.items }
    requires few { vec_len dealt ≤ MAX_WORKERS }
    requires dealt { AreDealt (map (λ g. view g.pass) dealt.items) (range_with_len 0 (vec_len places.slots)) }
    ensures order { IfOk result
        (λ all. map (λ b. T.number_of b.value) all.items ≡ range_with_len 0 (vec_len places.slots)) }
{
    let tasks = gather_boxes(rt, alloc, dealt, done)?;
    by_number(alloc, places, tasks)
}
