//! What a worker has.

ghost use Rattle.std.specs.Prelude.{◌≡◌, ◌≢◌, ◌<◌, ◌≤◌, ◌+◌, ◌⊎◌, ◌++◌, ◌∷◌, None, is_some, length, map, vec_len};
ghost use Rattle.crossbeam_deque.specs.Handles.{stealer_deque, view, worker_deque, worker_view};
ghost use Rattle.deque_rule.specs.Ledgers.{AreOut, all_shares, in_hand};
ghost use Rattle.pool.specs.Passes.{deques_of};

use deque_rule::{Own, PopStep, StealHandle, StealPass, Task};

/// What a worker has, and hands back: its deque, its passes at the deques of all workers, the task in hand and its
/// finished places.
#[derive(Drop)]
pub struct WorkerState<T: Task> {
    pub own: Own<T>,
    pub passes: Vec<StealPass<T>>,
    /// The task of a look, or one that its deque refused.
    pub task: Option<Box<T>>,
    pub finished: Vec<Box<T>>,
    pub ghost shares: { (worker_view own).shares + vec_len passes + 1 ≡ all_shares },
    pub ghost some: { 0 < (worker_view own).shares },
    // What it took and didn't push is in hand or finished.
    pub ghost out: { AreOut (worker_view own ∷ map (λ g. view g.pass) passes.items)
        (in_hand (λ b. T.number_of b.value) task ++ map (λ b. T.number_of b.value) finished.items) },
}

// The worker from which an attempt steals: the first attempt from the next worker, and so on, and round.
fn victim(worker: u32, attempt: usize, workers: usize) -> usize
    requires worker { worker < workers }
    requires attempt { (1 ≤ attempt) × (attempt < workers) }
    ensures within { result < workers }
    ensures place { (result ≡ worker + attempt) ⊎ (result + workers ≡ worker + attempt) }
    ensures other { result ≢ worker }
{
    let above = workers - worker as usize;
    if attempt < above {
        worker as usize + attempt
    } else {
        attempt - above
    }
}

impl<T: Task> WorkerState<T> {
    // The first task of its own deque, if there is one.
    fn pop(&mut self)
        requires empty { self.old.task ≡ None }
        ensures own { worker_deque self.new.own ≡ worker_deque self.old.own }
        ensures passes { self.new.passes ≡ self.old.passes }
    {
        self.task = self.own.pop_as::<PopStep>();
    }

    // One attempt to take the first task of another worker's deque.
    fn steal(&mut self, stealers: &[StealHandle<T>], from: usize)
        requires empty { self.old.task ≡ None }
        requires from { from < length stealers.now }
        requires deques { deques_of self.old.passes.items ≡ map stealer_deque stealers.now }
        ensures own { self.new.own ≡ self.old.own }
        ensures deques { deques_of self.new.passes.items ≡ deques_of self.old.passes.items }
    {
        self.task = self.passes[from].steal(&stealers[from]);
    }

    /// Takes a task in hand, unless there is one: the first of its own deque; if that is empty, by one attempt at each
    /// other worker's deque, going up from its own number plus one and round. Returns whether a task is in hand.
    pub fn find(&mut self, stealers: &[StealHandle<T>], worker: u32) -> bool
        requires worker { worker < length stealers.now }
        requires deques { deques_of self.old.passes.items ≡ map stealer_deque stealers.now }
        ensures own { worker_deque self.new.own ≡ worker_deque self.old.own }
        ensures deques { deques_of self.new.passes.items ≡ map stealer_deque stealers.now }
        ensures found { result ≡ is_some self.new.task }
    {
        if self.task.is_none() {
            self.pop();
        }
        for attempt in 1..stealers.len() {
            if self.task.is_some() {
                break;
            }
            self.steal(stealers, victim(worker, attempt, stealers.len()));
        }
        self.task.is_some()
    }
}
