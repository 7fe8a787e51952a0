//! A pool of worker threads for tasks of any kind: the workers make turns of tasks, steal tasks from one another, and
//! hand back each task exactly once at the end of a run.
//!
//! In a look a worker takes the first task of its own deque, or else steals a task from another worker's deque, makes
//! one turn of the task and puts it on its own deque, or keeps it if nothing is left for the task to do. Whatever the
//! threads do, no task is lost or doubled, and `run_tasks` returns each task once. This follows from the rule of
//! `deque_rule` for each deque, and from a sum over all deques, which has each task once. What a turn leaves is a fact
//! of the task's type. The pool only knows the number of a task; `node_runs` runs the nodes of `wired_nodes` as tasks.
//!
//! In reading order: `worker_state` has what belongs to a worker, `looks` what a worker does, and `signals` what
//! workers see of one another. `deques` makes and fills the deques, `worker_states` makes what workers begin with,
//! `threads` starts and joins the workers. `gathering` collects the tasks that the workers hand back, and `order` and
//! `place` put them in order; `promise` is for threads that hand states back. `run` has the whole run, and `faults`
//! says which faults a run can have.
//!
//! ```text
//! let tasks = run_tasks(&rt, alloc, |task, worker| .., tasks, options)?;   // ascending
//! ```
//!
//! Limits: `MAX_WORKERS` of `run_options`. Nothing is promised about time, about fairness, about which worker has a
//! task, or that a call returns.
#![tactic(auto)]

mod deques;
mod faults;
mod gathering;
mod looks;
mod order;
mod place;
mod promise;
mod run;
mod signals;
mod threads;
mod worker_state;
mod worker_states;

pub use deques::{deal, make_deques, split_off};
pub use faults::ThreadsFault;
pub use gathering::gather;
pub use looks::Turned;
pub use place::{Places, make_places};
pub use promise::SameDeques;
pub use run::run_tasks;
pub use worker_state::WorkerState;
pub use worker_states::make_worker_states;
