//! One worker's deque of tasks, from which other workers may steal, and the rule that no task of a deque is lost or
//! doubled.
//!
//! Whatever the threads do, the tasks pushed to a deque are the tasks taken from it and the tasks that it still holds
//! (`specs/Ledgers.antt`). The tasks are known by their numbers. A *pass* is what a worker needs for stealing from a
//! deque; contracts see in a pass which tasks were pushed and taken by it.
//!
//! The module `task` has the tasks, `ledger` has the rule and each step of a deque, `own` has the push of a worker to
//! its own deque, and `steal_pass` has the pass by which a worker steals from another worker's deque. `pool` has the
//! deques of all workers.
//!
//! Limits: `MAX_WORKERS` of `run_options`, because a deque has a pass for each worker.
#![tactic(auto)]

mod ledger;
mod own;
mod steal_pass;
mod task;

pub use ledger::{Balance, Ledger, OneShare, PopStep, PushStep, StealStep};
pub use own::give_back;
pub use steal_pass::{Own, StealHandle, StealPass};
pub use task::Task;
