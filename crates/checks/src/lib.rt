//! Tests of single crates, one module for each, for what no contract says and the built programs can't show;
//! `worker_checks` tests runs of `node_pool`. `tests/` has the tests of what the built programs can show. A module is
//! named after the crate that it tests; its name ends in `_checks`, because a module may not have the name of a
//! library. These tests are in one crate, because each crate of tests takes a minute of CI before its first function.
//! `worker_checks` is apart, because it waits for `plan_runs`.
#![tactic(auto)]

#[cfg(test)]
mod alpha_core_checks;
#[cfg(test)]
mod cole_vishkin_checks;
#[cfg(test)]
mod colour_program_checks;
#[cfg(test)]
mod colour_rules_checks;
#[cfg(test)]
mod counted;
#[cfg(test)]
mod deque_checks;
#[cfg(test)]
mod event_machine_checks;
#[cfg(test)]
mod followed_checks;
#[cfg(test)]
mod forest_merge_checks;
#[cfg(test)]
mod forests_checks;
#[cfg(test)]
mod heard;
#[cfg(test)]
mod independent_set_checks;
#[cfg(test)]
mod link_alone;
#[cfg(test)]
mod link_queue_checks;
#[cfg(test)]
mod link_threads;
#[cfg(test)]
mod linked_counters;
#[cfg(test)]
mod net_core_checks;
#[cfg(test)]
mod networks;
#[cfg(test)]
mod node_api_checks;
#[cfg(test)]
mod pausing;
#[cfg(test)]
mod pool_checks;
#[cfg(test)]
mod resting;
#[cfg(test)]
mod samples;
#[cfg(test)]
mod shift_down_checks;
#[cfg(test)]
mod silent_checks;
#[cfg(test)]
mod sync_rounds_checks;
#[cfg(test)]
mod transcripts_checks;
#[cfg(test)]
mod whole_streams_checks;
#[cfg(test)]
mod wired_nodes_checks;
