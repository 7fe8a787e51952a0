//! Tests of whole runs of nodes on worker threads (`node_pool`), of the plans and transcripts that these runs write,
//! and of replays, for what no contract says. They also test stamped entries. Each run of workers ends by a limit on
//! the number of looks, on every schedule. `surface` has each function that was asked for, with its types, so that it
//! is compiled.
#![tactic(auto)]

#[cfg(test)]
mod meeting;
#[cfg(test)]
mod node_pool_checks;
#[cfg(test)]
mod observer_checks;
#[cfg(test)]
mod plan_checks;
#[cfg(test)]
mod replay_checks;
#[cfg(test)]
mod runs;
#[cfg(test)]
mod sightings;
#[cfg(test)]
mod stamp_checks;
#[cfg(test)]
mod stealing;
#[cfg(test)]
mod stopped_checks;
#[cfg(test)]
mod surface;
