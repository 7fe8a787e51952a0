//! Plans, last states and transcripts by two worker threads that are in turns at once, from bytes to bytes.

use crate::meeting::Meeting;
use crate::node_pool_checks::PULSES;
use crate::runs::BY_TWO;
use colour_program::Colouring;
use plan_runs::{plan_bytes, transcript_bytes};
use play_answers::replay_bytes;
use play_inputs::Setting;
use play_runs::run_bytes;
use run_options::Edition;
use std::alloc::Global;
use std::sync::Wait;
use std::thread::Threads;

const TRIANGLE: &[u8] = b"p edge 3 3\ne 1 2\ne 1 3\ne 2 3\n";

const TRIANGLE_PLAN: &[u8] = b"plan\n1 2\n2 3\n3 1\n";

// Whether two workers make the plan through a gate.
fn make_the_plan<R: Threads + Wait + Sync>(rt: &R, alloc: Global, gate: &Meeting) -> bool {
    match plan_bytes(rt, alloc, TRIANGLE, BY_TWO, gate) {
        Ok(plan) => plan.as_slice() == TRIANGLE_PLAN,
        Err(_) => false,
    }
}

#[test]
fn two_workers_make_a_plan_at_once(rt: HostRuntime) {
    let gate = Meeting::new();
    assert!(rt; make_the_plan(&rt, rt.alloc(), &gate));
    assert!(rt; gate.saw_two_at_once(PULSES));
}

const TRIANGLE_ENDS: &[u8] =
    b"node 1 pulse 30 channel 2\nnode 2 pulse 30 channel 3\nnode 3 pulse 30 channel 1\n";

// Whether two workers make the last states through a gate.
fn make_the_ends<R: Threads + Wait + Sync>(rt: &R, alloc: Global, gate: &Meeting) -> bool {
    match run_bytes::<Colouring, Meeting, R>(rt, alloc, TRIANGLE, Setting::AsRead, BY_TWO, gate) {
        Ok(ends) => ends.as_slice() == TRIANGLE_ENDS,
        Err(_) => false,
    }
}

#[test]
fn two_workers_end_a_run_at_once(rt: HostRuntime) {
    let gate = Meeting::new();
    assert!(rt; make_the_ends(&rt, rt.alloc(), &gate));
    assert!(rt; gate.saw_two_at_once(PULSES));
}

// Whether a transcript of edition 2 is replayed behind its network.
fn is_replayed(alloc: Global, transcript: &[u8]) -> bool {
    let mut text = Vec::new(alloc);
    text.extend_from_slice(TRIANGLE).is_ok()
        && text.extend_from_slice(transcript).is_ok()
        && transcript.starts_with(b"transcript 2 3\n")
        && replay_bytes::<Colouring>(alloc, &text, Setting::AsRead).is_ok()
}

// Whether two workers make a transcript through a gate that is replayed.
fn make_a_transcript<R: Threads + Wait + Sync>(rt: &R, alloc: Global, gate: &Meeting) -> bool {
    match transcript_bytes::<Meeting, R>(rt, alloc, TRIANGLE, BY_TWO, Edition::Two, gate) {
        Ok(transcript) => is_replayed(alloc, transcript.as_slice()),
        Err(_) => false,
    }
}

#[test]
fn two_workers_make_a_transcript_at_once(rt: HostRuntime) {
    let gate = Meeting::new();
    assert!(rt; make_a_transcript(&rt, rt.alloc(), &gate));
    assert!(rt; gate.saw_two_at_once(PULSES));
}
