//! Texts of transcripts and of plans, and the functions from bytes to bytes that have no threads.

use channel_plan::{CheckFault, Plan, check, plan_text, read_plan};
use colour_rules::Payload;
use entries::{Row, StampedRow};
use interference::{Memory, Network};
use plan_answers::{PlanFault, check_bytes, forest_bytes, plain_bytes};
use std::alloc::Global;
use transcripts::{
    TextFault, Transcript, read_any, read_transcript, stamped_text, transcript_text,
};

pub fn written(alloc: Global, nodes: u32, rows: &[Row<Payload>]) -> Result<Vec<u8>, Memory> {
    transcript_text(alloc, nodes, rows)
}

pub fn written_stamped(
    alloc: Global,
    nodes: u32,
    rows: &[StampedRow<Payload>],
) -> Result<Vec<u8>, Memory> {
    stamped_text(alloc, nodes, rows)
}

pub fn read_one(alloc: Global, text: &[u8]) -> Result<(u32, Vec<Row<Payload>>), TextFault> {
    read_transcript::<Payload>(alloc, text)
}

pub fn read(alloc: Global, text: &[u8]) -> Result<Transcript<Payload>, TextFault> {
    read_any::<Payload>(alloc, text)
}

pub fn transcript(read: &Transcript<Payload>) -> u32 {
    match read {
        Transcript::One(nodes, rows) => {
            let _: &Vec<Row<Payload>> = rows;
            *nodes
        }
        Transcript::Two(nodes, rows) => {
            let _: &Vec<StampedRow<Payload>> = rows;
            *nodes
        }
    }
}

pub fn plans(plan: &Plan) {
    let _: fn(Global, &[u16]) -> Result<Vec<u8>, Memory> = plan_text;
    let _: fn(Global, &[u8]) -> Result<Plan, CheckFault> = read_plan;
    let _: fn(Global, &Network, &Plan) -> Result<u32, CheckFault> = check;
    let Plan { rows } = plan;
    let _: &Vec<(u32, u32)> = rows;
}

pub fn bytes() {
    let _: fn(Global, &[u8]) -> Result<Vec<u8>, PlanFault> = forest_bytes;
    let _: fn(Global, &[u8]) -> Result<Vec<u8>, PlanFault> = plain_bytes;
    let _: fn(Global, &[u8]) -> Result<Vec<u8>, PlanFault> = check_bytes;
}
