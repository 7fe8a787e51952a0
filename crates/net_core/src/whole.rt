//! Lists of stamped entries.

ghost use Rattle.std.specs.Prelude.{ℕ, ◌≡◌, ◌≢◌, ◌<◌, ◌≤◌, ◌+◌, IfErr, IfOk, length, take};
ghost use Rattle.event_rule.specs.declared.refused.RunRefused.TheVariants.{Memory};
ghost use Rattle.event_rule.specs.Simulation.{IsSimulation};
ghost use Rattle.event_rule.specs.State.{start};
ghost use Rattle.net_core.specs.declared.refused.ReplayRefused.TheVariants.{Run};
ghost use Rattle.net_core.specs.declared.refused.WholeRefused.TheVariants.{Replay};
ghost use Rattle.event_rule.specs.Whole.{IsStampedReplay, IsWholeReplay};
ghost use Rattle.net_core.specs.Whole.{WhyNotWhole};
ghost use Rattle.stamps.specs.Merged.{entries_at};
ghost use Rattle.stamps.specs.Stamps.{counter_of};
ghost use Rattle.stamps.specs.Table.{IsTableOf, counter_at};

use crate::entry_event::make_entry;
use crate::refused::WholeRefused;
use crate::stamped_state::StampedState;
use crate::whole_state::is_whole;
use entries::StampedRow;
use event_machine::NetState;
use interference::Network;
use node_api::NodeProgram;
use stamps::StampTable;
use std::alloc::Global;

// Plays the row of an index. Those before it led to the state, and the table is theirs.
fn replay_row<P: NodeProgram>(
    alloc: Global,
    state: &mut NetState<P>,
    table: &mut StampTable,
    rows: &[StampedRow<P::Payload>],
    index: usize,
) -> Result<(), WholeRefused>
    requires row { index < length rows.now }
    requires replay { IsStampedReplay P.program state.now.net (take index rows.now) state.now.state }
    requires table { IsTableOf (take index rows.now) table.now }
    ensures net { IfOk result (λ _. state.new.net ≡ state.old.net) }
    ensures replay { IfOk result
        (λ _. IsStampedReplay P.program state.old.net (take (index + 1) rows.now) state.new.state) }
    ensures table { IfOk result (λ _. IsTableOf (take (index + 1) rows.now) table.new) }
    ensures refuses { IfErr result
        (λ refused. refused ≢ Replay (Run Memory) → WhyNotWhole P.program state.old.net rows.now refused) }
{
    let row = &rows[index];
    match make_entry(state, &row.without_stamp()) {
        Ok(()) => {}
        Err(refused) => return Err(WholeRefused::Replay(refused.at(index))),
    }
    if !table.is_in_place(row) {
        return Err(WholeRefused::WrongStamp(index));
    }
    table.add(alloc, row)?;
    Ok(())
}

// Plays all rows, from the start, and returns their table.
fn replay_rows<P: NodeProgram>(
    alloc: Global,
    state: &mut NetState<P>,
    rows: &[StampedRow<P::Payload>],
) -> Result<StampTable, WholeRefused>
    requires start { state.now.state ≡ start P.program state.now.net }
    ensures net { IfOk result (λ _. state.new.net ≡ state.old.net) }
    ensures replay { IfOk result (λ _. IsStampedReplay P.program state.old.net rows.now state.new.state) }
    ensures table { IfOk result (λ table. IsTableOf rows.now table) }
    ensures refuses { IfErr result
        (λ refused. refused ≢ Replay (Run Memory) → WhyNotWhole P.program state.old.net rows.now refused) }
{
    let mut table = StampTable::new(alloc);
    for index in 0..rows.len() {
        replay_row(alloc, state, &mut table, rows, index)?;
    }
    Ok(table)
}

/// Plays stamped entries, each with the vertex of its node, from the start, and returns the state that they lead to,
/// with the stamp of each vertex. They have to end whole: every node drained, and every link empty.
///
/// # Errors
///
/// As `replay`; then, of the same entry, `WrongStamp` if its stamp isn't that of its node's counter, or if it comes too
/// late in the order of the stamps, and of the vertices if the stamps are equal. At the end `NotWhole` if a node isn't
/// drained, or a link isn't empty. `Replay` of out of memory if memory is refused.
pub fn replay_whole<P: NodeProgram>(
    alloc: Global,
    net: &Network,
    rows: &[StampedRow<P::Payload>],
) -> Result<StampedState<P>, WholeRefused>
    ensures net { IfOk result (λ stamped. stamped.state.net ≡ net.now) }
    ensures accepts { IfOk result (λ stamped. IsWholeReplay P.program net.now rows.now stamped.state.state) }
    ensures stamps { IfOk result
        (λ stamped. (v : ℕ) → counter_at stamped.table v ≡ counter_of (entries_at rows.now v)) }
    ensures counted { IfOk result (λ stamped. (v : ℕ) → counter_at stamped.table v ≤ length rows.now) }
    ensures refuses { IfErr result
        (λ refused. refused ≢ Replay (Run Memory) → WhyNotWhole P.program net.now rows.now refused) }
    ensures simulates { IfOk result (λ stamped. IsSimulation P.program stamped.state.net stamped.state.state) }
{
    let mut state = NetState::start(alloc, net)?;
    let table = replay_rows(alloc, &mut state, rows)?;
    if !is_whole(&state) {
        return Err(WholeRefused::NotWhole);
    }
    state.is_simulation();
    Ok(StampedState { state, table })
}
