//! The text of a state of a network.

ghost use Rattle.std.specs.Prelude.{◌≡◌, ◌++◌, ◌<◌, IfOk, flat_map};
ghost use Rattle.interference.specs.Net.{IsVertex, degree_of, neighbour_of};
ghost use Rattle.node_api.specs.Program.{last_pulse_on};
ghost use Rattle.event_rule.specs.State.{link_at, node_of};
ghost use Rattle.event_texts.specs.StateText.{link_text, links_text, node_text, state_text};
ghost use Rattle.program_texts.specs.PayloadTexts.{payload_texts};
ghost use Rattle.program_texts.specs.WireText.{wire_text};

use event_machine::NetState;
use interference::Memory;
use node_api::{NodeProgram, PayloadText};
use number_rows::push_numbered;
use program_texts::{ProgramText, push_wire};
use std::alloc::{AllocError, Global};
use wires::Wire;

// Appends the line of a vertex's node.
fn push_node<P: ProgramText>(
    text: &mut Vec<u8>,
    state: &NetState<P>,
    v: u32,
) -> Result<(), AllocError>
    requires vertex { IsVertex state.now.net v }
    ensures { IfOk result (λ _. text.new.items ≡ text.old.items ++ node_text P.texts state.now.net
        (last_pulse_on P.program state.now.net) v (node_of P.program state.now.net state.now.state v)) }
{
    let node = state.node(v);
    push_numbered(text, b"node ", u128::from(v))?;
    push_numbered(text, b" pulse ", u128::from(node.pulse_number()))?;
    if node.halted() {
        node.program().push_result(text, state.network(), v)?;
    }
    text.push(b'\n')?;
    Ok(())
}

// Appends wires, with a space before each word.
fn push_wires<T: PayloadText>(text: &mut Vec<u8>, wires: &[Wire<T>]) -> Result<(), AllocError>
    ensures { IfOk result (λ _. text.new.items ≡ text.old.items
        ++ flat_map (wire_text (payload_texts T.PayloadText.own)) wires.now) }
{
    for wire in wires {
        push_wire(text, *wire)?;
    }
    Ok(())
}

// Appends the line of the link out of a vertex by a port.
fn push_link<P: NodeProgram>(
    text: &mut Vec<u8>,
    state: &NetState<P>,
    v: u32,
    port: u32,
) -> Result<(), AllocError>
    requires vertex { IsVertex state.now.net v }
    requires port { port < degree_of state.now.net v }
    ensures { IfOk result (λ _. text.new.items ≡ text.old.items
        ++ link_text (payload_texts P.Payload.PayloadText.own) v (neighbour_of state.now.net v port)
        (link_at state.now.state.links v port)) }
{
    let (taken, held) = state.link(v, port);
    push_numbered(text, b"link ", u128::from(v))?;
    push_numbered(text, b" ", u128::from(state.network().neighbour(v, port)))?;
    push_numbered(text, b" taken ", taken as u128)?;
    push_wires(text, held)?;
    text.push(b'\n')?;
    Ok(())
}

// Appends the lines of the links out of a vertex, by port.
fn push_links<P: NodeProgram>(
    text: &mut Vec<u8>,
    state: &NetState<P>,
    v: u32,
) -> Result<(), AllocError>
    requires vertex { IsVertex state.now.net v }
    ensures { IfOk result (λ _. text.new.items ≡ text.old.items
        ++ links_text (payload_texts P.Payload.PayloadText.own) state.now.net state.now.state v) }
{
    for port in 0..state.network().degree(v) {
        push_link(text, state, v, port)?;
    }
    Ok(())
}

/// The text of a state: for each vertex, ascending, `node V pulse P`, and behind the last pulse the result of its node;
/// then, for each link out of it, by port, `link V W taken N` and the wires that it holds, oldest first.
///
/// # Errors
///
/// If memory is refused.
pub fn text_of_state<P: ProgramText>(alloc: Global, state: &NetState<P>) -> Result<Vec<u8>, Memory>
    ensures text { IfOk result (λ text. text.items
        ≡ state_text P.program P.texts (payload_texts P.Payload.PayloadText.own) state.now.net state.now.state) }
{
    let mut text = Vec::new(alloc);
    for i in 0..state.network().nodes() {
        push_node(&mut text, state, i + 1)?;
        push_links(&mut text, state, i + 1)?;
    }
    Ok(text)
}
