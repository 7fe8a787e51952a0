//! What an event lacks that isn't possible.

ghost use Rattle.std.specs.Prelude.{◌≡◌, ◌<◌, ◌++◌, IfOk, length};
ghost use Rattle.interference.specs.Net.{IsVertex, degree_of};
ghost use Rattle.node_api.specs.Program.{last_pulse_on};
ghost use Rattle.alpha_core.specs.View.{port_at};
ghost use Rattle.event_rule.specs.State.{node_of};
ghost use Rattle.event_rule.specs.Step.{has_port, is_vertex};
ghost use Rattle.event_texts.specs.Missing.{before_name, lack_text, lacking, lacking_at, lacks, last_text};
ghost use Rattle.event_texts.specs.Missing.{missing_text, name_text, names_text, pulse_text};

use alpha_core::AlphaNode;
use event_machine::NetState;
use event_rule::Event;
use interference::Network;
use node_api::NodeProgram;
use number_rows::push_numbered;
use std::alloc::{AllocError, Global};

// A wire of a node's pulse that is still to come by a port.
#[derive(Clone, Copy)]
enum Lack {
    // The acknowledgement of the node's own payload.
    Ack,
    // The neighbour's safe.
    Safe,
}

/// Whether there is such a vertex.
pub(crate) fn is_vertex(net: &Network, v: u32) -> bool
    ensures { result ≡ is_vertex net.now v }
{
    1 <= v && v <= net.nodes()
}

/// Whether there is such a vertex, with such a port.
pub(crate) fn has_port(net: &Network, v: u32, port: u32) -> bool
    ensures { result ≡ has_port net.now v port }
{
    is_vertex(net, v) && port < net.degree(v)
}

fn lacks<P: NodeProgram>(node: &AlphaNode<P>, lack: Lack, port: u32) -> bool
    requires port { port < length node.now.node.view.ports }
    ensures { result ≡ lacks lack (port_at node.now.node.view port) }
{
    match lack {
        Lack::Ack => node.waits(port),
        Lack::Safe => !node.is_safe(port),
    }
}

// Appends the neighbour at a port, if its vertex lacks a wire there.
fn push_lacking<P: NodeProgram>(
    names: &mut Vec<u32>,
    state: &NetState<P>,
    v: u32,
    lack: Lack,
    port: u32,
) -> Result<(), AllocError>
    requires vertex { IsVertex state.now.net v }
    requires port { port < degree_of state.now.net v }
    ensures { IfOk result (λ _. names.new.items ≡ names.old.items
        ++ lacking_at state.now.net v (node_of P.program state.now.net state.now.state v).view lack port) }
{
    state.is_simulation();
    if lacks(state.node(v), lack, port) {
        names.push(state.network().neighbour(v, port))?;
    }
    Ok(())
}

// The neighbours of which a vertex lacks a wire of its pulse, ascending.
fn lacking<P: NodeProgram>(
    alloc: Global,
    state: &NetState<P>,
    v: u32,
    lack: Lack,
) -> Result<Vec<u32>, AllocError>
    requires vertex { IsVertex state.now.net v }
    ensures { IfOk result (λ names. names.items
        ≡ lacking state.now.net v (node_of P.program state.now.net state.now.state v).view lack) }
{
    let mut names = Vec::new(alloc);
    for port in 0..state.network().degree(v) {
        push_lacking(&mut names, state, v, lack, port)?;
    }
    Ok(names)
}

fn before_name(count: usize, index: usize) -> &'static [u8]
    requires index { index < count }
    ensures { result.now ≡ before_name count index }
{
    if index == 0 {
        b" of "
    } else if index + 1 == count {
        b" and "
    } else {
        b", "
    }
}

// Appends the name at an index.
fn push_name(text: &mut Vec<u8>, names: &[u32], i: usize) -> Result<(), AllocError>
    requires index { i < length names.now }
    ensures { IfOk result (λ _. text.new.items ≡ text.old.items ++ name_text names.now i) }
{
    push_numbered(text, before_name(names.len(), i), u128::from(names[i]))
}

// Appends the names of neighbours.
fn push_names(text: &mut Vec<u8>, names: &[u32]) -> Result<(), AllocError>
    ensures { IfOk result (λ _. text.new.items ≡ text.old.items ++ names_text names.now) }
{
    for i in 0..names.len() {
        push_name(text, names, i)?;
    }
    Ok(())
}

// Appends words, a pulse and the names of neighbours, if there are some.
fn push_lack(text: &mut Vec<u8>, words: &[u8], pulse: u32, names: &[u32]) -> Result<(), AllocError>
    ensures { IfOk result (λ _. text.new.items ≡ text.old.items ++ lack_text words.now pulse names.now) }
{
    if names.is_empty() {
        return Ok(());
    }
    push_numbered(text, words, u128::from(pulse))?;
    push_names(text, names)
}

// Appends that a pulse is the last.
fn push_last(text: &mut Vec<u8>, pulse: u32) -> Result<(), AllocError>
    ensures { IfOk result (λ _. text.new.items ≡ text.old.items ++ last_text pulse) }
{
    push_numbered(text, b": pulse ", u128::from(pulse))?;
    text.extend_from_slice(b" is the last")?;
    Ok(())
}

// Appends why a vertex doesn't make its next pulse.
fn push_pulse<P: NodeProgram>(
    alloc: Global,
    text: &mut Vec<u8>,
    state: &NetState<P>,
    v: u32,
) -> Result<(), AllocError>
    requires vertex { IsVertex state.now.net v }
    ensures { IfOk result (λ _. text.new.items ≡ text.old.items
        ++ pulse_text state.now.net (last_pulse_on P.program state.now.net) v
        (node_of P.program state.now.net state.now.state v).view) }
{
    let pulse = state.pulse_of(v);
    if state.node(v).halted() {
        return push_last(text, pulse);
    }
    let acks = lacking(alloc, state, v, Lack::Ack)?;
    let safes = lacking(alloc, state, v, Lack::Safe)?;
    push_lack(text, b": ack ", pulse, acks.as_slice())?;
    if acks.is_empty() {
        push_lack(text, b": safe ", pulse, safes.as_slice())
    } else {
        push_lack(text, b"; safe ", pulse, safes.as_slice())
    }
}

/// What an event lacks that isn't possible in a state, as the words behind the line of its refusal: the wires for which
/// a pulse waits, the out-list or the link that is empty. No words if there is no such vertex or port.
///
/// # Errors
///
/// If memory is refused.
pub fn missing_words<P: NodeProgram>(
    alloc: Global,
    state: &NetState<P>,
    event: Event,
) -> Result<Vec<u8>, AllocError>
    ensures { IfOk result (λ text. text.items ≡ missing_text P.program state.now.net state.now.state event) }
{
    let net = state.network();
    let mut text = Vec::new(alloc);
    match event {
        Event::Pulse(v) if is_vertex(net, v) => push_pulse(alloc, &mut text, state, v)?,
        Event::Put(v, port) if has_port(net, v, port) => {
            push_numbered(&mut text, b": list of ", u128::from(v))?;
            push_numbered(&mut text, b" for ", u128::from(net.neighbour(v, port)))?;
        }
        Event::Take(v, port) if has_port(net, v, port) => {
            push_numbered(
                &mut text,
                b": link from ",
                u128::from(net.neighbour(v, port)),
            )?;
            push_numbered(&mut text, b" to ", u128::from(v))?;
        }
        _ => {}
    }
    Ok(text)
}
