//! The last states of nodes that one thread ran, as text.

ghost use Rattle.std.specs.Prelude.{◌≡◌, IfOk, IfErr, flat_map};
ghost use Rattle.interference.specs.Net.{vertices};
ghost use Rattle.event_rule.specs.State.{node_of};
ghost use Rattle.play_inputs.specs.Inputs.{IsFaultOfText};
ghost use Rattle.play_runs.specs.Ends.{IsEndsAnswer, node_end};

use crate::lines::push_end;
use event_machine::NetState;
use interference::Memory;
use lone_runs::run_alone;
use play_inputs::{PlayFault, Setting, network_of_text};
use program_texts::ProgramText;
use std::alloc::Global;

// A line for each node.
fn text_of_ends<P: ProgramText>(alloc: Global, state: &NetState<P>) -> Result<Vec<u8>, Memory>
    ensures text { IfOk result (λ text. text.items
        ≡ flat_map (λ v. node_end P.texts state.now.net v (node_of P.program state.now.net state.now.state v))
        (vertices state.now.net)) }
{
    let mut text = Vec::new(alloc);
    let net = state.network();
    for i in 0..net.nodes() {
        let node = state.node(i + 1);
        push_end(&mut text, net, i + 1, node.pulse_number(), node.program())?;
    }
    Ok(text)
}

/// The last state of each node of a program on the network that a DIMACS text describes, as text: a line for each
/// vertex, with its last pulse and its result, as `run_bytes` gives it. The nodes run asynchronously, each knowing its
/// neighbours' wires alone, on this thread. The network is as `setting` says. The call returns.
///
/// # Errors
/// As of `network_of_text`, or `Memory`.
pub fn alone_bytes<P: ProgramText>(
    alloc: Global,
    input: &[u8],
    setting: Setting,
) -> Result<Vec<u8>, PlayFault>
    ensures ok { IfOk result (λ text. IsEndsAnswer P.program P.texts setting input.now text.items) }
    ensures fault { IfErr result (IsFaultOfText setting input.now) }
{
    P::rounds_solve();
    let network = network_of_text(alloc, input, setting)?;
    let state = run_alone::<P>(alloc, &network)?;
    Ok(text_of_ends(alloc, &state)?)
}
