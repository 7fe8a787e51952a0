//! The last states of nodes that one thread ran in rounds, as text.

ghost use Rattle.std.specs.Prelude.{◌≡◌, IfOk, IfErr};
ghost use Rattle.node_api.specs.Run.{last_states};
ghost use Rattle.play_inputs.specs.Inputs.{IsFaultOfText};
ghost use Rattle.play_runs.specs.Ends.{IsEndsAnswer, ends_text};

use crate::lines::push_end;
use interference::{Memory, Network};
use play_inputs::{PlayFault, Setting, network_of_text};
use program_texts::ProgramText;
use std::alloc::Global;
use sync_rounds::run_rounds;

// A line for each vertex, from its last state.
fn text_of_states<P: ProgramText>(
    alloc: Global,
    net: &Network,
    nodes: &[P],
) -> Result<Vec<u8>, Memory>
    requires states { nodes.now ≡ last_states P.program net.now }
    ensures text { IfOk result (λ text. text.items ≡ ends_text P.program P.texts net.now) }
{
    let last = P::last_pulse(net);
    let mut text = Vec::new(alloc);
    for i in 0..net.nodes() {
        push_end(&mut text, net, i + 1, last, &nodes[i as usize])?;
    }
    Ok(text)
}

/// The last state of each node of a program on the network that a DIMACS text describes, as text: a line for each
/// vertex, with its last pulse and its result, as `run_bytes` gives it. The nodes run in rounds, on this thread. The
/// network is as `setting` says. The call returns.
///
/// # Errors
/// As of `network_of_text`, or `Memory`.
pub fn ends_bytes<P: ProgramText>(
    alloc: Global,
    input: &[u8],
    setting: Setting,
) -> Result<Vec<u8>, PlayFault>
    ensures ok { IfOk result (λ text. IsEndsAnswer P.program P.texts setting input.now text.items) }
    ensures fault { IfErr result (IsFaultOfText setting input.now) }
{
    P::rounds_solve();
    let network = network_of_text(alloc, input, setting)?;
    let nodes = run_rounds::<P>(alloc, &network)?;
    Ok(text_of_states(alloc, &network, nodes.as_slice())?)
}
