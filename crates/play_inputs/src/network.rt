//! The network that a DIMACS text describes, as a setting says.

ghost use Rattle.std.specs.Prelude.{◌≡◌, IfOk, IfErr};
ghost use Rattle.graph_limits.specs.Pairs.{AreVertices};
ghost use Rattle.dimacs_col.specs.Reading.{graph_of};
ghost use Rattle.interference.specs.Making.{BarsFit, EdgesFit, IsFaultOf};
ghost use Rattle.interference.specs.Net.{IsNetwork};
ghost use Rattle.plan_answers.specs.Answers.{ReadsAs, network_with};
ghost use Rattle.play_inputs.specs.Inputs.{IsFaultOfText};
ghost use Rattle.play_inputs.specs.Settings.{IsRootAmong, OfSet};

use crate::fault::PlayFault;
use crate::setting::Setting;
use crate::setting_up::{missing_root, repeated_as, set_ids};
use dimacs_col::{ColFile, read};
use interference::{NetFault, Network};
use plan_answers::identifiers;
use std::alloc::Global;

// The network of a graph, as `setting` says.
fn network_of_graph(alloc: Global, graph: &ColFile, setting: Setting) -> Result<Network, NetFault>
    requires edges { EdgesFit graph.now.nodes graph.now.edges.items }
    requires vertices { AreVertices graph.now.nodes graph.now.ids.items }
    requires bars { BarsFit graph.now.nodes graph.now.bars.items }
    requires root { IsRootAmong setting graph.now.nodes }
    ensures ok { IfOk result (λ net.
        OfSet setting (λ made. IsNetwork made × (net ≡ made)) (network_with (graph_of graph.now))) }
    ensures network { IfOk result IsNetwork }
    ensures fault { IfErr result (λ fault.
        OfSet setting (λ made. IsFaultOf made fault) (network_with (graph_of graph.now))) }
{
    let Ok(ids) = identifiers(alloc, graph.nodes, graph.ids.as_slice()) else {
        return Err(NetFault::Memory);
    };
    let Ok(ids) = set_ids(alloc, ids, setting) else {
        return Err(NetFault::Memory);
    };
    let network = Network::new(
        alloc,
        graph.nodes,
        ids.as_slice(),
        graph.edges.as_slice(),
        graph.bars.as_slice(),
    )?;
    Ok(repeated_as(network, setting))
}

/// The network that a DIMACS text describes, as `setting` says.
///
/// # Errors
/// `Col` with the fault of the reading; else `NoRoot` if the root is no vertex; else `Net` with the fault of the
/// network. Reading and network may instead fail for lack of memory: `ColFault::Memory` or `NetFault::Memory`.
pub fn network_of_text(alloc: Global, input: &[u8], setting: Setting) -> Result<Network, PlayFault>
    ensures ok { IfOk result (λ net. ReadsAs input.now (OfSet setting (λ read. IsNetwork read × (net ≡ read)))) }
    ensures network { IfOk result IsNetwork }
    ensures fault { IfErr result (IsFaultOfText setting input.now) }
{
    let graph = read(alloc, input)?;
    match missing_root(setting, graph.nodes) {
        Some(v) => Err(PlayFault::NoRoot(v)),
        None => Ok(network_of_graph(alloc, &graph, setting)?),
    }
}
