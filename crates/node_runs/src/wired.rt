//! Ends that know the place and the index of their link.

ghost use Rattle.std.specs.Prelude.{◌≡◌, [], All, IfOk, map};
ghost use Rattle.interference.specs.Net.{IsVertex};
ghost use Rattle.link_queue.specs.Ends.{put_list, taken_list};
ghost use Rattle.wired_nodes.specs.Node.{links_in, links_out};
ghost use Rattle.node_runs.specs.News.{AreNewOf};

use crate::making::PortEnds;
use interference::Network;
use node_api::NodeProgram;
use std::alloc::{AllocError, Global};
use wired_nodes::{WiredPut, WiredTake, Wiring};

/// The ends of a node, by port.
#[derive(Drop)]
pub(crate) struct WiredEnds<J: Wiring, P: NodeProgram> {
    pub puts: Vec<WiredPut<J, P::Payload>>,
    pub takes: Vec<WiredTake<J, P::Payload>>,
}

/// The ends of the node of a vertex, each with the place and the index of its link.
pub(crate) fn wired_ends<J: Wiring, P: NodeProgram>(
    alloc: Global,
    net: &Network,
    v: u32,
    row: Vec<PortEnds<P>>,
) -> Result<WiredEnds<J, P>, AllocError>
    requires network { J.net ≡ net.now }
    requires vertex { IsVertex net.now v }
    requires ends { AreNewOf J.net J.tables J.links v row.items }
    ensures outs { IfOk result (λ ends. map (λ e. (e.vertex, e.port)) ends.puts.items ≡ links_out J.net v) }
    ensures ins { IfOk result (λ ends. map (λ e. (e.vertex, e.port)) ends.takes.items ≡ links_in J.net v) }
    ensures nothing_put { IfOk result (λ ends. All (λ e. put_list e.end ≡ []) ends.puts.items) }
    ensures nothing_taken { IfOk result (λ ends. All (λ e. taken_list e.end ≡ []) ends.takes.items) }
{
    let mut puts = Vec::with_capacity(alloc, row.len())?;
    let mut takes = Vec::with_capacity(alloc, row.len())?;
    let mut port = 0;
    for ends in row {
        let (w, j) = (net.neighbour(v, port), net.back_port(v, port));
        let PortEnds {
            put_index,
            put,
            take_index,
            take,
        } = ends;
        puts.push_reserved(WiredPut::<J, P::Payload>::new(v, port, put_index, put));
        takes.push_reserved(WiredTake::<J, P::Payload>::new(w, j, take_index, take));
        port += 1;
    }
    Ok(WiredEnds { puts, takes })
}
