//! How a network becomes what a setting says.

ghost use Rattle.std.specs.Prelude.{◌≡◌, ◌≤◌, IfOk, MatchOption, length};
ghost use Rattle.interference.specs.Net.{Net, count_of};
ghost use Rattle.play_inputs.specs.Roots.{exchanged_id, rooted_ids};
ghost use Rattle.play_inputs.specs.Settings.{IsRootAmong, LacksRoot, repeated_as, set_ids};

use crate::setting::{Root, Setting};
use interference::Network;
use std::alloc::{AllocError, Global};

// The other one of two identifiers for each of them, and any other identifier itself.
fn exchanged_id(a: u128, b: u128, id: u128) -> u128
    ensures { result ≡ exchanged_id a b id }
{
    if id == a {
        b
    } else if id == b {
        a
    } else {
        id
    }
}

// The identifiers with which a vertex is the root.
fn rooted_ids(alloc: Global, ids: &[u128], root: Root) -> Result<Vec<u128>, AllocError>
    requires low { 1 ≤ root.vertex }
    requires high { root.vertex ≤ length ids.now }
    ensures { IfOk result (λ made. made.items ≡ rooted_ids root ids.now) }
{
    let own = ids[root.vertex as usize - 1];
    let mut made = Vec::new(alloc);
    for id in ids {
        made.push(exchanged_id(root.id, own, *id))?;
    }
    Ok(made)
}

/// The identifiers as a setting says.
///
/// # Errors
/// If memory ran out.
pub fn set_ids(alloc: Global, ids: Vec<u128>, setting: Setting) -> Result<Vec<u128>, AllocError>
    requires { IsRootAmong setting (length ids.items) }
    ensures { IfOk result (λ made. made.items ≡ set_ids setting ids.items) }
{
    match setting {
        Setting::AsRead => Ok(ids),
        Setting::Rooted(root) => rooted_ids(alloc, ids.as_slice(), root),
        Setting::Repeating(_) => Ok(ids),
    }
}

/// The network, repeated as a setting says.
pub fn repeated_as(network: Network, setting: Setting) -> Network
    ensures { result ≡ repeated_as setting network }
{
    match setting {
        Setting::AsRead => network,
        Setting::Rooted(_) => network,
        Setting::Repeating(again) => network.repeating(again),
    }
}

/// The root that a setting gives, if it is no vertex of a graph with this number of vertices.
pub fn missing_root(setting: Setting, nodes: u32) -> Option<u32>
    ensures { MatchOption result (IsRootAmong setting nodes)
        (λ v. (net : Net) → count_of net ≡ nodes → LacksRoot setting v net) }
{
    let Setting::Rooted(root) = setting else {
        return None;
    };
    if 1 <= root.vertex && root.vertex <= nodes {
        None
    } else {
        Some(root.vertex)
    }
}
