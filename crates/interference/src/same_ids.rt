//! Two vertices with one identifier.

ghost use Rattle.std.specs.Prelude.{◌≡◌, ◌↔◌, ◌≤◌, IsTrue, IfOk, MatchOption, length};
ghost use Rattle.std.specs.List.Sorted.{IsStrictlyIncreasing};
ghost use Rattle.interference.specs.Filling.{HasNoSameId, IsFirstSameId, earlier};

use crate::fault::Memory;
use graph_limits::MAX_NODES;
use std::alloc::Global;
use std::collections::BTreeMap;

// Whether the identifiers ascend, as they do in most networks; then no two are the same.
fn rise(ids: &[u128]) -> bool
    ensures { IsTrue result ↔ IsStrictlyIncreasing ids.now }
{
    for i in 1..ids.len() {
        if ids[i - 1] >= ids[i] {
            return false;
        }
    }
    true
}

// The first two vertices, the smaller first, that have one identifier.
pub(crate) fn first_same_id(alloc: Global, ids: &[u128]) -> Result<Option<(u32, u32)>, Memory>
    requires { length ids.now ≤ MAX_NODES }
    ensures { IfOk result (λ found. MatchOption found
        (HasNoSameId ids.now (length ids.now)) (IsFirstSameId ids.now (length ids.now))) }
{
    if rise(ids) {
        return Ok(None);
    }
    let mut firsts = BTreeMap::new(alloc);
    let mut found = None;
    for i in 0..ids.len() {
        let w = i as u32 + 1;
        let first = firsts.get(&ids[i]).copied();
        match first {
            Some(v) => found = Some(earlier(found, v, w)),
            None => {
                firsts.insert(ids[i], w)?;
            }
        }
    }
    Ok(found)
}

// The first of the pairs found and (v, w), whose w is greater than theirs.
fn earlier(found: Option<(u32, u32)>, v: u32, w: u32) -> (u32, u32)
    ensures { result ≡ earlier found v w }
{
    match found {
        Some(pair) if pair.0 <= v => pair,
        _ => (v, w),
    }
}
