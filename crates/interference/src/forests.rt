//! How many forests a network has.

ghost use Rattle.std.specs.Prelude.{◌≡◌, ◌-◌, ◌≤◌, [], All, count_by, length, nat_lt, slice_index};
ghost use Rattle.interference.specs.Net.{forest_count_of};
ghost use Rattle.interference.specs.Rows.{ArePorts, net_from};

use crate::limits::MAX_DEGREE;

// The greatest number of neighbours of higher identifier of any vertex.
pub(crate) fn forest_count(ids: &[u128], starts: &[u32], ports: &[u32]) -> u32
    requires { ArePorts ids.now starts.now ports.now }
    ensures { result ≡ forest_count_of (net_from ids.now starts.now ports.now [] [] 0) }
{
    let mut most = 0;
    for i in 0..ids.len() {
        let row = &ports[starts[i] as usize..starts[i + 1] as usize];
        most = most.max(higher_count(ids, ids[i], row));
    }
    most
}

// How many vertices of a row have a higher identifier than `own`.
fn higher_count(ids: &[u128], own: u128, row: &[u32]) -> u32
    requires vertices { All (λ w. (1 ≤ w) × (w ≤ length ids.now)) row.now }
    requires few { length row.now ≤ MAX_DEGREE }
    ensures { result ≡ count_by (λ w. nat_lt own (slice_index ids.now (w - 1))) row.now }
{
    let mut higher = 0;
    for w in row {
        if own < ids[(*w - 1) as usize] {
            higher += 1;
        }
    }
    higher
}
