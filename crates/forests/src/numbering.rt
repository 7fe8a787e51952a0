//! What a port is to its node, and the numbering of the ports that lead up.

ghost use Rattle.std.specs.Prelude.{◌≡◌, ◌≢◌, ◌≤◌, filter, length, map, nat_lt, take};
ghost use Rattle.std.specs.List.{All, AllPairs, Contains};
ghost use Rattle.interference.specs.Net.{place_of};
ghost use Rattle.forests.specs.Order.{IsAscendingBy, in_order};
ghost use Rattle.forests.specs.Forests.{forest, role_by};

use interference::MAX_DEGREE;

/// What a port is to a node.
#[derive(Debug, Clone, Copy, PartialEq, Eq)]
pub enum Role {
    /// Not known yet.
    Unknown,
    /// It leads to the node's parent in this forest.
    Up(u16),
    /// It leads to a child in this forest.
    Down(u16),
}

impl Role {
    /// The forest of the port's edge, if it is known.
    pub fn forest(self) -> Option<u16>
        ensures { result ≡ forest self }
    {
        match self {
            Role::Unknown => None,
            Role::Up(forest) | Role::Down(forest) => Some(forest),
        }
    }
}

// How many ports a node has at most.
const MAX_PORTS: usize = MAX_DEGREE as usize;

// Up to how many ports a node has few, so that a short list on the stack serves.
const FEW_PORTS: usize = 16;

// Writes the identifiers above `own` to the front, in their order, and returns how many they are.
fn gather_higher(own: u128, ids: &[u128], higher: &mut [u128]) -> usize
    requires { length ids.now ≤ length higher.old }
    ensures few { result ≤ length ids.now }
    ensures gathered { take result higher.new ≡ filter (nat_lt own) ids.now }
    ensures room { length higher.new ≡ length higher.old }
{
    let mut count = 0;
    for id in ids {
        if *id > own {
            higher[count] = *id;
            count += 1;
        }
    }
    count
}

// Writes the identifiers above `own` to the front, ascending, and returns how many they are.
fn order_higher(own: u128, ids: &[u128], higher: &mut [u128]) -> usize
    requires room { length ids.now ≤ length higher.old }
    requires distinct { AllPairs (λ x y. x ≢ y) ids.now }
    ensures few { result ≤ length ids.now }
    ensures ordered { take result higher.new ≡ in_order (λ i. i) (filter (nat_lt own) ids.now) }
    ensures ascending { IsAscendingBy (λ i. i) (take result higher.new) }
    ensures room { length higher.new ≡ length higher.old }
{
    let count = gather_higher(own, ids, higher);
    higher[..count].sort_unstable();
    count
}

// The role of the port to the identifier `id`; `higher` has the higher identifiers in order.
fn role_among(higher: &[u128], id: u128) -> Role
    requires few { length higher.now ≤ MAX_DEGREE }
    requires ascending { IsAscendingBy (λ i. i) higher.now }
    ensures up { Contains higher.now id → result ≡ Role.Up (place_of id higher.now) }
    ensures unknown { (Contains higher.now id → ⊥) → result ≡ Role.Unknown }
{
    match higher.binary_search(&id) {
        Ok(forest) => Role::Up(forest as u16),
        Err(_) => Role::Unknown,
    }
}

// Numbers the ports that lead to higher identifiers; there is room for these in `higher`.
fn number_with(own: u128, ids: &[u128], higher: &mut [u128], roles: &mut [Role])
    requires same_ports { length roles.old ≡ length ids.now }
    requires few { length ids.now ≤ MAX_DEGREE }
    requires room { length ids.now ≤ length higher.old }
    requires distinct { AllPairs (λ x y. x ≢ y) ids.now }
    ensures numbered { roles.new ≡ map (role_by own ids.now) ids.now }
{
    let count = order_higher(own, ids, higher);
    for (port, id) in ids.iter().enumerate() {
        roles[port] = role_among(&higher[..count], *id);
    }
}

/// Numbers the ports of the node `own` that lead to higher identifiers by ascending identifier, as
/// `Up(0)`, `Up(1)` and so on, and makes all others `Unknown`.
///
/// `ids` and `roles` go by port, at most `MAX_DEGREE` of them; forests count from 0. No memory is taken: the
/// higher identifiers are sorted on the stack, and each port looks its own up (Panconesi and Rizzi,
/// 2001).
pub fn number_up(own: u128, ids: &[u128], roles: &mut [Role])
    requires same_ports { length roles.old ≡ length ids.now }
    requires few { length ids.now ≤ MAX_DEGREE }
    requires distinct { AllPairs (λ x y. x ≢ y) ids.now }
    requires others { All (λ id. id ≢ own) ids.now }
    ensures numbered { roles.new ≡ map (role_by own ids.now) ids.now }
{
    if ids.len() <= FEW_PORTS {
        number_with(own, ids, &mut [0; FEW_PORTS], roles);
    } else {
        number_with(own, ids, &mut [0; MAX_PORTS], roles);
    }
}
