//! What holds of every network. Each law is a function that does nothing: its contract is the law.

ghost use Rattle.std.specs.Prelude.{◌*◌, ◌<◌, ◌≡◌, ◌≤◌, List, length, ℕ};
ghost use Rattle.interference.specs.Counts.{degree_sum_of, edge_count_of, sum_over_ports};
ghost use Rattle.interference.specs.Making.{EdgesFit, network_of};
ghost use Rattle.interference.specs.Net.{IsEdge, IsNetwork, IsVertex, Net, back_port_of, degree_of, neighbour_of};
ghost use Rattle.interference.specs.Net.{port_to, bar_count_of, count_of, forest_count_of, greatest_bars_of};
ghost use Rattle.interference.specs.Net.{greatest_degree_of, higher_count};
ghost use Rattle.graph_limits.specs.declared.limits.TheConstants.{MAX_BARS};
ghost use Rattle.interference.specs.declared.limits.TheConstants.{MAX_DEGREE};

/// If w is a neighbour of v, then v is a neighbour of w.
pub fn neighbours_are_mutual()
    ensures { (net : Net) → IsNetwork net → (v w : ℕ) → IsEdge net v w → IsEdge net w v }
{}

/// A vertex has each of its neighbours at exactly one port.
pub fn each_neighbour_has_its_port()
    ensures at_it { (net : Net) → IsNetwork net → (v w : ℕ) → IsEdge net v w →
        (port_to net v w < degree_of net v) × (neighbour_of net v (port_to net v w) ≡ w) }
    ensures no_other { (net : Net) → IsNetwork net → (v port : ℕ) → IsVertex net v → port < degree_of net v →
        port_to net v (neighbour_of net v port) ≡ port }
{}

/// The port back leads back to the vertex, and the port back of that port is the port one came by.
pub fn ports_lead_back()
    ensures back { (net : Net) → IsNetwork net → (v port : ℕ) → IsVertex net v → port < degree_of net v →
        neighbour_of net (neighbour_of net v port) (back_port_of net v port) ≡ v }
    ensures again { (net : Net) → IsNetwork net → (v port : ℕ) → IsVertex net v → port < degree_of net v →
        back_port_of net (neighbour_of net v port) (back_port_of net v port) ≡ port }
{}

/// No degree is greater than Δ; if there are vertices, one of them has degree Δ; and Δ is at most
/// `MAX_DEGREE`.
pub fn greatest_degree_is_the_greatest()
    ensures bound { (net : Net) → IsNetwork net → (v : ℕ) → IsVertex net v → degree_of net v ≤ greatest_degree_of net }
    ensures reached { (net : Net) → IsNetwork net → 0 < count_of net →
        (v : ℕ) × IsVertex net v × (degree_of net v ≡ greatest_degree_of net) }
    ensures limit { (net : Net) → IsNetwork net → greatest_degree_of net ≤ MAX_DEGREE }
{}

/// No vertex has more than B bars; if there are vertices, one of them has B bars; and B is at most
/// `MAX_BARS`.
pub fn greatest_bars_is_the_greatest()
    ensures bound { (net : Net) → IsNetwork net → (v : ℕ) → IsVertex net v → bar_count_of net v ≤ greatest_bars_of net }
    ensures reached { (net : Net) → IsNetwork net → 0 < count_of net →
        (v : ℕ) × IsVertex net v × (bar_count_of net v ≡ greatest_bars_of net) }
    ensures limit { (net : Net) → IsNetwork net → greatest_bars_of net ≤ MAX_BARS }
{}

/// No vertex has more than U neighbours of higher identifier; if there are vertices, one of them has
/// as many; and U is at most Δ.
pub fn forest_count_is_the_greatest()
    ensures bound { (net : Net) → IsNetwork net → (v : ℕ) → IsVertex net v → higher_count net v ≤ forest_count_of net }
    ensures reached { (net : Net) → IsNetwork net → 0 < count_of net →
        (v : ℕ) × IsVertex net v × (higher_count net v ≡ forest_count_of net) }
    ensures within { (net : Net) → IsNetwork net → forest_count_of net ≤ greatest_degree_of net }
{}

/// All degrees together are twice the number of edges; what is summed over all ports may be summed from the
/// other end of each edge; and a network made of edges has as many as they are.
pub fn each_edge_has_two_ends()
    ensures degrees { (net : Net) → IsNetwork net → degree_sum_of net ≡ 2 * edge_count_of net }
    ensures either_end { (net : Net) → IsNetwork net → (f : ℕ → ℕ → ℕ) →
        sum_over_ports net (λ v i. f v (neighbour_of net v i)) ≡
        sum_over_ports net (λ v i. f (neighbour_of net v i) v) }
    ensures made { (ids : List ℕ) (edges bars : List (ℕ × ℕ)) → EdgesFit (length ids) edges →
        IsNetwork (network_of ids edges bars) → edge_count_of (network_of ids edges bars) ≡ length edges }
{}
