//! What holds of the forests of every network. Each law is a function that does nothing: its
//! contract is the law.

ghost use Rattle.std.specs.Prelude.{◌≡◌, ◌↔◌, ◌<◌, ◌≤◌, Contains, List, Some, if◌then◌else◌, map, nat_lt, ℕ};
ghost use Rattle.std.specs.List.{AllPairs};
ghost use Rattle.std.specs.List.Sorted.{IsPermutation};
ghost use Rattle.interference.specs.Net.{IsEdge, IsNetwork, IsVertex, Net};
ghost use Rattle.interference.specs.Net.{forest_count_of, greatest_degree_of, id_of, neighbours};
ghost use Rattle.forests.specs.Order.{HasDistinctKeys, IsAscendingBy, in_order};
ghost use Rattle.forests.specs.Forests.{IsBefore, number, parent, rank, role_by, role_of, triples};
ghost use Rattle.forests.specs.declared.numbering.Role.TheVariants.{Down, Unknown, Up};

/// A list in order has the entries of the list; if its keys differ they ascend, and no other list
/// has both properties.
pub fn order_is_the_ascending_list()
    ensures entries { (key : ℕ → ℕ) (xs : List ℕ) → IsPermutation xs (in_order key xs) }
    ensures ascending { (key : ℕ → ℕ) (xs : List ℕ) → HasDistinctKeys key xs → IsAscendingBy key (in_order key xs) }
    ensures alone { (key : ℕ → ℕ) (xs ys : List ℕ) → HasDistinctKeys key xs →
        IsPermutation xs ys → IsAscendingBy key ys → ys ≡ in_order key xs }
{}

/// A vertex has at most one parent in a forest, a neighbour of higher identifier: so no forest has a
/// cycle.
pub fn parents_are_higher_neighbours()
    ensures one { (net : Net) (f v w u : ℕ) → parent net f v ≡ Some w → parent net f v ≡ Some u → w ≡ u }
    ensures neighbour { (net : Net) (f v w : ℕ) → parent net f v ≡ Some w → Contains (neighbours net v) w }
    ensures higher { (net : Net) (f v w : ℕ) → parent net f v ≡ Some w → id_of net v < id_of net w }
{}

/// The parent of a vertex v in forest f is the neighbour of higher identifier such that f neighbours
/// of v have an identifier between the two.
pub fn parents_are_ranked()
    ensures ranked { (net : Net) → IsNetwork net → (f v w : ℕ) → IsVertex net v →
        (parent net f v ≡ Some w) ↔ (IsEdge net v w × (id_of net v < id_of net w) × (rank net v w ≡ f)) }
{}

/// Every edge is in exactly one forest, that of its number, which both ends have alike.
pub fn each_edge_is_in_one_forest()
    ensures there { (net : Net) → IsNetwork net → (v w : ℕ) → IsEdge net v w → id_of net v < id_of net w →
        parent net (number net v w) v ≡ Some w }
    ensures alone { (net : Net) → IsNetwork net → (f v w : ℕ) → IsVertex net v →
        parent net f v ≡ Some w → f ≡ number net v w }
    ensures alike { (net : Net) → IsNetwork net → (v w : ℕ) → IsEdge net v w → number net v w ≡ number net w v }
    ensures below { (net : Net) → IsNetwork net → (v w : ℕ) → IsEdge net v w → number net v w < forest_count_of net }
{}

/// Exactly U forests have an edge, and U is at most Δ.
pub fn forests_are_counted()
    ensures used { (net : Net) → IsNetwork net → (f : ℕ) → f < forest_count_of net →
        (v : ℕ) × IsVertex net v × ((w : ℕ) × (parent net f v ≡ Some w)) }
    ensures no_more { (net : Net) → IsNetwork net → (f v w : ℕ) → IsVertex net v →
        parent net f v ≡ Some w → f < forest_count_of net }
    ensures few { (net : Net) → IsNetwork net → forest_count_of net ≤ greatest_degree_of net }
{}

/// A port is up in the forest in which it leads to the parent, and down in the one in which it leads
/// to a child.
pub fn roles_tell_the_edges()
    ensures up { (net : Net) → IsNetwork net → (f v w : ℕ) → IsEdge net v w →
        (role_of net v w ≡ Up f) ↔ (parent net f v ≡ Some w) }
    ensures down { (net : Net) → IsNetwork net → (f v w : ℕ) → IsEdge net v w →
        (role_of net v w ≡ Down f) ↔ (parent net f w ≡ Some v) }
{}

/// The triples are the edges from a child to its parent, each once, by forest and then by child.
pub fn triples_are_the_edges()
    ensures edges { (net : Net) → IsNetwork net → (f v w : ℕ) →
        Contains (triples net) (f, v, w) ↔ (IsVertex net v × (parent net f v ≡ Some w)) }
    ensures ascending { (net : Net) → AllPairs IsBefore (triples net) }
{}

/// What `number_up` makes of the identifiers of a vertex and its neighbours are the roles of its
/// ports up.
pub fn numbering_gives_the_roles_up()
    ensures numbered { (net : Net) → IsNetwork net → (v w : ℕ) → IsEdge net v w →
        role_by (id_of net v) (map (id_of net) (neighbours net v)) (id_of net w)
        ≡ (if nat_lt (id_of net v) (id_of net w) then role_of net v w else Unknown) }
{}
