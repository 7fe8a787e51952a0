//! What holds of distances in every network. Each law is the contract of a function that does nothing.

ghost use Rattle.std.specs.Prelude.{ℕ, ◌<◌};
ghost use Rattle.interference.specs.Net.{Net, IsNetwork, IsVertex, count_of};
ghost use Rattle.distances.specs.Distance.{AreClasses, IsDistance, IsReached};

/// The components of a network are classes: each vertex is in one, and a vertex that is reached from another has the
/// component of that one.
pub fn components_are_classes()
    ensures classes { (net : Net) → IsNetwork net → AreClasses net }
{}

/// A vertex that is reached has a distance, which is less than the number of nodes: a shortest way passes no vertex
/// twice.
pub fn reached_vertices_have_distances()
    ensures distance { (net : Net) → IsNetwork net → (v w : ℕ) → IsVertex net v → IsReached net v w
        → (d : ℕ) × IsDistance net v w d × (d < count_of net) }
{}
