//! What holds of the layers on every network. Each law is the contract of a function that does nothing.

ghost use Rattle.std.specs.Prelude.{ℕ};
ghost use Rattle.interference.specs.Net.{Net, IsNetwork, IsVertex};
ghost use Rattle.node_api.specs.Run.{last_state};
ghost use Rattle.layers.specs.Layering.{layering};
ghost use Rattle.layers.specs.Distances.{IsLayer, IsLayerFrom, IsRoot, LeadToTheRoot};

/// In the last state of the synchronous run each node knows its distance from the root, and the port that leads one
/// link closer; it is unreached exactly if no way leads to the root.
pub fn rounds_end_with_the_distances()
    ensures layers { (net : Net) → IsNetwork net → (v : ℕ) → IsVertex net v
        → IsLayer net v (last_state layering net v).layer }
{}

/// The same with the root given: the number is the distance from the vertex that has the identifier of the root, and
/// the port leads one link closer to this vertex.
pub fn rounds_end_with_the_distances_from_a_root()
    ensures layers { (net : Net) → IsNetwork net → (root : ℕ) → IsRoot net root → (v : ℕ) → IsVertex net v
        → IsLayerFrom net root v (last_state layering net v).layer }
{}

/// From every node that is reached, as many ports as its layer says lead to the root: they are a tree.
pub fn ports_lead_to_the_root()
    ensures tree { (net : Net) → IsNetwork net → LeadToTheRoot net (λ v. (last_state layering net v).layer) }
{}
