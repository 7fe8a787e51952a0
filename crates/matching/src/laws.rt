//! What holds of the last states on every network. The law is the contract of a function that does nothing.

ghost use Rattle.std.specs.Prelude.{◌≡◌, ◌+◌, ◌<◌, ℕ, List, None, Option, Some, ◌∷◌};
ghost use Rattle.interference.specs.Net.{IsEdge, IsNetwork, IsVertex, Net, degree_of, neighbour_of, port_to};
ghost use Rattle.node_api.specs.First.{first_from};
ghost use Rattle.node_api.specs.Run.{last_state};
ghost use Rattle.followed.specs.declared.said.Said.TheVariants.{First, Then};
ghost use Rattle.colour_rules.specs.declared.payload.Payload.{Payload};
ghost use Rattle.matching.specs.Knowing.{Wire, matching};
ghost use Rattle.matching.specs.declared.proposal.Proposal.TheVariants.{Free, Take};

/// In the last state of the synchronous run each partner is a neighbour whose partner the node is, and of two
/// neighbours one has a partner.
pub fn rounds_end_with_a_maximal_matching()
    ensures partners { (net : Net) → IsNetwork net → (v port : ℕ) → IsVertex net v
        → (last_state matching net v).beside ≡ Some port
        → (port < degree_of net v) × (let w = neighbour_of net v port in
        (last_state matching net w).beside ≡ Some (port_to net w v)) }
    ensures maximal { (net : Net) → IsNetwork net → (v w : ℕ) → IsEdge net v w
        → (last_state matching net v).beside ≡ None → (last_state matching net w).beside ≡ None → ⊥ }
{}

/// What a node makes of what comes at a port, at either pulse of a turn: each payload, of whatever kind, is the first
/// that came if none came at a lower port, and none is refused. So at the second pulse a `take` or a payload of the
/// colouring counts as a `free`, and at the first as a `take`.
pub fn table_has_these_rows()
    ensures nothing { (port : ℕ) (slots : List (Option Wire))
        → first_from port (None ∷ slots) ≡ first_from (port + 1) slots }
    ensures colouring { (port : ℕ) (x : Payload) (slots : List (Option Wire))
        → first_from port (Some (First x) ∷ slots) ≡ Some port }
    ensures free { (port f : ℕ) (slots : List (Option Wire))
        → first_from port (Some (Then (Free f)) ∷ slots) ≡ Some port }
    ensures take { (port f : ℕ) (slots : List (Option Wire))
        → first_from port (Some (Then (Take f)) ∷ slots) ≡ Some port }
{}
