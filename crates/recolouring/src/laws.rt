//! What holds of the last states on every network. The law is the contract of a function that does nothing.

ghost use Rattle.std.specs.Prelude.{◌≡◌, ◌≢◌, ◌+◌, ◌%◌, ◌<◌, ◌≤◌, ℕ, [], Contains};
ghost use Rattle.std.specs.FinSet.{FinSet, insert};
ghost use Rattle.std.specs.Ordering.{nat_cmp};
ghost use Rattle.interference.specs.Net.{IsBarred, IsEdge, IsNetwork, IsVertex, Net, bars_of, bar_count_of, degree_of};
ghost use Rattle.interference.specs.Net.{neighbours};
ghost use Rattle.node_api.specs.Run.{last_state};
ghost use Rattle.colour_laws.specs.Colours.{colours};
ghost use Rattle.followed.specs.declared.said.Said.TheVariants.{First, Then};
ghost use Rattle.forest_merge.specs.declared.chosen.TheConstants.{COLOURS};
ghost use Rattle.colour_rules.specs.declared.payload.Payload.{Payload};
ghost use Rattle.recolouring.specs.Knowing.{and_anew, recolouring};
ghost use Rattle.recolouring.specs.declared.anew.Anew.{Anew};
ghost use Rattle.recolouring.specs.Texts.{plan_of_passes};

/// In the last state of the synchronous run, after a pass and as many again as the network says, the new colours
/// differ on every edge, none is barred at its node, and each is at most the degree and the bars of its node; each
/// lower colour is barred at the node or is a neighbour's. None is above the greatest one before the last pass
/// (`no_greater`), nor above the greatest one of the first plan (`never_more`), with bars, too. If nothing is barred,
/// and the last pass takes the classes from the greatest down, the sum of a node's colours before and after it is at
/// most the greatest before it.
pub fn rounds_end_with_a_plan_that_none_can_lower()
    ensures proper { (net : Net) → IsNetwork net → (v w : ℕ) → IsEdge net v w
        → (last_state recolouring net v).beside.colour ≢ (last_state recolouring net w).beside.colour }
    ensures unbarred { (net : Net) → IsNetwork net → (v : ℕ) → IsVertex net v
        → IsBarred net v (last_state recolouring net v).beside.colour → ⊥ }
    ensures within { (net : Net) → IsNetwork net → (v : ℕ) → IsVertex net v
        → (last_state recolouring net v).beside.colour ≤ degree_of net v + bar_count_of net v }
    ensures lowest { (net : Net) → IsNetwork net → (v colour : ℕ) → IsVertex net v
        → colour < (last_state recolouring net v).beside.colour → (IsBarred net v colour → ⊥)
        → (w : ℕ) × Contains (neighbours net v) w × ((last_state recolouring net w).beside.colour ≡ colour) }
    ensures no_more { (net : Net) → IsNetwork net → ((w : ℕ) → IsVertex net w → bars_of net w ≡ [])
        → net.again % 3 ≡ 0
        → (greatest : ℕ) → ((w : ℕ) → IsVertex net w → plan_of_passes net.again net w ≤ greatest)
        → (v : ℕ) → IsVertex net v
        → (last_state recolouring net v).beside.colour + plan_of_passes net.again net v ≤ greatest }
    ensures no_greater { (net : Net) → IsNetwork net
        → (greatest : ℕ) → ((w : ℕ) → IsVertex net w → plan_of_passes net.again net w ≤ greatest)
        → (v : ℕ) → IsVertex net v → (last_state recolouring net v).beside.colour ≤ greatest }
    ensures never_more { (net : Net) → IsNetwork net
        → (greatest : ℕ) → ((w : ℕ) → IsVertex net w → colours net w ≤ greatest)
        → (v : ℕ) → IsVertex net v → (last_state recolouring net v).beside.colour ≤ greatest }
{}

/// What a node makes of what comes at a port, for the colours that neighbours have chosen: a payload of the colouring
/// is passed over, and so is a colour that no set has room for; any other colour is chosen. None is refused.
pub fn table_has_these_rows()
    ensures colouring { (chosen : FinSet nat_cmp) (port : ℕ) (x : Payload) → and_anew chosen port (First x) ≡ chosen }
    ensures anew { (chosen : FinSet nat_cmp) (port : ℕ) (x : Anew) → x.0 < COLOURS
        → and_anew chosen port (Then x) ≡ insert chosen x.0 }
    ensures too_great { (chosen : FinSet nat_cmp) (port : ℕ) (x : Anew) → COLOURS ≤ x.0
        → and_anew chosen port (Then x) ≡ chosen }
{}
