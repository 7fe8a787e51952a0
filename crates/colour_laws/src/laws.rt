//! What the rounds of the colouring make of a whole network, and what the colours are.
ghost use Rattle.std.specs.Prelude.{◌≡◌, ◌≢◌, ◌<◌, ◌≤◌, ◌↔◌, ◌*◌, ◌+◌, ◌%◌, ℕ, List, Option, None, Some};
ghost use Rattle.std.specs.Prelude.{IsTrue, false, length, map, nat_lt, slice_index};
ghost use Rattle.std.specs.List.{range_with_len};
ghost use Rattle.interference.specs.Net.{IsBarred, IsEdge, IsNetwork, IsVertex, Net, id_of, span_of};
ghost use Rattle.node_api.specs.Laws.{IsProgram};
ghost use Rattle.node_api.specs.Program.{Sizes, last_pulse_on, span};
ghost use Rattle.node_api.specs.Run.{state_at};
ghost use Rattle.colour_rules.specs.Program.{colouring};
ghost use Rattle.colour_rules.specs.declared.payload.Payload.{Payload};
ghost use Rattle.colour_rules.specs.declared.phase.Phase.{Phase};
ghost use Rattle.colour_rules.specs.declared.phase.Phase.TheVariants.{Greet, Halted, Merge, Orient, Seed, Work};
ghost use Rattle.colour_rules.specs.declared.phase.Reduction.{Reduction};
ghost use Rattle.colour_rules.specs.declared.phase.Reduction.TheVariants.{Drop, Shift, Step};
ghost use Rattle.colour_rules.specs.declared.phase.TheConstants.{FIRST_MERGE};
ghost use Rattle.colour_rules.specs.Choice.{chooses};
ghost use Rattle.colour_rules.specs.Node.{Node, phase_of, ports, steps};
ghost use Rattle.colour_rules.specs.Refusals.{own_rule, refusal};
ghost use Rattle.colour_rules.specs.Table.{is_above};
ghost use Rattle.cole_vishkin.specs.BitStep.{six};
ghost use Rattle.colour_base.specs.Forest.{IsProper, IsWithin};
ghost use Rattle.forests.specs.Forests.{number, parent};
ghost use Rattle.colour_laws.specs.Colours.{colours, merging, three};
ghost use Rattle.colour_laws.specs.FirstRefusal.{BreakNone, IsLeastBreaking, by_node, by_port};
ghost use Rattle.colour_laws.specs.Rows.{AreRows, after_halt, due, first_phases, wrong_kind, wrong_role};
ghost use Rattle.forest_merge.specs.Merge.{merge};
ghost use Rattle.forest_merge.specs.Step.{step_of};
ghost use Rattle.colour_laws.specs.declared.laws.TheConstants.{MAX_LAST_PULSE};

use colour_rules::FIRST_MERGE;
use graph_limits::MAX_BARS;
use interference::MAX_DEGREE;

/// The last pulse in a network of the greatest degree, the most bars and the most forests that a network may have.
pub const MAX_LAST_PULSE: u32 = FIRST_MERGE - 1 + MAX_DEGREE * 3 * (MAX_DEGREE + MAX_BARS + 1);

const _: () = prove!(MAX_LAST_PULSE == 6_285_324);

/// In each forest of a network the six colours and the three colours of the nodes are proper, 0 to 5
/// and 0 to 2.
pub fn forest_colours_are_proper()
    ensures six { (net : Net) → IsNetwork net → (f : ℕ) → let colours = six (parent net f) (id_of net) in
        IsProper (parent net f) colours × IsWithin 5 colours }
    ensures three { (net : Net) → IsNetwork net → (f : ℕ) → let colours = three (parent net f) (id_of net) in
        IsProper (parent net f) colours × IsWithin 2 colours }
{}

/// If old colours differ on the edges of the forests before forest f, its merge with them differs on
/// those up to f, is 0 to the span, and gives no vertex a colour that is barred at it.
pub fn merge_keeps_forests_proper()
    ensures proper { (net : Net) → IsNetwork net → (f : ℕ) (old : ℕ → ℕ) →
        ((v w : ℕ) → IsEdge net v w → number net v w < f → old v ≢ old w) →
        (v w : ℕ) → IsEdge net v w → number net v w ≤ f → merge (merging net f old) v ≢ merge (merging net f old) w }
    ensures within { (net : Net) → IsNetwork net → (f : ℕ) (old : ℕ → ℕ) (v : ℕ) →
        merge (merging net f old) v ≤ span_of net }
    ensures unbarred { (net : Net) → IsNetwork net → (f : ℕ) (old : ℕ → ℕ) (v : ℕ) →
        IsBarred net v (merge (merging net f old) v) → ⊥ }
{}

/// The colours of a network differ on its edges, are 0 to the span, and none is barred at its vertex.
pub fn colours_are_proper()
    ensures proper { (net : Net) → IsNetwork net → (v w : ℕ) → IsEdge net v w → colours net v ≢ colours net w }
    ensures within { (net : Net) → IsNetwork net → (v : ℕ) → colours net v ≤ span_of net }
    ensures unbarred { (net : Net) → IsNetwork net → (v : ℕ) → IsBarred net v (colours net v) → ⊥ }
{}

/// The rounds are a node program: in the synchronous run of every network nothing is refused, and
/// nothing is sent at the last pulse.
pub fn rounds_are_a_program()
    ensures { IsProgram colouring }
{}

/// In no network is the last pulse greater.
pub fn last_pulse_is_limited()
    ensures { (net : Net) → IsNetwork net → last_pulse_on colouring net ≤ MAX_LAST_PULSE }
{}

/// At the last pulse of the synchronous run each node has its colour.
pub fn rounds_end_with_the_colours()
    ensures { (net : Net) → IsNetwork net → (v : ℕ) → IsVertex net v →
        (state_at colouring net (last_pulse_on colouring net) v).merged ≡ colours net v }
{}

/// A node refuses by a port exactly if that is the least port that breaks a rule, then by the rule of
/// that port; by itself, if no port breaks a rule and it breaks one; and else nothing.
pub fn first_refusal_is_of_the_least_port()
    ensures port { (node : Node) (phase : Phase) (slots : List (Option Payload)) (port rule : ℕ) →
        length slots ≡ ports node →
        refusal node phase slots ≡ by_port port rule ↔ IsLeastBreaking node phase slots port rule }
    ensures own { (node : Node) (phase : Phase) (slots : List (Option Payload)) (rule : ℕ) → length slots ≡ ports node →
        refusal node phase slots ≡ by_node rule
        ↔ (BreakNone node phase slots (ports node) × (own_rule node phase slots ≡ Some rule)) }
    ensures none { (node : Node) (phase : Phase) (slots : List (Option Payload)) → length slots ≡ ports node →
        refusal node phase slots ≡ None
        ↔ (BreakNone node phase slots (ports node) × (own_rule node phase slots ≡ None)) }
{}

/// The pulses from `FIRST_MERGE` on are the steps of the merging, in their order, and a node chooses
/// at the step of the pair of its three-colour and its old colour.
pub fn merging_takes_the_steps_in_order()
    ensures phase { (sizes : Sizes) (t : ℕ) → t < sizes.forests * steps sizes →
        phase_of sizes (FIRST_MERGE + t) ≡ Merge (step_of t (span sizes)).0 (t % steps sizes) }
    ensures turn { (node : Node) (t : ℕ) → let step = step_of t (span node.sizes) in
        IsTrue (chooses node step.0 (t % steps node.sizes))
        ↔ ((slice_index node.colours step.0 ≡ step.1) × (node.colour_before ≡ step.2)) }
{}

/// The table of what may come, for a payload of each kind and a port that is unknown, leads to a parent
/// or leads to a child.
pub fn table_has_these_rows()
    ensures greet { AreRows Greet wrong_kind wrong_kind wrong_kind wrong_kind }
    ensures orient { AreRows Orient (due, wrong_role, wrong_role) wrong_kind wrong_kind wrong_kind }
    ensures seed { AreRows Seed wrong_kind (due, wrong_role, wrong_role) wrong_kind wrong_kind }
    ensures work { (r : Reduction) →
        AreRows (Work r) wrong_kind wrong_kind (wrong_role, due, wrong_role) wrong_kind }
    ensures merge { (f s : ℕ) → AreRows (Merge f s) wrong_kind wrong_kind wrong_kind (wrong_role, due, due) }
    ensures halted { AreRows Halted after_halt after_halt after_halt after_halt }
{}

/// The phases of the pulses before the merging, and the greatest colour that each part of the work on
/// colours lets pass.
pub fn work_has_these_phases_and_bounds()
    ensures phases { (sizes : Sizes) → map (phase_of sizes) (range_with_len 0 FIRST_MERGE) ≡ first_phases }
    ensures first_step { (c : ℕ) → is_above (Step 0) c ≡ false }
    ensures second_step { (c : ℕ) → is_above (Step 1) c ≡ nat_lt 255 c }
    ensures third_step { (c : ℕ) → is_above (Step 2) c ≡ nat_lt 15 c }
    ensures fourth_step { (c : ℕ) → is_above (Step 3) c ≡ nat_lt 7 c }
    ensures shift { (x c : ℕ) → is_above (Shift x) c ≡ nat_lt x c }
    ensures drop { (x c : ℕ) → is_above (Drop x) c ≡ nat_lt x c }
{}
