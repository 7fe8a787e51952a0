//! Laws of numbers. Each is a function that does nothing, or only calls other laws: its contract is the law.

ghost use Rattle.std.specs.Prelude.{◌≡◌, ◌<◌, ◌≤◌, ◌+◌, ◌-◌, ◌*◌, ◌^◌, Option, suc, ℕ};
ghost use Rattle.interference.specs.Net.{IsEdge, IsNetwork, Net, count_of, forest_count_of, greatest_bars_of};
ghost use Rattle.forests.specs.Forests.{number};
ghost use Rattle.interference.specs.Net.{greatest_degree_of};
ghost use Rattle.node_api.specs.Program.{Program, last_pulse_on, sizes_of};
ghost use Rattle.colour_base.specs.Forest.{IsProper, IsWithin};
ghost use Rattle.cole_vishkin.specs.BitStep.{bit_steps};
ghost use Rattle.cole_vishkin.specs.Digits.{HasDigits};
ghost use Rattle.cole_vishkin.specs.declared.step.TheConstants.{IDENTIFIER_DIGITS};
ghost use Rattle.colour_rules.specs.Program.{colouring};
ghost use Rattle.matching.specs.Knowing.{matching};
ghost use Rattle.independent_set.specs.Knowing.{independent_set};
ghost use Rattle.recolouring.specs.Knowing.{recolouring, sweeps};
ghost use Rattle.leader.specs.Election.{election};
ghost use Rattle.layers.specs.Layering.{layering};
ghost use Rattle.bound_laws.specs.Apart.{OutcomesAreApart, SimulatingAreApart};
ghost use Rattle.bound_laws.specs.FewSteps.{log_star, steps_for, tower};
ghost use Rattle.bound_laws.specs.Wires.{SendsAtMost, WholeOutcomesPutFew, payloads_over};

use cole_vishkin::IDENTIFIER_DIGITS;
use colour_rules::FIRST_MERGE;
use independent_set::laws::rounds_end_with_a_maximal_independent_set;
use interference::laws::forest_count_is_the_greatest;

// The numbers that the pages name.
const _: () = prove!(FIRST_MERGE == 13 && IDENTIFIER_DIGITS == 128);

/// The iterated logarithm: a tower of log* n twos is at least n, and no tower of fewer is; and it counts one for each
/// power of two.
pub fn log_star_is_the_iterated_logarithm()
    ensures reached { (n : ℕ) → n ≤ tower (log_star n) }
    ensures least { (n k : ℕ) → n ≤ tower k → log_star n ≤ k }
    ensures power { (b : ℕ) → 0 < b → log_star (2 ^ b) ≡ suc (log_star b) }
{}

/// From n colours, log* n bit steps leave the six colours 0 to 5, and so does any greater number of steps. From colours
/// of b binary digits `steps_for` b are enough: at most log* b + 1, and four for the digits of an identifier.
pub fn iterated_steps_leave_six()
    ensures colours { (n k : ℕ) (parents : ℕ → Option ℕ) (c : ℕ → ℕ) → IsProper parents c → ((v : ℕ) → c v < n) →
        log_star n ≤ k → IsWithin 5 (bit_steps k parents c) }
    ensures digits { (b k : ℕ) (parents : ℕ → Option ℕ) (c : ℕ → ℕ) → IsProper parents c → HasDigits b c →
        steps_for b ≤ k → IsWithin 5 (bit_steps k parents c) }
    ensures few { (b : ℕ) → steps_for b ≤ log_star b + 1 }
    ensures four { steps_for IDENTIFIER_DIGITS ≡ 4 }
{}

/// The colouring takes at most 12 + 3·Δ·(Δ + B + 1) pulses, and sends at most 13 + 2·U payloads over an edge: two
/// greetings, a label, ten colours, and a choice of each end in each forest from that of the edge on; so over an edge
/// of forest f at most 13 + 2·(U - f).
pub fn colouring_is_bounded()
    ensures pulses { (net : Net) → IsNetwork net → last_pulse_on colouring net
        ≤ 12 + 3 * greatest_degree_of net * (greatest_degree_of net + greatest_bars_of net + 1) }
    ensures payloads { (net : Net) → IsNetwork net → SendsAtMost colouring net (13 + 2 * forest_count_of net) }
    ensures by_forest { (net : Net) → IsNetwork net → (v w : ℕ) → IsEdge net v w
        → payloads_over colouring net v w + payloads_over colouring net w v
        ≤ 13 + 2 * (forest_count_of net - number net v w) }
{
    forest_count_is_the_greatest();
}

/// The matching takes at most 13 + 6·Δ pulses, and sends at most 17 payloads over an edge: the 13 that the colouring
/// sends before it merges, three of a child that is free, and one of a parent that takes it.
pub fn matching_is_bounded()
    ensures pulses { (net : Net) → IsNetwork net → last_pulse_on matching net ≤ 13 + 6 * greatest_degree_of net }
    ensures payloads { (net : Net) → IsNetwork net → SendsAtMost matching net 17 }
{
    forest_count_is_the_greatest();
}

/// The independent set takes at most 12 + (3·Δ + 1)·(Δ + B + 1) pulses, and sends at most 14 + 2·U payloads over an
/// edge: those of the colouring, and one of the end that joins, if one does.
pub fn independent_set_is_bounded()
    ensures pulses { (net : Net) → IsNetwork net → last_pulse_on independent_set net
        ≤ 12 + (3 * greatest_degree_of net + 1) * (greatest_degree_of net + greatest_bars_of net + 1) }
    ensures payloads { (net : Net) → IsNetwork net → SendsAtMost independent_set net (14 + 2 * forest_count_of net) }
{
    forest_count_is_the_greatest();
    rounds_end_with_a_maximal_independent_set();
}

/// With a pass and as many again as the network says, the recolouring takes at most 12 + (3·Δ + s)·(Δ + B + 1) pulses,
/// and sends at most 13 + 2·U + 2·s payloads over an edge: those of the colouring, and one of each end in each of the s
/// sweeps, which are again + 1, and twice as many if a node has bars.
pub fn recolouring_is_bounded()
    ensures pulses { (net : Net) → IsNetwork net → last_pulse_on recolouring net
        ≤ 12 + (3 * greatest_degree_of net + (net.again + 1) * sweeps (sizes_of net))
        * (greatest_degree_of net + greatest_bars_of net + 1) }
    ensures payloads { (net : Net) → IsNetwork net → SendsAtMost recolouring net
        (13 + 2 * forest_count_of net + 2 * ((net.again + 1) * sweeps (sizes_of net))) }
{
    forest_count_is_the_greatest();
}

/// The election takes n pulses, and sends at most 2·n payloads over an edge: one of each end in each pulse.
pub fn election_is_bounded()
    ensures pulses { (net : Net) → IsNetwork net → last_pulse_on election net ≤ count_of net }
    ensures payloads { (net : Net) → IsNetwork net → SendsAtMost election net (2 * count_of net) }
{}

/// The layers take n - 1 pulses, and send at most 2 payloads over an edge: each node sends at one pulse.
pub fn layering_is_bounded()
    ensures pulses { (net : Net) → IsNetwork net → last_pulse_on layering net ≤ count_of net - 1 }
    ensures payloads { (net : Net) → IsNetwork net → SendsAtMost layering net 2 }
{}

/// If a program sends at most so many payloads over each edge, every whole outcome of workers has put at most
/// 2·(as many + R + 1) wires for each edge, over all edges together, whatever the threads did.
pub fn whole_outcomes_put_few_wires<S, M, E>()
    ensures law { (program : Program S M E) (net : Net) → IsNetwork net → WholeOutcomesPutFew program net }
{}

/// Nodes within d links of one another are at most d pulses apart, whatever the order of events was; and so are those
/// of every outcome of workers.
pub fn nodes_are_at_most_their_links_apart<S, M, E>()
    ensures nodes { (program : Program S M E) (net : Net) → IsNetwork net → SimulatingAreApart program net }
    ensures outcomes { (program : Program S M E) (net : Net) → IsNetwork net → OutcomesAreApart program net }
{}
