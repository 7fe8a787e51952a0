//! What holds of nodes of the two programs. Each law is a function that does nothing: its contract is the law.

ghost use Rattle.std.specs.Prelude.{◌≡◌, IsOk, length, ℕ};
ghost use Rattle.interference.specs.Net.{IsNetwork, Net};
ghost use Rattle.alpha_laws.specs.Counts.{events_of_run};
ghost use Rattle.alpha_laws.specs.Laws.{OnEveryNetwork};
ghost use Rattle.node_api.specs.Program.{Program};
ghost use Rattle.sync_rounds.specs.Spread.{spread};
ghost use Rattle.colour_rules.specs.Program.{colouring};
ghost use Rattle.event_rule.specs.Laws.{RunsAreExact, RunsSimulate};
ghost use Rattle.event_rule.specs.Step.{run};
ghost use Rattle.plan_runs.specs.Coloured.{HaltedAreColoured, HaltedOutcomesAreColoured, HaltedRunsAreColoured};
ghost use Rattle.plan_runs.specs.Coloured.{MaximalRunsAreColoured};
ghost use Rattle.plan_runs.specs.Ran.{OutcomesAreRuns, WholeOutcomesAreEnds};
ghost use Rattle.plan_runs.specs.Stamped.{ShortRunsFit, StampsAreBounded, StampsFit};
ghost use Rattle.plan_runs.specs.Small.{EndsWhole, EndsWithTheGreatest, edge, small_run};

use colour_laws::laws::last_pulse_is_limited;

/// If all nodes of the colouring have halted, each has its colour of the definition; so neighbours differ,
/// each colour is 0 to the span, and none is barred at its node. The first clause holds of whatever ran the nodes,
/// the second of lists of events, the third of runs of workers.
pub fn halted_nodes_are_coloured()
    ensures nodes { (net : Net) → IsNetwork net → HaltedAreColoured net }
    ensures runs { (net : Net) → IsNetwork net → HaltedRunsAreColoured net }
    ensures outcomes { (net : Net) → IsNetwork net → HaltedOutcomesAreColoured net }
{}

/// A list of events of the colouring after which no event is possible has coloured all nodes. Every list of events can
/// be continued to one of these, since no list of events deadlocks (`event_rule`).
pub fn maximal_runs_are_coloured()
    ensures law { (net : Net) → IsNetwork net → MaximalRunsAreColoured net }
{}

/// The simulation at the colouring.
pub fn runs_of_the_colouring()
    ensures simulate { (net : Net) → IsNetwork net → RunsSimulate colouring net }
    ensures exact { (net : Net) → IsNetwork net → RunsAreExact colouring net }
{}

/// The simulation at the program that spreads the greatest identifier, with any last pulse.
pub fn runs_of_the_greatest()
    ensures simulate { (last : ℕ) (net : Net) → IsNetwork net → RunsSimulate (spread last) net }
    ensures exact { (last : ℕ) (net : Net) → IsNetwork net → RunsAreExact (spread last) net }
{}

/// No stamp of a stamped replay, so none that the nodes of an outcome have given, passes the number of events that a
/// whole run of the program on this network has.
pub fn stamps_are_bounded<S, M, E>()
    ensures law { (program : Program S M E) → OnEveryNetwork program (StampsAreBounded program) }
{}

/// On every network within the limits, no stamp of a stamped replay of a program comes to 2^64, if its last pulse has
/// 32 binary digits; that of every program has, by its type.
pub fn stamps_fit<S, M, E>()
    ensures law { (program : Program S M E) → OnEveryNetwork program (ShortRunsFit program) }
{}

/// On every network within the limits, no stamp of a stamped replay of the colouring comes to 2^64.
pub fn stamps_of_the_colouring_fit()
    ensures law { (net : Net) → IsNetwork net → StampsFit colouring net }
{
    last_pulse_is_limited();
}

/// A small run meets all premises, and halts: the two nodes of an edge end with the greater identifier. It has 18
/// events, which is as many as any run of this program there can have, and its state is whole.
pub fn a_small_run_halts()
    ensures network { IsNetwork edge }
    ensures accepted { IsOk (run (spread 1) edge small_run) }
    ensures ends { EndsWithTheGreatest }
    ensures most { events_of_run (spread 1) edge ≡ 18 }
    ensures many { length small_run ≡ 18 }
    ensures whole { EndsWhole }
{}

/// Whatever the threads of a run of workers did, with a transcript or without, some list of events leads to the nodes
/// and links that they leave; over links of every capacity above 1.
pub fn outcomes_are_runs<S, M, E>()
    ensures law { (program : Program S M E) → OnEveryNetwork program (OutcomesAreRuns program) }
{}

/// If they leave all done, no event is possible after that list.
pub fn whole_outcomes_are_ends<S, M, E>()
    ensures law { (program : Program S M E) → OnEveryNetwork program (WholeOutcomesAreEnds program) }
{}
