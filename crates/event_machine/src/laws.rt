//! What holds of every list of events. Each law is a function that does nothing: its contract is the law.

ghost use Rattle.node_api.specs.Program.{Program};
ghost use Rattle.alpha_laws.specs.Laws.{OnEveryNetwork};
ghost use Rattle.event_rule.specs.Laws.{RunsAreExact, RunsSimulate, StepsAreExact};

/// Whatever events come, in the state that they reach the nodes simulate the synchronous run: see
/// `Simulates` of `alpha_laws`, whose fields are the words of this claim.
pub fn every_run_simulates<S, M, E>()
    ensures law { (program : Program S M E) → OnEveryNetwork program (RunsSimulate program) }
{}

/// A list of events is accepted exactly if it is a run, with the state that it leads to. Else it is refused
/// exactly with the index of its first event that isn't possible, and why: see `RunsExactly`.
pub fn runs_are_exact<S, M, E>()
    ensures law { (program : Program S M E) → OnEveryNetwork program (RunsAreExact program) }
{}

/// In every state that is reached, and so of every `NetState` (`is_simulation`: `reached`), an event is made
/// exactly if it is possible, and leads where it does; else it is refused exactly for the reason why it isn't
/// possible: see `StepsExactly`.
pub fn steps_are_exact<S, M, E>()
    ensures law { (program : Program S M E) → OnEveryNetwork program (StepsAreExact program) }
{}
