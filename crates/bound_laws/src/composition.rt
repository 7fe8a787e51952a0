//! The composition of two programs. Each law is a function that does nothing: its contract is the law.

ghost use Rattle.node_api.specs.Program.{Program};
ghost use Rattle.node_api.specs.declared.program.Refused.{Refused};
ghost use Rattle.followed.specs.Followed.{Sequel};
ghost use Rattle.bound_laws.specs.Composition.{AreComposed};
ghost use Rattle.bound_laws.specs.Outcomes.{OutcomesSimulateBoth};
ghost use Rattle.bound_laws.specs.Simulated.{FollowedSimulateBoth};

use followed::rules::TOO_EARLY;

// The number that the pages name.
const _: () = prove!(TOO_EARLY == 100);

/// On every network the run of a program that is followed is the first program's up to the cut, and then the run of the
/// sequel from the states of the first program at the cut.
pub fn runs_are_composed<S, X, A, B>()
    ensures law { (first : Program S A Refused) (sequel : Sequel S X A B) → AreComposed first sequel }
{}

/// Nodes that simulate a program that is followed simulate both, one after the other: up to the cut each is in a state
/// of the first program's run, and each pulse had that program's inbox of the round; after it, the sequel's.
pub fn nodes_simulate_both<S, X, A, B>()
    ensures law { (first : Program S A Refused) (sequel : Sequel S X A B) → FollowedSimulateBoth first sequel }
{}

/// So do the nodes of every outcome of a run of workers, whatever the threads did.
pub fn outcomes_simulate_both<S, X, A, B>()
    ensures law { (first : Program S A Refused) (sequel : Sequel S X A B) → OutcomesSimulateBoth first sequel }
{}
