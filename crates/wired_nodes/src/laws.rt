//! Where a node stood at each of its events. The law is a function that does nothing: its contract is the law.

ghost use Rattle.node_api.specs.Program.{Program};
ghost use Rattle.alpha_laws.specs.Laws.{OnEveryNetwork};
ghost use Rattle.wired_nodes.specs.Prefixes.{PrefixesStand};

/// If a node stands, and entries lead from its start to what it is, each prefix of these entries leads to a node that
/// stands, with the lists that the prefix put and took. The entries may be the node's own, or others that lead there.
pub fn prefixes_stand<S, M, E>()
    ensures law { (program : Program S M E) → OnEveryNetwork program (PrefixesStand program) }
{}
