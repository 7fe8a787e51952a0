//! What the rounds keep at every node, whatever comes to it.
ghost use Rattle.node_api.specs.Laws.{KeepsPorts};
ghost use Rattle.colour_rules.specs.Program.{colouring};

/// A node keeps its ports, and its outbox has a slot for each.
pub fn ports_are_kept()
    ensures { KeepsPorts colouring }
{}
