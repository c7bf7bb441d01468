//! Which nodes a walk enters.
ghost use Rattle.html_walks.specs.Laws.{AreNodesEntered};

/// A node, and those below it as `html_nodes` lists them.
pub fn nodes_are_entered()
    ensures { AreNodesEntered }
{}
