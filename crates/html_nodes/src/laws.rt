//! What a walk of the nodes below a node lists.
ghost use Rattle.html_nodes.specs.Laws.{AreThoseBelowListed};

/// Just those below the node, each once, and each before those below it.
pub fn those_below_are_listed()
    ensures { AreThoseBelowListed }
{}
