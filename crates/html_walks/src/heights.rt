//! How deep the nodes of a tree are.
ghost use Rattle.std.specs.Prelude.{◌≡◌};
ghost use Rattle.html_walks.specs.Height.{height};

use crate::steps::{Step, walk};
use html_forest::{Forest, NodeId};

/// How many levels of nodes there are below a node: 0 if it has no children. A function that calls itself for the children of a node nests
/// one call more than this; pages can be made with as many levels as they have tags, so such a function refuses trees that are too high.
/// Time grows with the number of nodes; it takes no memory. The contents of a template are not below the template, as in [`walk`].
pub fn height(forest: &Forest, id: NodeId) -> usize
    ensures { result ≡ height forest.now id }
{
    forest.keeps();
    let mut level = 0usize;
    let mut most = 0usize;
    for step in walk(forest, id) {
        match step {
            Step::Enter(_) => {
                most = most.max(level);
                level += 1;
            }
            Step::Leave(_) => level = level.saturating_sub(1),
        }
    }
    most
}
