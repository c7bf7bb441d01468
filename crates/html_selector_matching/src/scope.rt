//! What `:scope` is in a search.
ghost use Rattle.std.specs.Prelude.{◌≡◌, find, unwrap_or};
ghost use Rattle.markup.specs.Forest.{children_of};
ghost use Rattle.html_selector_matching.specs.Around as around;
ghost use Rattle.html_selector_matching.specs.Selects.{scope_of};

use crate::around::is_element;
use html_forest::{Forest, NodeId};

// The first element right in a node, or else the node.
fn first_element(forest: &Forest, top: NodeId) -> NodeId
    ensures { result ≡ unwrap_or (find (around.is_element forest.now) (children_of forest.now top)) top }
{
    for child in forest.children(top) {
        if is_element(forest, child) {
            return child;
        }
    }
    top
}

/// What `:scope` is in a search below a node: the node, or where it is no element the first element right in it (section 8.3).
pub fn scope_of(forest: &Forest, top: NodeId) -> NodeId
    ensures { result ≡ scope_of forest.now top }
{
    if is_element(forest, top) {
        top
    } else {
        first_element(forest, top)
    }
}
