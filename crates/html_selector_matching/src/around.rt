//! The nodes beside a node.
ghost use Rattle.std.specs.Prelude.{◌≡◌};
ghost use Rattle.html_selector_matching.specs.Around as around;

use html_forest::{Forest, NodeId};
use html_nodes::element_name;

/// Whether a node is an element.
pub fn is_element(forest: &Forest, id: NodeId) -> bool
    ensures { result ≡ around.is_element forest.now id }
{
    element_name(forest, id).is_some()
}

/// The element just before a node under the same parent.
pub fn element_before(forest: &Forest, id: NodeId) -> Option<NodeId>
    ensures { result ≡ around.element_before forest.now id }
{
    forest.keeps();
    let mut at = id;
    while let Some(previous) = forest.previous_sibling(at) {
        if is_element(forest, previous) {
            return Some(previous);
        }
        at = previous;
    }
    None
}

/// The element just after a node under the same parent.
pub fn element_after(forest: &Forest, id: NodeId) -> Option<NodeId>
    ensures { result ≡ around.element_after forest.now id }
{
    forest.keeps();
    let mut at = id;
    while let Some(next) = forest.next_sibling(at) {
        if is_element(forest, next) {
            return Some(next);
        }
        at = next;
    }
    None
}
