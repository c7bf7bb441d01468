//! Whether a node may be put where a tree says, tested at run time.
ghost use Rattle.std.specs.Prelude.{◌≡◌, IsTrue, true, false};
ghost use Rattle.markup.specs.Forest.{Above, IsLoose, IsNode, IsParent, above_of, data_of, holds_children, is_contents};
ghost use Rattle.html_forest.specs.Views.{data_view};

use html_forest::{Forest, NodeData, NodeId};

fn holds_children(about: &NodeData<'_>) -> bool
    ensures { result ≡ holds_children (data_view about.now) }
{
    matches!(
        about,
        NodeData::Document | NodeData::Contents | NodeData::Element { .. }
    )
}

pub fn is_node(forest: &Forest, id: NodeId) -> bool
    ensures { IsTrue result → IsNode forest.now id }
{
    forest.node(id).is_some()
}

pub fn is_parent(forest: &Forest, id: NodeId) -> bool
    ensures { IsTrue result → IsParent forest.now id }
{
    match forest.node(id) {
        Some(about) => holds_children(&about),
        None => false,
    }
}

fn is_contents(about: &NodeData<'_>) -> bool
    ensures { result ≡ is_contents (data_view about.now) }
{
    matches!(about, NodeData::Contents)
}

fn is_contents_node(forest: &Forest, id: NodeId) -> bool
    ensures { result ≡ is_contents (data_of forest.now id) }
{
    match forest.node(id) {
        Some(about) => is_contents(&about),
        None => false,
    }
}

/// What a node stands under: its parent, and for the contents of a template the template.
fn above(forest: &Forest, id: NodeId) -> Option<NodeId>
    ensures { result ≡ above_of forest.now id }
{
    if is_contents_node(forest, id) {
        Some(NodeId::new(id.number().saturating_sub(1)))
    } else {
        forest.parent(id)
    }
}

/// Whether `a` is `node`, or may stand above it.
pub fn may_be_above(forest: &Forest, a: NodeId, node: NodeId) -> bool
    ensures { result ≡ false → Above forest.now a node → ⊥ }
{
    let mut at = node;
    for _i in 0..1000 {
        if at == a {
            return true;
        }
        match above(forest, at) {
            Some(up) => at = up,
            None => return false,
        }
    }
    true
}

pub fn is_loose(forest: &Forest, parent: NodeId, child: NodeId) -> bool
    ensures { IsTrue result → IsLoose forest.now parent child }
{
    is_node(forest, child) && above(forest, child).is_none() && !may_be_above(forest, child, parent)
}
