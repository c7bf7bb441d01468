//! Which nodes of an image are children of which.
ghost use Rattle.std.specs.Prelude.{◌≡◌, ◌≢◌, ◌+◌, IsTrue, true};
ghost use Rattle.markup.specs.Forest.{IsParent, data_of, template_of};
ghost use Rattle.html_image_reader.specs.Placing.{IsEmpty, IsTop, MayPut};

use crate::parts::Parts;
use crate::read::ReadFault;
use html_forest::{Forest, NodeData, NodeId};
use markup::{NodeOrText, TreeSink};
use std::alloc::Global;

/// A word for no node.
const NO_NODE: usize = 4294967295;

/// The node that a word of a node's record names.
fn link(parts: Parts<'_>, node: NodeId, k: usize) -> Option<NodeId> {
    match parts.word(node.number(), k) {
        NO_NODE => None,
        number => Some(NodeId::new(number)),
    }
}

/// Whether others may stand in a node.
fn is_parent(forest: &Forest, id: NodeId) -> bool
    ensures { IsTrue result → IsParent forest.now id }
{
    match forest.node(id) {
        Some(NodeData::Document | NodeData::Contents | NodeData::Element { .. }) => true,
        _ => false,
    }
}

/// Whether a node stands under nothing.
fn is_top(forest: &Forest, id: NodeId) -> bool
    ensures { IsTrue result → IsTop forest.now id }
{
    match forest.node(id) {
        None | Some(NodeData::Contents) => false,
        Some(_) => forest.parent(id).is_none(),
    }
}

/// Whether nothing is in a node, nor in its contents if it is a template.
fn is_empty(forest: &Forest, id: NodeId) -> bool
    ensures { IsTrue result → IsEmpty forest.now id }
{
    if forest.first_child(id).is_some() {
        return false;
    }
    match forest.template_contents(id) {
        Some(contents) => forest.first_child(contents).is_none(),
        None => true,
    }
}

/// Whether a node is neither the one nor the contents of the other.
fn is_apart(forest: &Forest, parent: NodeId, child: NodeId) -> bool
    ensures other { IsTrue result → parent ≢ child }
    ensures contents { IsTrue result → template_of (data_of forest.now child) ≡ true → parent ≢ child + 1 }
{
    parent != child && forest.template_contents(child) != Some(parent)
}

/// Whether a node may be put into another one: an empty one, that stands under nothing, has no other node under it.
fn may_put(forest: &Forest, parent: NodeId, child: NodeId) -> bool
    ensures { IsTrue result → MayPut forest.now parent child }
{
    forest.keeps();
    is_parent(forest, parent)
        && (is_top(forest, child) && (is_empty(forest, child) && is_apart(forest, parent, child)))
}

/// Puts a node last among the children of another one.
fn put(forest: &mut Forest, parent: NodeId, child: NodeId) -> Result<(), ReadFault> {
    if !may_put(forest, parent, child) {
        return Err(ReadFault::NotAnImage);
    }
    forest.append(&parent, NodeOrText::AppendNode(child))?;
    Ok(())
}

/// A node waits for its children, and so do the contents of a template.
fn wait(forest: &Forest, waiting: &mut Vec<NodeId>, id: NodeId) -> Result<(), ReadFault> {
    waiting.push(id)?;
    if let Some(contents) = forest.template_contents(id) {
        waiting.push(contents)?;
    }
    Ok(())
}

/// Puts the children of a node into it. Each turn puts one, and none is put twice.
fn put_children(
    parts: Parts<'_>,
    forest: &mut Forest,
    waiting: &mut Vec<NodeId>,
    parent: NodeId,
) -> Result<(), ReadFault> {
    let mut next = link(parts, parent, 2);
    for _ in 0..parts.nodes.len() {
        let Some(child) = next else {
            break;
        };
        put(forest, parent, child)?;
        wait(forest, waiting, child)?;
        next = link(parts, child, 5);
    }
    Ok(())
}

/// The nodes that have no parent, with the contents of templates among them.
fn tops(alloc: Global, parts: Parts<'_>, forest: &Forest) -> Result<Vec<NodeId>, ReadFault> {
    let mut waiting = Vec::new(alloc);
    for number in 0..parts.nodes.len() / 48 {
        let id = NodeId::new(number);
        if link(parts, id, 1).is_none() && parts.word(number, 0) != 11 {
            wait(forest, &mut waiting, id)?;
        }
    }
    Ok(waiting)
}

/// Puts all nodes where they stand, each one before those in it.
pub(crate) fn put_all(
    alloc: Global,
    parts: Parts<'_>,
    forest: &mut Forest,
) -> Result<(), ReadFault> {
    let mut waiting = tops(alloc, parts, forest)?;
    for _ in 0..parts.nodes.len() {
        let Some(parent) = waiting.pop() else {
            break;
        };
        put_children(parts, forest, &mut waiting, parent)?;
    }
    Ok(())
}
