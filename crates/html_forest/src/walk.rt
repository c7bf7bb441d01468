//! The walk of a node and of what stands in it.
ghost use Rattle.std.specs.Prelude.{◌≡◌, ◌<◌, ◌^◌, ◌∷◌, [], false};
ghost use Rattle.markup.specs.Calls.{Walks, calls_of};
ghost use Rattle.markup.specs.Forest.{IsForest, data_of, element_name, node_count};
ghost use Rattle.markup.specs.Named.{HasContents};
ghost use Rattle.markup.specs.Trees.{inner_of, trees_of};
ghost use Rattle.html_forest.specs.Links.{first_of};
ghost use Rattle.html_forest.specs.Walk.{Advances, IsEnded, IsSpot, Meets, is_end, up_of};

use crate::forest::Forest;
use crate::node::{NodeData, NodeId};
use markup::{Serialize, SerializeFault, Serializer, TraversalScope};
use std::alloc::Global;

/// A node of a forest, as what a serializer is told. A number that names no node is nothing. The walk takes no memory.
#[derive(Clone, Copy)]
pub struct ForestNode<'a> {
    /// The forest.
    pub forest: &'a Forest,
    /// The node's number in it.
    pub id: NodeId,
}

/// How far a walk has come in a node, its root.
#[derive(Clone, Copy)]
pub(crate) struct Spot {
    // The node within which the next one stands; how far it lies below the root; and the next node, if there is one within it.
    parent: NodeId,
    depth: usize,
    next: Option<NodeId>,
}

impl Spot {
    /// Whether all that stands in the root was walked.
    #[inline(always)]
    fn is_end(&self) -> bool
        ensures { result ≡ is_end self.now }
    {
        self.depth == 0 && self.next.is_none()
    }
}

/// The first of what stands in a node: of its children, or of those of its contents in their place.
#[inline(always)]
fn first_inside(forest: &Forest, id: NodeId) -> Option<NodeId>
    ensures { result ≡ first_of (inner_of forest.now id) }
{
    match forest.template_contents(id) {
        Some(contents) => forest.first_child(contents),
        None => forest.first_child(id),
    }
}

/// The node within which a node stands that lies one deeper: the root, or its parent, with a template in place of its contents.
#[inline(always)]
fn up(forest: &Forest, root: NodeId, depth: usize, id: NodeId) -> NodeId
    requires { IsForest forest.now }
    ensures { result ≡ up_of forest.now root depth id }
{
    if depth == 0 {
        return root;
    }
    match forest.parent(id) {
        Some(parent) => {
            if forest.is_contents(parent) {
                NodeId::new(parent.number() - 1)
            } else {
                parent
            }
        }
        None => id,
    }
}

/// Meets a node; answers whether what stands in it comes next.
#[inline(always)]
fn meet<S: Serializer>(
    forest: &Forest,
    id: NodeId,
    serializer: &mut S,
) -> Result<bool, SerializeFault>
    ensures meets { Meets S.step S.refuses forest.now id (S.view serializer.old) result (S.view serializer.new) }
    ensures same_references { S.references serializer.new ≡ S.references serializer.old }
{
    match forest.node(id) {
        Some(NodeData::Element { name, attrs, .. }) => {
            serializer.start_elem(name, attrs.as_slice())?;
            Ok(true)
        }
        Some(NodeData::Text(text)) => {
            serializer.write_text(text.as_str())?;
            Ok(false)
        }
        Some(NodeData::Comment(text)) => {
            serializer.write_comment(text.as_str())?;
            Ok(false)
        }
        Some(NodeData::ProcessingInstruction { target, text }) => {
            serializer.write_processing_instruction(target.as_str(), text.as_str())?;
            Ok(false)
        }
        Some(NodeData::Doctype { name, .. }) => {
            serializer.write_doctype(name.as_str())?;
            Ok(false)
        }
        Some(NodeData::Document) | Some(NodeData::Contents) | None => Ok(true),
    }
}

/// Ends a node.
#[inline(always)]
fn end<S: Serializer>(forest: &Forest, id: NodeId, serializer: &mut S) -> Result<(), SerializeFault>
    ensures ends { IsEnded S.step S.refuses (element_name (data_of forest.now id)) (S.view serializer.old) result (S.view serializer.new) }
    ensures same_references { S.references serializer.new ≡ S.references serializer.old }
{
    match forest.name(id) {
        Some(name) => serializer.end_elem(name),
        None => Ok(()),
    }
}

/// Meets the next node, or ends the one within which none is left.
#[inline(always)]
fn advance<S: Serializer>(
    forest: &Forest,
    root: NodeId,
    spot: Spot,
    serializer: &mut S,
) -> Result<Spot, SerializeFault>
    requires is_forest { IsForest forest.now }
    requires contents { HasContents forest.now }
    requires count { node_count forest.now < 2 ^ 64 }
    requires spot { IsSpot forest.now root spot }
    requires goes_on { is_end spot ≡ false }
    ensures advances { Advances S.step S.refuses forest.now root (S.view serializer.old) spot result (S.view serializer.new) }
    ensures same_references { S.references serializer.new ≡ S.references serializer.old }
{
    match spot.next {
        Some(id) => {
            if meet(forest, id, serializer)? {
                Ok(Spot {
                    parent: id,
                    depth: spot.depth + 1,
                    next: first_inside(forest, id),
                })
            } else {
                Ok(Spot {
                    parent: spot.parent,
                    depth: spot.depth,
                    next: forest.next_sibling(id),
                })
            }
        }
        None => {
            end(forest, spot.parent, serializer)?;
            let depth = spot.depth - 1;
            Ok(Spot {
                parent: up(forest, root, depth, spot.parent),
                depth,
                next: forest.next_sibling(spot.parent),
            })
        }
    }
}

/// Walks what stands in a node, up to the first call that is refused.
fn walk<S: Serializer>(
    forest: &Forest,
    root: NodeId,
    serializer: &mut S,
) -> Result<(), SerializeFault>
    requires is_forest { IsForest forest.now }
    requires contents { HasContents forest.now }
    requires count { node_count forest.now < 2 ^ 64 }
    ensures walks { Walks S.step S.refuses (S.view serializer.old)
        (calls_of (trees_of forest.now (inner_of forest.now root))) result (S.view serializer.new) }
    ensures same_references { S.references serializer.new ≡ S.references serializer.old }
{
    let mut spot = Spot {
        parent: root,
        depth: 0,
        next: first_inside(forest, root),
    };
    'turns: while !spot.is_end() {
        spot = advance(forest, root, spot, serializer)?;
    }
    Ok(())
}

/// Walks a node, and what stands in it, up to the first call that is refused.
fn walk_node<S: Serializer>(
    forest: &Forest,
    id: NodeId,
    serializer: &mut S,
) -> Result<(), SerializeFault>
    requires is_forest { IsForest forest.now }
    requires contents { HasContents forest.now }
    requires count { node_count forest.now < 2 ^ 64 }
    ensures walks { Walks S.step S.refuses (S.view serializer.old) (calls_of (trees_of forest.now (id ∷ []))) result
        (S.view serializer.new) }
    ensures same_references { S.references serializer.new ≡ S.references serializer.old }
{
    if !meet(forest, id, serializer)? {
        return Ok(());
    }
    walk(forest, id, serializer)?;
    end(forest, id, serializer)
}

impl<'a> Serialize for ForestNode<'a> {
    ghost use Rattle.markup.specs.Calls.{calls_of};
    ghost use Rattle.html_forest.specs.Walk.{walked};

    ghost calls = { λ node scope. calls_of (walked node.forest.now node.id scope) };

    fn serialize<S: Serializer>(
        &self,
        _alloc: Global,
        serializer: &mut S,
        scope: TraversalScope,
    ) -> Result<(), SerializeFault> {
        let forest = self.forest;
        forest.keeps();
        match scope {
            TraversalScope::IncludeNode => walk_node(forest, self.id, serializer),
            TraversalScope::ChildrenOnly(_) => walk(forest, self.id, serializer),
        }
    }
}
