//! What is kept of a page for the selectors that are asked of it.
ghost use Rattle.std.specs.Prelude.{◌≡◌, ℕ, IfErr, IfOk, IfSome};
ghost use Rattle.markup.specs.Forest.{node_count};
ghost use Rattle.markup.specs.declared.fault.ParseFault.TheVariants.{Memory};
ghost use Rattle.html_selector_matching.specs.Around.{is_element};
ghost use Rattle.html_selectors.specs.Columns.{at};
ghost use Rattle.html_selectors.specs.Order.{BeginsWith, in_tree_order, inner_below};

use crate::order::{count_nodes, list_nodes, mark_elements};
use html_forest::{Forest, NodeId};
use markup::ParseFault;
use std::alloc::Global;

/// A forest, with its elements and the nodes that have children in tree order, kept for several selectors. A contract sees the forest.
#[derive(Drop)]
pub struct Index<'f> {
    pub(crate) alloc: Global,
    pub(crate) forest: &'f Forest,
    pub(crate) count: usize,
    pub(crate) order: Vec<NodeId>,
    // how many of the first of these are the document and those below it, if they are
    first: usize,
    pub(crate) elements: Vec<bool>,
    ghost counted: { count ≡ node_count forest.now },
    ghost ordered: { order.items ≡ in_tree_order forest.now },
    ghost begins: { BeginsWith forest.now first order.items },
    ghost marked: { (n : ℕ) → at elements.items n ≡ is_element forest.now n },
}

impl<'f> Index<'f> {
    /// Looks once at each node of a forest. Takes nine bytes for each.
    ///
    /// Errors: [`ParseFault::Memory`].
    pub fn new(alloc: Global, forest: &'f Forest) -> Result<Index<'f>, ParseFault>
        ensures ok { IfOk result (λ index. index.forest.now ≡ forest.now) }
        ensures fault { IfErr result (λ fault. fault ≡ Memory) }
    {
        let count = count_nodes(forest);
        let (order, first) = list_nodes(alloc, forest, count)?;
        let elements = mark_elements(alloc, forest, count)?;
        Ok(Index {
            alloc,
            forest,
            count,
            order,
            first,
            elements,
        })
    }

    // The elements below a node and the nodes there that have children, if they are listed one after the other.
    pub(crate) fn listed_below(&self, top: NodeId) -> Option<&[NodeId]>
        ensures { IfSome result (λ nodes. nodes.now ≡ inner_below self.now.forest.now top) }
    {
        if top == self.forest.document() {
            self.order.as_slice().get(1..self.first)
        } else {
            None
        }
    }
}
