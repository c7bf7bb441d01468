//! The elements of a forest and the nodes that have children, in tree order.
ghost use Rattle.std.specs.Prelude.{◌≡◌, ◌++◌, ◌∷◌, [], ℕ, IfErr, IfOk, OnOk, cond};
ghost use Rattle.markup.specs.Forest.{node_count};
ghost use Rattle.markup.specs.declared.fault.ParseFault.TheVariants.{Memory};
ghost use Rattle.html_selector_matching.specs.Around as around;
ghost use Rattle.html_selectors.specs.Columns.{at};
ghost use Rattle.html_selectors.specs.Order as orders;
ghost use Rattle.html_selectors.specs.Order.{BeginsWith, in_tree_order, inner_below, is_root};

use html_forest::{Forest, NodeId};
use html_nodes::nodes_below;
use html_selector_matching::is_element;
use markup::ParseFault;
use std::alloc::Global;

/// How many nodes a forest has.
pub(crate) fn count_nodes(forest: &Forest) -> usize
    ensures { result ≡ node_count forest.now }
{
    forest.keeps();
    let mut low = 0usize;
    let mut high = usize::MAX;
    while low < high {
        let middle = low + (high - low) / 2;
        if forest.node(NodeId::new(middle)).is_some() {
            low = middle + 1;
        } else {
            high = middle;
        }
    }
    low
}

// Whether a node is an element or has a child.
fn is_inner(forest: &Forest, id: NodeId) -> bool
    ensures { result ≡ orders.is_inner forest.now id }
{
    is_element(forest, id) || forest.first_child(id).is_some()
}

// Lists a node and those of the nodes below it that are elements or have children.
fn push_tree(forest: &Forest, root: NodeId, order: &mut Vec<NodeId>) -> Result<(), ParseFault>
    ensures ok { OnOk result (order.new.items ≡ order.old.items ++ root ∷ inner_below forest.now root) }
    ensures fault { IfErr result (λ fault. fault ≡ Memory) }
{
    order.push(root)?;
    for id in nodes_below(forest, root) {
        if is_inner(forest, id) {
            order.push(id)?;
        }
    }
    Ok(())
}

// Lists the document, where it has no parent, and those below it.
fn push_document(forest: &Forest, order: &mut Vec<NodeId>) -> Result<(), ParseFault>
    ensures ok { OnOk result (order.new.items ≡ order.old.items ++ cond (is_root forest.now 0) (0 ∷ inner_below forest.now 0) []) }
    ensures fault { IfErr result (λ fault. fault ≡ Memory) }
{
    let document = forest.document();
    if forest.parent(document).is_none() {
        push_tree(forest, document, order)?;
    }
    Ok(())
}

/// Of a forest of so many nodes each node that has no parent, with those below it that are elements or have children. The document comes
/// first where it has no parent; then the number says how many nodes it is with those below it, and else it is 0.
pub(crate) fn list_nodes(
    alloc: Global,
    forest: &Forest,
    count: usize,
) -> Result<(Vec<NodeId>, usize), ParseFault>
    requires { count ≡ node_count forest.now }
    ensures ok { IfOk result (λ made. made.0.items ≡ in_tree_order forest.now) }
    ensures first { IfOk result (λ made. BeginsWith forest.now made.1 made.0.items) }
    ensures fault { IfErr result (λ fault. fault ≡ Memory) }
{
    forest.keeps();
    let mut order = Vec::new(alloc);
    order.reserve(count)?;
    push_document(forest, &mut order)?;
    let first = order.len();
    for number in 1..count {
        let id = NodeId::new(number);
        if forest.parent(id).is_none() {
            push_tree(forest, id, &mut order)?;
        }
    }
    Ok((order, first))
}

/// The elements among so many nodes of a forest.
pub(crate) fn mark_elements(
    alloc: Global,
    forest: &Forest,
    count: usize,
) -> Result<Vec<bool>, ParseFault>
    requires { count ≡ node_count forest.now }
    ensures ok { IfOk result (λ column. (n : ℕ) → at column.items n ≡ around.is_element forest.now n) }
    ensures fault { IfErr result (λ fault. fault ≡ Memory) }
{
    let mut column = Vec::new(alloc);
    column.reserve(count)?;
    for number in 0..count {
        column.push(is_element(forest, NodeId::new(number)))?;
    }
    Ok(column)
}
