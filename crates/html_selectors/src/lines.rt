//! What stands above and below each node, in one way through the forest.
ghost use Rattle.std.specs.Prelude.{◌≡◌, ◌≤◌, ◌&&◌, ◌||◌, ℕ, IfErr, IfOk, Some, length, true};
ghost use Rattle.std.specs.List.{list_any};
ghost use Rattle.markup.specs.Forest.{children_of, is_among, node_count, parent_of};
ghost use Rattle.markup.specs.declared.fault.ParseFault.TheVariants.{Memory};
ghost use Rattle.html_nodes.specs.Below.{below};
ghost use Rattle.html_selector_matching.specs.Around.{above, is_element, one_of};
ghost use Rattle.html_selectors.specs.Columns.{at};
ghost use Rattle.html_selectors.specs.Order.{is_inner};

use crate::column::{is_in, none_of};
use crate::page_index::Index;
use html_forest::{Forest, NodeId};
use markup::ParseFault;

/// Whether the parent of a node is in one of two columns.
pub(crate) fn has_parent(forest: &Forest, id: NodeId, one: &[bool], other: &[bool]) -> bool
    ensures { result ≡ list_any (λ n. at one.now n || at other.now n) (one_of (parent_of forest.now id)) }
{
    match forest.parent(id) {
        Some(parent) => is_in(one, parent) || is_in(other, parent),
        None => false,
    }
}

/// Those of the wanted nodes above which stands one of a column, among the elements and the nodes that have children. Whoever is above a
/// wanted node is wanted too.
pub(crate) fn under(
    index: &Index<'_>,
    wanted: &[bool],
    column: &[bool],
) -> Result<Vec<bool>, ParseFault>
    requires { (n p : ℕ) → at wanted.now n ≡ true → parent_of index.now.forest.now n ≡ Some p → at wanted.now p ≡ true }
    ensures ok { IfOk result (λ under. (n : ℕ) → is_inner index.now.forest.now n ≡ true → at under.items n
        ≡ (at wanted.now n && list_any (at column.now) (above index.now.forest.now n))) }
    ensures fault { IfErr result (λ fault. fault ≡ Memory) }
{
    index.forest.keeps();
    let mut under = none_of(index.alloc, index.count)?;
    for id in &index.order {
        if is_in(wanted, *id) {
            let is_under = has_parent(index.forest, *id, column, under.as_slice());
            under[id.number()] = is_under;
        }
    }
    Ok(under)
}

/// Whether a child of a node is in one of two columns.
pub(crate) fn has_child(forest: &Forest, id: NodeId, one: &[bool], other: &[bool]) -> bool
    ensures { result ≡ list_any (λ n. at one.now n || at other.now n) (children_of forest.now id) }
{
    for child in forest.children(id) {
        if is_in(one, child) || is_in(other, child) {
            return true;
        }
    }
    false
}

/// Puts the parent of a node into a column.
pub(crate) fn mark_parent(forest: &Forest, id: NodeId, column: &mut Vec<bool>)
    requires { node_count forest.now ≤ length column.old.items }
    ensures len { length column.new.items ≡ length column.old.items }
    ensures marked { (n : ℕ) → at column.new.items n ≡ (is_among id (children_of forest.now n) || at column.old.items n) }
{
    forest.keeps();
    if let Some(parent) = forest.parent(id) {
        column[parent.number()] = true;
    }
}

/// Nodes among which are the parents of those in a column of elements.
pub(crate) fn parents(index: &Index<'_>, column: &[bool]) -> Result<Vec<bool>, ParseFault>
    requires { (n : ℕ) → at column.now n ≡ true → is_element index.now.forest.now n ≡ true }
    ensures ok { IfOk result (λ parents. (n p : ℕ) → at column.now n ≡ true → parent_of index.now.forest.now n ≡ Some p
        → at parents.items p ≡ true) }
    ensures fault { IfErr result (λ fault. fault ≡ Memory) }
{
    index.forest.keeps();
    let mut parents = none_of(index.alloc, index.count)?;
    for id in &index.order {
        if is_in(column, *id) {
            mark_parent(index.forest, *id, &mut parents);
        }
    }
    Ok(parents)
}

/// The nodes below which stands one of a column of elements.
pub(crate) fn over(index: &Index<'_>, column: &[bool]) -> Result<Vec<bool>, ParseFault>
    requires { (n : ℕ) → at column.now n ≡ true → is_element index.now.forest.now n ≡ true }
    ensures ok { IfOk result (λ over. (n : ℕ) → at over.items n ≡ list_any (at column.now) (below index.now.forest.now n)) }
    ensures fault { IfErr result (λ fault. fault ≡ Memory) }
{
    index.forest.keeps();
    let mut over = none_of(index.alloc, index.count)?;
    let mut left = index.order.len();
    while left > 0 {
        left -= 1;
        let id = index.order[left];
        if is_in(column, id) || is_in(over.as_slice(), id) {
            mark_parent(index.forest, id, &mut over);
        }
    }
    Ok(over)
}
