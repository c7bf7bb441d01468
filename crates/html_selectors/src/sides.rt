//! Which nodes have one of a column among the siblings on one side.
ghost use Rattle.std.specs.Prelude.{◌≡◌, ◌≤◌, ℕ, IfErr, IfOk, cond, false, length, true};
ghost use Rattle.std.specs.List.{list_any};
ghost use Rattle.markup.specs.Forest.{children_of, is_among, node_count, parent_of};
ghost use Rattle.markup.specs.declared.fault.ParseFault.TheVariants.{Memory};
ghost use Rattle.html_selector_matching.specs.Around.{is_element, one_of, those_after};
ghost use Rattle.html_selector_matching.specs.Simples.{nodes_beside};
ghost use Rattle.html_selectors.specs.Columns.{at};

use crate::column::{is_in, none_of};
use crate::lines::{mark_parent, parents};
use crate::page_index::Index;
use crate::places::{count_children, count_of};
use html_forest::{Forest, NodeId};
use html_selector_matching::children_are_few;
use markup::ParseFault;

// Says of each child of a node whether one after it is in a column.
fn mark_before(forest: &Forest, parent: NodeId, column: &[bool], beside: &mut Vec<bool>)
    requires { node_count forest.now ≤ length beside.old.items }
    ensures len { length beside.new.items ≡ length beside.old.items }
    ensures beside { (n : ℕ) → at beside.new.items n ≡ cond (is_among n (children_of forest.now parent))
        (list_any (at column.now) (those_after n (children_of forest.now parent))) (at beside.old.items n) }
{
    forest.keeps();
    children_are_few(forest, parent);
    let mut left = count_children(forest, parent, column);
    for child in forest.children(parent) {
        left -= count_of(column, child);
        beside[child.number()] = left > 0;
    }
}

// Whether the parent of a node is in a column.
fn is_seen(forest: &Forest, id: NodeId, seen: &[bool]) -> bool
    ensures { result ≡ list_any (at seen.now) (one_of (parent_of forest.now id)) }
{
    match forest.parent(id) {
        Some(parent) => is_in(seen, parent),
        None => false,
    }
}

/// Which elements have one of a column of elements before them under the same parent: the nodes are gone through in tree order, and those
/// are kept of which a child was seen that is in the column.
pub(crate) fn after(index: &Index<'_>, column: &[bool]) -> Result<Vec<bool>, ParseFault>
    requires { (n : ℕ) → at column.now n ≡ true → is_element index.now.forest.now n ≡ true }
    ensures ok { IfOk result (λ after. (n : ℕ) → is_element index.now.forest.now n ≡ true → at after.items n
        ≡ list_any (at column.now) (nodes_beside false index.now.forest.now n)) }
    ensures fault { IfErr result (λ fault. fault ≡ Memory) }
{
    index.forest.keeps();
    let mut seen = none_of(index.alloc, index.count)?;
    let mut after = none_of(index.alloc, index.count)?;
    for id in &index.order {
        let is_after = is_seen(index.forest, *id, seen.as_slice());
        after[id.number()] = is_after;
        if is_in(column, *id) {
            mark_parent(index.forest, *id, &mut seen);
        }
    }
    Ok(after)
}

/// Which of the wanted elements have one of a column after them under the same parent.
pub(crate) fn before(
    index: &Index<'_>,
    column: &[bool],
    wanted: &[bool],
) -> Result<Vec<bool>, ParseFault>
    requires { (n : ℕ) → at wanted.now n ≡ true → is_element index.now.forest.now n ≡ true }
    ensures ok { IfOk result (λ before. (n : ℕ) → at wanted.now n ≡ true → at before.items n
        ≡ list_any (at column.now) (nodes_beside true index.now.forest.now n)) }
    ensures fault { IfErr result (λ fault. fault ≡ Memory) }
{
    index.forest.keeps();
    let parents = parents(index, wanted)?;
    let mut before = none_of(index.alloc, index.count)?;
    for number in 0..index.count {
        let parent = NodeId::new(number);
        if is_in(parents.as_slice(), parent) {
            mark_before(index.forest, parent, column, &mut before);
        }
    }
    Ok(before)
}
