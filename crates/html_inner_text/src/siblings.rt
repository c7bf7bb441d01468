//! What follows a part of a table.
ghost use Rattle.std.specs.Prelude.{◌≡◌};
ghost use Rattle.std.specs.List.{list_any};
ghost use Rattle.markup.specs.Forest.{children_of, parent_of};
ghost use Rattle.html_forest.specs.Walk.{behind};
ghost use Rattle.html_inner_text.specs.Items as items;

use crate::kinds::{Kind, kind_of};
use html_forest::{Forest, NodeId};

fn is_cell(forest: &Forest, id: NodeId) -> bool
    ensures { result ≡ items.is_cell forest.now id }
{
    matches!(kind_of(forest, id), Kind::Cell)
}

fn is_row(forest: &Forest, id: NodeId) -> bool
    ensures { result ≡ items.is_row forest.now id }
{
    matches!(kind_of(forest, id), Kind::Row)
}

fn is_part(forest: &Forest, id: NodeId) -> bool
    ensures { result ≡ items.is_part forest.now id }
{
    matches!(kind_of(forest, id), Kind::TablePart)
}

/// Whether a node has a row among its children.
fn contains_row(forest: &Forest, id: NodeId) -> bool
    ensures { result ≡ list_any (items.is_row forest.now) (children_of forest.now id) }
{
    for child in forest.children(id) {
        if is_row(forest, child) {
            return true;
        }
    }
    false
}

/// Whether a node is a row, or a part of a table that has one.
fn has_row(forest: &Forest, id: NodeId) -> bool
    ensures { result ≡ items.has_row forest.now id }
{
    is_row(forest, id) || (is_part(forest, id) && contains_row(forest, id))
}

/// Whether a cell comes after a node, under the same parent.
#[tactic(auto, unfolding(crate::specs::Items::cell_follows))]
pub(crate) fn cell_follows(forest: &Forest, id: NodeId) -> bool
    ensures { result ≡ items.cell_follows forest.now id }
{
    forest.keeps();
    let mut at = id;
    while let Some(next) = forest.next_sibling(at) {
        if is_cell(forest, next) {
            return true;
        }
        at = next;
    }
    false
}

/// Whether a row comes after a node, under the same parent or in a part of the table there.
fn row_is_behind(forest: &Forest, id: NodeId) -> bool
    ensures { result ≡ list_any (items.has_row forest.now) (behind forest.now id) }
{
    forest.keeps();
    let mut at = id;
    while let Some(next) = forest.next_sibling(at) {
        if has_row(forest, next) {
            return true;
        }
        at = next;
    }
    false
}

/// Whether a row comes after the part of a table that is the parent of a node.
fn row_is_after_part(forest: &Forest, id: NodeId) -> bool
    ensures { result ≡ items.row_after_part forest.now (parent_of forest.now id) }
{
    match forest.parent(id) {
        Some(parent) => is_part(forest, parent) && row_is_behind(forest, parent),
        None => false,
    }
}

/// Whether a row comes after a row, in the same table.
#[tactic(auto, unfolding(crate::specs::Items::row_follows))]
pub(crate) fn row_follows(forest: &Forest, id: NodeId) -> bool
    ensures { result ≡ items.row_follows forest.now id }
{
    row_is_behind(forest, id) || row_is_after_part(forest, id)
}
