//! The places of nodes among those under the same parent.
ghost use Rattle.std.specs.Prelude.{◌≡◌, ◌≤◌, ℕ, IfErr, IfOk, cond, filter, length, suc, true, vec_len};
ghost use Rattle.markup.specs.Forest.{children_of, is_among, node_count, those_before};
ghost use Rattle.markup.specs.declared.fault.ParseFault.TheVariants.{Memory};
ghost use Rattle.html_selector_matching.specs.Around.{is_element, those_after};
ghost use Rattle.html_selector_matching.specs.Simples.{place_of};
ghost use Rattle.html_selectors.specs.Columns as columns;
ghost use Rattle.html_selectors.specs.Columns.{at, place_among};

use crate::column::is_in;
use crate::lines::parents;
use crate::page_index::Index;
use html_forest::{Forest, NodeId};
use html_selector_matching::children_are_few;
use markup::ParseFault;
use std::alloc::Global;

/// The place that was written down for a node; else it is the first.
pub(crate) fn place_at(places: &[u64], id: NodeId) -> u64
    ensures { result ≡ columns.place_at places.now id }
{
    match places.get(id.number()) {
        Some(place) => *place,
        None => 1,
    }
}

/// The first place for each of so many nodes.
pub(crate) fn first_places(alloc: Global, count: usize) -> Result<Vec<u64>, ParseFault>
    ensures len { IfOk result (λ places. vec_len places ≡ count) }
    ensures first { IfOk result (λ places. (n : ℕ) → columns.place_at places.items n ≡ 1) }
    ensures fault { IfErr result (λ fault. fault ≡ Memory) }
{
    Ok(vec![in alloc; 1; count]?)
}

/// One for a node of a column, nothing for another one.
pub(crate) fn count_of(column: &[bool], id: NodeId) -> u64
    ensures { result ≡ cond (at column.now id) 1 0 }
{
    if is_in(column, id) { 1 } else { 0 }
}

/// How many children of a node are in a column.
pub(crate) fn count_children(forest: &Forest, parent: NodeId, column: &[bool]) -> u64
    ensures { result ≡ length (filter (at column.now) (children_of forest.now parent)) }
{
    children_are_few(forest, parent);
    let mut count = 0;
    for child in forest.children(parent) {
        count += count_of(column, child);
    }
    count
}

// Writes down the places of the children of a node, counted from the first one.
fn place_from_first(forest: &Forest, parent: NodeId, column: &[bool], places: &mut Vec<u64>)
    requires { node_count forest.now ≤ length places.old.items }
    ensures len { length places.new.items ≡ length places.old.items }
    ensures places { (n : ℕ) → columns.place_at places.new.items n ≡ cond (is_among n (children_of forest.now parent))
        (suc (length (filter (at column.now) (those_before n (children_of forest.now parent))))) (columns.place_at places.old.items n) }
{
    forest.keeps();
    children_are_few(forest, parent);
    let mut place = 1;
    for child in forest.children(parent) {
        places[child.number()] = place;
        place += count_of(column, child);
    }
}

// Writes down the places of the children of a node, counted from the last one.
fn place_from_last(forest: &Forest, parent: NodeId, column: &[bool], places: &mut Vec<u64>)
    requires { node_count forest.now ≤ length places.old.items }
    ensures len { length places.new.items ≡ length places.old.items }
    ensures places { (n : ℕ) → columns.place_at places.new.items n ≡ cond (is_among n (children_of forest.now parent))
        (suc (length (filter (at column.now) (those_after n (children_of forest.now parent))))) (columns.place_at places.old.items n) }
{
    forest.keeps();
    children_are_few(forest, parent);
    let mut left = count_children(forest, parent, column);
    for child in forest.children(parent) {
        left -= count_of(column, child);
        places[child.number()] = left + 1;
    }
}

// Writes down the places of the children of a node.
fn place_children(
    forest: &Forest,
    parent: NodeId,
    from_end: bool,
    column: &[bool],
    places: &mut Vec<u64>,
)
    requires { node_count forest.now ≤ length places.old.items }
    ensures len { length places.new.items ≡ length places.old.items }
    ensures places { (n : ℕ) → columns.place_at places.new.items n ≡ cond (is_among n (children_of forest.now parent))
        (place_among (at column.now) from_end n (children_of forest.now parent)) (columns.place_at places.old.items n) }
{
    if from_end {
        place_from_last(forest, parent, column, places);
    } else {
        place_from_first(forest, parent, column, places);
    }
}

/// The places of wanted elements among the nodes under their parents that are in a column.
pub(crate) fn places(
    index: &Index<'_>,
    from_end: bool,
    column: &[bool],
    wanted: &[bool],
) -> Result<Vec<u64>, ParseFault>
    requires { (n : ℕ) → at wanted.now n ≡ true → is_element index.now.forest.now n ≡ true }
    ensures ok { IfOk result (λ places. (n : ℕ) → at wanted.now n ≡ true → columns.place_at places.items n
        ≡ place_of (at column.now) from_end index.now.forest.now n) }
    ensures fault { IfErr result (λ fault. fault ≡ Memory) }
{
    index.forest.keeps();
    let parents = parents(index, wanted)?;
    let mut places = first_places(index.alloc, index.count)?;
    for number in 0..index.count {
        let parent = NodeId::new(number);
        if is_in(parents.as_slice(), parent) {
            place_children(index.forest, parent, from_end, column, &mut places);
        }
    }
    Ok(places)
}
