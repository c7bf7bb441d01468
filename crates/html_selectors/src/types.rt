//! The places of elements among those of the same name under the same parent.
ghost use Rattle.std.specs.Prelude.{◌≡◌, ◌≤◌, ◌<◌, ℕ, IfErr, IfOk, cond, length, suc, true};
ghost use Rattle.markup.specs.Forest.{children_of, is_among, node_count, those_before};
ghost use Rattle.markup.specs.declared.fault.ParseFault.TheVariants.{Memory};
ghost use Rattle.html_selector_matching.specs.Around.{is_element, those_after};
ghost use Rattle.html_selector_matching.specs.Simples.{counts, place_of};
ghost use Rattle.html_selectors.specs.Columns.{place_at};
ghost use Rattle.html_selectors.specs.Kinds as numbers;
ghost use Rattle.html_selectors.specs.Kinds.{count_kind, name_at};

use crate::kinds::number_names;
use crate::page_index::Index;
use crate::places::first_places;
use html_forest::{Forest, NodeId};
use html_selector_matching::children_are_few;
use markup::ParseFault;
use std::alloc::Global;

// The number of a node's name.
fn kind_at(kinds: &[usize], id: NodeId) -> usize
    ensures { result ≡ numbers.kind_at kinds.now id }
{
    match kinds.get(id.number()) {
        Some(kind) => *kind,
        None => 0,
    }
}

// How many nodes of a kind are counted.
fn count_at(counts: &[u64], kind: usize) -> u64
    ensures { result ≡ numbers.count_at counts.now kind }
{
    match counts.get(kind) {
        Some(count) => *count,
        None => 0,
    }
}

// Counts the children of a node by their kinds, and writes down for each which of its kind it is.
fn count_up(
    forest: &Forest,
    parent: NodeId,
    kinds: &[usize],
    counts: &mut Vec<u64>,
    places: &mut Vec<u64>,
)
    requires small { (n : ℕ) → numbers.kind_at kinds.now n < length counts.old.items }
    requires room { node_count forest.now ≤ length places.old.items }
    requires none { (k : ℕ) → numbers.count_at counts.old.items k ≡ 0 }
    ensures size { length counts.new.items ≡ length counts.old.items }
    ensures len { length places.new.items ≡ length places.old.items }
    ensures counts { (k : ℕ) → numbers.count_at counts.new.items k
        ≡ count_kind (numbers.kind_at kinds.now) k (children_of forest.now parent) }
    ensures places { (n : ℕ) → place_at places.new.items n ≡ cond (is_among n (children_of forest.now parent))
        (suc (count_kind (numbers.kind_at kinds.now) (numbers.kind_at kinds.now n) (those_before n (children_of forest.now parent))))
        (place_at places.old.items n) }
{
    forest.keeps();
    children_are_few(forest, parent);
    for child in forest.children(parent) {
        let kind = kind_at(kinds, child);
        let place = count_at(counts.as_slice(), kind) + 1;
        counts[kind] = place;
        places[child.number()] = place;
    }
}

// Counts the children of a node back to nothing, and writes down for each which of its kind it is from the last one on.
fn count_down(
    forest: &Forest,
    parent: NodeId,
    kinds: &[usize],
    counts: &mut Vec<u64>,
    places: &mut Vec<u64>,
)
    requires small { (n : ℕ) → numbers.kind_at kinds.now n < length counts.old.items }
    requires room { node_count forest.now ≤ length places.old.items }
    requires counts { (k : ℕ) → numbers.count_at counts.old.items k
        ≡ count_kind (numbers.kind_at kinds.now) k (children_of forest.now parent) }
    ensures size { length counts.new.items ≡ length counts.old.items }
    ensures len { length places.new.items ≡ length places.old.items }
    ensures none { (k : ℕ) → numbers.count_at counts.new.items k ≡ 0 }
    ensures places { (n : ℕ) → place_at places.new.items n ≡ cond (is_among n (children_of forest.now parent))
        (suc (count_kind (numbers.kind_at kinds.now) (numbers.kind_at kinds.now n) (those_after n (children_of forest.now parent))))
        (place_at places.old.items n) }
{
    forest.keeps();
    for child in forest.children(parent) {
        let kind = kind_at(kinds, child);
        let place = count_at(counts.as_slice(), kind);
        counts[kind] = place - 1;
        places[child.number()] = place;
    }
}

// No node of any of so many kinds.
fn no_counts(alloc: Global, size: usize) -> Result<Vec<u64>, ParseFault>
    ensures len { IfOk result (λ counts. length counts.items ≡ size) }
    ensures none { IfOk result (λ counts. (k : ℕ) → numbers.count_at counts.items k ≡ 0) }
    ensures fault { IfErr result (λ fault. fault ≡ Memory) }
{
    Ok(vec![in alloc; 0; size]?)
}

/// The place of each element among those of its name under its parent.
pub(crate) fn places_of_type(index: &Index<'_>, from_end: bool) -> Result<Vec<u64>, ParseFault>
    ensures ok { IfOk result (λ places. (n : ℕ) → is_element index.now.forest.now n ≡ true → place_at places.items n
        ≡ place_of (counts index.now.forest.now (name_at index.now.forest.now n)) from_end index.now.forest.now n) }
    ensures fault { IfErr result (λ fault. fault ≡ Memory) }
{
    index.forest.keeps();
    let kinds = number_names(index)?;
    let Some(size) = index.count.checked_add(1) else {
        return Err(ParseFault::Memory);
    };
    let mut counts = no_counts(index.alloc, size)?;
    let mut firsts = first_places(index.alloc, index.count)?;
    let mut lasts = first_places(index.alloc, index.count)?;
    for number in 0..index.count {
        let parent = NodeId::new(number);
        count_up(
            index.forest,
            parent,
            kinds.as_slice(),
            &mut counts,
            &mut firsts,
        );
        count_down(
            index.forest,
            parent,
            kinds.as_slice(),
            &mut counts,
            &mut lasts,
        );
    }
    if from_end { Ok(lasts) } else { Ok(firsts) }
}
