//! The place of an element among those under the same parent (Selectors Level 4, section 13).
ghost use Rattle.std.specs.Prelude.{◌≡◌, ◌<◌, ◌+◌, ◌^◌, IfSome, filter, length, option_copied, suc};
ghost use Rattle.markup.specs.Forest.{children_of, parent_of, those_before};
ghost use Rattle.html_selector_matching.specs.Around.{those_after};
ghost use Rattle.html_selector_matching.specs.Simples as simples;
ghost use Rattle.html_selector_matching.specs.Simples.{counts, place_of};

use crate::around::is_element;
use html_forest::{Forest, NodeId};
use html_nodes::element_name;
use markup::QualName;
use selectors::Nth;

/// The children of a node can be counted, and one more. Does nothing: it is a law, for whoever counts them.
pub fn children_are_few(forest: &Forest, parent: NodeId)
    ensures { length (children_of forest.now parent) + 1 < 2 ^ 64 }
{
    forest.keeps();
}

// Whether two elements have the same name, whatever their prefixes are.
fn is_same(one: &QualName, two: &QualName) -> bool
    ensures { result ≡ simples.have_same_name (Some one.now) (Some two.now) }
{
    one.ns == two.ns && one.local == two.local
}

fn counts(forest: &Forest, name: Option<&QualName>, id: NodeId) -> bool
    ensures { result ≡ counts forest.now (option_copied name.entry) id }
{
    match name {
        Some(name) => match element_name(forest, id) {
            Some(other) => is_same(name, other),
            None => false,
        },
        None => is_element(forest, id),
    }
}

fn count_before(forest: &Forest, parent: NodeId, id: NodeId, name: Option<&QualName>) -> u64
    ensures count { result ≡ length (filter (counts forest.now (option_copied name.entry))
        (those_before id (children_of forest.now parent))) }
    ensures small { result + 1 < 2 ^ 64 }
{
    children_are_few(forest, parent);
    let mut count = 0;
    for child in forest.children(parent) {
        if child == id {
            return count;
        }
        if counts(forest, name, child) {
            count += 1;
        }
    }
    count
}

fn count_after(forest: &Forest, parent: NodeId, id: NodeId, name: Option<&QualName>) -> u64
    ensures count { result ≡ length (filter (counts forest.now (option_copied name.entry))
        (those_after id (children_of forest.now parent))) }
    ensures small { result + 1 < 2 ^ 64 }
{
    children_are_few(forest, parent);
    let mut count = 0;
    let mut passed = false;
    for child in forest.children(parent) {
        if passed && counts(forest, name, child) {
            count += 1;
        }
        if child == id {
            passed = true;
        }
    }
    count
}

/// The place of a node among the elements under its parent, or among those of this name.
pub(crate) fn place_of(forest: &Forest, id: NodeId, name: Option<&QualName>, from_end: bool) -> u64
    ensures { result ≡ simples.place_of (counts forest.now (option_copied name.entry)) from_end forest.now id }
{
    match forest.parent(id) {
        Some(parent) => {
            if from_end {
                count_after(forest, parent, id, name) + 1
            } else {
                count_before(forest, parent, id, name) + 1
            }
        }
        None => 1,
    }
}

/// Whether a number is the first one, or a number of steps away from it in the direction that is asked for.
#[tactic(auto, unfolding(crate::specs::Simples::is_nth))]
pub fn is_nth(nth: &Nth, at: u64) -> bool
    ensures { result ≡ simples.is_nth nth.now at }
{
    let first = u64::from(nth.first);
    let step = u64::from(nth.step);
    let low = if nth.descends { at } else { first };
    let high = if nth.descends { first } else { at };
    if low > high {
        return false;
    }
    if step == 0 {
        low == high
    } else {
        (high - low) % step == 0
    }
}
