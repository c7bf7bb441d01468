//! Columns: for each node of a forest, by its number, whether it passes a test.
ghost use Rattle.std.specs.Prelude.{◌≡◌, ◌≤◌, ◌&&◌, ◌||◌, ◌⊎◌, ℕ, IfErr, IfOk, false, length, not, true, vec_len};
ghost use Rattle.markup.specs.declared.fault.ParseFault.TheVariants.{Memory};
ghost use Rattle.html_selector_matching.specs.Around.{is_element};
ghost use Rattle.html_selectors.specs.Columns.{Refines, at};

use crate::page_index::Index;
use html_forest::NodeId;
use markup::ParseFault;
use std::alloc::Global;

/// Whether a node is in a column; what is past its end is not.
pub(crate) fn is_in(column: &[bool], id: NodeId) -> bool
    ensures { result ≡ at column.now id }
{
    match column.get(id.number()) {
        Some(is) => *is,
        None => false,
    }
}

/// A column for so many nodes, none of which is in it.
pub(crate) fn none_of(alloc: Global, count: usize) -> Result<Vec<bool>, ParseFault>
    ensures len { IfOk result (λ column. vec_len column ≡ count) }
    ensures none { IfOk result (λ column. (n : ℕ) → at column.items n ≡ false) }
    ensures fault { IfErr result (λ fault. fault ≡ Memory) }
{
    Ok(vec![in alloc; false; count]?)
}

/// Leaves in a column of elements those that pass a test. Asks it of no other node.
pub(crate) fn refine<F: Fn(NodeId) -> bool>(index: &Index<'_>, column: &mut Vec<bool>, test: F)
    requires callable { F.IsAlwaysCallable test }
    requires elements { (n : ℕ) → at column.old.items n ≡ true → is_element index.now.forest.now n ≡ true }
    ensures { (n : ℕ) → Refines (F.post test n) (at column.old.items n) (at column.new.items n) }
{
    index.forest.keeps();
    for id in &index.order {
        if is_in(column.as_slice(), *id) {
            column[id.number()] = test(*id);
        }
    }
}

// Leaves in a column those nodes that are in one that is no shorter.
fn keep_common(column: &mut Vec<bool>, those: &[bool])
    requires { vec_len column.old ≤ length those.now }
    ensures { (n : ℕ) → at column.new.items n ≡ (at column.old.items n && at those.now n) }
{
    for number in 0..column.len() {
        column[number] &= those[number];
    }
}

/// Leaves in a column those nodes that are in another one.
pub(crate) fn keep_those(column: &mut Vec<bool>, those: &[bool])
    ensures { (n : ℕ) → at column.new.items n ≡ (at column.old.items n && at those.now n) }
{
    column.truncate(those.len());
    keep_common(column, those);
}

fn least(one: usize, other: usize) -> usize
    ensures one { result ≤ one }
    ensures other { result ≤ other }
    ensures least { result ≡ one ⊎ result ≡ other }
{
    if one < other { one } else { other }
}

/// Leaves in a column those nodes that are not in another one.
pub(crate) fn drop_those(column: &mut Vec<bool>, those: &[bool])
    ensures { (n : ℕ) → at column.new.items n ≡ (at column.old.items n && not (at those.now n)) }
{
    let common = least(column.len(), those.len());
    for number in 0..common {
        column[number] &= !those[number];
    }
}

// Adds to a column the nodes of one that is no longer.
fn add_those(column: &mut Vec<bool>, those: &[bool])
    requires { length those.now ≤ vec_len column.old }
    ensures { (n : ℕ) → at column.new.items n ≡ (at column.old.items n || at those.now n) }
{
    for number in 0..those.len() {
        column[number] |= those[number];
    }
}

/// The nodes that are in one column or the other.
pub(crate) fn either(one: Vec<bool>, other: Vec<bool>) -> Vec<bool>
    ensures { (n : ℕ) → at result.items n ≡ (at one.items n || at other.items n) }
{
    if one.len() < other.len() {
        let mut column = other;
        add_those(&mut column, one.as_slice());
        column
    } else {
        let mut column = one;
        add_those(&mut column, other.as_slice());
        column
    }
}
