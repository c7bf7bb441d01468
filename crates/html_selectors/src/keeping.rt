//! Leaves in a column what stands, or is placed, as a selector asks.
ghost use Rattle.std.specs.Prelude.{◌≡◌, ◌<◌, ◌&&◌, ◌||◌, ℕ, List, IfErr, IfOk, OnOk, Some, cond, false, map, true};
ghost use Rattle.std.specs.Char.{to_ascii_lowercase};
ghost use Rattle.std.specs.List.{list_all, list_any};
ghost use Rattle.markup.specs.Forest.{data_of, element_name, node_count, parent_of};
ghost use Rattle.markup.specs.declared.fault.ParseFault.TheVariants.{Memory};
ghost use Rattle.html_selector_matching.specs.Around as around;
ghost use Rattle.html_nodes.specs.Below.{below};
ghost use Rattle.html_selector_matching.specs.Around.{above, one_of};
ghost use Rattle.html_selector_matching.specs.Selects.{is_nth_of, left_of, right_of};
ghost use Rattle.html_selector_matching.specs.Simples as asks;
ghost use Rattle.html_selector_matching.specs.Simples.{nodes_beside};
ghost use Rattle.selectors.specs.declared.selector.Combinator.TheVariants.{Child, Descendant};
ghost use Rattle.selectors.specs.declared.selector.Simple.TheVariants.{«Type», Attribute as WithAttribute, NthChild, NthOfType};
ghost use Rattle.html_selectors.specs.Columns as columns;
ghost use Rattle.html_selectors.specs.Columns.{at};

use crate::column::{is_in, keep_those, refine};
use crate::lines::{has_child, has_parent, over, parents, under};
use crate::page_index::Index;
use crate::places::{place_at, places};
use crate::sides::{after, before};
use crate::types::places_of_type;
use html_forest::{Forest, NodeId};
use html_selector_matching::{
    element_after, element_before, has_attribute_by, is_named_by, is_nth, is_simple, lower,
};
use markup::{LocalName, ParseFault};
use selectors::{AttributeTest, Combinator, Name, Nth, Simple};

/// The elements of a page.
pub(crate) fn elements(index: &Index<'_>) -> Result<Vec<bool>, ParseFault>
    ensures ok { IfOk result (λ column. (n : ℕ) → at column.items n ≡ around.is_element index.now.forest.now n) }
    ensures fault { IfErr result (λ fault. fault ≡ Memory) }
{
    Ok(Vec::from_slice(index.alloc, index.elements.as_slice())?)
}

// Whether the element just before a node is in a column.
fn is_previous_in(forest: &Forest, id: NodeId, column: &[bool]) -> bool
    ensures { result ≡ list_any (at column.now) (one_of (around.element_before forest.now id)) }
{
    match element_before(forest, id) {
        Some(previous) => is_in(column, previous),
        None => false,
    }
}

// Whether the element just after a node is in a column.
fn is_next_in(forest: &Forest, id: NodeId, column: &[bool]) -> bool
    ensures { result ≡ list_any (at column.now) (one_of (around.element_after forest.now id)) }
{
    match element_after(forest, id) {
        Some(next) => is_in(column, next),
        None => false,
    }
}

// Leaves in a column of elements those that have one of another column before them under the same parent.
fn keep_after(index: &Index<'_>, those: &[bool], column: &mut Vec<bool>) -> Result<(), ParseFault>
    requires those { (n : ℕ) → at those.now n ≡ true → around.is_element index.now.forest.now n ≡ true }
    requires elements { (n : ℕ) → at column.old.items n ≡ true → around.is_element index.now.forest.now n ≡ true }
    ensures ok { OnOk result ((n : ℕ) → at column.new.items n
        ≡ (at column.old.items n && list_any (at those.now) (nodes_beside false index.now.forest.now n))) }
    ensures fault { IfErr result (λ fault. fault ≡ Memory) }
{
    let with = after(index, those)?;
    keep_those(column, with.as_slice());
    Ok(())
}

// Leaves in a column of elements those that have one of another column after them under the same parent.
fn keep_before(index: &Index<'_>, those: &[bool], column: &mut Vec<bool>) -> Result<(), ParseFault>
    requires { (n : ℕ) → at column.old.items n ≡ true → around.is_element index.now.forest.now n ≡ true }
    ensures ok { OnOk result ((n : ℕ) → at column.new.items n
        ≡ (at column.old.items n && list_any (at those.now) (nodes_beside true index.now.forest.now n))) }
    ensures fault { IfErr result (λ fault. fault ≡ Memory) }
{
    let with = before(index, those, column.as_slice())?;
    keep_those(column, with.as_slice());
    Ok(())
}

// Leaves in a column of elements those that are in a wanted place.
fn keep_placed(index: &Index<'_>, nth: &Nth, places: &[u64], column: &mut Vec<bool>)
    requires { (n : ℕ) → at column.old.items n ≡ true → around.is_element index.now.forest.now n ≡ true }
    ensures { (n : ℕ) → at column.new.items n ≡ (at column.old.items n && asks.is_nth nth.now (columns.place_at places.now n)) }
{
    refine(index, column, |id: NodeId| -> bool {
        is_nth(nth, place_at(places, id))
    });
}

// All nodes of a page.
fn all_nodes(index: &Index<'_>) -> Result<Vec<bool>, ParseFault>
    ensures ok { IfOk result (λ column. (n : ℕ) → n < node_count index.now.forest.now → at column.items n ≡ true) }
    ensures fault { IfErr result (λ fault. fault ≡ Memory) }
{
    Ok(vec![in index.alloc; true; index.count]?)
}

// Leaves in a column of elements those above which stands one of another column.
fn keep_under(index: &Index<'_>, left: &[bool], column: &mut Vec<bool>) -> Result<(), ParseFault>
    requires { (n : ℕ) → at column.old.items n ≡ true → around.is_element index.now.forest.now n ≡ true }
    ensures ok { OnOk result ((n : ℕ) → at column.new.items n
        ≡ (at column.old.items n && list_any (at left.now) (above index.now.forest.now n))) }
    ensures fault { IfErr result (λ fault. fault ≡ Memory) }
{
    index.forest.keeps();
    let all = all_nodes(index)?;
    let those = under(index, all.as_slice(), left)?;
    keep_those(column, those.as_slice());
    Ok(())
}

/// Leaves in a column of elements those of which the parent, or where it is asked one of all above, is in another column. `wanted` has the
/// nodes over those of the column.
pub(crate) fn keep_inside(
    index: &Index<'_>,
    deep: bool,
    wanted: &[bool],
    left: &[bool],
    column: &mut Vec<bool>,
) -> Result<(), ParseFault>
    requires wanted { (n : ℕ) → at wanted.now n ≡ list_any (at column.old.items) (below index.now.forest.now n) }
    requires elements { (n : ℕ) → at column.old.items n ≡ true → around.is_element index.now.forest.now n ≡ true }
    ensures ok { OnOk result ((n : ℕ) → at column.new.items n
        ≡ (at column.old.items n && list_any (at left.now) (left_of (cond deep Descendant Child) index.now.forest.now n))) }
    ensures fault { IfErr result (λ fault. fault ≡ Memory) }
{
    let forest = index.forest;
    forest.keeps();
    if !deep {
        refine(index, column, |id: NodeId| -> bool {
            has_parent(forest, id, left, &[])
        });
        return Ok(());
    }
    let those = under(index, wanted, left)?;
    refine(
        index,
        column,
        |id: NodeId| -> bool
            ensures { result ≡ list_any (λ n. at left.entry.now n || at those.items n) (one_of (parent_of forest.entry.now id)) }
        { has_parent(forest, id, left, those.as_slice()) },
    );
    Ok(())
}

/// Leaves in a column of elements those to which an element of another one, on the left, stands as a combinator says.
pub(crate) fn keep_right(
    index: &Index<'_>,
    combinator: Combinator,
    left: &[bool],
    column: &mut Vec<bool>,
) -> Result<(), ParseFault>
    requires left { (n : ℕ) → at left.now n ≡ true → around.is_element index.now.forest.now n ≡ true }
    requires elements { (n : ℕ) → at column.old.items n ≡ true → around.is_element index.now.forest.now n ≡ true }
    ensures ok { OnOk result ((n : ℕ) → at column.new.items n
        ≡ (at column.old.items n && list_any (at left.now) (left_of combinator index.now.forest.now n))) }
    ensures fault { IfErr result (λ fault. fault ≡ Memory) }
{
    let forest = index.forest;
    match combinator {
        Combinator::Child => {
            refine(index, column, |id: NodeId| -> bool {
                has_parent(forest, id, left, &[])
            });
            Ok(())
        }
        Combinator::Descendant => keep_under(index, left, column),
        Combinator::NextSibling => {
            refine(
                index,
                column,
                |id: NodeId| -> bool
                    ensures { result ≡ list_any (at left.entry.now) (one_of (around.element_before forest.entry.now id)) }
                { is_previous_in(forest, id, left) },
            );
            Ok(())
        }
        Combinator::SubsequentSibling => keep_after(index, left, column),
    }
}

/// Leaves in a column of elements those which stand to an element of another one, on the right, as a combinator says.
pub(crate) fn keep_left(
    index: &Index<'_>,
    combinator: Combinator,
    right: &[bool],
    column: &mut Vec<bool>,
) -> Result<(), ParseFault>
    requires right { (n : ℕ) → at right.now n ≡ true → around.is_element index.now.forest.now n ≡ true }
    requires elements { (n : ℕ) → at column.old.items n ≡ true → around.is_element index.now.forest.now n ≡ true }
    ensures ok { OnOk result ((n : ℕ) → at column.new.items n
        ≡ (at column.old.items n && list_any (at right.now) (right_of combinator index.now.forest.now n))) }
    ensures fault { IfErr result (λ fault. fault ≡ Memory) }
{
    let forest = index.forest;
    match combinator {
        Combinator::Child => {
            refine(index, column, |id: NodeId| -> bool {
                has_child(forest, id, right, &[])
            });
            Ok(())
        }
        Combinator::Descendant => {
            let those = over(index, right)?;
            keep_those(column, those.as_slice());
            Ok(())
        }
        Combinator::NextSibling => {
            refine(
                index,
                column,
                |id: NodeId| -> bool
                    ensures { result ≡ list_any (at right.entry.now) (one_of (around.element_after forest.entry.now id)) }
                { is_next_in(forest, id, right) },
            );
            Ok(())
        }
        Combinator::SubsequentSibling => keep_before(index, right, column),
    }
}

// Leaves in a column of elements those that are in another one or whose parent is in a third one.
fn keep_near(index: &Index<'_>, own: &[bool], parents: &[bool], column: &mut Vec<bool>)
    requires { (n : ℕ) → at column.old.items n ≡ true → around.is_element index.now.forest.now n ≡ true }
    ensures { (n : ℕ) → at column.new.items n ≡ (at column.old.items n
        && (at own.now n || list_any (at parents.now) (one_of (parent_of index.now.forest.now n)))) }
{
    let forest = index.forest;
    refine(
        index,
        column,
        |id: NodeId| -> bool
            ensures { result ≡ (at own.entry.now id || list_any (at parents.entry.now) (one_of (parent_of forest.entry.now id))) }
        { is_in(own, id) || has_parent(forest, id, parents, &[]) },
    );
}

/// The elements of a column, and those that have a parent in common with one of them.
pub(crate) fn siblings(index: &Index<'_>, column: &[bool]) -> Result<Vec<bool>, ParseFault>
    requires { (n : ℕ) → at column.now n ≡ true → around.is_element index.now.forest.now n ≡ true }
    ensures elements { IfOk result (λ beside. (n : ℕ) → at beside.items n ≡ true → around.is_element index.now.forest.now n ≡ true) }
    ensures own { IfOk result (λ beside. (n : ℕ) → at column.now n ≡ true → around.is_element index.now.forest.now n ≡ true
        → at beside.items n ≡ true) }
    ensures siblings { IfOk result (λ beside. (n m p : ℕ) → at column.now n ≡ true → parent_of index.now.forest.now n ≡ Some p
        → parent_of index.now.forest.now m ≡ Some p → around.is_element index.now.forest.now m ≡ true → at beside.items m ≡ true) }
    ensures fault { IfErr result (λ fault. fault ≡ Memory) }
{
    let parents = parents(index, column)?;
    let mut beside = elements(index)?;
    keep_near(index, column, parents.as_slice(), &mut beside);
    Ok(beside)
}

/// Leaves in a column of elements those that have the wanted place among those that are in another one.
pub(crate) fn keep_nth_of(
    index: &Index<'_>,
    nth: &Nth,
    those: &[bool],
    column: &mut Vec<bool>,
) -> Result<(), ParseFault>
    requires { (n : ℕ) → at column.old.items n ≡ true → around.is_element index.now.forest.now n ≡ true }
    ensures ok { OnOk result ((n : ℕ) → at column.new.items n
        ≡ (at column.old.items n && is_nth_of (at those.now) nth.now index.now.forest.now n)) }
    ensures fault { IfErr result (λ fault. fault ≡ Memory) }
{
    let written = places(index, nth.from_end, those, column.as_slice())?;
    keep_those(column, those);
    keep_placed(index, nth, written.as_slice(), column);
    Ok(())
}

// Leaves in a column of elements those that have the wanted place among all elements under their parent.
fn keep_nth_child(
    index: &Index<'_>,
    scope: NodeId,
    nth: &Nth,
    column: &mut Vec<bool>,
) -> Result<(), ParseFault>
    requires { (n : ℕ) → at column.old.items n ≡ true → around.is_element index.now.forest.now n ≡ true }
    ensures ok { OnOk result ((n : ℕ) → at column.new.items n
        ≡ (at column.old.items n && asks.is_simple index.now.forest.now scope n (NthChild nth.now))) }
    ensures fault { IfErr result (λ fault. fault ≡ Memory) }
{
    let written = places(
        index,
        nth.from_end,
        index.elements.as_slice(),
        column.as_slice(),
    )?;
    keep_placed(index, nth, written.as_slice(), column);
    Ok(())
}

// Leaves in a column of elements those that have the wanted place among those of their name under their parent.
fn keep_nth_of_type(
    index: &Index<'_>,
    scope: NodeId,
    nth: &Nth,
    column: &mut Vec<bool>,
) -> Result<(), ParseFault>
    requires { (n : ℕ) → at column.old.items n ≡ true → around.is_element index.now.forest.now n ≡ true }
    ensures ok { OnOk result ((n : ℕ) → at column.new.items n
        ≡ (at column.old.items n && asks.is_simple index.now.forest.now scope n (NthOfType nth.now))) }
    ensures fault { IfErr result (λ fault. fault ≡ Memory) }
{
    let written = places_of_type(index, nth.from_end)?;
    keep_placed(index, nth, written.as_slice(), column);
    Ok(())
}

// Leaves in a column those elements that have an attribute as asked.
fn keep_attribute(
    index: &Index<'_>,
    scope: NodeId,
    test: &AttributeTest,
    column: &mut Vec<bool>,
) -> Result<(), ParseFault>
    ensures ok { OnOk result ((n : ℕ) → at column.new.items n
        ≡ (at column.old.items n && asks.is_simple index.now.forest.now scope n (WithAttribute test.now))) }
    ensures fault { IfErr result (λ fault. fault ≡ Memory) }
{
    let mut lowered = Vec::new(index.alloc);
    lower(&test.value, &mut lowered)?;
    let mut buffer = Vec::new(index.alloc);
    for number in 0..column.len() {
        if column[number] {
            let id = NodeId::new(number);
            let has = has_attribute_by(index.forest, id, test, lowered.as_slice(), &mut buffer)?;
            column[number] = has;
        }
    }
    Ok(())
}

// Leaves in a column of elements those that have a name.
fn keep_named(
    index: &Index<'_>,
    scope: NodeId,
    wanted: &Name,
    column: &mut Vec<bool>,
) -> Result<(), ParseFault>
    requires { (n : ℕ) → at column.old.items n ≡ true → around.is_element index.now.forest.now n ≡ true }
    ensures ok { OnOk result ((n : ℕ) → at column.new.items n
        ≡ (at column.old.items n && asks.is_simple index.now.forest.now scope n («Type» wanted.now))) }
    ensures fault { IfErr result (λ fault. fault ≡ Memory) }
{
    let forest = index.forest;
    let written = LocalName::from_str(index.alloc, wanted.written().as_str())?;
    let lowered = LocalName::from_str(index.alloc, wanted.lowered().as_str())?;
    refine(
        index,
        column,
        |id: NodeId| -> bool
            ensures { (name : List ℕ) → written ≡ name → lowered ≡ map to_ascii_lowercase name
                → result ≡ asks.is_named (element_name (data_of forest.entry.now id)) name }
        { is_named_by(forest, id, &written, &lowered) },
    );
    Ok(())
}

// Leaves in a column of elements those that are as one simple selector asks, each asked by itself.
fn keep_each(index: &Index<'_>, scope: NodeId, simple: &Simple, column: &mut Vec<bool>)
    requires { (n : ℕ) → at column.old.items n ≡ true → around.is_element index.now.forest.now n ≡ true }
    ensures { (n : ℕ) → at column.new.items n
        ≡ (at column.old.items n && asks.is_simple index.now.forest.now scope n simple.now) }
{
    let forest = index.forest;
    refine(
        index,
        column,
        |id: NodeId| -> bool
            ensures { result ≡ asks.is_simple forest.entry.now scope id simple.entry.now }
        { is_simple(forest, scope, id, simple) },
    );
}

// Leaves in a column of elements those that are as one simple selector asks.
fn keep_simple(
    index: &Index<'_>,
    scope: NodeId,
    simple: &Simple,
    column: &mut Vec<bool>,
) -> Result<(), ParseFault>
    requires { (n : ℕ) → at column.old.items n ≡ true → around.is_element index.now.forest.now n ≡ true }
    ensures ok { OnOk result ((n : ℕ) → at column.new.items n
        ≡ (at column.old.items n && asks.is_simple index.now.forest.now scope n simple.now)) }
    ensures fault { IfErr result (λ fault. fault ≡ Memory) }
{
    match simple {
        Simple::NthChild(nth) => keep_nth_child(index, scope, nth, column),
        Simple::NthOfType(nth) => keep_nth_of_type(index, scope, nth, column),
        Simple::Attribute(test) => keep_attribute(index, scope, test, column),
        Simple::Type(wanted) => keep_named(index, scope, wanted, column),
        _ => {
            keep_each(index, scope, simple, column);
            Ok(())
        }
    }
}

/// Leaves in a column of elements those that are as all simple selectors of a list ask.
pub(crate) fn keep_simples(
    index: &Index<'_>,
    scope: NodeId,
    simples: &[Simple],
    column: &mut Vec<bool>,
) -> Result<(), ParseFault>
    requires { (n : ℕ) → at column.old.items n ≡ true → around.is_element index.now.forest.now n ≡ true }
    ensures ok { OnOk result ((n : ℕ) → at column.new.items n
        ≡ (at column.old.items n && list_all (asks.is_simple index.now.forest.now scope n) simples.now)) }
    ensures fault { IfErr result (λ fault. fault ≡ Memory) }
{
    for simple in simples {
        keep_simple(index, scope, simple, column)?;
    }
    Ok(())
}
