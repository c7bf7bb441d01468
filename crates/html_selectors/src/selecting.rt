//! Which elements of a page selectors select: one column for each part of the selectors.
ghost use Rattle.std.specs.Prelude.{◌≡◌, ◌&&◌, ◌∷◌, ℕ, IfErr, IfOk, OnOk, cond, filter, find, true};
ghost use Rattle.std.specs.List.{list_any};
ghost use Rattle.markup.specs.declared.fault.ParseFault.TheVariants.{Memory};
ghost use Rattle.html_nodes.specs.Below.{below};
ghost use Rattle.html_selector_matching.specs.Around.{above, is_element};
ghost use Rattle.html_selector_matching.specs.Selects as selects;
ghost use Rattle.html_selector_matching.specs.Selects.{goes_on, is_nth_of, left_of, right_of, scope_of};
ghost use Rattle.selectors.specs.declared.selector.Combinator.TheVariants.{Child, Descendant};
ghost use Rattle.html_selectors.specs.Columns.{at};
ghost use Rattle.html_selectors.specs.Relatives.{first_of};

use crate::asked::Asked;
use crate::column::{drop_those, either, is_in, keep_those};
use crate::direct::are_direct;
use crate::each::select_each;
use crate::keeping::{
    elements, keep_inside, keep_left, keep_nth_of, keep_right, keep_simples, siblings,
};
use crate::lines::over;
use crate::page_index::Index;
use html_forest::{Forest, NodeId};
use html_nodes::nodes_below;
use html_selector_matching::{nodes_above, scope_of};
use markup::ParseFault;
use selectors::{Combinator, Complex, Compound, Nth, Relative, Selectors, Tests};
use std::alloc::Global;

// So many combinators of a selector are read from the right.
const NARROW: u8 = 4;

// Those of some elements that one of the selectors selects.
#[cycle(columns)]
fn column_of(
    index: &Index<'_>,
    scope: NodeId,
    selectors: &Selectors,
    within: &[bool],
) -> Result<Vec<bool>, ParseFault>
    requires { (n : ℕ) → at within.now n ≡ true → is_element index.now.forest.now n ≡ true }
    ensures ok { IfOk result (λ column. (n : ℕ) → at column.items n
        ≡ (at within.now n && selects.is_any selectors.now index.now.forest.now scope n)) }
    ensures fault { IfErr result (λ fault. fault ≡ Memory) }
{
    match selectors {
        Selectors::Nothing => Ok(Vec::new(index.alloc)),
        Selectors::Or(one, others) => {
            let others = column_of(index, scope, others, within)?;
            let one = column_of_complex(index, scope, one, within, NARROW)?;
            Ok(either(one, others))
        }
    }
}

// Those of some elements that a selector selects. As many combinators as `narrow` says are read from the right, where a search that goes
// up needs to look for the left side only above what the right side selects; each of them keeps its columns meanwhile.
#[cycle(columns)]
fn column_of_complex(
    index: &Index<'_>,
    scope: NodeId,
    complex: &Complex,
    within: &[bool],
    narrow: u8,
) -> Result<Vec<bool>, ParseFault>
    requires { (n : ℕ) → at within.now n ≡ true → is_element index.now.forest.now n ≡ true }
    ensures ok { IfOk result (λ column. (n : ℕ) → at column.items n
        ≡ (at within.now n && selects.is_complex complex.now index.now.forest.now scope n)) }
    ensures fault { IfErr result (λ fault. fault ≡ Memory) }
{
    match complex {
        Complex::Alone(compound) => column_of_compound(index, scope, compound, within),
        Complex::Beside(left, combinator, compound) => {
            let less = narrow.saturating_sub(1);
            if narrow > 0 && *combinator == Combinator::Descendant {
                let column = column_of_compound(index, scope, compound, within)?;
                return column_inside(index, scope, left, true, column, less);
            }
            if narrow > 0 && *combinator == Combinator::Child {
                let column = column_of_compound(index, scope, compound, within)?;
                return column_inside(index, scope, left, false, column, less);
            }
            let those = selected_by_complex(index, scope, left, narrow)?;
            let column = column_right(
                index,
                scope,
                compound,
                *combinator,
                those.as_slice(),
                within,
            )?;
            Ok(column)
        }
    }
}

// The elements that a selector selects.
#[cycle(columns)]
fn selected_by_complex(
    index: &Index<'_>,
    scope: NodeId,
    complex: &Complex,
    narrow: u8,
) -> Result<Vec<bool>, ParseFault>
    ensures ok { IfOk result (λ column. (n : ℕ) → at column.items n ≡ selects.is_complex complex.now index.now.forest.now scope n) }
    ensures elements { IfOk result (λ column. (n : ℕ) → at column.items n ≡ true → is_element index.now.forest.now n ≡ true) }
    ensures fault { IfErr result (λ fault. fault ≡ Memory) }
{
    let column = column_of_complex(index, scope, complex, index.elements.as_slice(), narrow)?;
    Ok(column)
}

// Those of a column of elements above which stands one that a selector selects: as the parent, or where it is asked anywhere.
#[cycle(columns)]
fn column_inside(
    index: &Index<'_>,
    scope: NodeId,
    left: &Complex,
    deep: bool,
    mut column: Vec<bool>,
    narrow: u8,
) -> Result<Vec<bool>, ParseFault>
    requires { (n : ℕ) → at column.items n ≡ true → is_element index.now.forest.now n ≡ true }
    ensures ok { IfOk result (λ inside. (n : ℕ) → at inside.items n
        ≡ (at column.items n && list_any (λ m. selects.is_complex left.now index.now.forest.now scope m)
        (left_of (cond deep Descendant Child) index.now.forest.now n))) }
    ensures fault { IfErr result (λ fault. fault ≡ Memory) }
{
    index.forest.keeps();
    let wanted = over(index, column.as_slice())?;
    let mut there = elements(index)?;
    keep_those(&mut there, wanted.as_slice());
    let those = column_of_complex(index, scope, left, there.as_slice(), narrow)?;
    keep_inside(
        index,
        deep,
        wanted.as_slice(),
        those.as_slice(),
        &mut column,
    )?;
    Ok(column)
}

// Those of some elements that a compound selector selects, and on whose left stands an element of a column, as a combinator says.
#[cycle(columns)]
fn column_right(
    index: &Index<'_>,
    scope: NodeId,
    compound: &Compound,
    combinator: Combinator,
    left: &[bool],
    within: &[bool],
) -> Result<Vec<bool>, ParseFault>
    requires left { (n : ℕ) → at left.now n ≡ true → is_element index.now.forest.now n ≡ true }
    requires within { (n : ℕ) → at within.now n ≡ true → is_element index.now.forest.now n ≡ true }
    ensures ok { IfOk result (λ column. (n : ℕ) → at column.items n
        ≡ ((at within.now n && selects.is_compound compound.now index.now.forest.now scope n)
        && list_any (at left.now) (left_of combinator index.now.forest.now n))) }
    ensures fault { IfErr result (λ fault. fault ≡ Memory) }
{
    let mut column = column_of_compound(index, scope, compound, within)?;
    keep_right(index, combinator, left, &mut column)?;
    Ok(column)
}

// Those of some elements that a compound selector selects.
#[cycle(columns)]
fn column_of_compound(
    index: &Index<'_>,
    scope: NodeId,
    compound: &Compound,
    within: &[bool],
) -> Result<Vec<bool>, ParseFault>
    requires { (n : ℕ) → at within.now n ≡ true → is_element index.now.forest.now n ≡ true }
    ensures ok { IfOk result (λ column. (n : ℕ) → at column.items n
        ≡ (at within.now n && selects.is_compound compound.now index.now.forest.now scope n)) }
    ensures fault { IfErr result (λ fault. fault ≡ Memory) }
{
    let mut column = Vec::from_slice(index.alloc, within)?;
    keep_simples(index, scope, compound.simples.as_slice(), &mut column)?;
    keep_passing(index, scope, &compound.tests, &mut column)?;
    Ok(column)
}

/// The elements that one of the selectors selects.
pub(crate) fn selected(
    index: &Index<'_>,
    scope: NodeId,
    selectors: &Selectors,
) -> Result<Vec<bool>, ParseFault>
    ensures ok { IfOk result (λ column. (n : ℕ) → at column.items n ≡ selects.is_any selectors.now index.now.forest.now scope n) }
    ensures fault { IfErr result (λ fault. fault ≡ Memory) }
{
    let column = column_of(index, scope, selectors, index.elements.as_slice())?;
    Ok(column)
}

// The elements that are as the first compound selector of a relative one asks, and have what follows.
#[cycle(columns)]
fn column_of_relative(
    index: &Index<'_>,
    scope: NodeId,
    relative: &Relative,
) -> Result<Vec<bool>, ParseFault>
    ensures ok { IfOk result (λ column. (n : ℕ) → at column.items n ≡ goes_on relative.now index.now.forest.now scope n) }
    ensures fault { IfErr result (λ fault. fault ≡ Memory) }
{
    match relative {
        Relative::To(_, compound) => {
            column_of_compound(index, scope, compound, index.elements.as_slice())
        }
        Relative::Then(_, compound, rest) => {
            let right = column_of_relative(index, scope, rest)?;
            let column = column_left(index, scope, compound, first_of(rest), right.as_slice())?;
            Ok(column)
        }
    }
}

// The elements that a compound selector selects, and on whose right stands one of a column of elements, as a combinator says.
#[cycle(columns)]
fn column_left(
    index: &Index<'_>,
    scope: NodeId,
    compound: &Compound,
    combinator: Combinator,
    right: &[bool],
) -> Result<Vec<bool>, ParseFault>
    requires { (n : ℕ) → at right.now n ≡ true → is_element index.now.forest.now n ≡ true }
    ensures ok { IfOk result (λ column. (n : ℕ) → at column.items n
        ≡ (selects.is_compound compound.now index.now.forest.now scope n
        && list_any (at right.now) (right_of combinator index.now.forest.now n))) }
    ensures fault { IfErr result (λ fault. fault ≡ Memory) }
{
    let mut within = elements(index)?;
    keep_left(index, combinator, right, &mut within)?;
    let column = column_of_compound(index, scope, compound, within.as_slice())?;
    Ok(column)
}

// The combinator that a relative selector begins with.
fn first_of(relative: &Relative) -> Combinator
    ensures { result ≡ first_of relative.now }
{
    match relative {
        Relative::To(combinator, _) => *combinator,
        Relative::Then(combinator, _, _) => *combinator,
    }
}

// Leaves in a column of elements those that pass tests.
#[cycle(columns)]
fn keep_passing(
    index: &Index<'_>,
    scope: NodeId,
    tests: &Tests,
    column: &mut Vec<bool>,
) -> Result<(), ParseFault>
    requires { (n : ℕ) → at column.old.items n ≡ true → is_element index.now.forest.now n ≡ true }
    ensures ok { OnOk result ((n : ℕ) → at column.new.items n
        ≡ (at column.old.items n && selects.passes tests.now index.now.forest.now scope n)) }
    ensures fault { IfErr result (λ fault. fault ≡ Memory) }
{
    match tests {
        Tests::Nothing => Ok(()),
        Tests::Is(selectors, others) => {
            let those = column_of(index, scope, selectors, column.as_slice())?;
            *column = those;
            keep_passing(index, scope, others, column)
        }
        Tests::Not(selectors, others) => {
            let those = column_of(index, scope, selectors, column.as_slice())?;
            drop_those(column, those.as_slice());
            drop(those);
            keep_passing(index, scope, others, column)
        }
        Tests::Has(relative, others) => {
            let those = column_of_relative(index, scope, relative)?;
            keep_left(index, first_of(relative), those.as_slice(), column)?;
            drop(those);
            keep_passing(index, scope, others, column)
        }
        Tests::NthOf(nth, selectors, others) => {
            keep_nth(index, scope, nth, selectors, column)?;
            keep_passing(index, scope, others, column)
        }
    }
}

// Leaves in a column of elements those that selectors select, and that have the wanted place among their siblings that are. The selectors
// are asked of these alone.
#[cycle(columns)]
fn keep_nth(
    index: &Index<'_>,
    scope: NodeId,
    nth: &Nth,
    selectors: &Selectors,
    column: &mut Vec<bool>,
) -> Result<(), ParseFault>
    requires { (n : ℕ) → at column.old.items n ≡ true → is_element index.now.forest.now n ≡ true }
    ensures ok { OnOk result ((n : ℕ) → at column.new.items n
        ≡ (at column.old.items n && is_nth_of (λ m. selects.is_any selectors.now index.now.forest.now scope m) nth.now index.now.forest.now n)) }
    ensures fault { IfErr result (λ fault. fault ≡ Memory) }
{
    index.forest.keeps();
    let beside = siblings(index, column.as_slice())?;
    let those = column_of(index, scope, selectors, beside.as_slice())?;
    keep_nth_of(index, nth, those.as_slice(), column)?;
    Ok(())
}

// Those of some nodes that are in a column.
fn those_of(alloc: Global, nodes: &[NodeId], column: &[bool]) -> Result<Vec<NodeId>, ParseFault>
    ensures ok { IfOk result (λ found. found.items ≡ filter (at column.now) nodes.now) }
    ensures fault { IfErr result (λ fault. fault ≡ Memory) }
{
    let mut found = Vec::new(alloc);
    for id in nodes {
        if is_in(column, *id) {
            found.push(*id)?;
        }
    }
    Ok(found)
}

// Those of the nodes below a node that are in a column.
fn those_below(index: &Index<'_>, top: NodeId, column: &[bool]) -> Result<Vec<NodeId>, ParseFault>
    ensures ok { IfOk result (λ found. found.items ≡ filter (at column.now) (below index.now.forest.now top)) }
    ensures fault { IfErr result (λ fault. fault ≡ Memory) }
{
    let mut found = Vec::new(index.alloc);
    for id in nodes_below(index.forest, top) {
        if is_in(column, id) {
            found.push(id)?;
        }
    }
    Ok(found)
}

impl<'f> Index<'f> {
    /// The elements below a node that are selected, in tree order. `:scope` is that node, or where it is no element the first element
    /// in it.
    ///
    /// Time grows with the number of nodes of the page times the length of the selectors; memory with the number of nodes times how
    /// deep the selectors stand in one another.
    ///
    /// Errors: [`ParseFault::Memory`].
    pub fn select_all(&self, top: NodeId, selectors: &Selectors) -> Result<Vec<NodeId>, ParseFault>
        ensures ok { IfOk result (λ found. found.items
            ≡ filter (selects.is_any selectors.now self.now.forest.now (scope_of self.now.forest.now top))
            (below self.now.forest.now top)) }
        ensures fault { IfErr result (λ fault. fault ≡ Memory) }
    {
        let column = selected(self, scope_of(self.forest, top), selectors)?;
        match self.listed_below(top) {
            Some(nodes) => those_of(self.alloc, nodes, column.as_slice()),
            None => those_below(self, top, column.as_slice()),
        }
    }

    /// The first of the elements below a node that are selected. `:scope` and errors are as for [`select_all`](Index::select_all), time and
    /// memory as for [`select_each`](Index::select_each).
    pub fn select_first(
        &self,
        top: NodeId,
        selectors: &Selectors,
    ) -> Result<Option<NodeId>, ParseFault>
        ensures ok { IfOk result (λ found. found
            ≡ find (selects.is_any selectors.now self.now.forest.now (scope_of self.now.forest.now top)) (below self.now.forest.now top)) }
        ensures fault { IfErr result (λ fault. fault ≡ Memory) }
    {
        let mut each = self.select_each(top, selectors)?;
        Ok(each.next())
    }

    /// Whether an element is selected. `:scope` is the element itself. Memory and errors are as for [`select_all`](Index::select_all); time
    /// too, but for the selectors that [`select_each`](Index::select_each) names, of which it grows with their length alone.
    pub fn matches(&self, id: NodeId, selectors: &Selectors) -> Result<bool, ParseFault>
        ensures ok { IfOk result (λ is. is ≡ selects.is_any selectors.now self.now.forest.now id id) }
        ensures fault { IfErr result (λ fault. fault ≡ Memory) }
    {
        let asked = Asked::new(self, id, selectors)?;
        Ok(asked.is_selected(id))
    }

    /// The nearest of an element and those above it that is selected. `:scope` is the element. Time, memory and errors are as for
    /// [`matches`](Index::matches) of each of these, but that the page is searched once.
    pub fn closest(&self, id: NodeId, selectors: &Selectors) -> Result<Option<NodeId>, ParseFault>
        ensures ok { IfOk result (λ found. found
            ≡ find (selects.is_any selectors.now self.now.forest.now id) (id ∷ above self.now.forest.now id)) }
        ensures fault { IfErr result (λ fault. fault ≡ Memory) }
    {
        let asked = Asked::new(self, id, selectors)?;
        if asked.is_selected(id) {
            return Ok(Some(id));
        }
        for up in nodes_above(self.forest, id) {
            if asked.is_selected(up) {
                return Ok(Some(up));
            }
        }
        Ok(None)
    }
}

// The elements below a node that direct selectors select.
fn select_directly(
    alloc: Global,
    forest: &Forest,
    top: NodeId,
    selectors: &Selectors,
) -> Result<Vec<NodeId>, ParseFault>
    ensures ok { IfOk result (λ found. found.items
        ≡ filter (selects.is_any selectors.now forest.now (scope_of forest.now top)) (below forest.now top)) }
    ensures fault { IfErr result (λ fault. fault ≡ Memory) }
{
    let mut found = Vec::new(alloc);
    for id in select_each(alloc, forest, top, selectors)? {
        found.push(id)?;
    }
    Ok(found)
}

/// The elements below a node that are selected, in tree order, by an [`Index`] that is made for it, if the selectors need one. `:scope` is
/// that node, or where it is no element the first element in it.
///
/// Errors: [`ParseFault::Memory`].
pub fn select_all(
    alloc: Global,
    forest: &Forest,
    top: NodeId,
    selectors: &Selectors,
) -> Result<Vec<NodeId>, ParseFault>
    ensures ok { IfOk result (λ found. found.items
        ≡ filter (selects.is_any selectors.now forest.now (scope_of forest.now top)) (below forest.now top)) }
    ensures fault { IfErr result (λ fault. fault ≡ Memory) }
{
    if are_direct(selectors) {
        return select_directly(alloc, forest, top, selectors);
    }
    let index = Index::new(alloc, forest)?;
    index.select_all(top, selectors)
}

/// The first of the elements below a node that are selected, in time as for [`select_each`]. `:scope` is as for [`select_all`].
///
/// Errors: [`ParseFault::Memory`].
pub fn select_first(
    alloc: Global,
    forest: &Forest,
    top: NodeId,
    selectors: &Selectors,
) -> Result<Option<NodeId>, ParseFault>
    ensures ok { IfOk result (λ found. found
        ≡ find (selects.is_any selectors.now forest.now (scope_of forest.now top)) (below forest.now top)) }
    ensures fault { IfErr result (λ fault. fault ≡ Memory) }
{
    let mut each = select_each(alloc, forest, top, selectors)?;
    Ok(each.next())
}
