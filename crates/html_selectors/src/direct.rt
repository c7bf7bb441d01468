//! Direct selectors, which are asked of one element without a search of the page.
ghost use Rattle.std.specs.Prelude.{◌≡◌, ℕ, true};
ghost use Rattle.std.specs.List.{list_all};
ghost use Rattle.html_selector_matching.specs.Around.{one_of};
ghost use Rattle.html_selector_matching.specs.Selects as selects;
ghost use Rattle.html_selector_matching.specs.Selects.{left_of};
ghost use Rattle.html_selector_matching.specs.Simples as asks;
ghost use Rattle.html_selectors.specs.Direct as direct;

use html_forest::{Forest, NodeId};
use html_selector_matching::{element_before, is_element, is_simple};
use selectors::{Combinator, Complex, Compound, Operator, Selectors, Simple, Tests};

// WHICH SELECTORS ARE DIRECT

fn is_direct_simple(simple: &Simple) -> bool
    ensures { result ≡ direct.is_direct_simple simple.now }
{
    match simple {
        Simple::Attribute(test) => match test.operator {
            Operator::Substring => false,
            _ => true,
        },
        Simple::NthChild(_) => false,
        Simple::NthOfType(_) => false,
        _ => true,
    }
}

fn are_direct_simples(simples: &[Simple]) -> bool
    ensures { result ≡ list_all direct.is_direct_simple simples.now }
{
    for simple in simples {
        if !is_direct_simple(simple) {
            return false;
        }
    }
    true
}

fn leads_to_one(combinator: Combinator) -> bool
    ensures { result ≡ direct.leads_to_one combinator }
{
    match combinator {
        Combinator::Child => true,
        Combinator::NextSibling => true,
        _ => false,
    }
}

/// Whether all of some selectors are direct.
#[cycle(telling)]
pub(crate) fn are_direct(selectors: &Selectors) -> bool
    ensures { result ≡ direct.are_direct selectors.now }
{
    match selectors {
        Selectors::Nothing => true,
        Selectors::Or(one, others) => is_direct(one) && are_direct(others),
    }
}

#[cycle(telling)]
fn is_direct(complex: &Complex) -> bool
    ensures { result ≡ direct.is_direct complex.now }
{
    match complex {
        Complex::Alone(compound) => is_direct_compound(compound),
        Complex::Beside(left, combinator, compound) => {
            leads_to_one(*combinator) && is_direct(left) && is_direct_compound(compound)
        }
    }
}

#[cycle(telling)]
fn is_direct_compound(compound: &Compound) -> bool
    ensures { result ≡ direct.is_direct_compound compound.now }
{
    are_direct_simples(compound.simples.as_slice()) && are_direct_tests(&compound.tests)
}

#[cycle(telling)]
fn are_direct_tests(tests: &Tests) -> bool
    ensures { result ≡ direct.are_direct_tests tests.now }
{
    match tests {
        Tests::Nothing => true,
        Tests::Is(selectors, others) => are_direct(selectors) && are_direct_tests(others),
        Tests::Not(selectors, others) => are_direct(selectors) && are_direct_tests(others),
        Tests::Has(_, _) => false,
        Tests::NthOf(_, _, _) => false,
    }
}

// WHAT THEY SELECT

// Whether a node is as all simple selectors of a list ask.
fn are_simples(forest: &Forest, scope: NodeId, id: NodeId, simples: &[Simple]) -> bool
    ensures { result ≡ list_all (asks.is_simple forest.now scope id) simples.now }
{
    for simple in simples {
        if !is_simple(forest, scope, id, simple) {
            return false;
        }
    }
    true
}

// The node to which a combinator leads from the element on its right.
fn leads_to(forest: &Forest, id: NodeId, combinator: Combinator) -> Option<NodeId>
    requires { direct.leads_to_one combinator ≡ true }
    ensures { one_of result ≡ left_of combinator forest.now id }
{
    match combinator {
        Combinator::Child => forest.parent(id),
        Combinator::NextSibling => element_before(forest, id),
        _ => unreachable!(),
    }
}

/// Whether one of some direct selectors selects a node.
#[cycle(asking)]
pub(crate) fn is_any(forest: &Forest, scope: NodeId, id: NodeId, selectors: &Selectors) -> bool
    requires { direct.are_direct selectors.now ≡ true }
    ensures { result ≡ selects.is_any selectors.now forest.now scope id }
{
    match selectors {
        Selectors::Nothing => false,
        Selectors::Or(one, others) => {
            is_complex(forest, scope, id, one) || is_any(forest, scope, id, others)
        }
    }
}

#[cycle(asking)]
fn is_complex(forest: &Forest, scope: NodeId, id: NodeId, complex: &Complex) -> bool
    requires { direct.is_direct complex.now ≡ true }
    ensures { result ≡ selects.is_complex complex.now forest.now scope id }
{
    match complex {
        Complex::Alone(compound) => is_compound(forest, scope, id, compound),
        Complex::Beside(left, combinator, compound) => {
            is_compound(forest, scope, id, compound)
                && match leads_to(forest, id, *combinator) {
                    Some(other) => is_complex(forest, scope, other, left),
                    None => false,
                }
        }
    }
}

#[cycle(asking)]
fn is_compound(forest: &Forest, scope: NodeId, id: NodeId, compound: &Compound) -> bool
    requires { direct.is_direct_compound compound.now ≡ true }
    ensures { result ≡ selects.is_compound compound.now forest.now scope id }
{
    is_element(forest, id)
        && are_simples(forest, scope, id, compound.simples.as_slice())
        && passes(forest, scope, id, &compound.tests)
}

#[cycle(asking)]
fn passes(forest: &Forest, scope: NodeId, id: NodeId, tests: &Tests) -> bool
    requires { direct.are_direct_tests tests.now ≡ true }
    ensures { result ≡ selects.passes tests.now forest.now scope id }
{
    match tests {
        Tests::Nothing => true,
        Tests::Is(selectors, others) => {
            is_any(forest, scope, id, selectors) && passes(forest, scope, id, others)
        }
        Tests::Not(selectors, others) => {
            !is_any(forest, scope, id, selectors) && passes(forest, scope, id, others)
        }
        Tests::Has(_, _) => unreachable!(),
        Tests::NthOf(_, _, _) => unreachable!(),
    }
}
