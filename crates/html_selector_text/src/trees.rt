//! Selectors put together.
ghost use Rattle.std.specs.Prelude.{◌≡◌, IfOk, IfErr, map};
ghost use Rattle.markup.specs.declared.fault.ParseFault.TheVariants.{Memory};
ghost use Rattle.html_selector_text.specs.Grammar as grammar;
ghost use Rattle.html_selector_text.specs.Grammar.{in_front, has_alone, tested};
ghost use Rattle.html_selector_text.specs.Trees as trees;
ghost use Rattle.html_selector_text.specs.Trees.{left_tree};
ghost use Rattle.html_selector_text.specs.Trees.{list_tree, complex_tree, relative_tree, compound_tree, BesideTree, ThenTree, OrSelector};

use crate::simples::Test;
use markup::ParseFault;
use selectors::{Combinator, Complex, Compound, Relative, Selectors, Simple, Tests};
use std::alloc::Global;

/// A compound selector with one simple selector more.
pub(crate) fn with_simple(so_far: Compound, simple: Simple) -> Result<Compound, ParseFault>
    ensures ok { IfOk result (λ made. compound_tree made ≡ grammar.with_simple (compound_tree so_far) simple) }
    ensures fault { IfErr result (λ fault. fault ≡ Memory) }
{
    let Compound { mut simples, tests } = so_far;
    simples.push(simple)?;
    Ok(Compound { simples, tests })
}

/// A compound selector with one test in front of its tests.
pub(crate) fn with_test(
    alloc: Global,
    test: Test,
    selectors: Selectors,
    others: Compound,
) -> Result<Compound, ParseFault>
    ensures ok { IfOk result (λ made. compound_tree made ≡ tested test (list_tree selectors) (compound_tree others)) }
    ensures fault { IfErr result (λ fault. fault ≡ Memory) }
{
    let Compound { simples, tests } = others;
    let selectors = Box::new(alloc, selectors)?;
    let others = Box::new(alloc, tests)?;
    let tests = match test {
        Test::Is => Tests::Is(selectors, others),
        Test::Not => Tests::Not(selectors, others),
        Test::NthOf(nth) => Tests::NthOf(nth, selectors, others),
    };
    Ok(Compound { simples, tests })
}

/// A selector with a combinator and a compound selector behind it.
pub(crate) fn with_right(
    alloc: Global,
    left: Complex,
    combinator: Combinator,
    right: Compound,
) -> Result<Complex, ParseFault>
    ensures ok { IfOk result (λ made. complex_tree made
        ≡ BesideTree (complex_tree left) combinator (compound_tree right).simples (compound_tree right).tests) }
    ensures fault { IfErr result (λ fault. fault ≡ Memory) }
{
    Ok(Complex::Beside(Box::new(alloc, left)?, combinator, right))
}

/// A relative selector with a combinator and a compound selector in front of it.
fn with_left(
    alloc: Global,
    combinator: Combinator,
    left: Compound,
    rest: Relative,
) -> Result<Relative, ParseFault>
    ensures ok { IfOk result (λ made. relative_tree made
        ≡ ThenTree combinator (compound_tree left).simples (compound_tree left).tests (relative_tree rest)) }
    ensures fault { IfErr result (λ fault. fault ≡ Memory) }
{
    Ok(Relative::Then(combinator, left, Box::new(alloc, rest)?))
}

/// A compound selector with the combinator in front of it.
#[derive(Drop)]
pub(crate) struct LeftPart {
    pub combinator: Combinator,
    pub compound: Compound,
}

/// A relative selector with compound selectors in front of it.
#[tactic(auto, using(crate::proofs::Turns::joined_last))]
pub(crate) fn joined(
    alloc: Global,
    lefts: Vec<LeftPart>,
    last: Relative,
) -> Result<Relative, ParseFault>
    ensures ok { IfOk result (λ made. relative_tree made ≡ trees.joined (map left_tree lefts.items) (relative_tree last)) }
    ensures fault { IfErr result (λ fault. fault ≡ Memory) }
{
    let mut lefts = lefts;
    let mut relative = last;
    while let Some(
        LeftPart {
            combinator,
            compound,
        },
    ) = lefts.pop()
    {
        relative = with_left(alloc, combinator, compound, relative)?;
    }
    Ok(relative)
}

/// A selector that asks `:has()` alone.
pub(crate) fn asking_has(alloc: Global, relative: Relative) -> Result<Complex, ParseFault>
    ensures ok { IfOk result (λ made. complex_tree made ≡ has_alone (relative_tree relative)) }
    ensures fault { IfErr result (λ fault. fault ≡ Memory) }
{
    let relative = Box::new(alloc, relative)?;
    let others = Box::new(alloc, Tests::Nothing)?;
    Ok(Complex::Alone(Compound {
        simples: Vec::new(alloc),
        tests: Tests::Has(relative, others),
    }))
}

/// A list with one selector more in front.
pub(crate) fn with_one(
    alloc: Global,
    one: Complex,
    others: Selectors,
) -> Result<Selectors, ParseFault>
    ensures ok { IfOk result (λ made. list_tree made ≡ OrSelector (complex_tree one) (list_tree others)) }
    ensures fault { IfErr result (λ fault. fault ≡ Memory) }
{
    let one = Box::new(alloc, one)?;
    let others = Box::new(alloc, others)?;
    Ok(Selectors::Or(one, others))
}
