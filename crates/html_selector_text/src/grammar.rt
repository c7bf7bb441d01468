//! Tokens to selectors (Selectors Level 4, sections 3.1, 4 and 18).
ghost use Rattle.std.specs.Prelude.{◌≡◌, ◌++◌, ◌<◌, [], true, Option, Some, None, Ok, Err, IfOk, IfErr, OnOk, length, option_map};
ghost use Rattle.std.specs.Str.{chars};
ghost use Rattle.markup.specs.declared.fault.ParseFault.TheVariants.{Memory};
ghost use Rattle.html_selector_text.specs.Grammar as defined;
ghost use Rattle.html_selector_text.specs.Turns.{turn_seen};
ghost use Rattle.html_selector_text.specs.Results.{Gives, MovedTo};
ghost use Rattle.html_selector_text.specs.Trees.{list_tree, complex_tree, relative_tree, compound_tree, tests_tree};

use crate::fault::{SelectorError, SyntaxFault};
use crate::meanings::meaning_tokens;
use crate::reading::{
    ends, is_delim, is_delim_kind, is_end_kind, past, past_close, past_spaces, place, wrong,
};
use crate::simples::{ListKind, Meaning, Part, Test, next_part, type_selector};
use crate::tokens::{Token, TokenKind};
use crate::trees::{LeftPart, asking_has, joined, with_one, with_right, with_simple, with_test};
use markup::ParseFault;
use selectors::{Combinator, Complex, Compound, Relative, Selectors, Simple, Tests};
use std::alloc::Global;

// COMBINATORS

fn written_combinator(tokens: &[Token]) -> Option<Combinator>
    ensures { result ≡ defined.written_combinator tokens.now }
{
    if is_delim(tokens, '>') {
        Some(Combinator::Child)
    } else if is_delim(tokens, '+') {
        Some(Combinator::NextSibling)
    } else if is_delim(tokens, '~') {
        Some(Combinator::SubsequentSibling)
    } else {
        None
    }
}

fn past_written(tokens: &[Token]) -> &[Token]
    ensures { result.now ≡ defined.past_written tokens.now }
{
    if written_combinator(tokens).is_some() {
        past_spaces(past(tokens, 1))
    } else {
        tokens
    }
}

// A combinator, if one stands here with a compound selector behind it.
#[tactic(auto, unfolding(crate::specs::Grammar::combinator_of))]
fn combinator_of(tokens: &[Token]) -> Option<Combinator>
    ensures { result ≡ defined.combinator_of tokens.now }
{
    let rest = past_spaces(tokens);
    match written_combinator(rest) {
        Some(combinator) => Some(combinator),
        None => {
            if rest.len() < tokens.len() && !ends(rest) {
                Some(Combinator::Descendant)
            } else {
                None
            }
        }
    }
}

// What follows a combinator and the white space around it.
#[tactic(auto, unfolding(crate::specs::Grammar::past_combinator))]
fn past_combinator(tokens: &[Token]) -> &[Token]
    ensures { result.now ≡ defined.past_combinator tokens.now }
{
    past_written(past_spaces(tokens))
}

// LISTS THAT FORGIVE

// Adds what closes the bracket that a token opens.
fn push_closer(opened: &mut Vec<char>, kind: &TokenKind) -> Result<(), ParseFault>
    ensures ok { OnOk result (opened.new.items ≡ opened.old.items ++ defined.closers kind.now) }
    ensures fault { IfErr result (λ fault. fault ≡ Memory) }
{
    match kind {
        TokenKind::Function(_) => opened.push(')')?,
        TokenKind::Delim('(') => opened.push(')')?,
        TokenKind::Delim('[') => opened.push(']')?,
        TokenKind::Delim('{') => opened.push('}')?,
        _ => {}
    }
    Ok(())
}

// The open brackets after one token more.
fn change_brackets(opened: &mut Vec<char>, kind: &TokenKind) -> Result<(), ParseFault>
    ensures ok { OnOk result (opened.new.items ≡ defined.brackets_after opened.old.items kind.now) }
    ensures fault { IfErr result (λ fault. fault ≡ Memory) }
{
    let count = opened.len();
    if count > 0 && is_delim_kind(kind, opened[count - 1]) {
        opened.truncate(count - 1);
        return Ok(());
    }
    push_closer(opened, kind)
}

// What follows a selector that was not understood.
fn past_values(alloc: Global, tokens: &[Token]) -> Result<&[Token], ParseFault>
    ensures ok { IfOk result (λ rest. rest.now ≡ defined.past_values [] tokens.now) }
    ensures fault { IfErr result (λ fault. fault ≡ Memory) }
{
    let mut opened = Vec::new(alloc);
    let mut rest = tokens;
    while let Some((token, others)) = rest.split_first() {
        if is_end_kind(&token.kind) || opened.is_empty() && ends(rest) {
            return Ok(rest);
        }
        change_brackets(&mut opened, &token.kind)?;
        rest = others;
    }
    Ok(rest)
}

fn is_final(fault: SyntaxFault) -> bool
    ensures { result ≡ defined.is_final fault }
{
    match fault {
        SyntaxFault::TooDeep => true,
        SyntaxFault::TooManyParts => true,
        _ => false,
    }
}

// What a list that forgives makes of a selector and what follows it.
fn kept_or_left_out<'a>(
    alloc: Global,
    one: Complex,
    rest: &'a [Token],
    tokens: &'a [Token],
) -> Result<(Option<Complex>, &'a [Token]), SelectorError>
    ensures { Gives (λ x. (option_map complex_tree x.0, x.1.now)) result
        (defined.forgiven (Ok (complex_tree one, rest.now)) tokens.now) }
{
    if ends(rest) {
        Ok((Some(one), rest))
    } else {
        Ok((None, past_values(alloc, tokens)?))
    }
}

// What a list that forgives makes of a fault.
fn fault_or_left_out<'a>(
    alloc: Global,
    fault: SyntaxFault,
    at: usize,
    tokens: &'a [Token],
) -> Result<(Option<Complex>, &'a [Token]), SelectorError>
    ensures { Gives (λ x. (option_map complex_tree x.0, x.1.now)) result
        (defined.forgiven (Err (record { fault = fault; at = at })) tokens.now) }
{
    if is_final(fault) {
        Err(SelectorError::Syntax { fault, at })
    } else {
        Ok((None, past_values(alloc, tokens)?))
    }
}

// What a list that forgives makes of what was read of a selector.
fn forgiven<'a>(
    alloc: Global,
    read: Result<(Complex, &'a [Token]), SelectorError>,
    tokens: &'a [Token],
) -> Result<(Option<Complex>, &'a [Token]), SelectorError>
    ensures { (expected : defined.ComplexRead) → Gives (λ x. (complex_tree x.0, x.1.now)) read.entry expected
        → Gives (λ x. (option_map complex_tree x.0, x.1.now)) result (defined.forgiven expected tokens.now) }
{
    match read {
        Ok((one, rest)) => kept_or_left_out(alloc, one, rest, tokens),
        Err(SelectorError::Memory) => Err(SelectorError::Memory),
        Err(SelectorError::Syntax { fault, at }) => fault_or_left_out(alloc, fault, at, tokens),
    }
}

fn in_front(alloc: Global, one: Option<Complex>, others: Selectors) -> Result<Selectors, ParseFault>
    ensures ok { IfOk result (λ made. list_tree made ≡ defined.in_front (option_map complex_tree one) (list_tree others)) }
    ensures fault { IfErr result (λ fault. fault ≡ Memory) }
{
    match one {
        Some(one) => with_one(alloc, one, others),
        None => Ok(others),
    }
}

// The selectors of a list, if it ends here.
fn finished(selectors: Selectors, tokens: &[Token]) -> Result<(Selectors, &[Token]), SelectorError>
    ensures { Gives (λ x. (list_tree x.0, x.1.now)) result (defined.finished (list_tree selectors) tokens.now) }
{
    if ends(tokens) {
        Ok((selectors, tokens))
    } else {
        Err(wrong(SyntaxFault::Unexpected, tokens))
    }
}

// COMPOUND SELECTORS

fn is_relative(kind: ListKind) -> bool
    ensures { result ≡ defined.is_relative kind }
{
    match kind {
        ListKind::Relative => true,
        _ => false,
    }
}

fn missing(tokens: &[Token]) -> SyntaxFault
    ensures { result ≡ defined.missing tokens.now }
{
    if ends(tokens) {
        SyntaxFault::NoSelector
    } else {
        SyntaxFault::Unexpected
    }
}

// What is wrong with the selectors that a pseudo-class stands for is wrong where it stands.
fn told_at(at: usize, error: SelectorError) -> SelectorError
    ensures { MovedTo at error result }
{
    match error {
        SelectorError::Memory => SelectorError::Memory,
        SelectorError::Syntax { fault, .. } => SelectorError::Syntax { fault, at },
    }
}

// The selectors that a pseudo-class stands for.
#[cycle(grammar)]
#[tactic(auto, unfolding(crate::specs::Grammar::meant))]
fn meant(
    alloc: Global,
    depth: u8,
    in_has: bool,
    at: usize,
    meaning: Meaning,
) -> Result<Selectors, SelectorError>
    ensures { Gives list_tree result (defined.meant (defined.list_at depth) in_has at meaning) }
{
    let tokens = meaning_tokens(alloc, meaning)?;
    match list(alloc, depth, in_has, ListKind::Plain, tokens.as_slice()) {
        Ok((selectors, _)) => Ok(selectors),
        Err(error) => Err(told_at(at, error)),
    }
}

// A compound selector with a simple selector more, and what follows.
fn with_one_more(
    so_far: Compound,
    simple: Simple,
    rest: &[Token],
) -> Result<(bool, Compound, &[Token]), SelectorError>
    ensures { Gives turn_seen result (defined.turned true (defined.with_simple (compound_tree so_far) simple) rest.now) }
{
    Ok((true, with_simple(so_far, simple)?, rest))
}

// A compound selector with a test more, and what follows.
fn with_one_test<'a>(
    alloc: Global,
    test: Test,
    selectors: Selectors,
    so_far: Compound,
    rest: &'a [Token],
) -> Result<(bool, Compound, &'a [Token]), SelectorError>
    ensures { Gives turn_seen result
        (defined.turned true (defined.tested test (list_tree selectors) (compound_tree so_far)) rest.now) }
{
    Ok((true, with_test(alloc, test, selectors, so_far)?, rest))
}

// A compound selector with a part, which begins at a place, if it is one; whether it is; and what follows.
#[cycle(grammar)]
fn with_part<'a>(
    alloc: Global,
    depth: u8,
    in_has: bool,
    so_far: Compound,
    at: usize,
    part: Part,
    rest: &'a [Token],
) -> Result<(bool, Compound, &'a [Token]), SelectorError>
    ensures { Gives turn_seen result (defined.with_part (defined.list_at depth) in_has (compound_tree so_far) at part rest.now) }
{
    match part {
        Part::Nothing => Ok((false, so_far, rest)),
        Part::One(simple) => with_one_more(so_far, simple, rest),
        Part::Two(simple, other) => with_one_more(with_simple(so_far, simple)?, other, rest),
        Part::List(test, kind) => {
            let (selectors, rest) = list(alloc, depth, in_has || is_relative(kind), kind, rest)?;
            with_one_test(alloc, test, selectors, so_far, past_close(rest))
        }
        Part::Stands(meaning) => {
            let selectors = meant(alloc, depth, in_has, at, meaning)?;
            with_one_test(alloc, Test::Is, selectors, so_far, rest)
        }
    }
}

// A compound selector with one more part, if there is one, whether there was, and what follows.
#[cycle(grammar)]
#[tactic(auto, unfolding(crate::specs::Grammar::turn))]
fn turn<'a>(
    alloc: Global,
    depth: u8,
    in_has: bool,
    so_far: Compound,
    tokens: &'a [Token],
) -> Result<(bool, Compound, &'a [Token]), SelectorError>
    ensures { Gives turn_seen result (defined.turn (defined.list_at depth) in_has (compound_tree so_far) tokens.now) }
{
    let (part, rest) = next_part(alloc, in_has, tokens)?;
    let at = place(past(tokens, 1));
    with_part(alloc, depth, in_has, so_far, at, part, rest)
}

// At most so many parts of a compound selector, behind its type.
#[cycle(grammar)]
#[tactic(auto, using(crate::proofs::Turns::parts_step, crate::proofs::Turns::parts_fails))]
fn parts<'a>(
    alloc: Global,
    depth: u8,
    in_has: bool,
    left: usize,
    so_far: Compound,
    tokens: &'a [Token],
) -> Result<(Compound, &'a [Token]), SelectorError>
    ensures { Gives (λ x. (compound_tree x.0, x.1.now)) result
        (defined.parts (defined.list_at depth) in_has left (compound_tree so_far) tokens.now) }
{
    let mut compound = so_far;
    let mut rest = tokens;
    for _ in 0..left {
        let (goes_on, more, others) = turn(alloc, depth, in_has, compound, rest)?;
        if !goes_on {
            return Ok((more, others));
        }
        compound = more;
        rest = others;
    }
    Ok((compound, rest))
}

// A compound selector, and what follows it.
#[cycle(grammar)]
#[tactic(auto, unfolding(crate::specs::Grammar::compound))]
fn compound(
    alloc: Global,
    depth: u8,
    in_has: bool,
    tokens: &[Token],
) -> Result<(Compound, &[Token]), SelectorError>
    ensures { Gives (λ x. (compound_tree x.0, x.1.now)) result (defined.compound (defined.list_at depth) in_has tokens.now) }
{
    let (simples, rest) = type_selector(alloc, tokens)?;
    let typed = Compound {
        simples,
        tests: Tests::Nothing,
    };
    let (compound, rest) = parts(alloc, depth, in_has, tokens.len(), typed, rest)?;
    if rest.len() < tokens.len() {
        Ok((compound, rest))
    } else {
        Err(wrong(missing(tokens), tokens))
    }
}

// What stands on the right of a selector, with at most so many combinators.
#[cycle(grammar)]
#[tactic(auto, using(crate::proofs::Turns::beside_step, crate::proofs::Turns::beside_fails))]
fn beside<'a>(
    alloc: Global,
    depth: u8,
    in_has: bool,
    left: usize,
    so_far: Complex,
    tokens: &'a [Token],
) -> Result<(Complex, &'a [Token]), SelectorError>
    ensures { Gives (λ x. (complex_tree x.0, x.1.now)) result
        (defined.beside (defined.list_at depth) in_has left (complex_tree so_far) tokens.now) }
{
    let mut complex = so_far;
    let mut rest = tokens;
    for _ in 0..left {
        let Some(combinator) = combinator_of(rest) else {
            return Ok((complex, past_spaces(rest)));
        };
        let (right, others) = compound(alloc, depth, in_has, past_combinator(rest))?;
        complex = with_right(alloc, complex, combinator, right)?;
        rest = others;
    }
    Ok((complex, rest))
}

// A complex selector with the white space around it, and what follows.
#[cycle(grammar)]
#[tactic(auto, unfolding(crate::specs::Grammar::complex))]
fn complex(
    alloc: Global,
    depth: u8,
    in_has: bool,
    tokens: &[Token],
) -> Result<(Complex, &[Token]), SelectorError>
    ensures { Gives (λ x. (complex_tree x.0, x.1.now)) result (defined.complex (defined.list_at depth) in_has tokens.now) }
{
    let (compound, rest) = compound(alloc, depth, in_has, past_spaces(tokens))?;
    beside(
        alloc,
        depth,
        in_has,
        tokens.len(),
        Complex::Alone(compound),
        rest,
    )
}

// A relative selector behind its first combinator, with at most so many compound selectors.
#[cycle(grammar)]
#[tactic(auto, using(crate::proofs::Turns::relative_step, crate::proofs::Turns::relative_fails, crate::proofs::Turns::lefts_more))]
fn relative_to(
    alloc: Global,
    depth: u8,
    in_has: bool,
    left: usize,
    first: Combinator,
    tokens: &[Token],
) -> Result<(Relative, &[Token]), SelectorError>
    ensures { Gives (λ x. (relative_tree x.0, x.1.now)) result
        (defined.relative_to (defined.list_at depth) in_has left [] first tokens.now) }
{
    let mut lefts = Vec::new(alloc);
    let mut combinator = first;
    let mut rest = tokens;
    for _ in 0..left {
        let (compound, others) = compound(alloc, depth, in_has, rest)?;
        let Some(next) = combinator_of(others) else {
            let last = Relative::To(combinator, compound);
            return Ok((joined(alloc, lefts, last)?, past_spaces(others)));
        };
        lefts.push(LeftPart {
            combinator,
            compound,
        })?;
        combinator = next;
        rest = past_combinator(others);
    }
    Err(wrong(SyntaxFault::Unexpected, rest))
}

// A relative selector, and what follows it.
#[cycle(grammar)]
#[tactic(auto, unfolding(crate::specs::Grammar::relative))]
fn relative(
    alloc: Global,
    depth: u8,
    in_has: bool,
    tokens: &[Token],
) -> Result<(Relative, &[Token]), SelectorError>
    ensures { Gives (λ x. (relative_tree x.0, x.1.now)) result (defined.relative (defined.list_at depth) in_has tokens.now) }
{
    let first = written_combinator(past_spaces(tokens)).unwrap_or(Combinator::Descendant);
    relative_to(
        alloc,
        depth,
        in_has,
        tokens.len(),
        first,
        past_combinator(tokens),
    )
}

// A selector of a list, if one is kept, and what follows it.
#[cycle(grammar)]
#[tactic(auto, unfolding(crate::specs::Grammar::item))]
fn item(
    alloc: Global,
    depth: u8,
    in_has: bool,
    kind: ListKind,
    tokens: &[Token],
) -> Result<(Option<Complex>, &[Token]), SelectorError>
    ensures { Gives (λ x. (option_map complex_tree x.0, x.1.now)) result
        (defined.item (defined.list_at depth) in_has kind tokens.now) }
{
    match kind {
        ListKind::Plain => {
            let (one, rest) = complex(alloc, depth, in_has, tokens)?;
            Ok((Some(one), rest))
        }
        ListKind::Forgiving => {
            let read = complex(alloc, depth, in_has, tokens);
            forgiven(alloc, read, tokens)
        }
        ListKind::Relative => {
            let (one, rest) = relative(alloc, depth, in_has, tokens)?;
            Ok((Some(asking_has(alloc, one)?), rest))
        }
    }
}

// At most so many selectors with commas between them, before those so far, and what follows.
#[cycle(grammar)]
#[tactic(auto, using(crate::proofs::Turns::items_step, crate::proofs::Turns::items_fails))]
fn items<'a>(
    alloc: Global,
    depth: u8,
    in_has: bool,
    kind: ListKind,
    left: usize,
    so_far: Selectors,
    tokens: &'a [Token],
) -> Result<(Selectors, &'a [Token]), SelectorError>
    ensures { Gives (λ x. (list_tree x.0, x.1.now)) result
        (defined.items (defined.list_at depth) in_has kind left (list_tree so_far) tokens.now) }
{
    let mut selectors = so_far;
    let mut rest = tokens;
    for _ in 0..left {
        let (one, others) = item(alloc, depth, in_has, kind, rest)?;
        selectors = in_front(alloc, one, selectors)?;
        if !is_delim(others, ',') {
            return finished(selectors, others);
        }
        rest = past(others, 1);
    }
    Err(wrong(SyntaxFault::Unexpected, rest))
}

/// A list of selectors, in which so many parentheses less one may be opened in one another, and what follows it.
#[cycle(grammar)]
#[tactic(auto, unfolding(crate::specs::Grammar::list_at))]
pub(crate) fn list(
    alloc: Global,
    depth: u8,
    in_has: bool,
    kind: ListKind,
    tokens: &[Token],
) -> Result<(Selectors, &[Token]), SelectorError>
    ensures { Gives (λ x. (list_tree x.0, x.1.now)) result (defined.list_at depth in_has kind tokens.now) }
{
    if depth == 0 {
        return Err(wrong(SyntaxFault::TooDeep, tokens));
    }
    let none = Selectors::Nothing;
    items(alloc, depth - 1, in_has, kind, tokens.len(), none, tokens)
}
