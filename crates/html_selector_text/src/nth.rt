//! An+B (CSS Syntax Level 3, section 6.2), as a grammar of tokens.
ghost use Rattle.std.specs.Prelude.{◌≡◌, ◌≤◌, length, IfOk, IfErr};
ghost use Rattle.markup.specs.declared.fault.ParseFault.TheVariants.{Memory};
ghost use Rattle.html_selector_text.specs.Nth as defined;
ghost use Rattle.html_selector_text.specs.Reading.{ident_of};
ghost use Rattle.html_selector_text.specs.declared.fault.SelectorError.TheVariants.{Syntax};
ghost use Rattle.html_selector_text.specs.declared.fault.SyntaxFault.TheVariants.{NoNth};
ghost use Rattle.html_selector_text.specs.Results.{Gives};

use crate::characters::{after, char_at, characters};
use crate::fault::{SelectorError, SyntaxFault};
use crate::reading::{ident, is_delim, past, past_spaces};
use crate::scanning::{digits, is_word};
use crate::tokens::{Number, Sign, Token, TokenKind};
use markup::{ParseFault, Text};
use selectors::{Name, Nth};
use std::alloc::Global;

/// A number with its sign.
#[derive(Clone, Copy)]
pub(crate) struct Term {
    pub is_negative: bool,
    pub value: u32,
}

/// What a word that begins with `n` has behind it.
#[derive(Clone, Copy)]
pub(crate) enum Suffix {
    N,
    NDash,
    NDashDigits(u32),
    Other,
}

fn nth_from(first: u32, step: u32, descends: bool) -> Nth
    ensures { result ≡ defined.nth_from first step descends }
{
    Nth {
        first,
        step,
        descends,
        from_end: false,
    }
}

fn signed(is_negative: bool, value: u32) -> Term
    ensures { result ≡ defined.signed is_negative value }
{
    Term { is_negative, value }
}

// A·n + B for the numbers n from 0, as numbers counted from 1.
#[tactic(auto, unfolding(crate::specs::Nth::places))]
fn places(a: Term, b: Term) -> Nth
    ensures { result ≡ defined.places a b }
{
    if a.value == 0 {
        return nth_from(if b.is_negative { 0 } else { b.value }, 0, false);
    }
    if a.is_negative {
        return if b.is_negative {
            nth_from(0, 0, false)
        } else {
            nth_from(b.value, a.value, true)
        };
    }
    if b.is_negative {
        nth_from((a.value - b.value % a.value) % a.value, a.value, false)
    } else {
        nth_from(b.value, a.value, false)
    }
}

fn is_minus(sign: Sign) -> bool
    ensures { result ≡ defined.is_minus sign }
{
    match sign {
        Sign::Minus => true,
        _ => false,
    }
}

fn is_signed(sign: Sign) -> bool
    ensures { result ≡ defined.is_signed sign }
{
    match sign {
        Sign::Unsigned => false,
        _ => true,
    }
}

fn term_of(number: Number) -> Term
    ensures { result ≡ defined.term_of number }
{
    signed(is_minus(number.sign), number.value)
}

fn integer_kind(with_sign: bool, kind: &TokenKind) -> Option<Term>
    ensures { result ≡ defined.integer_kind with_sign kind.now }
{
    match kind {
        TokenKind::Number(number) => {
            if number.is_integer && is_signed(number.sign) == with_sign {
                Some(term_of(*number))
            } else {
                None
            }
        }
        _ => None,
    }
}

// The integer that stands first, with a sign or without one.
fn integer(with_sign: bool, tokens: &[Token]) -> Option<Term>
    ensures { result ≡ defined.integer_of with_sign tokens.now }
{
    match tokens.split_first() {
        Some((token, _)) => integer_kind(with_sign, &token.kind),
        None => None,
    }
}

fn no_nth(at: usize) -> SelectorError
    ensures { result ≡ Syntax NoNth at }
{
    SelectorError::Syntax {
        fault: SyntaxFault::NoNth,
        at,
    }
}

// B behind a sign of its own, without one.
#[tactic(auto, unfolding(crate::specs::Nth::b_behind_sign))]
fn b_behind_sign(
    at: usize,
    is_negative: bool,
    tokens: &[Token],
) -> Result<(Term, &[Token]), SelectorError>
    ensures { Gives (λ x. (x.0, x.1.now)) result (defined.b_behind_sign at is_negative tokens.now) }
{
    let rest = past_spaces(tokens);
    match integer(false, rest) {
        Some(b) => Ok((signed(is_negative, b.value), past(rest, 1))),
        None => Err(no_nth(at)),
    }
}

// B behind `n`.
#[tactic(auto, unfolding(crate::specs::Nth::b_behind_n))]
fn b_behind_n(at: usize, tokens: &[Token]) -> Result<(Term, &[Token]), SelectorError>
    ensures { Gives (λ x. (x.0, x.1.now)) result (defined.b_behind_n at tokens.now) }
{
    let next = past_spaces(tokens);
    if let Some(b) = integer(true, next) {
        return Ok((b, past(next, 1)));
    }
    if is_delim(next, '+') {
        return b_behind_sign(at, false, past(next, 1));
    }
    if is_delim(next, '-') {
        return b_behind_sign(at, true, past(next, 1));
    }
    Ok((signed(false, 0), tokens))
}

#[tactic(auto, unfolding(crate::specs::Nth::suffix_of))]
fn suffix_of(word: &[char]) -> Suffix
    ensures { result ≡ defined.suffix_of word.now }
{
    let first = char_at(word, 0);
    if first != 'n' && first != 'N' {
        return Suffix::Other;
    }
    if word.len() == 1 {
        return Suffix::N;
    }
    if char_at(word, 1) != '-' {
        return Suffix::Other;
    }
    if word.len() == 2 {
        return Suffix::NDash;
    }
    let (value, rest) = digits(after(word, 2));
    if rest.is_empty() {
        Suffix::NDashDigits(value)
    } else {
        Suffix::Other
    }
}

fn b_behind(at: usize, suffix: Suffix, tokens: &[Token]) -> Result<(Term, &[Token]), SelectorError>
    ensures { Gives (λ x. (x.0, x.1.now)) result (defined.b_behind at suffix tokens.now) }
{
    match suffix {
        Suffix::N => b_behind_n(at, tokens),
        Suffix::NDash => b_behind_sign(at, true, tokens),
        Suffix::NDashDigits(value) => Ok((signed(true, value), tokens)),
        Suffix::Other => Err(no_nth(at)),
    }
}

// An+B, where A is given and `n` begins a word.
#[tactic(auto, unfolding(crate::specs::Nth::nth_behind))]
fn nth_behind<'a>(
    at: usize,
    a: Term,
    word: &[char],
    tokens: &'a [Token],
) -> Result<(Nth, &'a [Token]), SelectorError>
    ensures { Gives (λ x. (x.0, x.1.now)) result (defined.nth_behind at a word.now tokens.now) }
{
    let (b, rest) = b_behind(at, suffix_of(word), tokens)?;
    Ok((places(a, b), rest))
}

fn word_of(alloc: Global, name: &Name) -> Result<Vec<char>, ParseFault>
    ensures ok { IfOk result (λ made. made.items ≡ name.now) }
    ensures fault { IfErr result (λ fault. fault ≡ Memory) }
{
    characters(alloc, name.written().as_str())
}

#[tactic(auto, unfolding(crate::specs::Nth::nth_of_ident))]
fn nth_of_ident<'a>(
    alloc: Global,
    at: usize,
    name: &Name,
    tokens: &'a [Token],
) -> Result<(Nth, &'a [Token]), SelectorError>
    ensures { Gives (λ x. (x.0, x.1.now)) result (defined.nth_of_ident at name.now tokens.now) }
{
    if is_word(name, "odd") {
        return Ok((places(signed(false, 2), signed(false, 1)), tokens));
    }
    if is_word(name, "even") {
        return Ok((places(signed(false, 2), signed(false, 0)), tokens));
    }
    let word = word_of(alloc, name)?;
    if char_at(word.as_slice(), 0) == '-' {
        nth_behind(at, signed(true, 1), after(word.as_slice(), 1), tokens)
    } else {
        nth_behind(at, signed(false, 1), word.as_slice(), tokens)
    }
}

fn nth_behind_plus<'a>(
    alloc: Global,
    at: usize,
    tokens: &'a [Token],
) -> Result<(Nth, &'a [Token]), SelectorError>
    ensures { Gives (λ x. (x.0, x.1.now)) result (defined.nth_behind_plus at (ident_of tokens.now) tokens.now) }
{
    match ident(tokens) {
        Some(name) => {
            let word = word_of(alloc, name)?;
            nth_behind(at, signed(false, 1), word.as_slice(), past(tokens, 1))
        }
        None => Err(no_nth(at)),
    }
}

fn nth_of_kind<'a>(
    alloc: Global,
    at: usize,
    kind: &TokenKind,
    tokens: &'a [Token],
) -> Result<(Nth, &'a [Token]), SelectorError>
    ensures { Gives (λ x. (x.0, x.1.now)) result (defined.nth_of_kind at kind.now tokens.now) }
{
    match kind {
        TokenKind::Ident(name) => nth_of_ident(alloc, at, name, past(tokens, 1)),
        TokenKind::Number(number) => {
            if number.is_integer {
                Ok((places(signed(false, 0), term_of(*number)), past(tokens, 1)))
            } else {
                Err(no_nth(at))
            }
        }
        TokenKind::Dimension(number, unit) => {
            if !number.is_integer {
                return Err(no_nth(at));
            }
            let word = word_of(alloc, unit)?;
            nth_behind(at, term_of(*number), word.as_slice(), past(tokens, 1))
        }
        _ => {
            if is_delim(tokens, '+') {
                nth_behind_plus(alloc, at, past(tokens, 1))
            } else {
                Err(no_nth(at))
            }
        }
    }
}

/// An+B, and what follows it. An error gets the position that is given.
#[tactic(auto, unfolding(crate::specs::Nth::nth))]
pub(crate) fn nth<'a>(
    alloc: Global,
    at: usize,
    tokens: &'a [Token],
) -> Result<(Nth, &'a [Token]), SelectorError>
    ensures { Gives (λ x. (x.0, x.1.now)) result (defined.nth at tokens.now) }
{
    match tokens.split_first() {
        Some((token, _)) => nth_of_kind(alloc, at, &token.kind, tokens),
        None => Err(no_nth(at)),
    }
}
