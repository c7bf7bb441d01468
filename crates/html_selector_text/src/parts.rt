//! The parts of a selector, counted in its tokens.
ghost use Rattle.std.specs.Prelude.{◌≡◌};
ghost use Rattle.html_selector_text.specs.Parts as defined;
ghost use Rattle.html_selector_text.specs.declared.parts.Zone.TheVariants.{Compounds};

use crate::reading::is_delim;
use crate::simples::{FunctionName, function_of, is_of};
use crate::tokens::{Token, TokenKind};

/// How many parts a selector may have.
pub(crate) const MOST_PARTS: usize = 4096;

/// Where a token is.
#[derive(Clone, Copy)]
pub(crate) enum Zone {
    /// In compound selectors and between them.
    Compounds,
    /// In the brackets of an attribute selector.
    Brackets,
    /// In An+B.
    Nth,
}

fn is_nth_class(function: Option<FunctionName>) -> bool
    ensures { result ≡ defined.is_nth_class function }
{
    match function {
        Some(FunctionName::NthClass(_, _)) => true,
        _ => false,
    }
}

fn opens_nth_kind(kind: &TokenKind) -> bool
    ensures { result ≡ defined.opens_nth_kind kind.now }
{
    match kind {
        TokenKind::Function(name) => is_nth_class(function_of(name)),
        _ => false,
    }
}

fn opens_nth(tokens: &[Token]) -> bool
    ensures { result ≡ defined.opens_nth tokens.now }
{
    match tokens.split_first() {
        Some((token, _)) => opens_nth_kind(&token.kind),
        None => false,
    }
}

// Where the second of these tokens is.
fn zone_after(zone: Zone, tokens: &[Token]) -> Zone
    ensures { result ≡ defined.zone_after zone tokens.now }
{
    match zone {
        Zone::Compounds => {
            if is_delim(tokens, '[') {
                Zone::Brackets
            } else if opens_nth(tokens) {
                Zone::Nth
            } else {
                Zone::Compounds
            }
        }
        Zone::Brackets => {
            if is_delim(tokens, ']') {
                Zone::Compounds
            } else {
                Zone::Brackets
            }
        }
        Zone::Nth => {
            if is_delim(tokens, ')') || is_of(tokens) {
                Zone::Compounds
            } else {
                Zone::Nth
            }
        }
    }
}

fn begins_part(kind: &TokenKind, rest: &[Token]) -> bool
    ensures { result ≡ defined.begins_part kind.now rest.now }
{
    match kind {
        TokenKind::Ident(_) => !is_delim(rest, '|'),
        TokenKind::Function(_) => true,
        TokenKind::Hash(_, _) => true,
        TokenKind::Delim(c) => *c == '[' || *c == '*' && !is_delim(rest, '|'),
        _ => false,
    }
}

fn is_part(zone: Zone, kind: &TokenKind, rest: &[Token]) -> bool
    ensures { result ≡ defined.is_part zone kind.now rest.now }
{
    match zone {
        Zone::Compounds => begins_part(kind, rest),
        _ => false,
    }
}

// Tokens from the part on that has so many parts before it.
fn from_part(count: usize, tokens: &[Token]) -> &[Token]
    ensures { result.now ≡ defined.from_part count Compounds tokens.now }
{
    let mut left = count;
    let mut zone = Zone::Compounds;
    let mut rest = tokens;
    while let Some((token, others)) = rest.split_first() {
        let is_one = is_part(zone, &token.kind, others);
        if is_one && left == 0 {
            return rest;
        }
        if is_one {
            left -= 1;
        }
        zone = zone_after(zone, rest);
        rest = others;
    }
    rest
}

/// The tokens from the first part on that is one too many.
#[tactic(auto, unfolding(crate::specs::Parts::beyond_limit))]
pub(crate) fn beyond_limit(tokens: &[Token]) -> &[Token]
    ensures { result.now ≡ defined.beyond_limit tokens.now }
{
    from_part(MOST_PARTS, tokens)
}
