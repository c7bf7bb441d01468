//! What is left of the tokens of a text.
ghost use Rattle.std.specs.Prelude.{◌≡◌, drop, map};
ghost use Rattle.std.specs.Option.{option_copied};
ghost use Rattle.html_selector_text.specs.Reading as defined;
ghost use Rattle.html_selector_text.specs.declared.fault.SelectorError.TheVariants.{Syntax};

use crate::fault::{SelectorError, SyntaxFault};
use crate::tokens::{Token, TokenKind};
use selectors::Name;

/// How many characters stand before the first of these tokens.
pub(crate) fn place(tokens: &[Token]) -> usize
    ensures { result ≡ defined.place tokens.now }
{
    match tokens.split_first() {
        Some((token, _)) => token.at,
        None => 0,
    }
}

/// An error at the first of these tokens.
pub(crate) fn wrong(fault: SyntaxFault, tokens: &[Token]) -> SelectorError
    ensures { result ≡ Syntax fault (defined.place tokens.now) }
{
    SelectorError::Syntax {
        fault,
        at: place(tokens),
    }
}

/// What follows so many tokens.
pub(crate) fn past(tokens: &[Token], count: usize) -> &[Token]
    ensures { result.now ≡ drop count tokens.now }
{
    if count < tokens.len() {
        &tokens[count..]
    } else {
        &[]
    }
}

fn is_space(kind: &TokenKind) -> bool
    ensures { result ≡ defined.is_space kind.now }
{
    match kind {
        TokenKind::Space => true,
        _ => false,
    }
}

/// What follows the white space that stands here.
pub(crate) fn past_spaces(tokens: &[Token]) -> &[Token]
    ensures { result.now ≡ defined.past_spaces tokens.now }
{
    let mut rest = tokens;
    while let Some((token, others)) = rest.split_first() {
        if !is_space(&token.kind) {
            return rest;
        }
        rest = others;
    }
    rest
}

pub(crate) fn is_end_kind(kind: &TokenKind) -> bool
    ensures { result ≡ defined.is_end_kind kind.now }
{
    match kind {
        TokenKind::End => true,
        _ => false,
    }
}

/// Whether the end of the text stands here.
pub(crate) fn is_end(tokens: &[Token]) -> bool
    ensures { result ≡ defined.is_end tokens.now }
{
    match tokens.split_first() {
        Some((token, _)) => is_end_kind(&token.kind),
        None => true,
    }
}

pub(crate) fn is_delim_kind(kind: &TokenKind, c: char) -> bool
    ensures { result ≡ defined.is_delim_kind c kind.now }
{
    match kind {
        TokenKind::Delim(d) => *d == c,
        _ => false,
    }
}

/// Whether this character stands first, as a token of its own.
pub(crate) fn is_delim(tokens: &[Token], c: char) -> bool
    ensures { result ≡ defined.is_delim c tokens.now }
{
    match tokens.split_first() {
        Some((token, _)) => is_delim_kind(&token.kind, c),
        None => false,
    }
}

fn ident_kind(kind: &TokenKind) -> Option<&Name>
    ensures { option_copied result ≡ defined.ident_kind kind.now }
{
    match kind {
        TokenKind::Ident(name) => Some(name),
        _ => None,
    }
}

/// The name that stands first.
pub(crate) fn ident(tokens: &[Token]) -> Option<&Name>
    ensures { option_copied result ≡ defined.ident_of tokens.now }
{
    match tokens.split_first() {
        Some((token, _)) => ident_kind(&token.kind),
        None => None,
    }
}

/// Whether a closing bracket stands here, which the end of the text stands for too.
pub(crate) fn closes(tokens: &[Token], c: char) -> bool
    ensures { result ≡ defined.closes c tokens.now }
{
    is_end(tokens) || is_delim(tokens, c)
}

/// What follows a closing bracket.
pub(crate) fn past_close(tokens: &[Token]) -> &[Token]
    ensures { result.now ≡ defined.past_close tokens.now }
{
    if is_end(tokens) {
        tokens
    } else {
        past(tokens, 1)
    }
}

/// Whether a selector of a list ends here.
pub(crate) fn ends(tokens: &[Token]) -> bool
    ensures { result ≡ defined.ends tokens.now }
{
    is_end(tokens) || is_delim(tokens, ',') || is_delim(tokens, ')')
}
