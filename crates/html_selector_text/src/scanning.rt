//! Names, strings and escapes (CSS Syntax Level 3, section 4.3).
ghost use Rattle.std.specs.Prelude.{◌≡◌, ◌≤◌, ◌∷◌, ◌++◌, [], IfOk, IfErr, OnOk, IsTrue, length};
ghost use Rattle.markup.specs.Plain.{is_plain};
ghost use Rattle.markup.specs.declared.fault.ParseFault.TheVariants.{Memory};
ghost use Rattle.html_selector_text.specs.Scanning as defined;
ghost use Rattle.html_selector_text.specs.Scanning.{Taken, Counted};

use crate::characters::{after, at_escape, at_name, at_number, char_at, is_in_name, is_whitespace};
use crate::tokens::{Number, Sign, Token, TokenKind};
use markup::{ParseFault, Text};
use selectors::Name;
use std::alloc::Global;

const REPLACEMENT: char = '\u{FFFD}';

/// What follows the white space that stands here.
pub(crate) fn past_whitespace(chars: &[char]) -> &[char]
    ensures { result.now ≡ defined.past_whitespace chars.now }
{
    let mut rest = chars;
    while let [c, after @ ..] = rest {
        if !is_whitespace(*c) {
            return rest;
        }
        rest = after;
    }
    rest
}

/// What follows a comment, behind its first two characters (section 4.3.2).
pub(crate) fn past_comment(chars: &[char]) -> &[char]
    ensures { result.now ≡ defined.past_comment chars.now }
{
    let mut rest = chars;
    while let [c, others @ ..] = rest {
        if *c == '*' && char_at(others, 0) == '/' {
            return after(others, 1);
        }
        rest = others;
    }
    rest
}

// The value of at most so many hexadecimal digits, and what follows them.
#[tactic(auto, unfolding(crate::specs::Scanning::hex))]
fn hex(left: u8, value: u32, chars: &[char]) -> (u32, &[char])
    requires { value ≤ 0x110000 }
    ensures value { (record { value = result.0; rest = result.1.now }) ≡ defined.hex left value chars.now }
    ensures small { result.0 ≤ 0x110000 }
{
    if left == 0 {
        return (value, chars);
    }
    match chars {
        [c, rest @ ..] => match c.to_digit(16) {
            Some(digit) => hex(left - 1, (value * 16 + digit).min(0x110000), rest),
            None => (value, chars),
        },
        [] => (value, chars),
    }
}

fn code_point(value: u32) -> char
    ensures { result ≡ defined.code_point value }
{
    match char::from_u32(value) {
        Some('\0') => REPLACEMENT,
        Some(c) => c,
        None => REPLACEMENT,
    }
}

fn past_one(chars: &[char]) -> &[char]
    ensures { result.now ≡ defined.past_one chars.now }
{
    if is_whitespace(char_at(chars, 0)) {
        after(chars, 1)
    } else {
        chars
    }
}

// The character that an escape is, behind its backslash, and what follows it (section 4.3.7).
#[tactic(auto, unfolding(crate::specs::Scanning::escaped))]
fn escaped(chars: &[char]) -> (char, &[char])
    ensures { (record { value = result.0; rest = result.1.now }) ≡ defined.escaped chars.now }
{
    match chars {
        [] => (REPLACEMENT, chars),
        [c, rest @ ..] => {
            if c.is_ascii_hexdigit() {
                let (value, rest) = hex(6, 0, chars);
                (code_point(value), past_one(rest))
            } else {
                (*c, rest)
            }
        }
    }
}

/// The characters of a name from here on, and what follows them (section 4.3.11).
#[tactic(auto, using(crate::proofs::Steps::name_step), unfolding(crate::specs::Scanning::name))]
pub(crate) fn name(alloc: Global, chars: &[char]) -> Result<(Text, &[char]), ParseFault>
    ensures ok { IfOk result (λ x. (record { text = x.0; rest = x.1.now }) ≡ defined.name chars.now) }
    ensures fault { IfErr result (λ fault. fault ≡ Memory) }
{
    let mut name = Text::empty(alloc);
    let mut rest = chars;
    for _ in 0..chars.len() {
        let c = char_at(rest, 0);
        if !rest.is_empty() && is_in_name(c) {
            name.push(c)?;
            rest = after(rest, 1);
        } else if at_escape(rest) {
            let (c, others) = escaped(after(rest, 1));
            name.push(c)?;
            rest = others;
        } else {
            return Ok((name, rest));
        }
    }
    Ok((name, rest))
}

// Adds what stands first in a string, and gives what follows it.
fn push_part<'a>(text: &mut Text, chars: &'a [char]) -> Result<&'a [char], ParseFault>
    ensures ok { OnOk result (text.new ≡ text.old ++ (defined.string_part chars.now).text) }
    ensures rest { IfOk result (λ rest. rest.now ≡ (defined.string_part chars.now).rest) }
    ensures fault { IfErr result (λ fault. fault ≡ Memory) }
{
    let c = char_at(chars, 0);
    if c != '\\' {
        text.push(c)?;
        return Ok(after(chars, 1));
    }
    if chars.len() <= 1 || char_at(chars, 1) == '\n' {
        return Ok(after(chars, 2));
    }
    let (c, rest) = escaped(after(chars, 1));
    text.push(c)?;
    Ok(rest)
}

// A string behind its quote, and what follows it (section 4.3.5).
#[tactic(auto, using(crate::proofs::Steps::string_step), unfolding(crate::specs::Scanning::string))]
fn string(alloc: Global, quote: char, chars: &[char]) -> Result<(TokenKind, &[char]), ParseFault>
    ensures ok { IfOk result (λ x. defined.read x.0 x.1.now ≡ defined.string quote chars.now) }
    ensures fault { IfErr result (λ fault. fault ≡ Memory) }
{
    let mut text = Text::empty(alloc);
    let mut rest = chars;
    for _ in 0..chars.len() {
        if rest.is_empty() {
            return Ok((TokenKind::Str(text), &[]));
        }
        let c = char_at(rest, 0);
        if c == quote {
            return Ok((TokenKind::Str(text), after(rest, 1)));
        }
        if c == '\n' {
            return Ok((TokenKind::BadStr, rest));
        }
        rest = push_part(&mut text, rest)?;
    }
    Ok((TokenKind::Str(text), rest))
}

fn sign_of(c: char) -> Sign
    ensures { result ≡ defined.sign_of c }
{
    match c {
        '+' => Sign::Plus,
        '-' => Sign::Minus,
        _ => Sign::Unsigned,
    }
}

fn past_sign(chars: &[char]) -> &[char]
    ensures { result.now ≡ defined.past_sign chars.now }
{
    let c = char_at(chars, 0);
    if c == '+' || c == '-' {
        after(chars, 1)
    } else {
        chars
    }
}

// The value of the digits that stand here, and what follows them.
pub(crate) fn digits(chars: &[char]) -> (u32, &[char])
    ensures { (record { value = result.0; rest = result.1.now }) ≡ defined.digits 0 chars.now }
{
    let mut value = 0u32;
    let mut rest = chars;
    while let [c, others @ ..] = rest {
        match c.to_digit(10) {
            Some(digit) => {
                value = (u64::from(value) * 10 + u64::from(digit)).min(1_000_000_000) as u32;
            }
            None => return (value, rest),
        }
        rest = others;
    }
    (value, rest)
}

fn past_digits(chars: &[char]) -> &[char]
    ensures { result.now ≡ defined.past_digits chars.now }
{
    let mut rest = chars;
    while let [c, others @ ..] = rest {
        if !c.is_ascii_digit() {
            return rest;
        }
        rest = others;
    }
    rest
}

fn past_fraction(chars: &[char]) -> &[char]
    ensures { result.now ≡ defined.past_fraction chars.now }
{
    if char_at(chars, 0) == '.' && char_at(chars, 1).is_ascii_digit() {
        past_digits(after(chars, 1))
    } else {
        chars
    }
}

fn past_exponent(chars: &[char]) -> &[char]
    ensures { result.now ≡ defined.past_exponent chars.now }
{
    let c = char_at(chars, 0);
    if c != 'E' && c != 'e' {
        return chars;
    }
    let next = char_at(chars, 1);
    if next.is_ascii_digit() {
        past_digits(after(chars, 1))
    } else if (next == '+' || next == '-') && char_at(chars, 2).is_ascii_digit() {
        past_digits(after(chars, 2))
    } else {
        chars
    }
}

// A number, and what follows it (section 4.3.12).
#[tactic(auto, unfolding(crate::specs::Scanning::number))]
fn number(chars: &[char]) -> (Number, &[char])
    ensures { (record { number = result.0; rest = result.1.now }) ≡ defined.number chars.now }
{
    let (value, after_whole) = digits(past_sign(chars));
    let rest = past_exponent(past_fraction(after_whole));
    let number = Number {
        sign: sign_of(char_at(chars, 0)),
        is_integer: rest.len() == after_whole.len(),
        value,
    };
    (number, rest)
}

// A number with what belongs to it, and what follows (section 4.3.3).
#[tactic(auto, unfolding(crate::specs::Scanning::numeric))]
fn numeric(alloc: Global, chars: &[char]) -> Result<(TokenKind, &[char]), ParseFault>
    ensures ok { IfOk result (λ x. defined.read x.0 x.1.now ≡ defined.numeric chars.now) }
    ensures fault { IfErr result (λ fault. fault ≡ Memory) }
{
    let (number, rest) = number(chars);
    if at_name(rest) {
        let (unit, rest) = name(alloc, rest)?;
        return Ok((TokenKind::Dimension(number, Name::new(alloc, unit)?), rest));
    }
    if char_at(rest, 0) == '%' {
        return Ok((TokenKind::Percentage, after(rest, 1)));
    }
    Ok((TokenKind::Number(number), rest))
}

fn is_not_in_url(c: char) -> bool
    ensures { result ≡ defined.is_not_in_url c }
{
    c == '"'
        || c == '\''
        || c == '('
        || c == '\\'
        || c <= '\u{8}'
        || c == '\u{B}'
        || c >= '\u{E}' && c <= '\u{1F}'
        || c == '\u{7F}'
}

fn ends_url(chars: &[char]) -> bool
    ensures { result ≡ defined.ends_url chars.now }
{
    chars.is_empty() || char_at(chars, 0) == ')'
}

// What follows what is left of a bad `url()` (section 4.3.14).
#[tactic(auto, using(crate::proofs::Steps::bad_url_step), unfolding(crate::specs::Scanning::past_bad_url))]
fn past_bad_url(chars: &[char]) -> &[char]
    ensures { result.now ≡ defined.past_bad_url chars.now }
{
    let mut rest = chars;
    for _ in 0..chars.len() {
        if ends_url(rest) {
            return after(rest, 1);
        }
        if at_escape(rest) {
            let (_, others) = escaped(after(rest, 1));
            rest = others;
        } else {
            rest = after(rest, 1);
        }
    }
    rest
}

fn url_end(chars: &[char]) -> (TokenKind, &[char])
    ensures { defined.read result.0 result.1.now ≡ defined.url_end chars.now }
{
    if ends_url(chars) {
        (TokenKind::Url, after(chars, 1))
    } else {
        (TokenKind::BadUrl, past_bad_url(chars))
    }
}

// A `url()` without quotes, behind its parenthesis and white space, and what follows it (section 4.3.6).
#[tactic(auto, using(crate::proofs::Steps::url_step), unfolding(crate::specs::Scanning::url))]
fn url(chars: &[char]) -> (TokenKind, &[char])
    ensures { defined.read result.0 result.1.now ≡ defined.url chars.now }
{
    let mut rest = chars;
    for _ in 0..chars.len() {
        if ends_url(rest) {
            return (TokenKind::Url, after(rest, 1));
        }
        let c = char_at(rest, 0);
        if is_whitespace(c) {
            return url_end(past_whitespace(rest));
        }
        if at_escape(rest) {
            let (_, others) = escaped(after(rest, 1));
            rest = others;
        } else if is_not_in_url(c) {
            return (TokenKind::BadUrl, past_bad_url(rest));
        } else {
            rest = after(rest, 1);
        }
    }
    (TokenKind::Url, rest)
}

fn is_quote(c: char) -> bool
    ensures { result ≡ defined.is_quote c }
{
    c == '"' || c == '\''
}

/// Whether a name is this word, in ASCII letters of any case.
pub(crate) fn is_word(name: &Name, word: &str) -> bool
    requires { IsTrue (is_plain word.now) }
    ensures { result ≡ defined.is_word name.now word.now }
{
    name.lowered().is(word)
}

// A name, a function or a `url()`, and what follows it (section 4.3.4).
#[tactic(auto, unfolding(crate::specs::Scanning::ident_like))]
fn ident_like(alloc: Global, chars: &[char]) -> Result<(TokenKind, &[char]), ParseFault>
    ensures ok { IfOk result (λ x. defined.read x.0 x.1.now ≡ defined.ident_like chars.now) }
    ensures fault { IfErr result (λ fault. fault ≡ Memory) }
{
    let (text, rest) = name(alloc, chars)?;
    let name = Name::new(alloc, text)?;
    if char_at(rest, 0) != '(' {
        return Ok((TokenKind::Ident(name), rest));
    }
    let inside = past_whitespace(after(rest, 1));
    if is_word(&name, "url") && !is_quote(char_at(inside, 0)) {
        return Ok(url(inside));
    }
    Ok((TokenKind::Function(name), after(rest, 1)))
}

// The token that stands here, and what follows it (section 4.3.1).
#[tactic(auto, unfolding(crate::specs::Scanning::token))]
fn token(alloc: Global, chars: &[char]) -> Result<(TokenKind, &[char]), ParseFault>
    ensures ok { IfOk result (λ x. defined.read x.0 x.1.now ≡ defined.token chars.now) }
    ensures fault { IfErr result (λ fault. fault ≡ Memory) }
{
    let Some((first, rest)) = chars.split_first() else {
        return Ok((TokenKind::End, chars));
    };
    let first = *first;
    if is_whitespace(first) {
        return Ok((TokenKind::Space, past_whitespace(rest)));
    }
    if is_quote(first) {
        return string(alloc, first, rest);
    }
    if first == '#' && (is_in_name(char_at(rest, 0)) || at_escape(rest)) {
        let is_id = at_name(rest);
        let (name, rest) = name(alloc, rest)?;
        return Ok((TokenKind::Hash(name, is_id), rest));
    }
    if first == '@' && at_name(rest) {
        let (name, rest) = name(alloc, rest)?;
        return Ok((TokenKind::AtKeyword(name), rest));
    }
    if chars.starts_with(&['<', '!', '-', '-']) {
        return Ok((TokenKind::Cdo, after(rest, 3)));
    }
    if chars.starts_with(&['-', '-', '>']) {
        return Ok((TokenKind::Cdc, after(rest, 2)));
    }
    if at_number(chars) {
        return numeric(alloc, chars);
    }
    if at_name(chars) {
        return ident_like(alloc, chars);
    }
    Ok((TokenKind::Delim(first), rest))
}

// Adds a token, or nothing for a comment (section 4.3.2), and gives what follows.
fn push_token<'a>(
    alloc: Global,
    total: usize,
    chars: &'a [char],
    tokens: &mut Vec<Token>,
) -> Result<&'a [char], ParseFault>
    ensures ok { OnOk result (tokens.new.items ≡ tokens.old.items ++ (defined.one_token total chars.now).tokens) }
    ensures rest { IfOk result (λ rest. rest.now ≡ (defined.one_token total chars.now).rest) }
    ensures fault { IfErr result (λ fault. fault ≡ Memory) }
{
    if char_at(chars, 0) == '/' && char_at(chars, 1) == '*' {
        return Ok(past_comment(after(chars, 2)));
    }
    let at = total.saturating_sub(chars.len());
    let (kind, rest) = token(alloc, chars)?;
    tokens.push(Token { kind, at })?;
    Ok(rest)
}

// The tokens of characters, without the end.
#[tactic(auto, using(crate::proofs::Steps::token_step))]
fn tokens_before_end(alloc: Global, chars: &[char]) -> Result<Vec<Token>, ParseFault>
    ensures ok { IfOk result (λ made. made.items ≡ defined.token_steps (length chars.now) (length chars.now) [] chars.now) }
    ensures fault { IfErr result (λ fault. fault ≡ Memory) }
{
    let mut tokens = Vec::new(alloc);
    let mut rest = chars;
    for _ in 0..chars.len() {
        if rest.is_empty() {
            return Ok(tokens);
        }
        rest = push_token(alloc, chars.len(), rest, &mut tokens)?;
    }
    Ok(tokens)
}

/// The tokens of preprocessed characters, of which the last one is their end.
#[tactic(auto, unfolding(crate::specs::Scanning::tokens))]
pub(crate) fn tokens(alloc: Global, chars: &[char]) -> Result<Vec<Token>, ParseFault>
    ensures ok { IfOk result (λ made. made.items ≡ defined.tokens chars.now) }
    ensures fault { IfErr result (λ fault. fault ≡ Memory) }
{
    let mut tokens = tokens_before_end(alloc, chars)?;
    tokens.push(Token {
        kind: TokenKind::End,
        at: chars.len(),
    })?;
    Ok(tokens)
}
