//! The characters of a text (CSS Syntax Level 3, sections 3.3, 4.2 and 4.3.8 to 4.3.10).
ghost use Rattle.std.specs.Prelude.{◌≡◌, ◌≤◌, length, IfOk, IfErr, slice_index, drop};
ghost use Rattle.std.specs.Str.{chars};
ghost use Rattle.markup.specs.declared.fault.ParseFault.TheVariants.{Memory};
ghost use Rattle.html_selector_text.specs.Characters as defined;

use markup::ParseFault;
use std::alloc::Global;

/// A character, or U+0000 behind the last one.
#[inline]
pub(crate) fn char_at(chars: &[char], at: usize) -> char
    ensures { result ≡ slice_index chars.now at }
{
    if at < chars.len() { chars[at] } else { '\0' }
}

/// What follows so many characters.
#[inline]
pub(crate) fn after(chars: &[char], count: usize) -> &[char]
    ensures { result.now ≡ drop count chars.now }
{
    if count < chars.len() {
        &chars[count..]
    } else {
        &[]
    }
}

fn filtered(c: char) -> char
    ensures { result ≡ defined.filtered c }
{
    match c {
        '\u{C}' | '\r' => '\n',
        '\0' => '\u{FFFD}',
        _ => c,
    }
}

/// The characters of a text.
pub(crate) fn characters(alloc: Global, text: &str) -> Result<Vec<char>, ParseFault>
    ensures ok { IfOk result (λ made. made.items ≡ chars text.now) }
    ensures fault { IfErr result (λ fault. fault ≡ Memory) }
{
    let mut made = Vec::new(alloc);
    for c in text.chars() {
        made.push(c)?;
    }
    Ok(made)
}

/// The characters of a text once it is preprocessed.
#[tactic(auto, unfolding(crate::specs::Characters::preprocessed))]
pub(crate) fn preprocessed(alloc: Global, text: &[char]) -> Result<Vec<char>, ParseFault>
    ensures ok { IfOk result (λ made. made.items ≡ defined.preprocessed text.now) }
    ensures fault { IfErr result (λ fault. fault ≡ Memory) }
{
    let mut made = Vec::new(alloc);
    let mut cr = false;
    let mut rest = text;
    while let [c, others @ ..] = rest {
        if cr && *c == '\n' {
            cr = false;
        } else {
            made.push(filtered(*c))?;
            cr = *c == '\r';
        }
        rest = others;
    }
    Ok(made)
}

/// How many characters of a text stand before the one that is at a place of its preprocessed characters.
#[tactic(auto, unfolding(crate::specs::Characters::place_of))]
pub(crate) fn place_of(at: usize, text: &[char]) -> usize
    ensures value { result ≡ defined.place_of at text.now }
    ensures within { result ≤ length text.now }
{
    let mut left = at;
    let mut place = 0usize;
    let mut cr = false;
    let mut rest = text;
    while let [c, others @ ..] = rest {
        if cr && *c == '\n' {
            cr = false;
        } else {
            if left == 0 {
                return place;
            }
            left -= 1;
            cr = *c == '\r';
        }
        place += 1;
        rest = others;
    }
    place
}

pub(crate) fn is_whitespace(c: char) -> bool
    ensures { result ≡ defined.is_whitespace c }
{
    c == '\n' || c == '\t' || c == ' '
}

fn begins_name(c: char) -> bool
    ensures { result ≡ defined.begins_name c }
{
    c.is_ascii_alphabetic() || c >= '\u{80}' || c == '_'
}

pub(crate) fn is_in_name(c: char) -> bool
    ensures { result ≡ defined.is_in_name c }
{
    begins_name(c) || c.is_ascii_digit() || c == '-'
}

fn is_escape(a: char, b: char) -> bool
    ensures { result ≡ defined.is_escape a b }
{
    a == '\\' && b != '\n'
}

fn starts_name(a: char, b: char, c: char) -> bool
    ensures { result ≡ defined.starts_name a b c }
{
    if a == '-' {
        begins_name(b) || b == '-' || is_escape(b, c)
    } else {
        begins_name(a) || is_escape(a, b)
    }
}

fn starts_number(a: char, b: char, c: char) -> bool
    ensures { result ≡ defined.starts_number a b c }
{
    if a == '+' || a == '-' {
        b.is_ascii_digit() || b == '.' && c.is_ascii_digit()
    } else if a == '.' {
        b.is_ascii_digit()
    } else {
        a.is_ascii_digit()
    }
}

/// Whether an escape stands here (section 4.3.8).
#[tactic(auto, unfolding(crate::specs::Characters::at_escape))]
pub(crate) fn at_escape(chars: &[char]) -> bool
    ensures { result ≡ defined.at_escape chars.now }
{
    is_escape(char_at(chars, 0), char_at(chars, 1))
}

/// Whether a name begins here (section 4.3.9).
#[tactic(auto, unfolding(crate::specs::Characters::at_name))]
pub(crate) fn at_name(chars: &[char]) -> bool
    ensures { result ≡ defined.at_name chars.now }
{
    starts_name(char_at(chars, 0), char_at(chars, 1), char_at(chars, 2))
}

/// Whether a number begins here (section 4.3.10).
#[tactic(auto, unfolding(crate::specs::Characters::at_number))]
pub(crate) fn at_number(chars: &[char]) -> bool
    ensures { result ≡ defined.at_number chars.now }
{
    starts_number(char_at(chars, 0), char_at(chars, 1), char_at(chars, 2))
}
