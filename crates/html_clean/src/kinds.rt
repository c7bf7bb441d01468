//! What a URL begins with.
ghost use Rattle.std.specs.Prelude.{◌≡◌, ◌&&◌, ◌||◌, not, IfOk, IfErr, Option, Some, None, List, ℕ};
ghost use Rattle.std.specs.Str.{chars};
ghost use Rattle.html_clean.specs.Urls.{begins_with_host, is_blank, is_break, is_slash, may_follow, scheme_of, step_of, url_kind, url_text};
ghost use Rattle.markup.specs.declared.fault.ParseFault.TheVariants.{Memory};

use crate::texts::first_two;
use markup::{ParseFault, Text};
use std::alloc::Global;

/// What a URL begins with.
#[derive(Debug, Drop, PartialEq, Eq)]
pub enum UrlKind {
    /// A scheme, in lower case.
    HasScheme(Text),
    /// Two slashes, and so a host.
    HasHost,
    /// Neither.
    IsRelative,
}

/// Whether blanks in front end with a character, or ended before.
fn begins(begun: bool, c: char) -> bool
    ensures { result ≡ (begun || not (is_blank c)) }
{
    begun || c > ' '
}

/// Whether a character is taken.
fn takes(begun: bool, c: char) -> bool
    ensures { result ≡ (begun && not (is_break c)) }
{
    begun && !(c == '\t' || c == '\n' || c == '\r')
}

/// A value as the URL parser takes it.
pub(crate) fn url_text(alloc: Global, value: &str) -> Result<Text, ParseFault>
    ensures ok { IfOk result (λ text. text ≡ url_text (chars value.now)) }
    ensures fault { IfErr result (λ fault. fault ≡ Memory) }
{
    let mut made = Text::empty(alloc);
    let mut begun = false;
    for c in value.chars() {
        begun = begins(begun, c);
        if takes(begun, c) {
            made.push(c)?;
        }
    }
    Ok(made)
}

/// What a character is after the beginning of a scheme.
#[derive(Clone, Copy)]
enum SchemeStep {
    /// Its end.
    Ends,
    /// None of a scheme.
    Stops,
    /// One more.
    Grows,
}

/// What a character is after the beginning of a scheme.
fn step_of(name: &Text, c: char) -> SchemeStep
    ensures { result ≡ step_of name.now c }
{
    if c == ':' {
        if name.is_empty() {
            SchemeStep::Stops
        } else {
            SchemeStep::Ends
        }
    } else if may_follow(name, c) {
        SchemeStep::Grows
    } else {
        SchemeStep::Stops
    }
}

/// The scheme of such a value, if it has one.
fn scheme_of(alloc: Global, text: &str) -> Result<Option<Text>, ParseFault>
    ensures ok { IfOk result (λ scheme. scheme ≡ scheme_of (chars text.now)) }
    ensures fault { IfErr result (λ fault. fault ≡ Memory) }
{
    let mut name = Text::empty(alloc);
    for c in text.chars() {
        match step_of(&name, c) {
            SchemeStep::Ends => return Ok(Some(name)),
            SchemeStep::Stops => return Ok(None),
            SchemeStep::Grows => name.push(c.to_ascii_lowercase())?,
        }
    }
    Ok(None)
}

/// Whether a character may stand in a scheme after others.
fn may_follow(name: &Text, c: char) -> bool
    ensures { result ≡ may_follow name.now c }
{
    c.is_ascii_alphabetic()
        || (!name.is_empty() && (c.is_ascii_digit() || c == '+' || c == '-' || c == '.'))
}

/// Whether it is a slash of either kind.
fn is_slash(c: char) -> bool
    ensures { result ≡ is_slash c }
{
    c == '/' || c == '\\'
}

/// Whether two slashes begin a text.
fn begins_with_host(text: &str) -> bool
    ensures { result ≡ begins_with_host (chars text.now) }
{
    match first_two(text) {
        Some((first, second)) => is_slash(first) && is_slash(second),
        None => false,
    }
}

/// What the URL of a value begins with.
pub fn url_kind(alloc: Global, value: &str) -> Result<UrlKind, ParseFault>
    ensures ok { IfOk result (λ kind. kind ≡ url_kind (chars value.now)) }
    ensures fault { IfErr result (λ fault. fault ≡ Memory) }
{
    let text = url_text(alloc, value)?;
    match scheme_of(alloc, text.as_str())? {
        Some(scheme) => Ok(UrlKind::HasScheme(scheme)),
        None => {
            if begins_with_host(text.as_str()) {
                Ok(UrlKind::HasHost)
            } else {
                Ok(UrlKind::IsRelative)
            }
        }
    }
}
