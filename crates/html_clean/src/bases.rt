//! URLs that are made absolute.
ghost use Rattle.std.specs.Prelude.{◌≡◌, IfErr, IfOk, None, Some};
ghost use Rattle.std.specs.Str.{chars};
ghost use Rattle.html_clean.specs.Bases as bases;
ghost use Rattle.html_clean.specs.Bases.{text_or, url_by, url_in};
ghost use Rattle.markup.specs.declared.fault.ParseFault.TheVariants.{Memory};
ghost use Rattle.url.specs.Parser.{Gives, Parsed};
ghost use Rattle.url.specs.Parts.{Parts};

use crate::kinds::{UrlKind, url_kind};
use markup::{ParseFault, Text};
use std::alloc::Global;
use url::{ParseError, Url};

/// A URL that was parsed, if the text is one. One of 4 GB and more wants too much memory.
fn if_parsed(parsed: Result<Url, ParseError>) -> Result<Option<Url>, ParseFault>
    ensures ok { (wanted : Parsed Parts) → Gives parsed wanted → IfOk result (λ url. url ≡ bases.if_parsed wanted) }
    ensures fault { IfErr result (λ fault. fault ≡ Memory) }
{
    match parsed {
        Ok(url) => Ok(Some(url)),
        Err(ParseError::OutOfMemory) => Err(ParseFault::Memory),
        Err(ParseError::Overflow) => Err(ParseFault::Memory),
        Err(_) => Ok(None),
    }
}

/// The URL that a text is by itself.
#[tactic(auto, unfolding(crate::specs::Bases::url_in))]
fn url_alone(alloc: Global, text: &str) -> Result<Option<Url>, ParseFault>
    ensures ok { IfOk result (λ url. url ≡ url_in None text.now) }
    ensures fault { IfErr result (λ fault. fault ≡ Memory) }
{
    if_parsed(Url::parse(alloc, text))
}

/// The URL that a text is, relative to another.
#[tactic(auto, unfolding(crate::specs::Bases::url_in))]
fn joined(base: &Url, text: &str) -> Result<Option<Url>, ParseFault>
    ensures ok { IfOk result (λ url. url ≡ url_in (Some base.now) text.now) }
    ensures fault { IfErr result (λ fault. fault ≡ Memory) }
{
    if_parsed(base.join(text))
}

/// The URL that a text is, relative to another, if there is one.
fn url_by(base: &Option<Url>, text: &str) -> Result<Option<Url>, ParseFault>
    ensures ok { IfOk result (λ url. url ≡ url_by base.now text.now) }
    ensures fault { IfErr result (λ fault. fault ≡ Memory) }
{
    match base {
        Some(base) => joined(base, text),
        None => Ok(None),
    }
}

/// A URL as it is written, or a text.
fn text_or(alloc: Global, url: &Option<Url>, text: &str) -> Result<Text, ParseFault>
    ensures ok { IfOk result (λ made. made ≡ text_or url.now (chars text.now)) }
    ensures fault { IfErr result (λ fault. fault ≡ Memory) }
{
    match url {
        Some(url) => Text::from_str(alloc, url.as_str()),
        None => Text::from_str(alloc, text),
    }
}

/// Whether a URL of a kind is made absolute.
fn has_no_scheme(kind: &UrlKind) -> bool
    ensures { result ≡ bases.has_no_scheme kind.now }
{
    match kind {
        UrlKind::HasScheme(_) => false,
        UrlKind::HasHost | UrlKind::IsRelative => true,
    }
}

/// A text as a URL relative to a base, if it can be read so.
fn resolved(alloc: Global, base: &str, url: &str) -> Result<Text, ParseFault>
    ensures ok { IfOk result (λ made. made ≡ bases.resolved (chars base.now) (chars url.now)) }
    ensures fault { IfErr result (λ fault. fault ≡ Memory) }
{
    let base = url_alone(alloc, base)?;
    let found = url_by(&base, url)?;
    text_or(alloc, &found, url)
}

/// A URL, so that it has a scheme.
#[tactic(auto, unfolding(crate::specs::Bases::absolute))]
pub(crate) fn absolute(alloc: Global, base: &str, url: &str) -> Result<Text, ParseFault>
    ensures ok { IfOk result (λ made. made ≡ bases.absolute (chars base.now) (chars url.now)) }
    ensures fault { IfErr result (λ fault. fault ≡ Memory) }
{
    let kind = url_kind(alloc, url)?;
    if has_no_scheme(&kind) {
        resolved(alloc, base, url)
    } else {
        Text::from_str(alloc, url)
    }
}
