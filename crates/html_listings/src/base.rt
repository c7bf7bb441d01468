//! What the links of a page are relative to.
ghost use Rattle.std.specs.Prelude.{◌≡◌, IfErr, IfOk, None, Some, option_copied, option_map};
ghost use Rattle.std.specs.Str.{chars};
ghost use Rattle.std.specs.String.{string_bytes};
ghost use Rattle.markup.specs.declared.serializer.SerializeFault.TheVariants.{Memory};
ghost use Rattle.html_nodes.specs.Below.{below};
ghost use Rattle.url.specs.Parser.{Gives, Parsed};
ghost use Rattle.url.specs.Parts.{Parts};
ghost use Rattle.html_listings.specs.Listings as spec;
ghost use Rattle.html_listings.specs.Listings.{base_by, base_in, given_base, url_by, url_in};

use html_forest::Forest;
use html_nodes::{attribute_of, is_html, nodes_below};
use markup::SerializeFault;
use std::alloc::Global;
use url::{ParseError, Url};

/// The `href` of the first element `base` of the page that has one (HTML Standard, section 4.2.3).
fn base_element(forest: &Forest) -> Option<&str>
    ensures { option_map (λ text. chars text.now) result ≡ base_in forest.now (below forest.now 0) }
{
    for id in nodes_below(forest, forest.document()) {
        if is_html(forest, id, "base") {
            if let Some(text) = attribute_of(forest, id, "href") {
                return Some(text);
            }
        }
    }
    None
}

/// A URL that was parsed, if the text is one.
fn if_parsed(parsed: Result<Url, ParseError>) -> Result<Option<Url>, SerializeFault>
    ensures ok { (wanted : Parsed Parts) → Gives parsed wanted → IfOk result (λ url. url ≡ spec.if_parsed wanted) }
    ensures fault { IfErr result (λ fault. fault ≡ Memory) }
{
    match parsed {
        Ok(url) => Ok(Some(url)),
        Err(ParseError::OutOfMemory) => Err(SerializeFault::Memory),
        Err(ParseError::Overflow) => Err(SerializeFault::Memory),
        Err(_) => Ok(None),
    }
}

/// A text as a URL, if it is one: an absolute one.
#[tactic(auto, unfolding(crate::specs::Listings::url_in))]
fn absolute(alloc: Global, text: &str) -> Result<Option<Url>, SerializeFault>
    ensures ok { IfOk result (λ url. url ≡ url_in None text.now) }
    ensures fault { IfErr result (λ fault. fault ≡ Memory) }
{
    if_parsed(Url::parse(alloc, text))
}

/// A text as a URL, if it is one, relative to another.
#[tactic(auto, unfolding(crate::specs::Listings::url_in))]
fn joined(base: &Url, text: &str) -> Result<Option<Url>, SerializeFault>
    ensures ok { IfOk result (λ url. url ≡ url_in (Some base.now) text.now) }
    ensures fault { IfErr result (λ fault. fault ≡ Memory) }
{
    if_parsed(base.join(text))
}

/// A text as a URL relative to another, if there is one and it is one.
pub(crate) fn url_by(base: &Option<Url>, text: &str) -> Result<Option<Url>, SerializeFault>
    ensures ok { IfOk result (λ url. url ≡ url_by base.now text.now) }
    ensures fault { IfErr result (λ fault. fault ≡ Memory) }
{
    match base {
        Some(base) => joined(base, text),
        None => Ok(None),
    }
}

/// A text as a URL, if it is one, relative to another if there is one.
fn url_in(alloc: Global, base: Option<&Url>, text: &str) -> Result<Option<Url>, SerializeFault>
    ensures ok { IfOk result (λ url. url ≡ url_in (option_copied base.entry) text.now) }
    ensures fault { IfErr result (λ fault. fault ≡ Memory) }
{
    match base {
        Some(base) => joined(base, text),
        None => absolute(alloc, text),
    }
}

/// The base that is given, if it is a URL.
fn given_base(alloc: Global, given: &Option<String>) -> Result<Option<Url>, SerializeFault>
    ensures ok { IfOk result (λ url. url ≡ given_base (option_map string_bytes given.now)) }
    ensures fault { IfErr result (λ fault. fault ≡ Memory) }
{
    match given {
        Some(text) => absolute(alloc, text.as_str()),
        None => Ok(None),
    }
}

/// What links are relative to in a page with this base: that, if it is a URL, relative to what is given, or else what is given.
fn base_by(alloc: Global, given: Option<Url>, text: &str) -> Result<Option<Url>, SerializeFault>
    ensures ok { IfOk result (λ base. base ≡ base_by (Some (chars text.now)) given) }
    ensures fault { IfErr result (λ fault. fault ≡ Memory) }
{
    match url_in(alloc, given.as_ref(), text)? {
        Some(url) => Ok(Some(url)),
        None => Ok(given),
    }
}

/// What the links of a page are relative to: its `base`, which may be relative to what is given, or else that.
#[tactic(auto, unfolding(crate::specs::Listings::base_of))]
pub(crate) fn base_of(
    alloc: Global,
    forest: &Forest,
    given: &Option<String>,
) -> Result<Option<Url>, SerializeFault>
    ensures ok { IfOk result (λ base. base ≡ spec.base_of forest.now (option_map string_bytes given.now)) }
    ensures fault { IfErr result (λ fault. fault ≡ Memory) }
{
    let given = given_base(alloc, given)?;
    match base_element(forest) {
        Some(text) => base_by(alloc, given, text),
        None => Ok(given),
    }
}
