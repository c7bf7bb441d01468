//! URLs that are loaded through a proxy.
ghost use Rattle.std.specs.Prelude.{◌≡◌, ◌++◌, ◌<◌, IfErr, IfNone, IfOk, IfSome, None, OnOk, Some, map};
ghost use Rattle.std.specs.Char.{to_ascii_lowercase};
ghost use Rattle.std.specs.List.{flat_map, list_all};
ghost use Rattle.std.specs.Str.{chars};
ghost use Rattle.html_clean.specs.Proxies as proxies;
ghost use Rattle.html_clean.specs.Beginnings as beginnings;
ghost use Rattle.html_clean.specs.Beginnings.{begins_with_one};
ghost use Rattle.html_clean.specs.Proxies.{encoded_byte, escaped_byte, is_loaded, is_loaded_after, loaded_beginnings, percent_encoded};
ghost use Rattle.markup.specs.Trees.{is_among};
ghost use Rattle.markup.specs.declared.fault.ParseFault.TheVariants.{Memory};

use crate::kinds::{UrlKind, url_kind, url_text};
use crate::pictures::begins_with_any;
use markup::{ParseFault, Text};
use std::alloc::Global;

/// Whether a character stands for itself in each part of a URL.
fn is_unreserved(c: char) -> bool
    ensures { result ≡ proxies.is_unreserved c }
{
    c.is_ascii_alphanumeric() || c == '-' || c == '.' || c == '_' || c == '~'
}

/// A digit of sixteen, in upper case.
fn hex_digit(n: u8) -> char
    requires { n < 16 }
    ensures { result ≡ proxies.hex_digit n }
{
    if n < 10 {
        (48 + n) as char
    } else {
        (55 + n) as char
    }
}

/// Puts a byte after a text, percent-encoded.
fn push_escape(text: &mut Text, byte: u8) -> Result<(), ParseFault>
    ensures ok { OnOk result (text.new ≡ text.old ++ escaped_byte byte) }
    ensures fault { IfErr result (λ fault. fault ≡ Memory) }
{
    text.push('%')?;
    text.push(hex_digit(byte / 16))?;
    text.push(hex_digit(byte % 16))?;
    Ok(())
}

/// Puts a byte after a text, percent-encoded unless it stands for itself.
fn push_encoded(text: &mut Text, byte: u8) -> Result<(), ParseFault>
    ensures ok { OnOk result (text.new ≡ text.old ++ encoded_byte byte) }
    ensures fault { IfErr result (λ fault. fault ≡ Memory) }
{
    if is_unreserved(byte as char) {
        text.push(byte as char)
    } else {
        push_escape(text, byte)
    }
}

/// Puts bytes after a text, each so.
fn push_all_encoded(text: &mut Text, bytes: &[u8]) -> Result<(), ParseFault>
    ensures ok { OnOk result (text.new ≡ text.old ++ flat_map encoded_byte bytes.now) }
    ensures fault { IfErr result (λ fault. fault ≡ Memory) }
{
    for byte in bytes {
        push_encoded(text, *byte)?;
    }
    Ok(())
}

/// A URL percent-encoded, with the prefix of a proxy in front.
fn with_prefix(alloc: Global, prefix: &str, url: &str) -> Result<Text, ParseFault>
    ensures ok { IfOk result (λ made. made ≡ chars prefix.now ++ percent_encoded (chars url.now)) }
    ensures fault { IfErr result (λ fault. fault ≡ Memory) }
{
    let mut made = Text::from_str(alloc, prefix)?;
    push_all_encoded(&mut made, url.as_bytes())?;
    Ok(made)
}

/// Whether a scheme is one of the web.
fn is_web_scheme(scheme: &Text) -> bool
    ensures { result ≡ is_among scheme.now proxies.web_schemes }
{
    scheme.is("http") || scheme.is("https")
}

/// Whether a proxy is to load a URL of this kind.
fn is_loaded_kind(kind: &UrlKind) -> bool
    ensures { result ≡ proxies.is_loaded_kind kind.now }
{
    match kind {
        UrlKind::HasScheme(scheme) => is_web_scheme(scheme),
        UrlKind::HasHost => true,
        UrlKind::IsRelative => false,
    }
}

/// How a URL that a proxy loads begins, percent-encoded and in lower case.
const LOADED_BEGINNINGS: [&str; 6] = [
    "http%3a", "https%3a", "%2f%2f", "%2f%5c", "%5c%2f", "%5c%5c",
];

/// Whether a character may be in a text that is percent-encoded.
fn is_encoded_character(c: char) -> bool
    ensures { result ≡ proxies.is_encoded_character c }
{
    is_unreserved(c) || c == '%'
}

/// Whether all characters of a text are such.
fn is_encoded(text: &str) -> bool
    ensures { result ≡ list_all proxies.is_encoded_character (chars text.now) }
{
    text.chars().all(|c| is_encoded_character(c))
}

/// Whether a text begins so, whatever the case of its letters.
fn begins_loaded(alloc: Global, text: &str) -> Result<bool, ParseFault>
    ensures ok { IfOk result (λ is. is ≡ begins_with_one loaded_beginnings (map to_ascii_lowercase (chars text.now))) }
    ensures fault { IfErr result (λ fault. fault ≡ Memory) }
{
    let mut lowered = Text::empty(alloc);
    lowered.push_lowered(text)?;
    Ok(begins_with_any(&LOADED_BEGINNINGS, lowered.as_str()))
}

/// Whether a text is such a URL, percent-encoded.
#[tactic(auto, unfolding(crate::specs::Proxies::is_loaded))]
fn is_loaded(alloc: Global, text: &str) -> Result<bool, ParseFault>
    ensures ok { IfOk result (λ is. is ≡ is_loaded (chars text.now)) }
    ensures fault { IfErr result (λ fault. fault ≡ Memory) }
{
    if !is_encoded(text) {
        return Ok(false);
    }
    begins_loaded(alloc, text)
}

/// What follows a beginning of a text.
fn after_beginning<'a>(beginning: &str, text: &'a str) -> Option<&'a str>
    ensures some { IfSome result (λ rest. beginnings.after_beginning (chars beginning.now) (chars text.now) ≡ Some (chars rest.now)) }
    ensures none { IfNone result (beginnings.after_beginning (chars beginning.now) (chars text.now) ≡ None) }
{
    let mut rest = text.chars();
    for c in beginning.chars() {
        match rest.next() {
            Some(d) if c == d => {}
            _ => return None,
        }
    }
    Some(rest.as_str())
}

/// Whether a URL goes through a proxy already.
fn is_proxied(alloc: Global, prefix: &str, url: &str) -> Result<bool, ParseFault>
    ensures ok { IfOk result (λ is. is ≡ is_loaded_after (beginnings.after_beginning (chars prefix.now) (chars url.now))) }
    ensures fault { IfErr result (λ fault. fault ≡ Memory) }
{
    match after_beginning(prefix, url) {
        Some(rest) => is_loaded(alloc, rest),
        None => Ok(false),
    }
}

/// A URL through a proxy.
#[tactic(auto, unfolding(crate::specs::Proxies::proxied))]
pub(crate) fn proxied(alloc: Global, prefix: &str, url: &str) -> Result<Text, ParseFault>
    ensures ok { IfOk result (λ made. made ≡ proxies.proxied (chars prefix.now) (chars url.now)) }
    ensures fault { IfErr result (λ fault. fault ≡ Memory) }
{
    if is_proxied(alloc, prefix, url)? {
        return Text::from_str(alloc, url);
    }
    let kind = url_kind(alloc, url)?;
    if !is_loaded_kind(&kind) {
        return Text::from_str(alloc, url);
    }
    let text = url_text(alloc, url)?;
    with_prefix(alloc, prefix, text.as_str())
}
