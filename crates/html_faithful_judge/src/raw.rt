//! Whether raw text is read as it is written, by its bytes: all that ends such a text, or changes how it goes on, is of ASCII (HTML Standard,
//! sections 13.2.5.2 to 13.2.5.4 and 13.2.5.9 to 13.2.5.31).
ghost use Rattle.std.specs.Char.{to_ascii_lowercase};
ghost use Rattle.std.specs.Prelude.{◌≡◌, ◌&&◌, map, nat_eq, true};
ghost use Rattle.std.specs.Str.{chars};
ghost use Rattle.html_tokens.specs.Characters.{begins, begins_name, ends_name_at};
ghost use Rattle.html_tokens.specs.RawText.{ends_at_tag, is_letters, next_kind, slash_name};
ghost use Rattle.html_faithful.specs.Forms.{goes_on_raw};
ghost use Rattle.html_faithful_judge.specs.Raw.{IsFirstSign, goes_on_here, has_hyphens};

use html_tokens::states::{RawKind, ScriptEscapeKind};
use memchr::{memchr, memchr2};

/// Whether bytes begin with others.
fn begins(bytes: &[u8], word: &[u8]) -> bool
    ensures { result ≡ begins word.now bytes.now }
{
    for (i, b) in word.iter().enumerate() {
        if i >= bytes.len() {
            return false;
        }
        if *b != bytes[i] {
            return false;
        }
    }
    true
}

/// Whether bytes begin with what ends the name of a tag.
fn ends_name(bytes: &[u8]) -> bool
    ensures { result ≡ ends_name_at bytes.now }
{
    match bytes.first() {
        Some(b) => matches!(*b, b'\t' | b'\n' | b'\x0C' | b' ' | b'/' | b'>'),
        None => false,
    }
}

/// Whether bytes begin with a name in any case, and with what ends a name after it.
fn begins_name(bytes: &[u8], name: &[u8]) -> bool
    ensures { result ≡ begins_name (map to_ascii_lowercase name.now) bytes.now }
{
    for (i, b) in name.iter().enumerate() {
        if i >= bytes.len() {
            return false;
        }
        if b.to_ascii_lowercase() != bytes[i].to_ascii_lowercase() {
            return false;
        }
    }
    ends_name(&bytes[name.len()..])
}

/// Whether the fitting end tag ends text of this kind.
fn ends_at_tag(kind: RawKind) -> bool
    ensures { result ≡ ends_at_tag kind }
{
    !matches!(
        kind,
        RawKind::ScriptDataEscaped(ScriptEscapeKind::DoubleEscaped)
    )
}

/// Whether the end tag of an element follows a `<`.
fn follows_end(bytes: &[u8], name: &[u8]) -> bool
    ensures { result ≡ slash_name name.now bytes.now }
{
    match bytes.split_first() {
        Some((b, rest)) => *b == b'/' && begins_name(rest, name),
        None => false,
    }
}

/// Whether raw text of an element ends at a byte.
fn ends_here(kind: RawKind, name: &[u8], b: u8, rest: &[u8]) -> bool
    ensures { result ≡ (nat_eq b 0x3C && ends_at_tag kind && slash_name name.now rest.now) }
{
    b == b'<' && ends_at_tag(kind) && follows_end(rest, name)
}

/// How the text of a script goes on after a byte (HTML Standard, sections 13.2.5.4 and 13.2.5.15 to 13.2.5.31).
fn next_kind(kind: RawKind, b: u8, rest: &[u8]) -> RawKind
    ensures { result ≡ next_kind kind b rest.now }
{
    match kind {
        RawKind::Rcdata | RawKind::Rawtext => kind,
        RawKind::ScriptData => {
            if b == b'<' && begins(rest, b"!--") {
                RawKind::ScriptDataEscaped(ScriptEscapeKind::Escaped)
            } else {
                RawKind::ScriptData
            }
        }
        RawKind::ScriptDataEscaped(ScriptEscapeKind::Escaped) => {
            if b == b'<' && begins_name(rest, b"script") {
                RawKind::ScriptDataEscaped(ScriptEscapeKind::DoubleEscaped)
            } else if b == b'-' && begins(rest, b"->") {
                RawKind::ScriptData
            } else {
                RawKind::ScriptDataEscaped(ScriptEscapeKind::Escaped)
            }
        }
        RawKind::ScriptDataEscaped(ScriptEscapeKind::DoubleEscaped) => {
            if b == b'<' && begins_name(rest, b"/script") {
                RawKind::ScriptDataEscaped(ScriptEscapeKind::Escaped)
            } else if b == b'-' && begins(rest, b"->") {
                RawKind::ScriptData
            } else {
                RawKind::ScriptDataEscaped(ScriptEscapeKind::DoubleEscaped)
            }
        }
    }
}

/// Whether a hyphen may change how text of a kind goes on.
fn has_hyphens(kind: RawKind) -> bool
    ensures { result ≡ has_hyphens kind }
{
    matches!(kind, RawKind::ScriptDataEscaped(_))
}

/// The place of the first byte at which text of a kind may end, or go on in another way.
fn first_sign(kind: RawKind, bytes: &[u8]) -> Option<usize>
    ensures { IsFirstSign kind bytes.now result }
{
    if has_hyphens(kind) {
        memchr2(b'<', b'-', bytes)
    } else {
        memchr(b'<', bytes)
    }
}

/// Whether raw text of an element that has these bytes, with the element's end tag after it, ends there and not before.
fn goes_on_here(kind: RawKind, name: &[u8], bytes: &[u8]) -> bool
    ensures { result ≡ goes_on_here kind name.now bytes.now }
{
    let mut kind = kind;
    let mut rest = bytes;
    while let Some(at) = first_sign(kind, rest) {
        let ahead = &rest[at..];
        let b = ahead[0];
        rest = &ahead[1..];
        if ends_here(kind, name, b, rest) {
            return false;
        }
        kind = next_kind(kind, b, rest);
    }
    ends_at_tag(kind)
}

/// Whether raw text that is not escaped is read as it is written in an element whose name is of letters.
pub(crate) fn goes_on(kind: RawKind, name: &str, text: &str) -> bool
    requires { is_letters (chars name.now) ≡ true }
    ensures { result ≡ goes_on_raw kind (chars name.now) (chars text.now) }
{
    goes_on_here(kind, name.as_bytes(), text.as_bytes())
}
