//! How names and values of a page are compared with those of a selector.
ghost use Rattle.std.specs.Prelude.{◌≡◌, encode_utf8_all, false};
ghost use Rattle.std.specs.Str.{bytes_eq, chars};
ghost use Rattle.html_selector_matching.specs.Simples as simples;
ghost use Rattle.html_selector_matching.specs.Simples.{asked_of};
ghost use Rattle.selectors.specs.Compare as compare;
ghost use Rattle.selectors.specs.declared.selector.Operator.TheVariants.{Substring};

use markup::{KnownNamespace, LocalName, QualName, Text};
use memchr::memmem;
use selectors::compare::{has_word, holds, is_same};
use selectors::{CaseSensitivity, Name, Operator};

// The bytes of a text.
pub(crate) fn spelled(text: &Text) -> &str
    ensures { result.now ≡ encode_utf8_all text.now }
{
    text.as_str()
}

pub(crate) fn local_of(name: &QualName) -> &str
    ensures { result.now ≡ encode_utf8_all name.now.local }
{
    name.local.as_str()
}

// Whether two names are the same. Known ones are compared by their places in the table.
pub(crate) fn is_local(one: &LocalName, other: &LocalName) -> bool
    ensures { result ≡ bytes_eq (encode_utf8_all one.now) (encode_utf8_all other.now) }
{
    let _one = one.as_str();
    let _other = other.as_str();
    one == other
}

pub(crate) fn is_html(name: &QualName) -> bool
    ensures { result ≡ simples.is_html name.now }
{
    name.ns.is_known(KnownNamespace::Html)
}

// The name that HTML's elements and their attributes are asked for, or others.
pub(crate) fn asked_of(html: bool, wanted: &Name) -> &str
    ensures { result.now ≡ asked_of html wanted.now }
{
    if html {
        spelled(wanted.lowered())
    } else {
        spelled(wanted.written())
    }
}

pub(crate) fn is_value(insensitive: bool, value: &str, wanted: &Text) -> bool
    ensures { result ≡ compare.same insensitive (encode_utf8_all (chars value.now)) (encode_utf8_all wanted.now) }
{
    is_same(insensitive, value.as_bytes(), spelled(wanted).as_bytes())
}

pub(crate) fn has_value_word(insensitive: bool, value: &str, wanted: &Text) -> bool
    ensures { result ≡ compare.has_word insensitive (encode_utf8_all (chars value.now)) (encode_utf8_all wanted.now) }
{
    has_word(insensitive, value.as_bytes(), spelled(wanted).as_bytes())
}

// Whether bytes have others somewhere, in time that grows with the length of both.
pub(crate) fn has_bytes(text: &[u8], wanted: &[u8]) -> bool
    ensures { result ≡ compare.has false text.now wanted.now }
{
    memmem::find(text, wanted).is_some()
}

pub(crate) fn has_substring(insensitive: bool, text: &[u8], wanted: &[u8]) -> bool
    ensures { result ≡ compare.holds Substring insensitive text.now wanted.now }
{
    if insensitive {
        holds(Operator::Substring, true, text, wanted)
    } else {
        !wanted.is_empty() && has_bytes(text, wanted)
    }
}

pub(crate) fn value_holds(
    operator: Operator,
    insensitive: bool,
    value: &Text,
    wanted: &Text,
) -> bool
    ensures { result ≡ compare.holds operator insensitive (encode_utf8_all value.now) (encode_utf8_all wanted.now) }
{
    let text = spelled(value).as_bytes();
    let wanted = spelled(wanted).as_bytes();
    match operator {
        Operator::Substring => has_substring(insensitive, text, wanted),
        _ => holds(operator, insensitive, text, wanted),
    }
}

fn is_one(name: &str) -> bool
    ensures { result ≡ simples.is_one name.now }
{
    name == "accept"
        || name == "accept-charset"
        || name == "align"
        || name == "alink"
        || name == "axis"
        || name == "bgcolor"
        || name == "charset"
        || name == "checked"
        || name == "clear"
        || name == "codetype"
        || name == "color"
        || name == "compact"
}

fn is_two(name: &str) -> bool
    ensures { result ≡ simples.is_two name.now }
{
    name == "declare"
        || name == "defer"
        || name == "dir"
        || name == "direction"
        || name == "disabled"
        || name == "enctype"
        || name == "face"
        || name == "frame"
        || name == "hreflang"
        || name == "http-equiv"
        || name == "lang"
        || name == "language"
}

fn is_three(name: &str) -> bool
    ensures { result ≡ simples.is_three name.now }
{
    name == "link"
        || name == "media"
        || name == "method"
        || name == "multiple"
        || name == "nohref"
        || name == "noresize"
        || name == "noshade"
        || name == "nowrap"
        || name == "readonly"
        || name == "rel"
        || name == "rev"
        || name == "rules"
}

fn is_four(name: &str) -> bool
    ensures { result ≡ simples.is_four name.now }
{
    name == "scope"
        || name == "scrolling"
        || name == "selected"
        || name == "shape"
        || name == "target"
        || name == "text"
        || name == "type"
        || name == "valign"
        || name == "valuetype"
        || name == "vlink"
}

// Whether this is one of HTML's attributes whose values are compared without the case of ASCII letters.
fn is_insensitive_name(name: &str) -> bool
    ensures { result ≡ simples.is_insensitive_name name.now }
{
    is_one(name) || is_two(name) || is_three(name) || is_four(name)
}

pub(crate) fn is_insensitive(case: CaseSensitivity, html: bool, name: &Name) -> bool
    ensures { result ≡ simples.is_insensitive case html name.now }
{
    match case {
        CaseSensitivity::Insensitive => true,
        CaseSensitivity::Sensitive => false,
        CaseSensitivity::AsHtml => html && is_insensitive_name(spelled(name.lowered())),
    }
}
