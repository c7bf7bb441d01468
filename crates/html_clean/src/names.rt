//! Which names of elements and of attributes a policy can keep at all, and which attributes are URLs.
ghost use Rattle.std.specs.Prelude.{◌≡◌, map, true};
ghost use Rattle.std.specs.List.{list_all, list_any};
ghost use Rattle.std.specs.Str.{bytes_eq, chars};
ghost use Rattle.html_round_trip.specs.Slices.Forms.{is_attribute_name};
ghost use Rattle.html_tokens.specs.Clean.{is_clean_in_name};
ghost use Rattle.markup.specs.KnownNames.{rises};
ghost use Rattle.markup.specs.Plain.{is_plain};
ghost use Rattle.html_clean.specs.Names.{begins_with_on, is_safe_attribute, is_safe_name, is_url_attribute, is_void};
ghost use Rattle.html_clean.specs.Names as names;
ghost use Rattle.markup.specs.Trees.{is_among};

use crate::texts::first_two;
use markup::{LocalName, Text};

/// Elements that may be kept, in the order of their characters.
const SAFE_NAMES: [&str; 114] = [
    "a",
    "abbr",
    "acronym",
    "address",
    "area",
    "article",
    "aside",
    "audio",
    "b",
    "bdi",
    "bdo",
    "big",
    "blockquote",
    "body",
    "br",
    "button",
    "canvas",
    "caption",
    "center",
    "cite",
    "code",
    "col",
    "colgroup",
    "data",
    "datalist",
    "dd",
    "del",
    "details",
    "dfn",
    "dialog",
    "dir",
    "div",
    "dl",
    "dt",
    "em",
    "embed",
    "fieldset",
    "figcaption",
    "figure",
    "font",
    "footer",
    "form",
    "h1",
    "h2",
    "h3",
    "h4",
    "h5",
    "h6",
    "head",
    "header",
    "hgroup",
    "hr",
    "html",
    "i",
    "img",
    "input",
    "ins",
    "kbd",
    "label",
    "legend",
    "li",
    "main",
    "map",
    "mark",
    "marquee",
    "menu",
    "meter",
    "nav",
    "nobr",
    "object",
    "ol",
    "optgroup",
    "option",
    "output",
    "p",
    "param",
    "picture",
    "pre",
    "progress",
    "q",
    "rb",
    "rp",
    "rt",
    "rtc",
    "ruby",
    "s",
    "samp",
    "search",
    "section",
    "select",
    "slot",
    "small",
    "source",
    "span",
    "strike",
    "strong",
    "sub",
    "summary",
    "sup",
    "table",
    "tbody",
    "td",
    "tfoot",
    "th",
    "thead",
    "time",
    "tr",
    "track",
    "tt",
    "u",
    "ul",
    "var",
    "video",
    "wbr",
];

/// Elements that have no children and no end tag, in the order of their characters.
const VOID_NAMES: [&str; 18] = [
    "area", "base", "basefont", "bgsound", "br", "col", "embed", "frame", "hr", "img", "input",
    "keygen", "link", "meta", "param", "source", "track", "wbr",
];

/// Attributes that are never kept, beside those of events, in the order of their characters.
const UNSAFE_ATTRIBUTES: [&str; 8] = [
    "archive",
    "attributionsrc",
    "code",
    "imagesrcset",
    "ping",
    "srcdoc",
    "style",
    "xmlns",
];

/// Attributes of HTML whose values are URLs, or a list of them, in the order of their characters.
const URL_ATTRIBUTES: [&str; 17] = [
    "action",
    "background",
    "cite",
    "classid",
    "codebase",
    "data",
    "dynsrc",
    "formaction",
    "href",
    "icon",
    "longdesc",
    "lowsrc",
    "manifest",
    "poster",
    "profile",
    "src",
    "srcset",
];

/// Whether a name is in a table of names of ASCII alone, in the order of their characters.
fn is_listed(name: &str, table: &[&str]) -> bool
    requires ordered { rises (map (λ known. known.now) table.now) ≡ true }
    requires plain { list_all is_plain (map (λ known. known.now) table.now) ≡ true }
    ensures { result ≡ list_any (bytes_eq (chars name.now)) (map (λ known. known.now) table.now) }
{
    match table.binary_search(&name) {
        Ok(_) => true,
        Err(_) => false,
    }
}

/// Whether the HTML element of a name has no children.
pub(crate) fn is_void(name: &LocalName) -> bool
    ensures { result ≡ is_void name.now }
{
    is_listed(name.as_str(), &VOID_NAMES)
}

/// Whether an element may be kept.
#[tactic(auto, unfolding(crate::specs::Names::is_safe_name))]
pub(crate) fn is_safe_name(name: &LocalName) -> bool
    ensures { result ≡ is_safe_name name.now }
{
    is_listed(name.as_str(), &SAFE_NAMES)
}

/// Whether the value of an attribute of that name is a URL.
#[tactic(auto, unfolding(crate::specs::Names::is_url_attribute))]
pub(crate) fn is_url_attribute(name: &LocalName) -> bool
    ensures { result ≡ is_url_attribute name.now }
{
    is_listed(name.as_str(), &URL_ATTRIBUTES)
}

/// Whether a text begins with "on".
fn begins_with_on(text: &str) -> bool
    ensures { result ≡ begins_with_on (chars text.now) }
{
    match first_two(text) {
        Some((first, second)) => first == 'o' && second == 'n',
        None => false,
    }
}

/// Whether all characters are lower-case ASCII letters, digits and hyphens.
fn has_name_characters(text: &str) -> bool
    ensures { result ≡ list_all is_clean_in_name (chars text.now) }
{
    text.chars().all(|c| c.is_ascii_lowercase() || c.is_ascii_digit() || c == '-')
}

/// Whether a name is not empty and is of such characters.
fn is_attribute_name(name: &LocalName) -> bool
    ensures { result ≡ is_attribute_name name.now }
{
    !name.is_empty() && has_name_characters(name.as_str())
}

/// Whether the name of an attribute that may be kept may begin so.
pub(crate) fn is_safe_beginning(text: &Text) -> bool
    ensures { result ≡ names.is_safe_beginning text.now }
{
    has_name_characters(text.as_str()) && !begins_with_on(text.as_str())
}

/// Schemes of URLs that are never kept, in the order of their characters: what they name is run, or shown as a document.
const UNSAFE_SCHEMES: [&str; 3] = ["data", "javascript", "vbscript"];

/// Whether a scheme is one of those.
pub(crate) fn is_unsafe_scheme(scheme: &Text) -> bool
    ensures { result ≡ is_among scheme.now names.unsafe_schemes }
{
    is_listed(scheme.as_str(), &UNSAFE_SCHEMES)
}

/// Whether a character may stand in a scheme in lower case.
fn is_scheme_character(c: char) -> bool
    ensures { result ≡ names.is_lower_scheme_character c }
{
    c.is_ascii_lowercase() || c.is_ascii_digit() || c == '+' || c == '-' || c == '.'
}

/// Whether a text begins with a lower-case letter.
fn begins_with_lower(text: &str) -> bool
    ensures { result ≡ names.begins_with_lower (chars text.now) }
{
    match text.chars().next() {
        Some(c) => c.is_ascii_lowercase(),
        None => false,
    }
}

/// Whether all characters may stand in a scheme in lower case.
fn has_scheme_characters(text: &str) -> bool
    ensures { result ≡ list_all names.is_lower_scheme_character (chars text.now) }
{
    text.chars().all(|c| is_scheme_character(c))
}

/// Whether a text is a scheme in lower case (URL Standard, section 4.3).
fn is_scheme_name(text: &str) -> bool
    ensures { result ≡ names.is_scheme_name (chars text.now) }
{
    begins_with_lower(text) && has_scheme_characters(text)
}

/// Whether URLs of a scheme may be kept.
pub(crate) fn is_safe_scheme(scheme: &Text) -> bool
    ensures { result ≡ names.is_safe_scheme scheme.now }
{
    is_scheme_name(scheme.as_str()) && !is_unsafe_scheme(scheme)
}

/// Elements of the page itself, in the order of their characters.
const PAGE_NAMES: [&str; 3] = ["body", "head", "html"];

/// Whether an element may be kept in a fragment, as far as it is none of the page itself.
pub(crate) fn is_fragment_name(name: &LocalName) -> bool
    ensures { result ≡ names.is_fragment_name name.now }
{
    !is_listed(name.as_str(), &PAGE_NAMES)
}

/// Whether an attribute is one of those that are never kept.
fn is_unsafe_attribute(name: &LocalName) -> bool
    ensures { result ≡ is_among name.now names.unsafe_attributes }
{
    is_listed(name.as_str(), &UNSAFE_ATTRIBUTES)
}

/// Whether an attribute may be kept.
#[tactic(auto, unfolding(crate::specs::Names::is_safe_attribute))]
pub(crate) fn is_safe_attribute(name: &LocalName) -> bool
    ensures { result ≡ is_safe_attribute name.now }
{
    is_attribute_name(name) && !begins_with_on(name.as_str()) && !is_unsafe_attribute(name)
}
