//! What is outside of a policy, where an attack is cleaned by it, put into contexts and read again.

use crate::lines::{put_line, without_last};
use crate::settings::five;
use crate::written::cleaned_by;
use html_forest::{Forest, NodeData, NodeId};
use html_pages::document;
use html_policy_text::Ready;
use markup::{Attribute, ParseFault};
use row_format::{How, Row};
use std::alloc::{AllocError, Global};

/// What a policy may keep.
struct Kept {
    policy: Ready,
    /// Its name.
    name: &'static str,
    /// Elements without attributes of their own.
    bare: &'static [&'static str],
    /// Elements with attributes of their own, and others with more.
    elements: &'static [(&'static str, &'static [&'static str])],
    others: &'static [(&'static str, &'static [&'static str])],
    /// Attributes of each of these elements.
    everywhere: &'static [&'static str],
    /// What its URLs begin with; if there is nothing, whatever runs no script.
    schemes: &'static [&'static str],
    /// What the URLs of its pictures may begin with besides.
    pictures: &'static [&'static str],
}

/// Where cleaned text is put: behind a text, which makes these elements.
struct Context {
    before: &'static str,
    makes: &'static [&'static str],
}

const BARE: &[&str] = &[
    "abbr",
    "acronym",
    "area",
    "article",
    "aside",
    "b",
    "bdi",
    "br",
    "caption",
    "center",
    "cite",
    "code",
    "data",
    "dd",
    "details",
    "dfn",
    "div",
    "dl",
    "dt",
    "em",
    "figcaption",
    "figure",
    "footer",
    "h1",
    "h2",
    "h3",
    "h4",
    "h5",
    "h6",
    "header",
    "hgroup",
    "i",
    "kbd",
    "li",
    "map",
    "mark",
    "nav",
    "p",
    "pre",
    "rp",
    "rt",
    "rtc",
    "ruby",
    "s",
    "samp",
    "small",
    "span",
    "strike",
    "strong",
    "sub",
    "summary",
    "sup",
    "time",
    "tt",
    "u",
    "ul",
    "var",
    "wbr",
];

const LINKS: &[(&str, &[&str])] = &[
    ("a", &["href", "hreflang"]),
    ("bdo", &["dir"]),
    ("blockquote", &["cite"]),
    ("col", &["align", "char", "charoff", "span"]),
    ("colgroup", &["align", "char", "charoff", "span"]),
    ("del", &["cite", "datetime"]),
    ("hr", &["align", "size", "width"]),
    ("img", &["align", "alt", "height", "src", "width"]),
    ("ins", &["cite", "datetime"]),
    ("ol", &["start"]),
    ("q", &["cite"]),
    ("table", &["align", "char", "charoff", "summary"]),
    ("tbody", &["align", "char", "charoff"]),
    ("td", CELL),
    ("tfoot", &["align", "char", "charoff"]),
    ("th", CELL),
    ("thead", &["align", "char", "charoff"]),
    ("tr", &["align", "char", "charoff"]),
];

const CELL: &[&str] = &[
    "align", "char", "charoff", "colspan", "headers", "rowspan", "scope",
];

const USERS: &[(&str, &[&str])] = &[
    ("a", &["name", "rel"]),
    ("code", &["class"]),
    ("data", &["value"]),
    ("details", &["open"]),
    ("div", &["align"]),
    ("h1", &["align"]),
    ("h2", &["align"]),
    ("h3", &["align"]),
    ("h4", &["align"]),
    ("h5", &["align"]),
    ("h6", &["align"]),
    ("input", &["checked", "disabled", "type"]),
    ("li", &["value"]),
    ("ol", &["reversed", "type"]),
    ("p", &["align"]),
    ("picture", &[]),
    ("section", &[]),
    ("source", &["media", "sizes", "srcset", "type"]),
    ("time", &["datetime"]),
];

/// Elements of mails without attributes of their own.
const MAIL_BARE: &[&str] = &[
    "abbr",
    "acronym",
    "address",
    "b",
    "bdi",
    "bdo",
    "big",
    "br",
    "center",
    "cite",
    "dd",
    "dfn",
    "dl",
    "dt",
    "em",
    "figcaption",
    "figure",
    "i",
    "kbd",
    "mark",
    "pre",
    "rp",
    "rt",
    "ruby",
    "s",
    "samp",
    "section",
    "small",
    "span",
    "strike",
    "strong",
    "sub",
    "summary",
    "sup",
    "tt",
    "u",
    "var",
    "wbr",
];

const MAILS: &[(&str, &[&str])] = &[
    ("a", &["href", "rel", "target"]),
    ("blockquote", &["cite"]),
    ("caption", &["align"]),
    ("code", &["class"]),
    ("col", MAIL_COLUMN),
    ("colgroup", MAIL_COLUMN),
    ("data", &["value"]),
    ("del", &["cite", "datetime"]),
    ("details", &["open"]),
    ("div", &["align"]),
    ("font", &["color", "face", "size"]),
    ("h1", &["align"]),
    ("h2", &["align"]),
    ("h3", &["align"]),
    ("h4", &["align"]),
    ("h5", &["align"]),
    ("h6", &["align"]),
    ("hr", &["align", "size", "width"]),
    (
        "img",
        &[
            "align", "alt", "border", "height", "hspace", "src", "vspace", "width",
        ],
    ),
    ("ins", &["cite", "datetime"]),
    ("li", &["type", "value"]),
    ("ol", &["reversed", "start", "type"]),
    ("p", &["align"]),
    ("q", &["cite"]),
    (
        "table",
        &[
            "align",
            "bgcolor",
            "border",
            "cellpadding",
            "cellspacing",
            "height",
            "summary",
            "width",
        ],
    ),
    ("tbody", &["align", "valign"]),
    ("td", MAIL_CELL),
    ("tfoot", &["align", "valign"]),
    ("th", MAIL_CELL),
    ("thead", &["align", "valign"]),
    ("time", &["datetime"]),
    ("tr", &["align", "bgcolor", "height", "valign"]),
    ("ul", &["type"]),
];

const MAIL_COLUMN: &[&str] = &["align", "span", "valign", "width"];

const MAIL_CELL: &[&str] = &[
    "align", "bgcolor", "colspan", "height", "nowrap", "rowspan", "scope", "valign", "width",
];

const KEPT: &[Kept] = &[
    Kept {
        policy: Ready::TextAlone,
        name: "text alone",
        bare: &[],
        elements: &[],
        others: &[],
        everywhere: &[],
        schemes: &[],
        pictures: &[],
    },
    Kept {
        policy: Ready::TextAndLinks,
        name: "text and links",
        bare: BARE,
        elements: LINKS,
        others: &[],
        everywhere: &["lang", "title"],
        schemes: &[],
        pictures: &[],
    },
    Kept {
        policy: Ready::UserContent,
        name: "user content",
        bare: BARE,
        elements: LINKS,
        others: USERS,
        everywhere: &["dir", "id", "lang", "title"],
        schemes: &[],
        pictures: &[],
    },
    Kept {
        policy: Ready::Mail,
        name: "mail",
        bare: MAIL_BARE,
        elements: MAILS,
        others: &[],
        everywhere: &["dir", "lang", "title"],
        schemes: &["http:", "https:", "mailto:", "tel:"],
        pictures: PICTURES,
    },
];

/// What the URLs of pictures that come with a mail begin with: those that hold no script.
const PICTURES: &[&str] = &[
    "cid:",
    "data:image/avif,",
    "data:image/avif;",
    "data:image/gif,",
    "data:image/gif;",
    "data:image/jpeg,",
    "data:image/jpeg;",
    "data:image/png,",
    "data:image/png;",
    "data:image/webp,",
    "data:image/webp;",
];

/// Elements that the parser makes by itself (HTML Standard, section 13.2.6).
const IMPLIED: &[&str] = &["html", "head", "body", "tbody", "colgroup", "tr"];

const CONTEXTS: &[Context] = &[
    Context {
        before: "",
        makes: &[],
    },
    Context {
        before: "<div><p>",
        makes: &["div", "p"],
    },
    Context {
        before: "<b><i><a><nobr>",
        makes: &["b", "i", "a", "nobr"],
    },
    Context {
        before: "<h1><button>",
        makes: &["h1", "button"],
    },
    Context {
        before: "<ul><li>",
        makes: &["ul", "li"],
    },
    Context {
        before: "<dl><dd>",
        makes: &["dl", "dd"],
    },
    Context {
        before: "<ruby><rt>",
        makes: &["ruby", "rt"],
    },
    Context {
        before: "<details><summary>",
        makes: &["details", "summary"],
    },
    Context {
        before: "<form><object>",
        makes: &["form", "object"],
    },
    Context {
        before: "<table>",
        makes: &["table"],
    },
    Context {
        before: "<table><caption>",
        makes: &["table", "caption"],
    },
    Context {
        before: "<table><colgroup>",
        makes: &["table"],
    },
    Context {
        before: "<table><tr>",
        makes: &["table"],
    },
    Context {
        before: "<table><tr><td>",
        makes: &["table", "td"],
    },
    Context {
        before: "<select>",
        makes: &["select"],
    },
    Context {
        before: "<select><option>",
        makes: &["select", "option"],
    },
    Context {
        before: "<template>",
        makes: &["template"],
    },
    Context {
        before: "<svg>",
        makes: &["svg"],
    },
    Context {
        before: "<svg><foreignObject>",
        makes: &["svg", "foreignobject"],
    },
    Context {
        before: "<svg><desc>",
        makes: &["svg", "desc"],
    },
    Context {
        before: "<math>",
        makes: &["math"],
    },
    Context {
        before: "<math><mtext><table>",
        makes: &["math", "mtext", "table"],
    },
    Context {
        before: "<math><annotation-xml>",
        makes: &["math", "annotation-xml"],
    },
];

/// Attributes whose values are URLs.
const URLS: &[&str] = &[
    "action",
    "background",
    "cite",
    "data",
    "formaction",
    "href",
    "longdesc",
    "ping",
    "poster",
    "src",
    "srcset",
];

/// Attributes whose values are names that a page's own scripts and links find, and what these names begin with.
const NAMES: &[&str] = &["id", "name"];

const PREFIX: &str = "user-content-";

/// What URLs of scripts, and of documents with their own text, begin with.
const RUN: &[&str] = &["javascript:", "vbscript:", "data:"];

/// How many nodes of a page are looked at.
const MOST: usize = 100_000;

fn has(names: &[&str], name: &str) -> bool {
    for it in names {
        if it.eq_ignore_ascii_case(name) {
            return true;
        }
    }
    false
}

/// Whether an element is among these.
fn is_named(elements: &[(&str, &[&str])], element: &str) -> bool {
    for (name, _) in elements {
        if name.eq_ignore_ascii_case(element) {
            return true;
        }
    }
    false
}

/// Whether an element is among these, with this attribute.
fn has_own(elements: &[(&str, &[&str])], element: &str, attribute: &str) -> bool {
    for (name, attributes) in elements {
        if name.eq_ignore_ascii_case(element) && has(*attributes, attribute) {
            return true;
        }
    }
    false
}

/// Whether a URL begins so once it is read: white space and control characters before it are skipped, and tabs and line feeds in it
/// (URL Standard, section 4.4).
fn begins(url: &str, front: &str) -> bool {
    let mut front = front.as_bytes();
    let mut has_begun = false;
    for byte in url.as_bytes() {
        let Some((first, rest)) = front.split_first() else {
            return true;
        };
        let is_skipped = matches!(*byte, b'\t' | b'\n' | b'\r') || (!has_begun && *byte <= b' ');
        if !is_skipped {
            has_begun = true;
            if byte.to_ascii_lowercase() != *first {
                return false;
            }
            front = rest;
        }
    }
    front.is_empty()
}

/// Whether a URL begins with one of these.
fn begins_with_one(url: &str, fronts: &[&str]) -> bool {
    for front in fronts {
        if begins(url, front) {
            return true;
        }
    }
    false
}

impl Kept {
    /// Whether a URL may be kept: it runs no script, and has one of the policy's schemes.
    fn has_scheme(&self, url: &str) -> bool {
        !begins_with_one(url, RUN)
            && (self.schemes.is_empty() || begins_with_one(url, self.schemes))
    }

    /// Whether an attribute has a value that the policy doesn't keep: another URL, or a name that may be one of the page's.
    fn is_harmful(&self, element: &str, name: &str, value: &str) -> bool {
        if has(NAMES, name) && !value.starts_with(PREFIX) {
            return true;
        }
        let is_picture = element.eq_ignore_ascii_case("img") && name.eq_ignore_ascii_case("src");
        has(URLS, name)
            && !self.has_scheme(value)
            && !(is_picture && begins_with_one(value, self.pictures))
    }

    /// Whether an element may be kept.
    fn has_element(&self, element: &str) -> bool {
        has(self.bare, element)
            || is_named(self.elements, element)
            || is_named(self.others, element)
    }

    /// Whether an attribute of an element may be kept.
    fn has_attribute(&self, element: &str, attribute: &str) -> bool {
        has(self.everywhere, attribute)
            || has_own(self.elements, element, attribute)
            || has_own(self.others, element, attribute)
    }
}

/// Adds a line for an attribute that is outside.
fn put_attribute(
    alloc: Global,
    kept: &Kept,
    context: &Context,
    element: &str,
    attribute: &Attribute,
    lines: &mut String,
) -> Result<(), AllocError> {
    let name = attribute.name.local.as_str();
    let value = attribute.value.as_str();
    if kept.has_attribute(element, name) && !kept.is_harmful(element, name, value) {
        return Ok(());
    }
    let words = format!(in alloc;
        "{}, after {}: <{element} {name}=\"{value}\">",
        kept.name, context.before
    )?;
    put_line(lines, words.as_str())
}

/// Adds a line for an element that is outside, and for each of its attributes that is.
fn put_element(
    alloc: Global,
    kept: &Kept,
    context: &Context,
    element: &str,
    attributes: &[Attribute],
    lines: &mut String,
) -> Result<(), AllocError> {
    if !(kept.has_element(element) || has(IMPLIED, element) || has(context.makes, element)) {
        let words = format!(in alloc; "{}, after {}: <{element}>", kept.name, context.before)?;
        put_line(lines, words.as_str())?;
    }
    for attribute in attributes {
        put_attribute(alloc, kept, context, element, attribute, lines)?;
    }
    Ok(())
}

/// Adds a line for each element and attribute of a page that is outside.
fn put_outside(
    alloc: Global,
    kept: &Kept,
    context: &Context,
    forest: &Forest,
    lines: &mut String,
) -> Result<(), AllocError> {
    for number in 0..MOST {
        match forest.node(NodeId::new(number)) {
            Some(NodeData::Element { name, attrs, .. }) => put_element(
                alloc,
                kept,
                context,
                name.local.as_str(),
                attrs.as_slice(),
                lines,
            )?,
            Some(_) => {}
            None => return Ok(()),
        }
    }
    put_line(lines, "too many nodes")
}

/// The document of a cleaned text in a context.
fn page(alloc: Global, context: &Context, text: &str) -> Result<Forest, ParseFault> {
    let page = format!(in alloc; "{}{text}", context.before)?;
    let table = five(alloc)?;
    match document(alloc, table, page) {
        Ok(forest) => Ok(forest),
        Err(_) => Err(ParseFault::Memory),
    }
}

/// Adds a line for each element and attribute that is outside of a policy.
fn put_kept(
    alloc: Global,
    kept: &Kept,
    row: &Row,
    how: How,
    lines: &mut String,
) -> Result<(), ParseFault> {
    let policy = kept.policy.policy(alloc)?;
    let text = cleaned_by(alloc, row, false, how, &policy)?;
    for context in CONTEXTS {
        let forest = page(alloc, context, text.as_str())?;
        put_outside(alloc, kept, context, &forest, lines)?;
    }
    Ok(())
}

/// What of a row's text is outside of a policy.
pub fn seen(alloc: Global, row: &Row, how: How) -> Result<String, ParseFault> {
    let mut lines = String::new(alloc);
    for kept in KEPT {
        put_kept(alloc, kept, row, how, &mut lines)?;
    }
    Ok(without_last(alloc, lines.as_str())?)
}
