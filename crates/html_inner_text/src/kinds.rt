//! The display and the white space of elements, by the style sheet of the HTML Standard (section 15.3).
ghost use Rattle.std.specs.Prelude.{◌≡◌, Some, codes};
ghost use Rattle.std.specs.List.{list_any};
ghost use Rattle.std.specs.Str.{bytes_eq, chars};
ghost use Rattle.html_nodes.specs.Looks.{attribute_of};
ghost use Rattle.html_inner_text.specs.Styles as styles;

use html_forest::{Forest, NodeId};
use html_nodes::{attribute_of, element_name};
use markup::{KnownNamespace, QualName, QuirksMode};

/// How an element takes part in the layout, by the `display` of the Standard's style sheet (section 15.3).
#[derive(Clone, Copy, Debug)]
pub enum Kind {
    /// In the line.
    Inline,
    /// Not at all: `display: none`.
    NotRendered,
    /// As a box in the line, in which what the element contains isn't rendered.
    Replaced,
    /// As a box in the line, with lines of its own: `display: inline-block`.
    InlineBlock,
    /// As a `br`.
    LineBreak,
    /// As a block, a table or a caption.
    Block,
    /// As a `p`.
    Paragraph,
    /// As a cell of a table.
    Cell,
    /// As a row of a table.
    Row,
    /// As a group of rows or of columns of a table.
    TablePart,
}

const BLOCK_NAMES: [&str; 48] = [
    "address",
    "article",
    "aside",
    "blockquote",
    "body",
    "caption",
    "center",
    "dd",
    "details",
    "dialog",
    "dir",
    "div",
    "dl",
    "dt",
    "fieldset",
    "figcaption",
    "figure",
    "footer",
    "form",
    "frame",
    "frameset",
    "h1",
    "h2",
    "h3",
    "h4",
    "h5",
    "h6",
    "header",
    "hgroup",
    "hr",
    "html",
    "legend",
    "li",
    "listing",
    "main",
    "menu",
    "nav",
    "ol",
    "optgroup",
    "option",
    "plaintext",
    "pre",
    "search",
    "section",
    "summary",
    "table",
    "ul",
    "xmp",
];

const NOT_RENDERED_NAMES: [&str; 16] = [
    "area", "base", "basefont", "datalist", "head", "link", "meta", "noembed", "noframes",
    "noscript", "param", "rp", "script", "style", "template", "title",
];

const REPLACED_NAMES: [&str; 9] = [
    "audio", "canvas", "embed", "iframe", "img", "input", "meter", "progress", "video",
];

const INLINE_BLOCK_NAMES: [&str; 3] = ["button", "marquee", "textarea"];

const CELL_NAMES: [&str; 2] = ["td", "th"];

const TABLE_PART_NAMES: [&str; 5] = ["col", "colgroup", "tbody", "tfoot", "thead"];

const PRESERVING_NAMES: [&str; 5] = ["listing", "plaintext", "pre", "textarea", "xmp"];

const FOREIGN_NAMES: [&str; 15] = [
    "annotation",
    "annotation-xml",
    "clipPath",
    "defs",
    "desc",
    "linearGradient",
    "marker",
    "mask",
    "metadata",
    "pattern",
    "radialGradient",
    "script",
    "style",
    "symbol",
    "title",
];

/// Whether a name is one of those.
fn is_among(name: &str, names: &[&str]) -> bool
    ensures { result ≡ list_any (λ known. bytes_eq name.now known.now) names.now }
{
    for known in names {
        if name == *known {
            return true;
        }
    }
    false
}

/// Whether a node is an element with that attribute.
fn has(forest: &Forest, id: NodeId, attribute: &str) -> bool
    ensures { result ≡ styles.has forest.now id attribute.now }
{
    attribute_of(forest, id, attribute).is_some()
}

/// Whether a value of `type` is `hidden`, in any case.
fn is_hidden_type(value: &str) -> bool
    ensures { result ≡ styles.is_hidden_type (Some (chars value.now)) }
{
    value.eq_ignore_ascii_case("hidden")
}

fn has_hidden_type(forest: &Forest, id: NodeId) -> bool
    ensures { result ≡ styles.is_hidden_type (attribute_of forest.now id (codes "type")) }
{
    match attribute_of(forest, id, "type") {
        Some(value) => is_hidden_type(value),
        None => false,
    }
}

/// Whether the attributes of an HTML element of that name keep it from being rendered.
#[tactic(auto, unfolding(crate::specs::Styles::is_hidden))]
fn is_hidden(forest: &Forest, id: NodeId, local: &str) -> bool
    ensures { result ≡ styles.is_hidden forest.now id local.now }
{
    has(forest, id, "hidden")
        || (local == "dialog" && !has(forest, id, "open"))
        || (local == "audio" && !has(forest, id, "controls"))
        || (local == "input" && has_hidden_type(forest, id))
}

/// The kind of the HTML elements of a name, apart from their attributes.
#[tactic(auto, unfolding(crate::specs::Styles::kind_named))]
fn kind_named(local: &str) -> Kind
    ensures { result ≡ styles.kind_named local.now }
{
    if is_among(local, &BLOCK_NAMES) {
        Kind::Block
    } else if is_among(local, &NOT_RENDERED_NAMES) {
        Kind::NotRendered
    } else if is_among(local, &REPLACED_NAMES) {
        Kind::Replaced
    } else if is_among(local, &INLINE_BLOCK_NAMES) {
        Kind::InlineBlock
    } else if is_among(local, &CELL_NAMES) {
        Kind::Cell
    } else if is_among(local, &TABLE_PART_NAMES) {
        Kind::TablePart
    } else if local == "p" {
        Kind::Paragraph
    } else if local == "tr" {
        Kind::Row
    } else if local == "br" {
        Kind::LineBreak
    } else {
        Kind::Inline
    }
}

fn html_kind(forest: &Forest, id: NodeId, local: &str) -> Kind
    ensures { result ≡ styles.html_kind forest.now id local.now }
{
    if is_hidden(forest, id, local) {
        Kind::NotRendered
    } else {
        kind_named(local)
    }
}

fn foreign_kind(local: &str) -> Kind
    ensures { result ≡ styles.foreign_kind local.now }
{
    if is_among(local, &FOREIGN_NAMES) {
        Kind::NotRendered
    } else if local == "svg" {
        Kind::InlineBlock
    } else if local == "text" || local == "foreignObject" {
        Kind::Block
    } else {
        Kind::Inline
    }
}

/// How a node takes part in the layout, apart from what is around it. A node that is no element is as an element that is inline.
pub fn kind_of(forest: &Forest, id: NodeId) -> Kind
    ensures { result ≡ styles.kind_of forest.now id }
{
    match element_name(forest, id) {
        Some(name) => {
            if name.ns.is_known(KnownNamespace::Html) {
                html_kind(forest, id, name.local.as_str())
            } else {
                foreign_kind(name.local.as_str())
            }
        }
        None => Kind::Inline,
    }
}

fn is_quirks(mode: QuirksMode) -> bool
    ensures { result ≡ styles.is_quirks mode }
{
    matches!(mode, QuirksMode::Quirks)
}

/// Whether white space is collapsed in an HTML element of that name, whatever it inherits.
#[tactic(auto, unfolding(crate::specs::Styles::collapses))]
fn collapses(forest: &Forest, id: NodeId, local: &str) -> bool
    ensures { result ≡ styles.collapses forest.now id local.now }
{
    local == "nobr"
        || (is_among(local, &CELL_NAMES) && has(forest, id, "nowrap"))
        || (local == "table" && is_quirks(forest.quirks()))
}

fn html_white_space(forest: &Forest, id: NodeId, local: &str) -> Option<bool>
    ensures { result ≡ styles.html_white_space forest.now id local.now }
{
    if is_among(local, &PRESERVING_NAMES) {
        Some(true)
    } else if collapses(forest, id, local) {
        Some(false)
    } else {
        None
    }
}

/// Whether white space is preserved in a node, where that isn't inherited.
pub(crate) fn white_space(forest: &Forest, id: NodeId) -> Option<bool>
    ensures { result ≡ styles.white_space forest.now id }
{
    match element_name(forest, id) {
        Some(name) => {
            if name.ns.is_known(KnownNamespace::Html) {
                html_white_space(forest, id, name.local.as_str())
            } else {
                None
            }
        }
        None => None,
    }
}
