//! What elements are in Markdown.

use html_forest::{Forest, NodeId};
use html_inner_text::{Kind, kind_of};
use html_nodes::{attribute_of, element_name};
use markup::KnownNamespace;

/// What an element is.
#[derive(Clone, Copy, PartialEq, Eq)]
pub(crate) enum Role {
    /// Text in the line.
    Inline,
    /// Nothing.
    Hidden,
    /// A link, if it leads somewhere.
    Link,
    /// Strong emphasis.
    Strong,
    /// Emphasis.
    Emphasis,
    /// Code in the line.
    Code,
    /// A line break.
    Break,
    /// An image.
    Image,
    /// A block without a markup of its own.
    Block,
    /// A heading of that level.
    Heading(usize),
    /// A thematic break.
    Rule,
    /// A quote.
    Quote,
    /// A list of items with bullets.
    Bullets,
    /// A list of items with numbers.
    Numbers,
    /// An item of a list.
    Item,
    /// A code block.
    Preformatted,
    /// A table.
    Table,
    /// A row of a table.
    Row,
    /// A cell of a table.
    Cell,
}

/// The role of the HTML elements of a name that are blocks or in the line.
fn role_named(local: &str, usual: Role) -> Role {
    match local {
        "a" => Role::Link,
        "b" | "strong" => Role::Strong,
        "i" | "em" | "cite" | "dfn" | "var" => Role::Emphasis,
        "code" | "kbd" | "samp" | "tt" => Role::Code,
        "h1" => Role::Heading(1),
        "h2" => Role::Heading(2),
        "h3" => Role::Heading(3),
        "h4" => Role::Heading(4),
        "h5" => Role::Heading(5),
        "h6" => Role::Heading(6),
        "hr" => Role::Rule,
        "blockquote" => Role::Quote,
        "ul" | "menu" | "dir" => Role::Bullets,
        "ol" => Role::Numbers,
        "li" => Role::Item,
        "pre" | "listing" | "xmp" | "plaintext" => Role::Preformatted,
        "table" => Role::Table,
        _ => usual,
    }
}

/// The role of an element that is a block or in the line.
fn role_of_name(forest: &Forest, id: NodeId, usual: Role) -> Role {
    match element_name(forest, id) {
        Some(name) => {
            if name.ns.is_known(KnownNamespace::Html) {
                role_named(name.local.as_str(), usual)
            } else {
                usual
            }
        }
        None => usual,
    }
}

/// Whether a node is the HTML element `img`.
fn is_image(forest: &Forest, id: NodeId) -> bool {
    match element_name(forest, id) {
        Some(name) => name.ns.is_known(KnownNamespace::Html) && name.local.as_str() == "img",
        None => false,
    }
}

/// The role of an element.
pub(crate) fn role_of(forest: &Forest, id: NodeId) -> Role {
    match kind_of(forest, id) {
        Kind::Inline => role_of_name(forest, id, Role::Inline),
        Kind::NotRendered => Role::Hidden,
        Kind::Replaced => {
            if is_image(forest, id) {
                Role::Image
            } else {
                Role::Hidden
            }
        }
        Kind::InlineBlock => Role::Inline,
        Kind::LineBreak => Role::Break,
        Kind::Block => role_of_name(forest, id, Role::Block),
        Kind::Paragraph => Role::Block,
        Kind::Cell => Role::Cell,
        Kind::Row => Role::Row,
        Kind::TablePart => Role::Inline,
    }
}

/// The number that an attribute has, if it is none that Markdown can't have.
pub(crate) fn number_of(forest: &Forest, id: NodeId, attribute: &str) -> Option<u32> {
    match attribute_of(forest, id, attribute)?
        .trim_ascii()
        .parse::<u32>()
    {
        Ok(number) if number <= 999_999_999 => Some(number),
        _ => None,
    }
}
