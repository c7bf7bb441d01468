//! The elements of plain documents.
ghost use Rattle.std.specs.Prelude.{◌≡◌};
ghost use Rattle.html_plain.specs.Elements.{is_html, local_element};

use crate::known_elements;
use markup::{KnownNamespace, LocalName, QualName};

/// How high a heading is.
#[derive(Clone, Copy, Debug, PartialEq, Eq)]
pub enum Level {
    /// `h1`.
    One,
    /// `h2`.
    Two,
    /// `h3`.
    Three,
    /// `h4`.
    Four,
    /// `h5`.
    Five,
    /// `h6`.
    Six,
}

/// A kind of list.
#[derive(Clone, Copy, Debug, PartialEq, Eq)]
pub enum ListKind {
    /// `ul`.
    Unordered,
    /// `ol`.
    Ordered,
}

/// A kind of cell.
#[derive(Clone, Copy, Debug, PartialEq, Eq)]
pub enum CellKind {
    /// `td`.
    Data,
    /// `th`.
    Header,
}

/// A kind of formatting element.
#[derive(Clone, Copy, Debug, PartialEq, Eq)]
pub enum Format {
    /// `b`.
    Bold,
    /// `i`.
    Italic,
    /// `em`.
    Emphasis,
    /// `code`.
    Code,
}

/// An element that plain documents have, all of them HTML's.
#[derive(Clone, Copy, Debug, PartialEq, Eq)]
pub enum PlainElement {
    /// `html`.
    Html,
    /// `head`.
    Head,
    /// `title`.
    Title,
    /// `body`.
    Body,
    /// `p`.
    Paragraph,
    /// `h1` to `h6`.
    Heading(Level),
    /// `div`.
    Division,
    /// `ul` and `ol`.
    List(ListKind),
    /// `li`.
    Item,
    /// `table`.
    Table,
    /// `tbody`.
    TableBody,
    /// `tr`.
    Row,
    /// `td` and `th`.
    Cell(CellKind),
    /// `br`.
    Break,
    /// `b`, `i`, `em` and `code`.
    Formatted(Format),
    /// `a`.
    Link,
}

impl PlainElement {
    ghost use Rattle.html_plain.specs.Elements.{element_of, is_block, is_inline};

    /// The element of a name, if plain documents have one of it. The name is looked up once, in time that grows with the
    /// logarithm of the number of known names.
    pub fn of(name: &QualName) -> Option<PlainElement>
        ensures { result ≡ element_of name.now }
    {
        if is_html(name) {
            local_element(&name.local)
        } else {
            None
        }
    }

    /// Whether it is a block.
    pub fn is_block(self) -> bool
        ensures { result ≡ is_block self }
    {
        matches!(
            self,
            PlainElement::Paragraph
                | PlainElement::Heading(_)
                | PlainElement::Division
                | PlainElement::List(_)
                | PlainElement::Table
        )
    }

    /// Whether it may stand in a line.
    pub fn is_inline(self) -> bool
        ensures { result ≡ is_inline self }
    {
        matches!(
            self,
            PlainElement::Break | PlainElement::Formatted(_) | PlainElement::Link
        )
    }
}

/// Whether a name is HTML's and has no prefix.
fn is_html(name: &QualName) -> bool
    ensures { result ≡ is_html name.now }
{
    name.prefix.is_none() && name.ns.is_known(KnownNamespace::Html)
}

/// The element of a local name.
fn local_element(name: &LocalName) -> Option<PlainElement>
    ensures { result ≡ local_element name.now }
{
    match name.known() {
        Some(known) => known_elements::of(known),
        None => None,
    }
}
