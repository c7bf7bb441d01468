//! The plain element of each known name.
ghost use Rattle.std.specs.Prelude.{◌≡◌, ◌<◌, [], length, slice_index_or};
ghost use Rattle.markup.specs.KnownNames.{names};
ghost use Rattle.html_plain.specs.Elements.{local_element};
ghost use Rattle.html_plain.specs.declared.known_elements.TheConstants.{ELEMENTS};

use crate::elements::{CellKind, Format, Level, ListKind, PlainElement};
use markup::KnownName;

const NO: Option<PlainElement> = None;

// By the places of the known names.
#[rattlefmt::skip]
pub(crate) const ELEMENTS: [Option<PlainElement>; 626] = [
    Some(PlainElement::Link), NO, NO, NO, NO, NO, NO, NO, NO, NO, NO, NO, NO, NO, NO, NO, NO, NO, NO, NO, NO, NO, NO,
    NO, NO, NO, NO, NO, NO, NO, NO, NO, NO, NO, NO, NO, NO, NO, NO, NO, NO, NO, NO, NO, NO, NO, NO, NO,
    Some(PlainElement::Formatted(Format::Bold)), NO, NO, NO, NO, NO, NO, NO, NO, NO, NO, NO, NO, NO, NO, NO,
    Some(PlainElement::Body), NO, Some(PlainElement::Break), NO, NO, NO, NO, NO, NO, NO, NO, NO, NO, NO, NO, NO, NO,
    NO, NO, NO, NO, NO, NO, NO, Some(PlainElement::Formatted(Format::Code)), NO, NO, NO, NO, NO, NO, NO, NO, NO, NO,
    NO, NO, NO, NO, NO, NO, NO, NO, NO, NO, NO, NO, NO, NO, NO, NO, NO, NO, NO, NO, NO, NO, NO, NO, NO, NO, NO, NO,
    NO, NO, NO, Some(PlainElement::Division), NO, NO, NO, NO, NO, NO, NO, NO, NO,
    Some(PlainElement::Formatted(Format::Emphasis)), NO, NO, NO, NO, NO, NO, NO, NO, NO, NO, NO, NO, NO, NO, NO, NO,
    NO, NO, NO, NO, NO, NO, NO, NO, NO, NO, NO, NO, NO, NO, NO, NO, NO, NO, NO, NO, NO, NO, NO, NO, NO, NO, NO, NO,
    NO, NO, NO, NO, NO, NO, NO, NO, NO, NO, NO, NO, NO, NO, NO, NO, NO, NO, NO, NO, NO, NO, NO, NO, NO, NO, NO, NO,
    NO, NO, NO, NO, NO, NO, NO, NO, NO, NO, NO, NO, NO, NO, NO, NO, NO, Some(PlainElement::Heading(Level::One)),
    Some(PlainElement::Heading(Level::Two)), Some(PlainElement::Heading(Level::Three)),
    Some(PlainElement::Heading(Level::Four)), Some(PlainElement::Heading(Level::Five)),
    Some(PlainElement::Heading(Level::Six)), NO, NO, Some(PlainElement::Head), NO, NO, NO, NO, NO, NO, NO, NO, NO, NO,
    Some(PlainElement::Html), NO, Some(PlainElement::Formatted(Format::Italic)), NO, NO, NO, NO, NO, NO, NO, NO, NO,
    NO, NO, NO, NO, NO, NO, NO, NO, NO, NO, NO, NO, NO, NO, NO, NO, NO, NO, NO, NO, NO, NO, NO, NO, NO, NO, NO, NO,
    NO, NO, Some(PlainElement::Item), NO, NO, NO, NO, NO, NO, NO, NO, NO, NO, NO, NO, NO, NO, NO, NO, NO, NO, NO, NO,
    NO, NO, NO, NO, NO, NO, NO, NO, NO, NO, NO, NO, NO, NO, NO, NO, NO, NO, NO, NO, NO, NO, NO, NO, NO, NO, NO, NO,
    NO, NO, NO, NO, NO, NO, NO, NO, NO, NO, NO, NO, NO, NO, NO, NO, NO, NO, NO, NO, NO, NO, NO, NO, NO, NO, NO, NO,
    NO, NO, NO, NO, NO, NO, NO, NO, NO, NO, NO, NO, NO, NO, NO, NO, NO, NO, NO, NO, NO, NO, NO, NO, NO, NO, NO, NO,
    Some(PlainElement::List(ListKind::Ordered)), NO, NO, NO, NO, NO, NO, Some(PlainElement::Paragraph), NO, NO, NO,
    NO, NO, NO, NO, NO, NO, NO, NO, NO, NO, NO, NO, NO, NO, NO, NO, NO, NO, NO, NO, NO, NO, NO, NO, NO, NO, NO, NO,
    NO, NO, NO, NO, NO, NO, NO, NO, NO, NO, NO, NO, NO, NO, NO, NO, NO, NO, NO, NO, NO, NO, NO, NO, NO, NO, NO, NO,
    NO, NO, NO, NO, NO, NO, NO, NO, NO, NO, NO, NO, NO, NO, NO, NO, NO, NO, NO, NO, NO, NO, NO, NO, NO, NO, NO, NO,
    NO, NO, NO, NO, NO, NO, NO, NO, NO, NO, NO, NO, NO, NO, NO, NO, NO, NO, NO, NO, NO, NO, NO, NO, NO, NO, NO, NO,
    NO, NO, NO, NO, NO, NO, NO, NO, NO, NO, NO, NO, NO, NO, NO, NO, NO, NO, NO, NO, NO, NO, NO, NO, NO, NO, NO, NO,
    NO, NO, NO, NO, NO, Some(PlainElement::Table), NO, NO, NO, NO, NO, NO, NO, Some(PlainElement::TableBody),
    Some(PlainElement::Cell(CellKind::Data)), NO, NO, NO, NO, NO, NO, NO, NO,
    Some(PlainElement::Cell(CellKind::Header)), NO, NO, Some(PlainElement::Title), Some(PlainElement::Row), NO, NO,
    NO, NO, NO, NO, NO, Some(PlainElement::List(ListKind::Unordered)), NO, NO, NO, NO, NO, NO, NO, NO, NO, NO, NO, NO,
    NO, NO, NO, NO, NO, NO, NO, NO, NO, NO, NO, NO, NO, NO, NO, NO, NO, NO, NO, NO, NO, NO, NO, NO, NO, NO, NO, NO,
    NO, NO, NO,
];

/// The table, lent.
fn table() -> &'static [Option<PlainElement>]
    ensures { result.now ≡ ELEMENTS }
{
    &ELEMENTS
}

/// The plain element that a known name is the name of, if it is one.
pub(crate) fn of(known: KnownName) -> Option<PlainElement>
    requires { known.place < length names }
    ensures { result ≡ local_element (slice_index_or names known.place []) }
{
    table()[usize::from(known.place)]
}
