//! What is known of an HTML element by its name alone: how it is written (HTML Standard, section 13.3), and, where it is common, which rows
//! of the mode "in body" are for its tags (section 13.2.6.4.7).
ghost use Rattle.std.specs.Prelude.{◌≡◌};
ghost use Rattle.html_faithful_walk.specs.Kinds.{IsKindOf, free, has_end, is_free_name, is_raw_kind, is_staying_kind, is_svg_kind};
ghost use Rattle.html_faithful_walk.specs.Kinds.{is_told_back, is_void_kind, kinds, told_back};

use crate::known_kinds::{FREE, KINDS, TOLD_BACK};
use html_faithful_judge::is_attribute_name;
use markup::LocalName;

/// The kind of an HTML element.
#[derive(Clone, Copy, Debug, PartialEq, Eq)]
pub(crate) enum Kind {
    /// One of which nothing is known here.
    Usual,
    /// One that has no children and no end tag.
    Void,
    /// One whose text is written as it is.
    Raw,
    /// One whose text is written as it is where scripts run.
    RawWithScripts,
    /// One that stays open where it ends.
    Staying,
    /// One that is only opened, and closed by its end tag.
    Phrase,
    /// A formatting element.
    Formatting,
    /// A link.
    Link,
    /// A block, which closes a paragraph.
    Block,
    /// A heading.
    Heading,
    /// A block that drops a line feed.
    Preformatted,
    /// A list item.
    Item,
    /// A term of a list of descriptions, or a description.
    Description,
    /// A void element that is put anywhere in a body.
    VoidPhrase,
    /// A void element that closes a paragraph.
    VoidBlock,
    /// A control that is void.
    Input,
    /// A button.
    Button,
    /// A table.
    Table,
    /// The head, a body or the foot of a table.
    Section,
    /// A row of a table.
    Row,
    /// A cell of a table.
    Cell,
    /// The head.
    Head,
    /// The body, which stays open where it ends.
    Body,
    /// A void element of the head.
    Metadata,
    /// A title, whose text is escaped.
    Title,
    /// A style sheet, or what is shown without frames: its text is written as it is.
    Style,
    /// A script, whose text is written as it is.
    Script,
    /// An element of SVG; of an HTML element of that name nothing is known here.
    Svg,
}

/// The kinds of known names, lent.
fn kinds() -> &'static [Kind]
    ensures { result.now ≡ kinds }
{
    &KINDS
}

/// The kind of an HTML element of a name.
pub(crate) fn kind_of(name: &LocalName) -> Kind
    ensures { IsKindOf name.now result }
{
    match name.known() {
        Some(known) => match kinds().get(known.place as usize) {
            Some(kind) => *kind,
            None => Kind::Usual,
        },
        None => Kind::Usual,
    }
}

/// Whether attributes of SVG have known names again, once they are read in lower case, lent.
fn told_back() -> &'static [bool]
    ensures { result.now ≡ told_back }
{
    &TOLD_BACK
}

/// Whether an attribute of SVG has a name again, once it is read in lower case.
pub(crate) fn is_told_back(name: &LocalName) -> bool
    ensures { result ≡ is_told_back name.now }
{
    match name.known() {
        Some(known) => match told_back().get(known.place as usize) {
            Some(told) => *told,
            None => false,
        },
        None => is_attribute_name(name.as_str()),
    }
}

/// Whether attributes of known names are free, lent.
fn free() -> &'static [bool]
    ensures { result.now ≡ free }
{
    &FREE
}

/// Whether an attribute of a name is emitted with it, keeps it in foreign content, and no rule looks at it.
pub(crate) fn is_free_name(name: &LocalName) -> bool
    ensures { result ≡ is_free_name name.now }
{
    match name.known() {
        Some(known) => match free().get(known.place as usize) {
            Some(is_free) => *is_free,
            None => false,
        },
        None => is_attribute_name(name.as_str()),
    }
}

/// Whether an element of a kind has no children and no end tag.
pub(crate) fn is_void_kind(kind: Kind) -> bool
    ensures { result ≡ is_void_kind kind }
{
    matches!(
        kind,
        Kind::Void | Kind::VoidPhrase | Kind::VoidBlock | Kind::Input | Kind::Metadata
    )
}

/// Whether an element of a kind stays open where it ends.
pub(crate) fn is_staying_kind(kind: Kind) -> bool
    ensures { result ≡ is_staying_kind kind }
{
    matches!(kind, Kind::Staying | Kind::Body)
}

/// Whether the text of an element of a kind is written as it is.
pub(crate) fn is_raw_kind(scripting: bool, kind: Kind) -> bool
    ensures { result ≡ is_raw_kind scripting kind }
{
    match kind {
        Kind::Raw => true,
        Kind::Style => true,
        Kind::Script => true,
        Kind::RawWithScripts => scripting,
        _ => false,
    }
}

/// Whether the rows are known that tags of a kind take, and there are end tags.
pub(crate) fn has_end(kind: Kind) -> bool
    ensures { result ≡ has_end kind }
{
    match kind {
        Kind::Usual => false,
        Kind::Void => false,
        Kind::Raw => false,
        Kind::RawWithScripts => false,
        Kind::Staying => false,
        Kind::Phrase => true,
        Kind::Formatting => true,
        Kind::Link => true,
        Kind::Block => true,
        Kind::Heading => true,
        Kind::Preformatted => true,
        Kind::Item => true,
        Kind::Description => true,
        Kind::VoidPhrase => false,
        Kind::VoidBlock => false,
        Kind::Input => false,
        Kind::Button => true,
        Kind::Table => true,
        Kind::Section => true,
        Kind::Row => true,
        Kind::Cell => true,
        Kind::Head => true,
        Kind::Body => false,
        Kind::Metadata => false,
        Kind::Title => true,
        Kind::Style => true,
        Kind::Script => true,
        Kind::Svg => false,
    }
}

/// Whether a kind is that of SVG's elements.
pub(crate) fn is_svg_kind(kind: Kind) -> bool
    ensures { result ≡ is_svg_kind kind }
{
    matches!(kind, Kind::Svg)
}
