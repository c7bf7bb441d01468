//! Where the nodes of plain documents stand.
ghost use Rattle.std.specs.Prelude.{◌≡◌};

use crate::elements::PlainElement;

/// Where a node of a plain document stands among its parent's children.
#[derive(Clone, Copy, Debug, PartialEq, Eq)]
pub enum PlainPlace {
    /// First in a document: its doctype comes.
    BeforeDoctype,
    /// After the doctype: `html` comes.
    BeforeRoot,
    /// After `html`: nothing comes.
    AfterRoot,
    /// First in `html`: `head` comes.
    BeforeHead,
    /// After `head`: white space or `body` comes.
    AfterHead,
    /// After white space after `head`: `body` comes.
    BeforeBody,
    /// After `body`: nothing comes.
    AfterBody,
    /// In `head`: white space and a title may come.
    InHead,
    /// In `head`, after the title: white space may come.
    AfterTitle,
    /// In `title`: text may come.
    InTitle,
    /// In `body`, `div`, `li`, `td` and `th`: text, comments, blocks and inline elements may come.
    InFlow,
    /// In `p`, headings and inline elements: text and inline elements may come, but in a link no link.
    InLine(
        /// Whether this is in a link.
        bool,
    ),
    /// In `ul` and `ol`: white space and `li` may come.
    InList,
    /// In `table`: white space and `tbody` may come.
    InTable,
    /// In `tbody`: white space and `tr` may come.
    InTableBody,
    /// In `tr`: white space and cells may come.
    InRow,
    /// In `br`: nothing comes.
    InBreak,
}

/// Which texts may stand in a place.
#[derive(Clone, Copy, Debug, PartialEq, Eq)]
pub enum TextKind {
    /// None.
    NoText,
    /// White space.
    WhiteSpace,
    /// Any.
    AnyText,
}

impl PlainPlace {
    ghost use Rattle.html_plain.specs.Elements.{place_after_element, place_after_text, holds, inside, may_end, takes_comments, text_kind};
    ghost use Rattle.html_plain.specs.Grammar.{is_first};

    /// Whether an element may stand here.
    pub fn holds(self, element: PlainElement) -> bool
        ensures { result ≡ holds self element }
    {
        match self {
            PlainPlace::BeforeRoot => matches!(element, PlainElement::Html),
            PlainPlace::BeforeHead => matches!(element, PlainElement::Head),
            PlainPlace::AfterHead | PlainPlace::BeforeBody => matches!(element, PlainElement::Body),
            PlainPlace::InHead => matches!(element, PlainElement::Title),
            PlainPlace::InFlow => element.is_block() || element.is_inline(),
            PlainPlace::InLine(in_link) => {
                element.is_inline() && !(in_link && matches!(element, PlainElement::Link))
            }
            PlainPlace::InList => matches!(element, PlainElement::Item),
            PlainPlace::InTable => matches!(element, PlainElement::TableBody),
            PlainPlace::InTableBody => matches!(element, PlainElement::Row),
            PlainPlace::InRow => matches!(element, PlainElement::Cell(_)),
            _ => false,
        }
    }

    /// Where the children of an element stand that stands here.
    pub fn inside(self, element: PlainElement) -> PlainPlace
        ensures { result ≡ inside self element }
    {
        match element {
            PlainElement::Html => PlainPlace::BeforeHead,
            PlainElement::Head => PlainPlace::InHead,
            PlainElement::Title => PlainPlace::InTitle,
            PlainElement::Paragraph | PlainElement::Heading(_) => PlainPlace::InLine(false),
            PlainElement::Body
            | PlainElement::Division
            | PlainElement::Item
            | PlainElement::Cell(_) => PlainPlace::InFlow,
            PlainElement::List(_) => PlainPlace::InList,
            PlainElement::Table => PlainPlace::InTable,
            PlainElement::TableBody => PlainPlace::InTableBody,
            PlainElement::Row => PlainPlace::InRow,
            PlainElement::Break => PlainPlace::InBreak,
            PlainElement::Formatted(_) => PlainPlace::InLine(matches!(
                self,
                PlainPlace::InLine(true)
            )),
            PlainElement::Link => PlainPlace::InLine(true),
        }
    }

    /// Where the next node stands after an element that stands here.
    pub fn place_after_element(self) -> PlainPlace
        ensures { result ≡ place_after_element self }
    {
        match self {
            PlainPlace::BeforeRoot => PlainPlace::AfterRoot,
            PlainPlace::BeforeHead => PlainPlace::AfterHead,
            PlainPlace::AfterHead | PlainPlace::BeforeBody => PlainPlace::AfterBody,
            PlainPlace::InHead => PlainPlace::AfterTitle,
            place => place,
        }
    }

    /// Where the next node stands after a text that stands here.
    pub fn place_after_text(self) -> PlainPlace
        ensures { result ≡ place_after_text self }
    {
        match self {
            PlainPlace::AfterHead => PlainPlace::BeforeBody,
            place => place,
        }
    }

    /// Which texts may stand here.
    pub fn text_kind(self) -> TextKind
        ensures { result ≡ text_kind self }
    {
        match self {
            PlainPlace::InTitle | PlainPlace::InFlow | PlainPlace::InLine(_) => TextKind::AnyText,
            PlainPlace::AfterHead
            | PlainPlace::InHead
            | PlainPlace::AfterTitle
            | PlainPlace::InList
            | PlainPlace::InTable
            | PlainPlace::InTableBody
            | PlainPlace::InRow => TextKind::WhiteSpace,
            _ => TextKind::NoText,
        }
    }

    /// Whether comments may stand here.
    pub fn takes_comments(self) -> bool
        ensures { result ≡ takes_comments self }
    {
        matches!(self, PlainPlace::InFlow)
    }

    /// Whether a doctype may stand here.
    pub fn is_first(self) -> bool
        ensures { result ≡ is_first self }
    {
        matches!(self, PlainPlace::BeforeDoctype)
    }

    /// Whether the children may end here.
    pub fn may_end(self) -> bool
        ensures { result ≡ may_end self }
    {
        !matches!(
            self,
            PlainPlace::BeforeDoctype
                | PlainPlace::BeforeRoot
                | PlainPlace::BeforeHead
                | PlainPlace::AfterHead
                | PlainPlace::BeforeBody
        )
    }
}
