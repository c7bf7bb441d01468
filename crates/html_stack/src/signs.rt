//! Tests of open elements, and which of them an element passes.
ghost use Rattle.std.specs.Prelude.{◌≡◌, ◌||◌};
ghost use Rattle.html_names.specs.Classes.{IsRowOf};
ghost use Rattle.html_stack.specs.Noted.{asks_mode, bears, has};

use html_names::ElementName;
use html_rules::TagSet;

/// A test of open elements.
#[derive(Clone, Copy)]
pub(crate) enum Sign {
    /// Those in a set.
    In(TagSet),
    /// HTML elements.
    Html,
    /// Those that may not be open where the body ends.
    BarsBodyEnd,
    /// Those that no item ends beyond: special ones, other than `address`, `div` and `p`.
    BarsItems,
    /// Those that ask for an insertion mode.
    AsksMode,
}

/// The tests that an element passes, or at least one of some.
#[derive(Clone, Copy)]
pub(crate) struct Signs {
    /// A bit for each set of names.
    pub(crate) sets: u128,
    pub(crate) is_html: bool,
    pub(crate) bars_body_end: bool,
    pub(crate) bars_items: bool,
    pub(crate) asks_mode: bool,
}

/// Whether an element asks for an insertion mode, wherever it stands.
fn asks_mode(name: &ElementName) -> bool
    ensures { result ≡ asks_mode name.now }
{
    name.is_in(TagSet::TdTh)
        || name.is_in(TagSet::Head)
        || name.is_in(TagSet::Html)
        || name.is_in(TagSet::Tr)
        || name.is_in(TagSet::TbodyTfootThead)
        || name.is_in(TagSet::Caption)
        || name.is_in(TagSet::Colgroup)
        || name.is_in(TagSet::Table)
        || name.is_in(TagSet::Template)
        || name.is_in(TagSet::Body)
        || name.is_in(TagSet::Frameset)
}

/// Whether one or the other is so.
fn either(one: bool, other: bool) -> bool
    ensures { result ≡ (one || other) }
{
    one || other
}

impl Signs {
    /// The tests that an element passes.
    pub(crate) fn of(name: &ElementName) -> Signs
        ensures { (sign : Sign) → has result sign ≡ bears sign name.now }
    {
        Signs {
            sets: name.sets(),
            is_html: name.is_html(),
            bars_body_end: !name.is_in(TagSet::BodyEnd),
            bars_items: name.is_in(TagSet::SpecialTag) && !name.is_in(TagSet::AddressDivP),
            asks_mode: asks_mode(name),
        }
    }

    /// The tests that one or the other passes.
    pub(crate) fn with(self, other: Signs) -> Signs
        ensures { (sign : Sign) → has result sign ≡ (has self sign || has other sign) }
    {
        Signs {
            sets: self.sets | other.sets,
            is_html: either(self.is_html, other.is_html),
            bars_body_end: either(self.bars_body_end, other.bars_body_end),
            bars_items: either(self.bars_items, other.bars_items),
            asks_mode: either(self.asks_mode, other.asks_mode),
        }
    }

    /// Whether a test is among them.
    pub(crate) fn has(self, sign: Sign) -> bool
        ensures { result ≡ has self sign }
    {
        match sign {
            Sign::In(set) => self.sets >> (set as u32) & 1 == 1,
            Sign::Html => self.is_html,
            Sign::BarsBodyEnd => self.bars_body_end,
            Sign::BarsItems => self.bars_items,
            Sign::AsksMode => self.asks_mode,
        }
    }
}
