//! The style that a node inherits.
ghost use Rattle.std.specs.Prelude.{◌≡◌, Bool};
ghost use Rattle.html_inner_text.specs.Styles as styles;
ghost use Rattle.html_inner_text.specs.Styles.{Inherits, Style};

use crate::kinds::{Kind, kind_of, white_space};
use html_forest::{Forest, NodeId};

/// The style in an element.
#[derive(Clone, Copy, Debug)]
pub(crate) struct Style {
    /// Whether what is in it is rendered.
    pub rendered: bool,
    /// Whether white space is preserved.
    pub preserves: bool,
}

/// What an element's own style says of what is in it.
#[derive(Clone, Copy, Debug)]
pub(crate) struct OwnStyle {
    /// Whether what is in it is rendered, if the element is.
    pub rendered: bool,
    /// Whether white space is preserved, where that isn't inherited.
    pub preserves: Option<bool>,
}

fn renders_inside(kind: Kind) -> bool
    ensures { result ≡ styles.renders_inside kind }
{
    !matches!(kind, Kind::NotRendered | Kind::Replaced)
}

fn value_or(value: Option<bool>, inherited: bool) -> bool
    ensures { result ≡ styles.value_or value inherited }
{
    match value {
        Some(value) => value,
        None => inherited,
    }
}

fn either(value: Option<bool>, other: Option<bool>) -> Option<bool>
    ensures { (inherited : Bool) → styles.value_or result inherited ≡ styles.value_or value (styles.value_or other inherited) }
{
    match value {
        Some(value) => Some(value),
        None => other,
    }
}

fn own(forest: &Forest, id: NodeId) -> OwnStyle
    ensures { result ≡ styles.own forest.now id }
{
    OwnStyle {
        rendered: renders_inside(kind_of(forest, id)),
        preserves: white_space(forest, id),
    }
}

impl OwnStyle {
    /// The style in an element that inherits that one.
    fn under(self, style: Style) -> Style
        ensures { result ≡ styles.under self style }
    {
        Style {
            rendered: self.rendered && style.rendered,
            preserves: value_or(self.preserves, style.preserves),
        }
    }

    /// What this one and the one of an element around it say together.
    fn joined(self, around: OwnStyle) -> OwnStyle
        ensures { (style : Style) → styles.under result style ≡ styles.under self (styles.under around style) }
    {
        OwnStyle {
            rendered: self.rendered && around.rendered,
            preserves: either(self.preserves, around.preserves),
        }
    }
}

/// The style in a node that inherits that one.
pub(crate) fn inside(forest: &Forest, style: Style, id: NodeId) -> Style
    ensures { result ≡ styles.inside forest.now style id }
{
    own(forest, id).under(style)
}

/// The style that a node inherits.
pub(crate) fn inherited(forest: &Forest, id: NodeId) -> Style
    ensures { Inherits forest.now id result }
{
    forest.keeps();
    let mut at = id;
    let mut between = OwnStyle {
        rendered: true,
        preserves: None,
    };
    while let Some(parent) = forest.parent(at) {
        between = between.joined(own(forest, parent));
        at = parent;
    }
    between.under(Style {
        rendered: true,
        preserves: false,
    })
}
