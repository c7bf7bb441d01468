//! Which open elements are wanted.
ghost use Rattle.std.specs.Prelude.{◌≡◌, ℕ};
ghost use Rattle.html_stack.specs.Wanted.{IsWanted, passes};
ghost use Rattle.html_stack.specs.Stacks.{open_of};

use crate::entries::OpenElement;
use html_names::ElementClass;
use html_rules::TagSet;
use markup::{KnownName, LocalName};

/// A test of open elements.
#[derive(Clone, Copy)]
pub(crate) enum Wanted<'a> {
    /// Those in a set.
    In(TagSet),
    /// HTML elements of a name, which comes with its class.
    Named(ElementClass, &'a LocalName),
    /// HTML elements of a known name.
    Known(KnownName),
    /// Those where foreign content ends: HTML elements, and where HTML may stand.
    EndsForeign,
    /// None.
    Nothing,
}

/// Whether an element is wanted.
pub(crate) fn is_wanted<Handle>(wanted: Wanted<'_>, element: &OpenElement<Handle>) -> bool
    requires { IsWanted wanted }
    ensures { (node : Handle → ℕ) → result ≡ passes wanted.entry (open_of node element.now) }
{
    match wanted {
        Wanted::In(set) => element.name.is_in(set),
        Wanted::Named(class, name) => element.name.is_named(class, name),
        Wanted::Known(known) => element.name.is_known(known),
        Wanted::EndsForeign => {
            element.name.is_html()
                || element.name.is_in(TagSet::MathmlTextIntegrationPoint)
                || element.name.is_in(TagSet::SvgHtmlIntegrationPoint)
        }
        Wanted::Nothing => false,
    }
}
