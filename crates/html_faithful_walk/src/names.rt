//! What the names of elements say of how they are written and read (HTML Standard, section 13.3).
ghost use Rattle.std.specs.Prelude.{◌≡◌};
ghost use Rattle.markup.specs.Trees.{is_html, is_raw};
ghost use Rattle.html_faithful.specs.Walk.{is_template, is_void, stays_open};

use crate::kinds::{is_raw_kind, is_staying_kind, is_void_kind, kind_of};
use markup::{KnownNamespace, LocalName, QualName};

/// Whether an element is HTML's.
#[tactic(auto, unfolding(markup::specs::Names::html_namespace, markup::specs::Namespaces::name_of))]
pub(crate) fn is_html(name: &QualName) -> bool
    ensures { result ≡ is_html name.now }
{
    name.ns.is_known(KnownNamespace::Html)
}

/// Whether an element has no children and no end tag.
pub(crate) fn is_void(name: &QualName) -> bool
    ensures { result ≡ is_void name.now }
{
    is_html(name) && is_void_kind(kind_of(&name.local))
}

/// Whether the text of an HTML element is written as it is.
pub(crate) fn is_raw(scripting: bool, name: &LocalName) -> bool
    ensures { result ≡ is_raw scripting name.now }
{
    is_raw_kind(scripting, kind_of(name))
}

/// Whether an element is a template.
pub(crate) fn is_template(name: &QualName) -> bool
    ensures { result ≡ is_template name.now }
{
    is_html(name) && name.local.is("template")
}

/// Whether an element stays open where it ends, as `body` and `html` do (sections 13.2.6.4.7 and 13.2.6.4.19).
pub(crate) fn stays_open(name: &QualName) -> bool
    ensures { result ≡ stays_open name.now }
{
    is_html(name) && is_staying_kind(kind_of(&name.local))
}
