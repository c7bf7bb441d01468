//! What becomes of elements.
ghost use Rattle.std.specs.Prelude.{◌≡◌, false};
ghost use Rattle.markup.specs.Trees.{is_among, is_html};
ghost use Rattle.html_clean.specs.Policies.{fate_by, html_fate, is_kept_name, is_ruled};

use crate::names::is_safe_name;
use crate::policy::{Policy, Rule};
use markup::{KnownNamespace, LocalName, QualName};

/// Whether a name is one of these.
pub(crate) fn is_among(name: &LocalName, names: &[LocalName]) -> bool
    ensures { result ≡ is_among name.now names.now }
{
    names.iter().any(|other| *name == *other)
}

/// Whether one of these rules is for an element.
fn is_ruled(rules: &[Rule], name: &LocalName) -> bool
    ensures { result ≡ is_ruled rules.now name.now }
{
    rules.iter().any(|rule| *name == rule.element)
}

/// Whether the HTML element of a name is kept.
fn is_kept_name(policy: &Policy, name: &LocalName) -> bool
    ensures { result ≡ is_kept_name policy.now name.now }
{
    is_safe_name(name) && is_ruled(&policy.kept, name)
}

/// Whether the element of a name is one of HTML's.
#[tactic(auto, unfolding(markup::specs::Names::html_namespace, markup::specs::Namespaces::name_of))]
pub(crate) fn is_html(name: &QualName) -> bool
    ensures { result ≡ is_html name.now }
{
    name.ns.is_known(KnownNamespace::Html)
}

/// What becomes of an element.
#[derive(Clone, Copy, PartialEq, Eq)]
pub(crate) enum Fate {
    /// Its tags are passed on.
    Kept,
    /// It is dropped, with all that stands in it.
    Dropped,
    /// It gives way to what stands in it.
    Unwrapped,
}

/// What becomes of the HTML element of a name.
pub(crate) fn html_fate(policy: &Policy, name: &LocalName) -> Fate
    ensures { result ≡ html_fate policy.now name.now }
{
    if is_kept_name(policy, name) {
        return Fate::Kept;
    }
    other_fate(policy, name)
}

/// What becomes of an element that is not kept.
pub(crate) fn other_fate(policy: &Policy, name: &LocalName) -> Fate
    ensures { result ≡ fate_by false (is_among name.now policy.now.dropped.items) }
{
    if is_among(name, &policy.dropped) {
        return Fate::Dropped;
    }
    Fate::Unwrapped
}
