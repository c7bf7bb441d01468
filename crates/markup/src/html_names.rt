//! The names of HTML elements.
ghost use Rattle.std.specs.Prelude.{◌≡◌, IsTrue, Some};
ghost use Rattle.markup.specs.Plain.{is_plain};
ghost use Rattle.markup.specs.Names.{is_html_name};

use crate::names::QualName;
use crate::namespaces::KnownNamespace;

/// Whether a name is that of an HTML element with the given local name, which is of ASCII alone, as `template`. The prefix does not matter.
#[tactic(auto, unfolding(crate::specs::Names::html_namespace, crate::specs::Namespaces::name_of))]
pub fn is_html_name(name: &QualName, local: &str) -> bool
    requires { IsTrue (is_plain local.now) }
    ensures { result ≡ is_html_name (Some name.now) local.now }
{
    name.ns.is_known(KnownNamespace::Html) && name.local.is(local)
}
