//! The namespaces that the parser knows (Infra Standard, section 8).
ghost use Rattle.std.specs.Prelude.{◌≡◌};
ghost use Rattle.std.specs.Str.{bytes_eq, chars};
ghost use Rattle.markup.specs.Namespaces.{name_of, known_namespace, prefix_of};

use crate::characters;

/// No namespace, as of most attributes.
pub const NONE: &str = "";

/// HTML.
pub const HTML: &str = "http://www.w3.org/1999/xhtml";

/// MathML.
pub const MATHML: &str = "http://www.w3.org/1998/Math/MathML";

/// SVG.
pub const SVG: &str = "http://www.w3.org/2000/svg";

/// XLink, of some attributes in SVG and MathML.
pub const XLINK: &str = "http://www.w3.org/1999/xlink";

/// XML, of attributes such as `xml:lang`.
pub const XML: &str = "http://www.w3.org/XML/1998/namespace";

/// Declarations of namespaces.
pub const XMLNS: &str = "http://www.w3.org/2000/xmlns/";

/// A namespace that the parser knows.
#[derive(Clone, Copy, Debug, PartialEq, Eq, Hash)]
pub enum KnownNamespace {
    /// No namespace, as of most attributes.
    NoNamespace,
    /// HTML.
    Html,
    /// MathML.
    MathMl,
    /// SVG.
    Svg,
    /// XLink.
    XLink,
    /// XML.
    Xml,
    /// Declarations of namespaces.
    Xmlns,
}

/// What a namespace or a prefix is held as: one of a known namespace takes no memory, any other has its text.
#[derive(Drop)]
pub(crate) enum KnownForm {
    Known(KnownNamespace),
    Other(String),
}

/// The name of a known namespace.
#[tactic(auto, unfolding(crate::specs::Namespaces::name_of))]
pub(crate) fn name_of(known: KnownNamespace) -> &'static str
    ensures { result.now ≡ name_of known }
{
    match known {
        KnownNamespace::NoNamespace => NONE,
        KnownNamespace::Html => HTML,
        KnownNamespace::MathMl => MATHML,
        KnownNamespace::Svg => SVG,
        KnownNamespace::XLink => XLINK,
        KnownNamespace::Xml => XML,
        KnownNamespace::Xmlns => XMLNS,
    }
}

/// The usual prefix of a known namespace.
#[tactic(auto, unfolding(crate::specs::Namespaces::prefix_of))]
pub(crate) fn prefix_of(known: KnownNamespace) -> &'static str
    ensures { result.now ≡ prefix_of known }
{
    match known {
        KnownNamespace::NoNamespace => "",
        KnownNamespace::Html => "html",
        KnownNamespace::MathMl => "mathml",
        KnownNamespace::Svg => "svg",
        KnownNamespace::XLink => "xlink",
        KnownNamespace::Xml => "xml",
        KnownNamespace::Xmlns => "xmlns",
    }
}

/// The known namespace of a name, if there is one.
#[tactic(auto, unfolding(crate::specs::Namespaces::known_namespace))]
pub(crate) fn known(name: &str) -> Option<KnownNamespace>
    ensures { result ≡ known_namespace (chars name.now) }
{
    if is_name_of(name, KnownNamespace::Html) {
        Some(KnownNamespace::Html)
    } else if is_name_of(name, KnownNamespace::NoNamespace) {
        Some(KnownNamespace::NoNamespace)
    } else if is_name_of(name, KnownNamespace::Svg) {
        Some(KnownNamespace::Svg)
    } else if is_name_of(name, KnownNamespace::MathMl) {
        Some(KnownNamespace::MathMl)
    } else if is_name_of(name, KnownNamespace::XLink) {
        Some(KnownNamespace::XLink)
    } else if is_name_of(name, KnownNamespace::Xml) {
        Some(KnownNamespace::Xml)
    } else if is_name_of(name, KnownNamespace::Xmlns) {
        Some(KnownNamespace::Xmlns)
    } else {
        None
    }
}

/// Whether this is the name of a namespace.
fn is_name_of(name: &str, known: KnownNamespace) -> bool
    ensures { result ≡ bytes_eq (chars name.now) (name_of known) }
{
    characters::are_same(name, name_of(known))
}
