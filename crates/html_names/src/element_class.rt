//! What is known of an element by its namespace and its name.
ghost use Rattle.std.specs.Prelude.{◌≡◌, ◌<◌, List, [], ℕ, length, slice_index_or};
ghost use Rattle.markup.specs.KnownNames.{names};
ghost use Rattle.html_rules.specs.Names.{Namespace as Space, Html, namespace_of};
ghost use Rattle.html_rules.specs.Sets.{is_among, names_in, names_of};
ghost use Rattle.html_names.specs.Classes.{IsClassOf, IsRowOf, kind_of};

use crate::set_rows;
use html_rules::TagSet;
use markup::{KnownName, KnownNamespace, LocalName, Namespace};

/// The kind of an element's namespace.
#[derive(Clone, Copy, Debug, PartialEq, Eq)]
pub enum ElementNamespace {
    /// HTML.
    Html,
    /// MathML.
    MathMl,
    /// SVG.
    Svg,
    /// Any other, which only the context of a fragment has, and what stands in it.
    Other,
}

impl ElementNamespace {
    /// The kind of a namespace.
    #[tactic(auto, unfolding(markup::specs::Names::html_namespace, markup::specs::Namespaces::name_of, html_rules::specs::Names::mathml_namespace, html_rules::specs::Names::svg_namespace))]
    pub fn of(namespace: &Namespace) -> ElementNamespace
        ensures { result ≡ kind_of (namespace_of namespace.now) }
    {
        if namespace.is_known(KnownNamespace::Html) {
            ElementNamespace::Html
        } else if namespace.is_known(KnownNamespace::MathMl) {
            ElementNamespace::MathMl
        } else if namespace.is_known(KnownNamespace::Svg) {
            ElementNamespace::Svg
        } else {
            ElementNamespace::Other
        }
    }
}

/// What is known of an element by its namespace and its name: which known name it is, if it is one, and in which sets of names it is. It
/// is found by one look-up of the name, and asked by reading a bit.
#[derive(Clone, Copy, Debug)]
pub struct ElementClass {
    /// The kind of the namespace.
    pub namespace: ElementNamespace,
    /// The known name, if it is one.
    pub known: Option<KnownName>,
    /// A bit for each set of names.
    pub sets: u128,
}

/// The sets of an element with a known name.
fn sets_of(namespace: ElementNamespace, name: KnownName) -> u128
    requires { name.place < length names }
    ensures { (space : Space) → kind_of space ≡ namespace → IsRowOf space (slice_index_or names name.place []) result }
{
    match namespace {
        ElementNamespace::Html => set_rows::of_html(name),
        ElementNamespace::MathMl => set_rows::of_mathml(name),
        ElementNamespace::Svg => set_rows::of_svg(name),
        ElementNamespace::Other => 0,
    }
}

impl ElementClass {
    /// The class of an element. Its name is looked up, in time that grows with the logarithm of the number of known names.
    pub fn of(namespace: ElementNamespace, name: &LocalName) -> ElementClass
        ensures { (space : Space) → kind_of space ≡ namespace → IsClassOf space name.now result }
    {
        let known = name.known();
        let sets = match known {
            Some(known) => sets_of(namespace, known),
            None => 0,
        };
        ElementClass {
            namespace,
            known,
            sets,
        }
    }

    /// The class of an HTML element, as of the one that a tag of this name makes.
    pub fn html(name: &LocalName) -> ElementClass
        ensures { IsClassOf Html name.now result }
    {
        ElementClass::of(ElementNamespace::Html, name)
    }

    /// The class of an element whose namespace is given by its name.
    pub fn named(namespace: &Namespace, name: &LocalName) -> ElementClass
        ensures { IsClassOf (namespace_of namespace.now) name.now result }
    {
        let kind = ElementNamespace::of(namespace);
        ElementClass::of(kind, name)
    }

    /// Whether the element is in a set of names.
    pub fn is_in(self, set: TagSet) -> bool
        ensures { (space : Space) (name : List ℕ) → IsClassOf space name self → result ≡ is_among name (names_in space set) }
    {
        self.sets >> (set as u32) & 1 == 1
    }
}

/// Whether a tag's name is in a set, as that of an HTML element. Who asks more of one name asks its [`ElementClass`].
pub fn is_in(name: &LocalName, set: TagSet) -> bool
    ensures { result ≡ is_among name.now (names_of set) }
{
    ElementClass::html(name).is_in(set)
}
