//! The namespace and the name of an element that is open.
ghost use Rattle.std.specs.Prelude.{◌≡◌, ◌<◌, IfErr, IfNone, IfOk, IfSome, [], false, length, map, slice_index_or};
ghost use Rattle.markup.specs.declared.fault.ParseFault.TheVariants.{Memory};
ghost use Rattle.std.specs.List.{list_any};
ghost use Rattle.std.specs.Char.{to_ascii_lowercase};
ghost use Rattle.std.specs.Str.{bytes_eq, chars};
ghost use Rattle.markup.specs.Namespaces.{name_of};
ghost use Rattle.markup.specs.KnownNames.{IsNameAt, names};
ghost use Rattle.html_rules.specs.Names.{Html, is_html, namespace_of};
ghost use Rattle.html_names.specs.declared.element_class.ElementNamespace.TheVariants as kind;
ghost use Rattle.html_rules.specs.declared.rules.Rules.{Rules};
ghost use Rattle.html_rules.specs.declared.rules.Rules.TheVariants as rules;
ghost use Rattle.html_rules.specs.Sets.{is_among, names_in, set_by};
ghost use Rattle.html_rules.specs.State.{named_in};
ghost use Rattle.html_names.specs.Classes.{IsClassOf, IsRowBy, kind_of};
ghost use Rattle.html_names.specs.ElementNames.{FitsForm, Holds, IsRareForm, named_by, space_of};

use crate::any_case::are_same_any_case;
use crate::element_class::{ElementClass, ElementNamespace};
use crate::rule_sets::sets_by;
use html_rules::{Rules, TagSet};
use markup::{KnownName, KnownNamespace, LocalName, Namespace, ParseFault};
use std::alloc::Global;
use std::marker::Model;

/// A name that is not known, or is in a namespace that is none of the three.
#[derive(Debug, Drop)]
pub(crate) struct RareName {
    pub(crate) namespace: Namespace,
    pub(crate) name: LocalName,
}

/// How a name is held: a known one takes no memory.
#[derive(Debug, Drop)]
pub(crate) enum NameForm {
    Known(KnownName),
    Rare(Box<RareName>),
}

/// The namespace and the name of an element, with what is known of them. A contract sees the two.
#[derive(Debug, Drop)]
pub struct ElementName {
    rules: Rules,
    namespace: ElementNamespace,
    sets: u128,
    form: NameForm,
}

impl Model for ElementName {
    ghost use Rattle.html_names.specs.ElementNames.{IsFormed, Named, named_by};

    ghost Value = { Named };

    ghost view = { λ e. named_by e.rules e.namespace e.form };

    ghost invariant = { λ e. IsFormed e.rules e.namespace e.sets e.form };
}

/// The namespace of a kind; none, where it is none of the three.
#[tactic(auto, unfolding(markup::specs::Names::html_namespace, markup::specs::Namespaces::name_of, html_rules::specs::Names::mathml_namespace, html_rules::specs::Names::svg_namespace))]
fn known_namespace(kind: ElementNamespace) -> KnownNamespace
    ensures { namespace_of (name_of result) ≡ space_of kind }
{
    match kind {
        ElementNamespace::Html => KnownNamespace::Html,
        ElementNamespace::MathMl => KnownNamespace::MathMl,
        ElementNamespace::Svg => KnownNamespace::Svg,
        ElementNamespace::Other => KnownNamespace::NoNamespace,
    }
}

/// A name that takes memory.
fn rare(alloc: Global, namespace: &Namespace, name: &LocalName) -> Result<NameForm, ParseFault>
    ensures ok { IfOk result (λ form. IsRareForm form namespace.now name.now) }
    ensures fault { IfErr result (λ fault. fault ≡ Memory) }
{
    let copied = RareName {
        namespace: namespace.copy(alloc)?,
        name: name.copy(alloc)?,
    };
    Ok(NameForm::Rare(Box::new(alloc, copied)?))
}

/// How a name of a class is held.
fn form_of(
    alloc: Global,
    class: ElementClass,
    namespace: &Namespace,
    name: &LocalName,
) -> Result<NameForm, ParseFault>
    requires { IsClassOf (namespace_of namespace.now) name.now class }
    ensures ok { IfOk result (λ form. (rules : Rules) → Holds rules class.namespace form (namespace_of namespace.now) name.now) }
    ensures fault { IfErr result (λ fault. fault ≡ Memory) }
{
    match (class.namespace, class.known) {
        (ElementNamespace::Other, _) => rare(alloc, namespace, name),
        (_, None) => rare(alloc, namespace, name),
        (_, Some(known)) => Ok(NameForm::Known(known)),
    }
}

/// Whether a name of HTML is held that is this one, whose class is handed in.
fn is_same(form: &NameForm, class: ElementClass, name: &LocalName) -> bool
    requires of { IsClassOf Html name.now class }
    requires fits { FitsForm kind.Html form.now }
    ensures { result ≡ bytes_eq (named_by rules.Html5ever kind.Html form.now).name name.now }
{
    match (form, class.known) {
        (NameForm::Known(own), Some(other)) => own.place == other.place,
        (NameForm::Rare(rare), None) => rare.name == *name,
        (NameForm::Known(_), None) => false,
        (NameForm::Rare(_), Some(_)) => false,
    }
}

impl ElementName {
    ghost use Rattle.html_names.specs.ElementNames.{Named};

    /// The name of an element of any namespace. A known name of HTML, MathML or SVG takes no memory.
    pub fn new(
        alloc: Global,
        rules: Rules,
        namespace: &Namespace,
        name: &LocalName,
    ) -> Result<ElementName, ParseFault>
        ensures ok { IfOk result (λ made. made ≡ record { namespace = namespace_of namespace.now; name = name.now; rules = rules }) }
        ensures fault { IfErr result (λ fault. fault ≡ Memory) }
    {
        let class = ElementClass::named(namespace, name);
        ElementName::with_class(alloc, rules, class, namespace, name)
    }

    /// The same for a name that comes with its class, so that it is not looked up.
    pub fn with_class(
        alloc: Global,
        rules: Rules,
        class: ElementClass,
        namespace: &Namespace,
        name: &LocalName,
    ) -> Result<ElementName, ParseFault>
        requires { IsClassOf (namespace_of namespace.now) name.now class }
        ensures ok { IfOk result (λ made. made ≡ record { namespace = namespace_of namespace.now; name = name.now; rules = rules }) }
        ensures fault { IfErr result (λ fault. fault ≡ Memory) }
    {
        let form = form_of(alloc, class, namespace, name)?;
        Ok(ElementName {
            rules,
            namespace: class.namespace,
            sets: sets_by(rules, class.sets),
            form,
        })
    }

    /// Whether the element is in a set of names.
    pub fn is_in(&self, set: TagSet) -> bool
        ensures { result ≡ is_among self.now.name (names_in self.now.namespace (set_by self.now.rules set)) }
    {
        self.sets >> (set as u32) & 1 == 1
    }

    /// A bit for each set of names, as in [`ElementClass`].
    pub fn sets(&self) -> u128
        ensures { IsRowBy self.now.rules self.now.namespace self.now.name result }
    {
        self.sets
    }

    /// The rules by whose sets it is asked.
    pub fn rules(&self) -> Rules
        ensures { result ≡ self.now.rules }
    {
        self.rules
    }

    /// The kind of the namespace.
    pub fn kind(&self) -> ElementNamespace
        ensures { kind_of self.now.namespace ≡ result }
    {
        self.namespace
    }

    /// The namespace, as a value of its own. One that is none of the three is copied.
    pub fn namespace(&self, alloc: Global) -> Result<Namespace, ParseFault>
        ensures ok { IfOk result (λ namespace. namespace_of namespace ≡ self.now.namespace) }
        ensures fault { IfErr result (λ fault. fault ≡ Memory) }
    {
        match &self.form {
            NameForm::Known(_) => Ok(Namespace::from_known(known_namespace(self.namespace))),
            NameForm::Rare(rare) => rare.namespace.copy(alloc),
        }
    }

    /// Whether it is an HTML element.
    pub fn is_html(&self) -> bool
        ensures { result ≡ is_html self.now.namespace }
    {
        self.namespace == ElementNamespace::Html
    }

    /// The known name that it is, if it is that of an HTML element.
    pub fn known_html(&self) -> Option<KnownName>
        ensures found { IfSome result (λ known. (self.now.namespace ≡ Html) × IsNameAt known.place self.now.name) }
        ensures missing { IfNone result (self.now.namespace ≡ Html → list_any (bytes_eq self.now.name) names ≡ false) }
    {
        match (self.namespace, &self.form) {
            (ElementNamespace::Html, NameForm::Known(known)) => Some(*known),
            _ => None,
        }
    }

    /// Whether it is the HTML element of a known name.
    pub fn is_known(&self, known: KnownName) -> bool
        requires { known.place < length names }
        ensures { result ≡ named_in self.now.namespace self.now.name (slice_index_or names known.place []) }
    {
        match self.known_html() {
            Some(own) => own.place == known.place,
            None => false,
        }
    }

    /// Whether it is the HTML element of a name, whose class is handed in.
    pub fn is_named(&self, class: ElementClass, name: &LocalName) -> bool
        requires { IsClassOf Html name.now class }
        ensures { result ≡ named_in self.now.namespace self.now.name name.now }
    {
        match self.namespace {
            ElementNamespace::Html => is_same(&self.form, class, name),
            _ => false,
        }
    }
    /// The name, lent.
    pub fn as_str(&self) -> &str
        ensures { chars result.now ≡ self.now.name }
    {
        match &self.form {
            NameForm::Known(known) => known.as_str(),
            NameForm::Rare(rare) => rare.name.as_str(),
        }
    }

    /// Whether this is its name in any case, in whatever namespace. Texts are compared, without memory.
    pub fn is_named_any_case(&self, name: &LocalName) -> bool
        ensures { result ≡ bytes_eq (map to_ascii_lowercase self.now.name) (map to_ascii_lowercase name.now) }
    {
        are_same_any_case(self.as_str(), name.as_str())
    }
}
