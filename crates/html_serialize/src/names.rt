//! What the names of elements and attributes say of how they are written.
ghost use Rattle.std.specs.Prelude.{◌≡◌, ℕ, List, [], IfSome, encode_utf8_all, map};
ghost use Rattle.markup.specs.Escape.{attribute_prefix, end_tag};
ghost use Rattle.markup.specs.KnownNames.{IsNameAt};
ghost use Rattle.markup.specs.Trees.{entry_under, is_html};
ghost use Rattle.html_serialize.specs.KnownTags.{IsKnownAs, IsMannerOf, attributes, bare_tag, before_value, end_tags};
ghost use Rattle.html_serialize.specs.KnownTags.{is_raw_in, is_void_in, manners, start_tags};
ghost use Rattle.html_serialize.specs.Serializing.{entry_for};

use crate::entries::ElemInfo;
use crate::known_tags::{ATTRIBUTES, END_TAGS, MANNERS, START_TAGS};
use markup::{KnownName, KnownNamespace, QualName, TraversalScope};

/// How what stands in an HTML element is written.
#[derive(Clone, Copy)]
pub(crate) enum Manner {
    /// As what stands in most elements.
    Usual,
    /// Not at all, nor is an end tag.
    Void,
    /// Its text as it is.
    Raw,
    /// Its text as it is where scripts run.
    RawWithScripts,
}

/// The manners of known names, lent.
fn manners() -> &'static [Manner]
    ensures { result.now ≡ manners }
{
    &MANNERS
}

/// The start tags of known names, lent.
fn start_tags() -> &'static [&'static str]
    ensures { map (λ tag. tag.now) result.now ≡ start_tags }
{
    &START_TAGS
}

/// The end tags of known names, lent.
fn end_tags() -> &'static [&'static str]
    ensures { map (λ tag. tag.now) result.now ≡ end_tags }
{
    &END_TAGS
}

/// What stands before the values of attributes of known names, lent.
fn attributes() -> &'static [&'static str]
    ensures { map (λ text. text.now) result.now ≡ attributes }
{
    &ATTRIBUTES
}

/// How what stands in the HTML element of a name is written, by the known name that it is.
fn manner_of(known: Option<KnownName>) -> Manner
    ensures { (name : List ℕ) → IsKnownAs name known → IsMannerOf name result }
{
    match known {
        Some(known) => match manners().get(known.place as usize) {
            Some(manner) => *manner,
            None => Manner::Usual,
        },
        None => Manner::Usual,
    }
}

/// Whether text is written as it is.
fn is_raw(scripting: bool, manner: Manner) -> bool
    ensures { result ≡ is_raw_in scripting manner }
{
    match manner {
        Manner::Raw => true,
        Manner::RawWithScripts => scripting,
        _ => false,
    }
}

/// Whether nothing within is written, nor an end tag.
fn is_void(manner: Manner) -> bool
    ensures { result ≡ is_void_in manner }
{
    matches!(manner, Manner::Void)
}

/// The start tag of an element of a known name that has no attributes.
pub(crate) fn start_tag(known: KnownName) -> &'static str
    ensures { (name : List ℕ) → IsNameAt known.place name → (result.now ≡ bare_tag name) × (encode_utf8_all name ≡ name) }
{
    match start_tags().get(known.place as usize) {
        Some(tag) => tag,
        None => "",
    }
}

/// The end tag of an element of a known name.
pub(crate) fn end_tag(known: KnownName) -> &'static str
    ensures { (name : List ℕ) → IsNameAt known.place name → result.now ≡ encode_utf8_all (end_tag name) }
{
    match end_tags().get(known.place as usize) {
        Some(tag) => tag,
        None => "",
    }
}

/// What stands before the value of an attribute of a known name that is in no namespace.
pub(crate) fn attribute(known: KnownName) -> &'static str
    ensures { (name : List ℕ) → IsNameAt known.place name → result.now ≡ encode_utf8_all (before_value [] name) }
{
    match attributes().get(known.place as usize) {
        Some(text) => text,
        None => "",
    }
}

/// Whether the element of a name is one of HTML's.
#[tactic(auto, unfolding(markup::specs::Names::html_namespace, markup::specs::Namespaces::name_of))]
fn is_html(name: &QualName) -> bool
    ensures { result ≡ is_html name.now }
{
    name.ns.is_known(KnownNamespace::Html)
}

/// The entry of an element that stands under another, by the known name that its name is, if it is one.
pub(crate) fn entry_under(
    scripting: bool,
    under: ElemInfo,
    name: &QualName,
    known: Option<KnownName>,
) -> ElemInfo
    requires { IsKnownAs name.now.local known }
    ensures { result ≡ entry_under scripting under name.now }
{
    let manner = if is_html(name) {
        manner_of(known)
    } else {
        Manner::Usual
    };
    ElemInfo {
        raw_text: is_raw(scripting, manner),
        ignore_children: under.ignore_children || is_void(manner),
    }
}

/// The entry around all that is written.
pub(crate) fn first_entry(scripting: bool, scope: &TraversalScope) -> ElemInfo
    ensures { result ≡ entry_for scripting scope.now }
{
    match scope {
        TraversalScope::ChildrenOnly(Some(name)) => ElemInfo {
            raw_text: is_raw(scripting, manner_of(name.local.known())),
            ignore_children: false,
        },
        _ => ElemInfo::none(),
    }
}

/// The known name that the name of an attribute is, if it is one and is in no namespace.
pub(crate) fn known_attribute(name: &QualName) -> Option<KnownName>
    ensures { IfSome result (λ known. (attribute_prefix name.now ≡ []) × IsNameAt known.place name.now.local) }
{
    match name.ns.known() {
        Some(KnownNamespace::NoNamespace) => name.local.known(),
        _ => None,
    }
}

/// What stands before the local name of an attribute.
pub(crate) fn prefix(name: &QualName) -> &'static str
    ensures { result.now ≡ attribute_prefix name.now }
{
    match name.ns.known() {
        Some(KnownNamespace::NoNamespace) => "",
        Some(KnownNamespace::Xml) => "xml:",
        Some(KnownNamespace::Xmlns) => { if name.local.is("xmlns") { "" } else { "xmlns:" } }
        Some(KnownNamespace::XLink) => "xlink:",
        _ => "unknown_namespace:",
    }
}
