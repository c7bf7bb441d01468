//! Which names are read as they are written (HTML Standard, section 13.2.5).
ghost use Rattle.std.specs.Prelude.{◌≡◌, ◌&&◌, ◌++◌, [], nat_eq, not, IfErr, IfOk};
ghost use Rattle.std.specs.Char.{to_ascii_lowercase};
ghost use Rattle.std.specs.Str.{bytes_eq, chars};
ghost use Rattle.std.specs.List.{list_all};
ghost use Rattle.html_rules.specs.Conditions.{is_nonempty};
ghost use Rattle.markup.specs.Attributes.{has_local_name};
ghost use Rattle.markup.specs.Escape.{attribute_prefix};
ghost use Rattle.markup.specs.declared.fault.ParseFault.TheVariants.{Memory};
ghost use Rattle.html_faithful.specs.Forms.{is_attribute_name, is_error_in_name, is_odd_in_name, is_tag_name, lowered, told_attribute};
ghost use Rattle.html_faithful_judge.specs.Texts.{begins_lower, emitted_attributes, is_kept_attribute};

use crate::texts::is_kept;
use markup::{
    Attribute, Attributes, KnownNamespace, LocalName, Namespace, ParseFault, QualName, Text,
};
use std::alloc::Global;

/// Whether a character ends a name, or is changed in it (HTML Standard, sections 13.2.3.5, 13.2.5.8 and 13.2.5.33).
fn is_odd_in_name(c: char) -> bool
    ensures { result ≡ is_odd_in_name c }
{
    matches!(c, '\t' | '\n' | '\x0C' | '\r' | ' ')
        || c == '/'
        || c == '>'
        || c.to_ascii_lowercase() != c
        || c == '\0'
        || c == '\r'
}

/// Whether a character is an error in the name of an attribute (section 13.2.5.33).
fn is_error_in_name(c: char) -> bool
    ensures { result ≡ is_error_in_name c }
{
    matches!(c, '"' | '\'' | '<' | '=')
}

/// Whether no character of a name is odd.
fn has_name_characters(name: &str) -> bool
    ensures { result ≡ list_all (λ c. not (is_odd_in_name c)) (chars name.now) }
{
    name.chars().all(|c| !is_odd_in_name(c))
}

/// Whether no character of the name of an attribute is odd or an error.
fn has_attribute_characters(name: &str) -> bool
    ensures { result ≡ list_all (λ c. not (is_odd_in_name c) && not (is_error_in_name c)) (chars name.now) }
{
    name.chars()
        .all(|c| !is_odd_in_name(c) && !is_error_in_name(c))
}

/// Whether a text has a character.
pub fn is_nonempty(text: &str) -> bool
    ensures { result ≡ is_nonempty (chars text.now) }
{
    text.chars().next().is_some()
}

/// Whether a name begins with a lower-case letter.
fn begins_lower(name: &str) -> bool
    ensures { result ≡ begins_lower (chars name.now) }
{
    match name.chars().next() {
        Some(c) => c.is_ascii_lowercase(),
        None => false,
    }
}

/// Whether a tag of this name is read with just this name: it begins with a lower-case letter, and no character of it ends a name or is
/// changed in one (HTML Standard, sections 13.2.5.6 and 13.2.5.8).
pub fn is_tag_name(name: &str) -> bool
    ensures { result ≡ is_tag_name (chars name.now) }
{
    begins_lower(name) && has_name_characters(name)
}

/// Whether an attribute is read with just this name: it is not empty, and no character of it ends a name, is changed in one or is an error
/// there (HTML Standard, section 13.2.5.33).
pub fn is_attribute_name(name: &str) -> bool
    ensures { result ≡ is_attribute_name (chars name.now) }
{
    is_nonempty(name) && has_attribute_characters(name)
}

/// What stands before the local name of an attribute where it is written (HTML Standard, section 13.3).
fn prefix(name: &QualName) -> &'static str
    ensures { result.now ≡ attribute_prefix name.now }
{
    match name.ns.known() {
        Some(KnownNamespace::NoNamespace) => "",
        Some(KnownNamespace::Xml) => "xml:",
        Some(KnownNamespace::Xmlns) => { if name.local.is("xmlns") { "" } else { "xmlns:" } }
        Some(KnownNamespace::XLink) => "xlink:",
        _ => "unknown_namespace:",
    }
}

/// Whether a text has no letter in upper case.
fn is_lowered(text: &str) -> bool
    ensures { result ≡ list_all (λ c. nat_eq (to_ascii_lowercase c) c) (chars text.now) }
{
    text.chars().all(|c| c.to_ascii_lowercase() == c)
}

/// A name with its ASCII letters lowered.
pub fn lowered(alloc: Global, name: &LocalName) -> Result<LocalName, ParseFault>
    ensures ok { IfOk result (λ made. made ≡ lowered name.now) }
    ensures fault { IfErr result (λ fault. fault ≡ Memory) }
{
    if is_lowered(name.as_str()) {
        return name.copy(alloc);
    }
    LocalName::from_str_lowered(alloc, name.as_str())
}

/// Whether the name of an attribute is in no namespace.
#[tactic(auto, unfolding(markup::specs::Namespaces::name_of))]
fn is_in_no_namespace(name: &QualName) -> bool
    ensures { result ≡ bytes_eq name.now.ns [] }
{
    name.ns.is_known(KnownNamespace::NoNamespace)
}

/// The name of an attribute as it is emitted: that which is written, lowered.
fn emitted_name(alloc: Global, name: &QualName) -> Result<LocalName, ParseFault>
    ensures ok { IfOk result (λ made. made ≡ lowered (attribute_prefix name.now ++ name.now.local)) }
    ensures fault { IfErr result (λ fault. fault ≡ Memory) }
{
    if is_in_no_namespace(name) {
        if is_attribute_name(name.local.as_str()) {
            return name.local.copy(alloc);
        }
    }
    let mut written = Text::from_str(alloc, prefix(name))?;
    written.push_str(name.local.as_str())?;
    LocalName::from_str_lowered(alloc, written.as_str())
}

/// An attribute as it is emitted.
fn emitted_attribute(alloc: Global, attribute: &Attribute) -> Result<Attribute, ParseFault>
    ensures ok { IfOk result (λ made. made ≡ told_attribute attribute.now) }
    ensures fault { IfErr result (λ fault. fault ≡ Memory) }
{
    let name = emitted_name(alloc, &attribute.name)?;
    let value = attribute.value.copy(alloc)?;
    Ok(Attribute {
        name: QualName::new(None, Namespace::none(), name),
        value,
    })
}

/// Whether an attribute that is emitted has the name and the value with which it is written.
fn is_kept_attribute(attribute: &Attribute) -> bool
    ensures { result ≡ is_kept_attribute attribute.now }
{
    is_attribute_name(attribute.name.local.as_str()) && is_kept(attribute.value.as_str())
}

/// Whether an attribute that is emitted after others is so, and is not dropped since its name is that of one of them.
fn may_join(emitted: &Attributes, attribute: &Attribute) -> bool
    ensures { result ≡ (is_kept_attribute attribute.now && not (has_local_name attribute.now.name.local emitted.now)) }
{
    is_kept_attribute(attribute) && !emitted.has_local_name(&attribute.name.local)
}

/// Attributes as they are emitted with a start tag; none where one of them would be emitted with another name or value than it is written
/// with, or is dropped since its name comes twice (HTML Standard, section 13.2.5.33). Time grows as the length of the text that is written,
/// with the logarithm of the number of attributes.
pub fn emitted_attributes(
    alloc: Global,
    attributes: &[Attribute],
) -> Result<Option<Attributes>, ParseFault>
    ensures ok { IfOk result (λ made. made ≡ emitted_attributes attributes.now) }
    ensures fault { IfErr result (λ fault. fault ≡ Memory) }
{
    let mut emitted = Attributes::new(alloc);
    for attribute in attributes {
        let attribute = emitted_attribute(alloc, attribute)?;
        if !may_join(&emitted, &attribute) {
            return Ok(None);
        }
        emitted.push(attribute)?;
    }
    Ok(Some(emitted))
}
