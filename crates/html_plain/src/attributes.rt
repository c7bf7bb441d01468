//! The attributes of plain documents.
ghost use Rattle.std.specs.Prelude.{◌≡◌, IfErr, IfOk};
ghost use Rattle.std.specs.List.{list_all};
ghost use Rattle.std.specs.Str.{chars};
ghost use Rattle.html_plain.specs.Grammar.{are_distinct, are_plain_attributes, has_local_name, is_name_character};
ghost use Rattle.html_plain.specs.Grammar.{is_plain_attribute, is_plain_name, is_unprefixed};
ghost use Rattle.markup.specs.declared.fault.ParseFault.TheVariants.{Memory};

use crate::texts::has_plain_characters;
use markup::{Attribute, KnownNamespace, LocalName, ParseFault, QualName};
use std::alloc::Global;
use std::collections::BTreeSet;

// So many attributes are compared one with another.
const MANY: usize = 16;

/// Whether all characters of a text are lower-case ASCII letters, digits and hyphens.
fn has_name_characters(text: &str) -> bool
    ensures { result ≡ list_all is_name_character (chars text.now) }
{
    text.chars().all(|c| c.is_ascii_lowercase() || c.is_ascii_digit() || c == '-')
}

/// Whether a name is not empty, and is of such characters.
fn is_plain_name(name: &LocalName) -> bool
    ensures { result ≡ is_plain_name name.now }
{
    !name.is_empty() && has_name_characters(name.as_str())
}

/// Whether a name has neither a prefix nor a namespace.
fn is_unprefixed(name: &QualName) -> bool
    ensures { result ≡ is_unprefixed name.now }
{
    name.prefix.is_none() && name.ns.is_known(KnownNamespace::NoNamespace)
}

/// Whether an attribute may stand in a plain document, apart from those beside it.
fn is_plain_attribute(attribute: &Attribute) -> bool
    ensures { result ≡ is_plain_attribute attribute.now }
{
    is_plain_name(&attribute.name.local)
        && is_unprefixed(&attribute.name)
        && has_plain_characters(attribute.value.as_str())
}

/// Whether all of these attributes may.
fn are_each_plain(attributes: &[Attribute]) -> bool
    ensures { result ≡ list_all is_plain_attribute attributes.now }
{
    attributes
        .iter()
        .all(|attribute| is_plain_attribute(attribute))
}

/// Whether one of these attributes has that local name.
fn has_local_name(attributes: &[Attribute], name: &LocalName) -> bool
    ensures { result ≡ has_local_name name.now attributes.now }
{
    attributes
        .iter()
        .any(|attribute| *name == attribute.name.local)
}

/// Whether no two of a few attributes have one local name.
fn are_few_distinct(attributes: &[Attribute]) -> bool
    ensures { result ≡ are_distinct attributes.now }
{
    let mut left = attributes;
    while let Some((first, rest)) = left.split_first() {
        if has_local_name(rest, &first.name.local) {
            return false;
        }
        left = rest;
    }
    true
}

/// Whether no two of many attributes have one local name, by a set of their names.
fn are_many_distinct(alloc: Global, attributes: &[Attribute]) -> Result<bool, ParseFault>
    ensures ok { IfOk result (λ distinct. distinct ≡ are_distinct attributes.now) }
    ensures fault { IfErr result (λ fault. fault ≡ Memory) }
{
    let mut names = BTreeSet::new(alloc);
    for attribute in attributes {
        let name = attribute.name.local.copy(alloc)?;
        if !names.insert(name)? {
            return Ok(false);
        }
    }
    Ok(true)
}

/// Whether no two attributes have one local name. Time grows as the number of attributes times its logarithm.
fn are_distinct(alloc: Global, attributes: &[Attribute]) -> Result<bool, ParseFault>
    ensures ok { IfOk result (λ distinct. distinct ≡ are_distinct attributes.now) }
    ensures fault { IfErr result (λ fault. fault ≡ Memory) }
{
    if attributes.len() > MANY {
        are_many_distinct(alloc, attributes)
    } else {
        Ok(are_few_distinct(attributes))
    }
}

/// Whether an element of a plain document may have these attributes: their names are distinct, not empty, and of lower-case
/// ASCII letters, digits and hyphens, without prefix and namespace, and no value has U+0000 or a carriage return. Of many
/// attributes the names are put into a set, for which there may be no memory.
pub fn are_plain_attributes(alloc: Global, attributes: &[Attribute]) -> Result<bool, ParseFault>
    ensures ok { IfOk result (λ plain. plain ≡ are_plain_attributes attributes.now) }
    ensures fault { IfErr result (λ fault. fault ≡ Memory) }
{
    if are_each_plain(attributes) {
        are_distinct(alloc, attributes)
    } else {
        Ok(false)
    }
}
