//! Where many attributes are by their local names, so that one is found without a walk over all.
ghost use Rattle.std.specs.Prelude.{◌≡◌, ◌++◌, ◌∷◌, [], IfErr, IfOk, OnOk};
ghost use Rattle.std.specs.List.{find, list_any};
ghost use Rattle.std.specs.Option.{option_copied};
ghost use Rattle.std.specs.Str.{bytes_eq};
ghost use Rattle.markup.specs.AttributeIndex.{AddsPlace, FitsIndex, IsIndex};
ghost use Rattle.markup.specs.Attributes.{has_local_name};
ghost use Rattle.markup.specs.Equality.{attribute_eq};
ghost use Rattle.markup.specs.Names.{has_attribute};
ghost use Rattle.markup.specs.declared.fault.ParseFault.TheVariants.{Memory};

use crate::attributes::Attribute;
use crate::fault::ParseFault;
use crate::names::{LocalName, QualName};
use std::alloc::Global;
use std::collections::BTreeMap;

/// So many attributes are looked through one by one; more have an index.
pub(crate) const MANY: usize = 32;

/// The places of attributes by their local names.
#[derive(Drop)]
pub(crate) struct AttributeIndex {
    // Where the first attribute with a local name is.
    pub(crate) places: BTreeMap<LocalName, usize>,
    // Whether no local name comes twice.
    pub(crate) are_distinct: bool,
}

/// Puts one more into an index.
///
/// Errors: out of memory; what the index says then is not known.
fn add(
    index: &mut AttributeIndex,
    alloc: Global,
    name: &LocalName,
    place: usize,
) -> Result<(), ParseFault>
    ensures ok { OnOk result (AddsPlace name.now place index.old index.new) }
    ensures fault { IfErr result (λ fault. fault ≡ Memory) }
{
    if index.places.contains_key(name) {
        index.are_distinct = false;
        return Ok(());
    }
    drop(index.places.insert(name.copy(alloc)?, place)?);
    Ok(())
}

/// The index of all of these.
///
/// Errors: out of memory.
fn all(alloc: Global, attributes: &[Attribute]) -> Result<Box<AttributeIndex>, ParseFault>
    ensures ok { IfOk result (λ index. IsIndex index.value attributes.now) }
    ensures fault { IfErr result (λ fault. fault ≡ Memory) }
{
    let mut index = Box::new(
        alloc,
        AttributeIndex {
            places: BTreeMap::new(alloc),
            are_distinct: true,
        },
    )?;
    for place in 0..attributes.len() {
        add(&mut index, alloc, &attributes[place].name.local, place)?;
    }
    Ok(index)
}

/// The index of attributes, made anew if there was none.
///
/// Errors: out of memory.
fn held(
    index: Option<Box<AttributeIndex>>,
    alloc: Global,
    attributes: &[Attribute],
) -> Result<Box<AttributeIndex>, ParseFault>
    requires { FitsIndex index attributes.now }
    ensures ok { IfOk result (λ index. IsIndex index.value attributes.now) }
    ensures fault { IfErr result (λ fault. fault ≡ Memory) }
{
    match index {
        Some(index) => Ok(index),
        None => all(alloc, attributes),
    }
}

/// The index of attributes and of one more with that local name.
///
/// Errors: out of memory.
fn with_one_more(
    index: Option<Box<AttributeIndex>>,
    alloc: Global,
    attributes: &[Attribute],
    name: &LocalName,
) -> Result<Box<AttributeIndex>, ParseFault>
    requires { FitsIndex index attributes.now }
    ensures ok { IfOk result (λ index. (more : Attribute) → more.name.local ≡ name.now → IsIndex index.value (attributes.now ++ more ∷ [])) }
    ensures fault { IfErr result (λ fault. fault ≡ Memory) }
{
    let mut index = held(index, alloc, attributes)?;
    add(&mut index, alloc, name, attributes.len())?;
    Ok(index)
}

/// The index of attributes and of one more with that local name, if they are many. Many attributes without an index would be looked
/// through one by one for each that comes, so where memory is short that is an error.
///
/// Errors: out of memory.
pub(crate) fn grown(
    index: Option<Box<AttributeIndex>>,
    alloc: Global,
    attributes: &[Attribute],
    name: &LocalName,
) -> Result<Option<Box<AttributeIndex>>, ParseFault>
    requires { FitsIndex index attributes.now }
    ensures ok { IfOk result (λ index. (more : Attribute) → more.name.local ≡ name.now → FitsIndex index (attributes.now ++ more ∷ [])) }
    ensures fault { IfErr result (λ fault. fault ≡ Memory) }
{
    if index.is_none() && attributes.len() < MANY {
        return Ok(None);
    }
    Ok(Some(with_one_more(index, alloc, attributes, name)?))
}

/// The index of attributes, if they are many.
///
/// Errors: out of memory.
pub(crate) fn of(
    alloc: Global,
    attributes: &[Attribute],
) -> Result<Option<Box<AttributeIndex>>, ParseFault>
    ensures ok { IfOk result (λ index. FitsIndex index attributes.now) }
    ensures fault { IfErr result (λ fault. fault ≡ Memory) }
{
    if attributes.len() <= MANY {
        return Ok(None);
    }
    Ok(Some(all(alloc, attributes)?))
}

/// Whether one of the attributes has that local name.
pub(crate) fn has_local_name(
    index: &Option<Box<AttributeIndex>>,
    attributes: &[Attribute],
    name: &LocalName,
) -> bool
    requires { FitsIndex index.now attributes.now }
    ensures { result ≡ has_local_name name.now attributes.now }
{
    match index {
        Some(index) => index.places.contains_key(name),
        None => attributes
            .iter()
            .any(|attribute| *name == attribute.name.local),
    }
}

/// The first of the attributes that has that local name.
fn first<'a>(
    index: &AttributeIndex,
    attributes: &'a [Attribute],
    name: &LocalName,
) -> Option<&'a Attribute>
    requires { IsIndex index.now attributes.now }
    ensures { option_copied result ≡ find (λ attribute. bytes_eq name.now attribute.name.local) attributes.now }
{
    let place = index.places.get(name)?;
    attributes.get(*place)
}

/// Whether one of the attributes has that name.
pub(crate) fn has(
    index: &Option<Box<AttributeIndex>>,
    attributes: &[Attribute],
    name: &QualName,
) -> bool
    requires { FitsIndex index.now attributes.now }
    ensures { result ≡ has_attribute name.now attributes.now }
{
    match index {
        Some(index) if index.are_distinct => match first(index, attributes, &name.local) {
            Some(attribute) => attribute.name == *name,
            None => false,
        },
        _ => attributes.iter().any(|attribute| attribute.name == *name),
    }
}

/// Whether an attribute is one of these.
pub(crate) fn contains(
    index: &Option<Box<AttributeIndex>>,
    attributes: &[Attribute],
    attribute: &Attribute,
) -> bool
    requires { FitsIndex index.now attributes.now }
    ensures { result ≡ list_any (attribute_eq attribute.now) attributes.now }
{
    match index {
        Some(index) if index.are_distinct => match first(index, attributes, &attribute.name.local) {
            Some(other) => attribute == other,
            None => false,
        },
        _ => attributes.iter().any(|other| attribute == other),
    }
}
