//! Attributes from an image.

use crate::parts::{Front, Parts, word_at};
use crate::read::ReadFault;
use markup::{Attribute, Attributes, KnownNamespace, LocalName, Namespace, Prefix, QualName, Text};
use std::alloc::Global;

/// The namespace of a number; 7 stands for each that has none.
pub(crate) fn namespace_of(number: usize) -> Result<Namespace, ReadFault> {
    let known = match number {
        0 => KnownNamespace::NoNamespace,
        1 => KnownNamespace::Html,
        2 => KnownNamespace::MathMl,
        3 => KnownNamespace::Svg,
        4 => KnownNamespace::XLink,
        5 => KnownNamespace::Xml,
        6 => KnownNamespace::Xmlns,
        _ => return Err(ReadFault::NotAnImage),
    };
    Ok(Namespace::from_known(known))
}

/// The prefix of a qualified name, by what stands before the local name.
fn prefix_of(alloc: Global, text: &str) -> Result<Option<Prefix>, ReadFault> {
    match text.strip_suffix(':') {
        Some(prefix) => Ok(Some(Prefix::new(String::from_str(alloc, prefix)?))),
        None => Ok(None),
    }
}

/// The next attribute.
fn attribute(alloc: Global, parts: Parts<'_>, front: &mut Front) -> Result<Attribute, ReadFault> {
    let at = front.attributes;
    if at > parts.attributes.len() || parts.attributes.len() - at < 24 {
        return Err(ReadFault::NotAnImage);
    }
    front.attributes = at + 24;
    let name_at = word_at(parts.attributes, at);
    let name = word_at(parts.attributes, at + 4);
    let value_at = word_at(parts.attributes, at + 8);
    let value = word_at(parts.attributes, at + 12);
    let namespace = word_at(parts.attributes, at + 16);
    let prefix = word_at(parts.attributes, at + 20);
    if prefix > name {
        return Err(ReadFault::NotAnImage);
    }
    let before = parts.text(front, name_at, prefix)?;
    let local = parts.text(front, name_at + prefix, name - prefix)?;
    let value = parts.text(front, value_at, value)?;
    let prefix = prefix_of(alloc, before)?;
    let namespace = namespace_of(namespace)?;
    let local = LocalName::from_str(alloc, local)?;
    Ok(Attribute {
        name: QualName::new(prefix, namespace, local),
        value: Text::from_str(alloc, value)?,
    })
}

/// The attributes of an element, where they begin at a place.
pub(crate) fn attributes(
    alloc: Global,
    parts: Parts<'_>,
    front: &mut Front,
    at: usize,
    count: usize,
) -> Result<Attributes, ReadFault> {
    if at != front.attributes {
        return Err(ReadFault::NotAnImage);
    }
    let mut attributes = Attributes::new(alloc);
    for _ in 0..count {
        attributes.push(attribute(alloc, parts, front)?)?;
    }
    Ok(attributes)
}
