//! Tags and their attributes.

use crate::see;
use html_tokens::{Tag, TagKind};
use markup::{Attribute, Attributes, LocalName, Namespace, ParseFault, QualName, Text};
use std::alloc::Global;

/// A name and a value.
pub type Pair = (&'static str, &'static str);

/// An attribute with no namespace.
pub fn attribute(alloc: Global, pair: Pair) -> Result<Attribute, ParseFault> {
    let value = Text::from_str(alloc, pair.1)?;
    let local = LocalName::from_str(alloc, pair.0)?;
    Ok(Attribute {
        name: QualName::new(None, Namespace::none(), local),
        value,
    })
}

fn push_all(alloc: Global, attrs: &mut Attributes, pairs: &[Pair]) -> Result<(), ParseFault> {
    for pair in pairs {
        attrs.push(attribute(alloc, *pair)?)?;
    }
    Ok(())
}

/// The attributes of these names and values.
pub fn attributes(alloc: Global, pairs: &[Pair]) -> Result<Attributes, ParseFault> {
    let mut attrs = Attributes::new(alloc);
    push_all(alloc, &mut attrs, pairs)?;
    Ok(attrs)
}

/// A tag of the given kind, name and attributes.
pub fn tag(
    alloc: Global,
    kind: TagKind,
    tag_name: &str,
    pairs: &[Pair],
) -> Result<Tag, ParseFault> {
    let attrs = attributes(alloc, pairs)?;
    let name = LocalName::from_str(alloc, tag_name)?;
    Ok(Tag {
        kind,
        name,
        self_closing: false,
        attrs,
        had_duplicate_attributes: false,
    })
}

const THREE: &[Pair] = &[("b", "1"), ("c", "2"), ("b", "3")];

// Names, and the value that is found by each in `<a b=1 c=2 b=3>`.
const VALUES: &[(&str, Option<&str>)] = &[("b", Some("1")), ("c", Some("2")), ("d", None)];

fn value_in(alloc: Global, tag: &Tag, sought: &str) -> Result<Option<Text>, ParseFault> {
    tag.get_attribute(alloc, &LocalName::from_str(alloc, sought)?)
}

fn has_value_in(alloc: Global, tag: &Tag, row: &(&str, Option<&str>)) -> bool {
    match value_in(alloc, tag, row.0) {
        Ok(Some(text)) => row.1 == Some(text.as_str()),
        Ok(None) => row.1.is_none(),
        Err(_) => false,
    }
}

// Whether this is the value of a name in that tag.
fn has_value(alloc: Global, row: &(&str, Option<&str>)) -> bool {
    match tag(alloc, TagKind::StartTag, "a", THREE) {
        Ok(tag) => has_value_in(alloc, &tag, row),
        Err(_) => false,
    }
}

#[test]
fn first_attribute_of_a_name_is_found(rt: HostRuntime) {
    for row in VALUES {
        see(&rt, has_value(rt.alloc(), row), row.0);
    }
}

fn is_tag_copied(alloc: Global, tag: &Tag) -> bool {
    let Ok(copied) = tag.copy(alloc) else {
        return false;
    };
    copied == *tag
}

const ONE: &[Pair] = &[("b", "1")];

// Whether the copy of a tag that had duplicate attributes equals it.
fn is_duplicate_copied(alloc: Global, tag: &mut Tag) -> bool {
    tag.had_duplicate_attributes = true;
    is_tag_copied(alloc, tag)
}

fn are_tags_copied(alloc: Global) -> bool {
    match tag(alloc, TagKind::EndTag, "a", ONE) {
        Ok(mut first) => is_duplicate_copied(alloc, &mut first),
        Err(_) => false,
    }
}

#[test]
fn tags_are_copied(rt: HostRuntime) {
    assert!(rt; are_tags_copied(rt.alloc()));
}
