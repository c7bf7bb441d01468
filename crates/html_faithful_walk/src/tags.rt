//! The tags of an element as they are written and read (HTML Standard, sections 13.1.2.1 and 13.1.2.2).
ghost use Rattle.std.specs.Prelude.{◌≡◌, IfErr, IfOk, map};
ghost use Rattle.std.specs.Cmp.Lexicographic.{pointwise};
ghost use Rattle.std.specs.Prelude.{nat_eq, option_map};
ghost use Rattle.markup.specs.Equality.{attribute_eq};
ghost use Rattle.markup.specs.declared.fault.ParseFault.TheVariants.{Memory};
ghost use Rattle.html_rules.specs.Names.{element_name_of, namespace_of};
ghost use Rattle.html_tokens.specs.Tags.{named};
ghost use Rattle.html_tokens.specs.declared.tags.TagKind.TheVariants.{EndTag as Ending};
ghost use Rattle.html_faithful.specs.Forms.{lowered};
ghost use Rattle.html_faithful.specs.Walk.{is_known, is_made, same_name};
ghost use Rattle.html_faithful_judge.specs.Mades.{put_as};
ghost use Rattle.html_faithful_walk.specs.Steps.{written_of};

use crate::names::is_template;
use html_faithful_judge::made::Put;
use html_faithful_judge::{emitted_attributes, is_tag_name, lowered};
use html_names::ElementNamespace;
use html_tokens::{Tag, TagKind};
use markup::{Attribute, Attributes, LocalName, Namespace, ParseFault, QualName};
use std::alloc::Global;

/// The start tag of an element, as it is read; none where it is read with another name or other attributes than it is written with.
pub(crate) fn written_tag(
    alloc: Global,
    name: &QualName,
    attributes: &[Attribute],
    template: bool,
) -> Result<Option<Tag>, ParseFault>
    ensures ok { IfOk result (λ tag. tag ≡ written_of name.now attributes.now template) }
    ensures fault { IfErr result (λ fault. fault ≡ Memory) }
{
    if template != is_template(name) {
        return Ok(None);
    }
    let lowered = lowered(alloc, &name.local)?;
    if !is_tag_name(lowered.as_str()) {
        return Ok(None);
    }
    match emitted_attributes(alloc, attributes)? {
        Some(attrs) => Ok(Some(Tag {
            kind: TagKind::StartTag,
            name: lowered,
            self_closing: false,
            attrs,
            had_duplicate_attributes: false,
        })),
        None => Ok(None),
    }
}

/// The end tag of an element, as it is read.
pub(crate) fn end_tag(alloc: Global, name: &QualName) -> Result<Tag, ParseFault>
    ensures ok { IfOk result (λ tag. tag ≡ named Ending (lowered name.now.local)) }
    ensures fault { IfErr result (λ fault. fault ≡ Memory) }
{
    Ok(Tag {
        kind: TagKind::EndTag,
        name: lowered(alloc, &name.local)?,
        self_closing: false,
        attrs: Attributes::new(alloc),
        had_duplicate_attributes: false,
    })
}

/// Whether an element of a namespace and a local name has this name.
fn has_name(namespace: &Namespace, local: &LocalName, name: &QualName) -> bool
    ensures { result ≡ same_name (element_name_of (namespace_of namespace.now) local.now) name.now }
{
    name.prefix.is_none() && (*namespace == name.ns && *local == name.local)
}

/// Whether a namespace is HTML's, MathML's or SVG's.
fn is_known(namespace: &Namespace) -> bool
    ensures { result ≡ is_known (namespace_of namespace.now) }
{
    ElementNamespace::of(namespace) != ElementNamespace::Other
}

/// Whether attributes are the same.
fn are_same(found: &Attributes, attributes: &[Attribute]) -> bool
    ensures { result ≡ pointwise attribute_eq found.now attributes.now }
{
    found.as_slice() == attributes
}

/// Whether what was put is an element of that name with those attributes, which was opened or was not.
pub(crate) fn is_made(
    name: &QualName,
    attributes: &[Attribute],
    opened: bool,
    put: &Option<Put>,
) -> bool
    ensures { result ≡ is_made name.now attributes.now opened (option_map put_as put.now) }
{
    match put {
        Some(
            Put::Element {
                namespace,
                name: local,
                attributes: found,
                opened: was_opened,
            },
        ) => {
            has_name(namespace, local, name)
                && are_same(found, attributes)
                && *was_opened == opened
                && is_known(namespace)
        }
        _ => false,
    }
}
