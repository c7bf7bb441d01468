//! Start tags.
ghost use Rattle.std.specs.Prelude.{◌≡◌, ◌++◌, IfSome, codes, encode_utf8_all};
ghost use Rattle.markup.specs.Escape.{start_tag, written_attribute, written_attributes};
ghost use Rattle.markup.specs.KnownNames.{IsNameAt};
ghost use Rattle.html_serialize.specs.KnownTags.{attribute_front, front_of};
ghost use Rattle.html_serialize.specs.Puts.{Puts, told_by};

use crate::escape::{Escaping, put_escaped};
use crate::names::{attribute, known_attribute, prefix, start_tag};
use crate::put::{put, put_three};
use markup::devices::Target;
use markup::{Attribute, KnownName, QualName, SerializeFault};

/// Writes the name of an attribute after a space, and what stands between it and the value.
fn put_attribute_name<Wr: Target>(writer: &mut Wr, name: &QualName) -> Result<(), SerializeFault>
    ensures puts { Puts (told_by Wr.written Wr.failures writer.old) (attribute_front name.now) result
        (told_by Wr.written Wr.failures writer.new) }
    ensures same_references { Wr.references writer.new ≡ Wr.references writer.old }
{
    match known_attribute(name) {
        Some(known) => put(writer, attribute(known).as_bytes()),
        None => {
            put_three(writer, " ", prefix(name), name.local.as_str())?;
            put(writer, b"=\"")
        }
    }
}

/// Writes an attribute, after a space.
fn put_attribute<Wr: Target>(writer: &mut Wr, attribute: &Attribute) -> Result<(), SerializeFault>
    ensures puts { Puts (told_by Wr.written Wr.failures writer.old)
        (encode_utf8_all (written_attribute attribute.now)) result (told_by Wr.written Wr.failures writer.new) }
    ensures same_references { Wr.references writer.new ≡ Wr.references writer.old }
{
    put_attribute_name(writer, &attribute.name)?;
    put_escaped(writer, attribute.value.as_str(), Escaping::Value)?;
    put(writer, b"\"")
}

/// Writes attributes, each after a space.
fn put_attributes<Wr: Target>(writer: &mut Wr, attrs: &[Attribute]) -> Result<(), SerializeFault>
    ensures puts { Puts (told_by Wr.written Wr.failures writer.old) (encode_utf8_all (written_attributes attrs.now))
        result (told_by Wr.written Wr.failures writer.new) }
    ensures same_references { Wr.references writer.new ≡ Wr.references writer.old }
{
    for attribute in attrs {
        put_attribute(writer, attribute)?;
    }
    Ok(())
}

/// Writes a start tag, given as the one of an element without attributes.
fn put_known_start_tag<Wr: Target>(
    writer: &mut Wr,
    bare: &[u8],
    attrs: &[Attribute],
) -> Result<(), SerializeFault>
    requires { bare.now ≡ front_of bare.now ++ codes ">" }
    ensures puts { Puts (told_by Wr.written Wr.failures writer.old)
        (front_of bare.now ++ (encode_utf8_all (written_attributes attrs.now) ++ codes ">")) result
        (told_by Wr.written Wr.failures writer.new) }
    ensures same_references { Wr.references writer.new ≡ Wr.references writer.old }
{
    if attrs.is_empty() {
        return put(writer, bare);
    }
    put(writer, &bare[..bare.len() - 1])?;
    put_attributes(writer, attrs)?;
    put(writer, b">")
}

/// Writes the start tag of an element whose name is no known name.
fn put_other_start_tag<Wr: Target>(
    writer: &mut Wr,
    name: &QualName,
    attrs: &[Attribute],
) -> Result<(), SerializeFault>
    ensures puts { Puts (told_by Wr.written Wr.failures writer.old)
        (encode_utf8_all (start_tag name.now.local attrs.now)) result (told_by Wr.written Wr.failures writer.new) }
    ensures same_references { Wr.references writer.new ≡ Wr.references writer.old }
{
    put_three(writer, "<", name.local.as_str(), "")?;
    put_attributes(writer, attrs)?;
    put(writer, b">")
}

/// Writes a start tag, by the known name that the element's name is, if it is one.
pub(crate) fn put_start_tag<Wr: Target>(
    writer: &mut Wr,
    name: &QualName,
    known: Option<KnownName>,
    attrs: &[Attribute],
) -> Result<(), SerializeFault>
    requires { IfSome known (λ known. IsNameAt known.place name.now.local) }
    ensures puts { Puts (told_by Wr.written Wr.failures writer.old)
        (encode_utf8_all (start_tag name.now.local attrs.now)) result (told_by Wr.written Wr.failures writer.new) }
    ensures same_references { Wr.references writer.new ≡ Wr.references writer.old }
{
    match known {
        Some(known) => put_known_start_tag(writer, start_tag(known).as_bytes(), attrs),
        None => put_other_start_tag(writer, name, attrs),
    }
}
