//! What each call does to the writer and to the entries of the elements that have begun.
ghost use Rattle.std.specs.Prelude.{◌≡◌, ◌≢◌, ◌∷◌, Ok, IfErr, encode_utf8_all};
ghost use Rattle.markup.specs.declared.serializer.SerializeFault.TheVariants.{Memory};
ghost use Rattle.std.specs.Str.{chars};
ghost use Rattle.markup.specs.Trees.{end_of, entry_under, start_under, text_under};
ghost use Rattle.html_serialize.specs.KnownTags.{IsKnownAs};
ghost use Rattle.html_serialize.specs.Puts.{told_by};
ghost use Rattle.html_serialize.specs.Serializing.{Does, Takes, map_ok, top_of, with_parent, without_last};

use crate::entries::{ElemInfo, Entries};
use crate::escape::{Escaping, put_escaped};
use crate::names::{end_tag, entry_under};
use crate::put::{put, put_three};
use crate::tags::put_start_tag;
use markup::devices::Target;
use markup::{Attribute, KnownName, QualName, SerializeFault};

/// The entry around what comes next, made where there is none and one may be made.
fn parent(stack: &mut Entries, creates: bool) -> Result<ElemInfo, SerializeFault>
    ensures { Takes (with_parent creates stack.old) stack.old result stack.new }
{
    match stack.last() {
        Some(top) => Ok(top),
        None => {
            if !creates {
                return Err(SerializeFault::NoParent);
            }
            stack.push(ElemInfo::none())?;
            Ok(ElemInfo::none())
        }
    }
}

/// The entry around an element that begins; the element's own is then the last one.
fn open(
    stack: &mut Entries,
    creates: bool,
    scripting: bool,
    name: &QualName,
    known: Option<KnownName>,
) -> Result<ElemInfo, SerializeFault>
    requires { IsKnownAs name.now.local known }
    ensures { Takes (map_ok (λ stack. entry_under scripting (top_of stack) name.now ∷ stack)
        (with_parent creates stack.old)) stack.old result stack.new }
{
    let under = parent(stack, creates)?;
    stack.push(entry_under(scripting, under, name, known))?;
    Ok(under)
}

/// The entry of the element that ends.
fn close(stack: &mut Entries, creates: bool) -> Result<ElemInfo, SerializeFault>
    ensures takes { Takes (without_last creates stack.old) stack.old result stack.new }
    ensures no_memory { IfErr result (λ fault. fault ≢ Memory) }
{
    match stack.pop() {
        Some(own) => Ok(own),
        None => {
            if creates {
                Ok(ElemInfo::none())
            } else {
                Err(SerializeFault::NoElemInfo)
            }
        }
    }
}

/// An element begins.
pub(crate) fn start_elem<Wr: Target>(
    writer: &mut Wr,
    stack: &mut Entries,
    creates: bool,
    scripting: bool,
    name: &QualName,
    attrs: &[Attribute],
) -> Result<(), SerializeFault>
    ensures does { Does (map_ok (λ stack. entry_under scripting (top_of stack) name.now ∷ stack)
        (with_parent creates stack.old)) (encode_utf8_all (start_under (top_of stack.old) name.now attrs.now))
        stack.old (told_by Wr.written Wr.failures writer.old) result stack.new (told_by Wr.written Wr.failures writer.new) }
    ensures same_references { Wr.references writer.new ≡ Wr.references writer.old }
{
    let known = name.local.known();
    let under = open(stack, creates, scripting, name, known)?;
    if under.ignore_children {
        return Ok(());
    }
    put_start_tag(writer, name, known, attrs)
}

/// An element ends.
pub(crate) fn end_elem<Wr: Target>(
    writer: &mut Wr,
    stack: &mut Entries,
    creates: bool,
    name: &QualName,
) -> Result<(), SerializeFault>
    ensures does { Does (without_last creates stack.old) (encode_utf8_all (end_of (top_of stack.old) name.now))
        stack.old (told_by Wr.written Wr.failures writer.old) result stack.new (told_by Wr.written Wr.failures writer.new) }
    ensures no_memory { IfErr result (λ fault. fault ≢ Memory) }
    ensures same_references { Wr.references writer.new ≡ Wr.references writer.old }
{
    let own = close(stack, creates)?;
    if own.ignore_children {
        return Ok(());
    }
    match name.local.known() {
        Some(known) => put(writer, end_tag(known).as_bytes()),
        None => put_three(writer, "</", name.local.as_str(), ">"),
    }
}

/// A text.
pub(crate) fn write_text<Wr: Target>(
    writer: &mut Wr,
    stack: &mut Entries,
    creates: bool,
    text: &str,
) -> Result<(), SerializeFault>
    ensures does { Does (with_parent creates stack.old)
        (encode_utf8_all (text_under (top_of stack.old) (chars text.now))) stack.old
        (told_by Wr.written Wr.failures writer.old) result stack.new (told_by Wr.written Wr.failures writer.new) }
    ensures same_references { Wr.references writer.new ≡ Wr.references writer.old }
{
    let under = parent(stack, creates)?;
    if under.raw_text {
        put(writer, text.as_bytes())
    } else {
        put_escaped(writer, text, Escaping::Text)
    }
}
