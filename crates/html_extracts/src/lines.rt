//! The lines of nodes.
ghost use Rattle.std.specs.Prelude.{◌≡◌, ◌++◌, [], IfErr, IfOk, OnOk, codes, encode_utf8_all};
ghost use Rattle.std.specs.Str.{chars};
ghost use Rattle.markup.specs.declared.serializer.SerializeFault.TheVariants.{Memory};
ghost use Rattle.html_extracts.specs.Lines as spec;
ghost use Rattle.html_extracts.specs.Lines.{content_line, element_lines, identifiers, line, row_lines, rows_from};

use markup::{Attribute, KnownNamespace, QualName, SerializeFault, Text};
use std::alloc::Global;
use std::collections::BTreeMap;

// Adds a line: a text between others, moved in.
pub(crate) fn push_line(
    lines: &mut Vec<u8>,
    indent: &[u8],
    before: &str,
    text: &str,
    after: &str,
) -> Result<(), SerializeFault>
    ensures ok { OnOk result (lines.new.items ≡ lines.old.items ++ line indent.now (before.now ++ text.now ++ after.now)) }
    ensures fault { IfErr result (λ fault. fault ≡ Memory) }
{
    lines.extend_from_slice(b"| ")?;
    lines.extend_from_slice(indent)?;
    lines.extend_from_slice(before.as_bytes())?;
    lines.extend_from_slice(text.as_bytes())?;
    lines.extend_from_slice(after.as_bytes())?;
    lines.push(b'\n')?;
    Ok(())
}

// The word before a name, by its namespace.
fn word_of(known: Option<KnownNamespace>) -> &'static str
    ensures { result.now ≡ spec.word_of known }
{
    match known {
        Some(KnownNamespace::Svg) => "svg ",
        Some(KnownNamespace::MathMl) => "math ",
        Some(KnownNamespace::XLink) => "xlink ",
        Some(KnownNamespace::Xml) => "xml ",
        Some(KnownNamespace::Xmlns) => "xmlns ",
        Some(KnownNamespace::Html) | Some(KnownNamespace::NoNamespace) | None => "",
    }
}

// A name after the word of its namespace.
fn shown_name(alloc: Global, name: &QualName) -> Result<Text, SerializeFault>
    ensures ok { IfOk result (λ shown. shown ≡ spec.shown_name name.now) }
    ensures fault { IfErr result (λ fault. fault ≡ Memory) }
{
    let Ok(mut shown) = Text::from_str(alloc, word_of(name.ns.known())) else {
        return Err(SerializeFault::Memory);
    };
    let Ok(()) = shown.push_str(name.local.as_str()) else {
        return Err(SerializeFault::Memory);
    };
    Ok(shown)
}

// A text of its own.
fn copy_of(alloc: Global, text: &Text) -> Result<Text, SerializeFault>
    ensures ok { IfOk result (λ copied. copied ≡ text.now) }
    ensures fault { IfErr result (λ fault. fault ≡ Memory) }
{
    match text.copy(alloc) {
        Ok(copied) => Ok(copied),
        Err(_) => Err(SerializeFault::Memory),
    }
}

// The names and values of attributes, in the order of the names.
fn rows_of(alloc: Global, attrs: &[Attribute]) -> Result<BTreeMap<Text, Text>, SerializeFault>
    ensures ok { IfOk result (λ rows. rows.entries ≡ rows_from [] attrs.now) }
    ensures fault { IfErr result (λ fault. fault ≡ Memory) }
{
    let mut rows = BTreeMap::new(alloc);
    for attribute in attrs {
        let name = shown_name(alloc, &attribute.name)?;
        let value = copy_of(alloc, &attribute.value)?;
        rows.insert(name, value)?;
    }
    Ok(rows)
}

// Adds the line of a name with its value.
fn push_row(
    lines: &mut Vec<u8>,
    indent: &[u8],
    name: &str,
    value: &str,
) -> Result<(), SerializeFault>
    ensures ok { OnOk result (lines.new.items ≡ lines.old.items ++ line indent.now (name.now ++ codes "=\"" ++ value.now ++ codes "\"")) }
    ensures fault { IfErr result (λ fault. fault ≡ Memory) }
{
    lines.extend_from_slice(b"| ")?;
    lines.extend_from_slice(indent)?;
    lines.extend_from_slice(name.as_bytes())?;
    lines.extend_from_slice(b"=\"")?;
    lines.extend_from_slice(value.as_bytes())?;
    lines.extend_from_slice(b"\"\n")?;
    Ok(())
}

// Adds the lines of attributes.
fn push_rows(
    lines: &mut Vec<u8>,
    indent: &[u8],
    rows: &BTreeMap<Text, Text>,
) -> Result<(), SerializeFault>
    ensures ok { OnOk result (lines.new.items ≡ lines.old.items ++ row_lines indent.now rows.now.entries) }
    ensures fault { IfErr result (λ fault. fault ≡ Memory) }
{
    for (name, value) in rows.iter() {
        push_row(lines, indent, name.as_str(), value.as_str())?;
    }
    Ok(())
}

// Whether an element of that name is a template.
fn is_template(name: &QualName) -> bool
    ensures { result ≡ spec.is_template name.now }
{
    name.ns.is_known(KnownNamespace::Html) && name.local.as_str() == "template"
}

// How much further what stands in an element is moved in.
pub(crate) fn inside(name: &QualName) -> &'static [u8]
    ensures { result.now ≡ spec.inside name.now }
{
    if is_template(name) { b"    " } else { b"  " }
}

// Adds the line of an element's name.
fn push_name(
    alloc: Global,
    lines: &mut Vec<u8>,
    indent: &[u8],
    name: &QualName,
) -> Result<(), SerializeFault>
    ensures ok { OnOk result (lines.new.items ≡ lines.old.items
        ++ line indent.now (codes "<" ++ encode_utf8_all (spec.shown_name name.now) ++ codes ">")) }
    ensures fault { IfErr result (λ fault. fault ≡ Memory) }
{
    let shown = shown_name(alloc, name)?;
    push_line(lines, indent, "<", shown.as_str(), ">")
}

// Adds the line after which what is in a template follows.
#[tactic(auto, unfolding(crate::specs::Lines::content_line))]
fn push_content(lines: &mut Vec<u8>, indent: &[u8], name: &QualName) -> Result<(), SerializeFault>
    ensures ok { OnOk result (lines.new.items ≡ lines.old.items ++ content_line indent.now name.now) }
    ensures fault { IfErr result (λ fault. fault ≡ Memory) }
{
    if !is_template(name) {
        return Ok(());
    }
    lines.extend_from_slice(b"| ")?;
    lines.extend_from_slice(indent)?;
    lines.extend_from_slice(b"content\n")?;
    Ok(())
}

// Adds the lines of what an element has, moved in further than itself.
fn push_inside(
    alloc: Global,
    lines: &mut Vec<u8>,
    indent: &[u8],
    name: &QualName,
    attrs: &[Attribute],
) -> Result<(), SerializeFault>
    ensures ok { OnOk result (lines.new.items ≡ lines.old.items
        ++ (row_lines indent.now (rows_from [] attrs.now) ++ content_line indent.now name.now)) }
    ensures fault { IfErr result (λ fault. fault ≡ Memory) }
{
    let rows = rows_of(alloc, attrs)?;
    push_rows(lines, indent, &rows)?;
    push_content(lines, indent, name)
}

// Adds the lines of an element that begins.
pub(crate) fn push_element(
    alloc: Global,
    lines: &mut Vec<u8>,
    indent: &[u8],
    name: &QualName,
    attrs: &[Attribute],
) -> Result<(), SerializeFault>
    ensures ok { OnOk result (lines.new.items ≡ lines.old.items ++ element_lines indent.now name.now attrs.now) }
    ensures fault { IfErr result (λ fault. fault ≡ Memory) }
{
    push_name(alloc, lines, indent, name)?;
    let mut further = Vec::from_slice(alloc, indent)?;
    further.extend_from_slice(b"  ")?;
    push_inside(alloc, lines, further.as_slice(), name, attrs)
}

// Adds the line of a processing instruction.
pub(crate) fn push_instruction(
    lines: &mut Vec<u8>,
    indent: &[u8],
    target: &str,
    text: &str,
) -> Result<(), SerializeFault>
    ensures ok { OnOk result (lines.new.items ≡ lines.old.items
        ++ line indent.now (codes "<?" ++ target.now ++ codes " " ++ text.now ++ codes ">")) }
    ensures fault { IfErr result (λ fault. fault ≡ Memory) }
{
    lines.extend_from_slice(b"| ")?;
    lines.extend_from_slice(indent)?;
    lines.extend_from_slice(b"<?")?;
    lines.extend_from_slice(target.as_bytes())?;
    lines.extend_from_slice(b" ")?;
    lines.extend_from_slice(text.as_bytes())?;
    lines.extend_from_slice(b">\n")?;
    Ok(())
}

// Adds the identifiers of a doctype, if it has one.
#[tactic(auto, unfolding(crate::specs::Lines::identifiers))]
fn push_identifiers(
    line: &mut Vec<u8>,
    public_id: &str,
    system_id: &str,
) -> Result<(), SerializeFault>
    ensures ok { OnOk result (line.new.items ≡ line.old.items ++ identifiers public_id.now system_id.now) }
    ensures fault { IfErr result (λ fault. fault ≡ Memory) }
{
    if public_id.is_empty() && system_id.is_empty() {
        return Ok(());
    }
    line.extend_from_slice(b" \"")?;
    line.extend_from_slice(public_id.as_bytes())?;
    line.extend_from_slice(b"\" \"")?;
    line.extend_from_slice(system_id.as_bytes())?;
    line.extend_from_slice(b"\"")?;
    Ok(())
}

// Adds the line of a doctype.
pub(crate) fn push_doctype(
    lines: &mut Vec<u8>,
    name: &str,
    public_id: &str,
    system_id: &str,
) -> Result<(), SerializeFault>
    ensures ok { OnOk result (lines.new.items ≡ lines.old.items ++ spec.doctype_line name.now public_id.now system_id.now) }
    ensures fault { IfErr result (λ fault. fault ≡ Memory) }
{
    lines.extend_from_slice(b"| <!DOCTYPE ")?;
    lines.extend_from_slice(name.as_bytes())?;
    push_identifiers(lines, public_id, system_id)?;
    lines.extend_from_slice(b">\n")?;
    Ok(())
}
