//! What is printed of the elements that selectors select.
ghost use Rattle.std.specs.Prelude.{◌≡◌, ◌++◌, ◌==◌, IfErr, IfOk, OnOk, Some, codes, length, not};
ghost use Rattle.std.specs.List.{flat_map};
ghost use Rattle.std.specs.Str.{chars};
ghost use Rattle.std.specs.String.{string_bytes};
ghost use Rattle.markup.specs.Forest.{data_of, element_name};
ghost use Rattle.html_serialize.specs.Puts.{told_by};
ghost use Rattle.html_serialize.specs.Serializing.{Writes};
ghost use Rattle.markup.specs.declared.serializer.SerializeFault.TheVariants.{Memory};
ghost use Rattle.html_listings.specs.Selected.{count_line, element_text, elements_text, html_of, json_element, json_name, selected_in};
ghost use Rattle.html_listings.specs.Selected.{line_if, selected_text};
ghost use Rattle.html_listings.specs.declared.selected.Show.TheVariants.{Html};

use crate::json::{push_member, push_string};
use crate::writing::{prefix_of, put};
use devices::{Target, VecWriter};
use html_forest::{Forest, ForestNode, NodeId};
use html_nodes::{attribute_of, element_name, text_content};
use html_selectors::select_all;
use html_serialize::{SerializeOpts, serialize};
use markup::{SerializeFault, TraversalScope};
use selectors::Selectors;
use std::alloc::{AllocError, Global};

/// What is printed of each element.
#[derive(Drop)]
pub enum Show {
    /// Its HTML.
    Html,
    /// The text in it.
    Text,
    /// The value of its attribute of this name, if it has one.
    Attribute(String),
    /// Nothing, but how many there are.
    Count,
    /// A line of JSON.
    Json,
}

/// Writes the HTML of a node.
#[tactic(auto, unfolding(crate::specs::Selected::html_of))]
fn put_html<W: Target>(
    alloc: Global,
    forest: &Forest,
    id: NodeId,
    writer: &mut W,
) -> Result<(), SerializeFault>
    ensures { Writes (html_of forest.now id) (told_by W.written W.failures writer.old) result (told_by W.written W.failures writer.new) }
{
    let opts = SerializeOpts {
        scripting_enabled: true,
        traversal_scope: TraversalScope::IncludeNode,
        create_missing_parent: false,
    };
    serialize(alloc, writer, &ForestNode { forest, id }, opts)
}

/// Writes the HTML of a node, and a line feed.
fn put_html_line<W: Target>(
    alloc: Global,
    forest: &Forest,
    id: NodeId,
    writer: &mut W,
) -> Result<(), SerializeFault>
    ensures { Writes (html_of forest.now id ++ codes "\n") (told_by W.written W.failures writer.old) result
        (told_by W.written W.failures writer.new) }
{
    put_html(alloc, forest, id, writer)?;
    put(writer, "\n")
}

/// Writes the HTML of a node, and a line feed, after the name of the file.
fn put_html_after<W: Target>(
    alloc: Global,
    forest: &Forest,
    prefix: &str,
    id: NodeId,
    writer: &mut W,
) -> Result<(), SerializeFault>
    ensures { Writes (prefix.now ++ (html_of forest.now id ++ codes "\n")) (told_by W.written W.failures writer.old) result
        (told_by W.written W.failures writer.new) }
{
    put(writer, prefix)?;
    put_html_line(alloc, forest, id, writer)
}

/// The HTML of a node, in memory.
fn html_of(alloc: Global, forest: &Forest, id: NodeId) -> Result<String, SerializeFault>
    ensures ok { IfOk result (λ html. string_bytes html ≡ html_of forest.now id) }
    ensures fault { IfErr result (λ fault. fault ≡ Memory) }
{
    let mut written = VecWriter::new(alloc);
    if put_html(alloc, forest, id, &mut written).is_err() {
        return Err(SerializeFault::Memory);
    }
    match String::from_utf8(written.into_bytes()) {
        Ok(html) => Ok(html),
        Err(_) => Err(SerializeFault::Memory),
    }
}

/// Adds the name of an element in JSON.
fn push_name(forest: &Forest, id: NodeId, line: &mut String) -> Result<(), AllocError>
    ensures { OnOk result (string_bytes line.new ≡ string_bytes line.old ++ json_name (element_name (data_of forest.now id))) }
{
    match element_name(forest, id) {
        Some(name) => push_string(line, name.local.as_str()),
        None => line.push_str("null"),
    }
}

/// Adds an element as a line of JSON: the file, the name of the element, and its HTML.
#[tactic(auto, unfolding(crate::specs::Selected::json_element))]
fn push_json(
    alloc: Global,
    forest: &Forest,
    file: &str,
    id: NodeId,
    line: &mut String,
) -> Result<(), SerializeFault>
    ensures ok { OnOk result (string_bytes line.new ≡ string_bytes line.old ++ json_element forest.now file.now id) }
    ensures fault { IfErr result (λ fault. fault ≡ Memory) }
{
    let html = html_of(alloc, forest, id)?;
    push_member(line, "{\"file\":", file)?;
    line.push_str(",\"name\":")?;
    push_name(forest, id, line)?;
    push_member(line, ",\"html\":", html.as_str())?;
    line.push_str("}\n")?;
    Ok(())
}

/// Adds a line after the name of the file.
fn push_after(prefix: &str, text: &str, line: &mut String) -> Result<(), AllocError>
    ensures { OnOk result (string_bytes line.new ≡ string_bytes line.old ++ (prefix.now ++ (text.now ++ codes "\n"))) }
{
    line.push_str(prefix)?;
    line.push_str(text)?;
    line.push_str("\n")
}

/// Adds the line of a value.
fn push_value(prefix: &str, value: &str, line: &mut String) -> Result<(), AllocError>
    ensures { OnOk result (string_bytes line.new ≡ string_bytes line.old ++ line_if prefix.now (Some (chars value.now))) }
{
    push_after(prefix, value, line)
}

/// A page whose elements are printed.
#[derive(Drop)]
struct Page<'a> {
    forest: &'a Forest,
    file: &'a str,
    // What stands before each line.
    prefix: String,
}

/// Adds what is printed of an element but its HTML; of an attribute that it lacks nothing.
#[tactic(auto, unfolding(crate::specs::Selected::element_text))]
fn push_element(
    alloc: Global,
    show: &Show,
    page: &Page<'_>,
    id: NodeId,
    line: &mut String,
) -> Result<(), SerializeFault>
    ensures ok { OnOk result ((show.now ≡ Html → ⊥) → string_bytes line.new ≡ string_bytes line.old
        ++ element_text show.now page.now.forest.now page.now.file.now (string_bytes page.now.prefix) id) }
    ensures fault { IfErr result (λ fault. fault ≡ Memory) }
{
    match show {
        Show::Text => {
            let Ok(text) = text_content(alloc, page.forest, id) else {
                return Err(SerializeFault::Memory);
            };
            push_value(page.prefix.as_str(), text.as_str(), line)?;
        }
        Show::Attribute(local) => {
            if let Some(value) = attribute_of(page.forest, id, local.as_str()) {
                push_value(page.prefix.as_str(), value, line)?;
            }
        }
        Show::Json => push_json(alloc, page.forest, page.file, id, line)?,
        Show::Html | Show::Count => {}
    }
    Ok(())
}

/// Writes what is printed of an element; `line` is room for it.
#[tactic(auto, unfolding(crate::specs::Selected::element_text))]
fn put_element<W: Target>(
    alloc: Global,
    show: &Show,
    page: &Page<'_>,
    id: NodeId,
    line: &mut String,
    writer: &mut W,
) -> Result<(), SerializeFault>
    ensures { Writes (element_text show.now page.now.forest.now page.now.file.now (string_bytes page.now.prefix) id)
        (told_by W.written W.failures writer.old) result (told_by W.written W.failures writer.new) }
{
    if let Show::Html = show {
        return put_html_after(alloc, page.forest, page.prefix.as_str(), id, writer);
    }
    line.clear();
    push_element(alloc, show, page, id, line)?;
    put(writer, line.as_str())
}

/// Writes what is printed of each of several elements.
fn put_elements<W: Target>(
    alloc: Global,
    show: &Show,
    page: &Page<'_>,
    found: &[NodeId],
    writer: &mut W,
) -> Result<(), SerializeFault>
    ensures { Writes (flat_map (element_text show.now page.now.forest.now page.now.file.now (string_bytes page.now.prefix)) found.now)
        (told_by W.written W.failures writer.old) result (told_by W.written W.failures writer.new) }
{
    let mut line = String::new(alloc);
    for id in found {
        put_element(alloc, show, page, *id, &mut line, writer)?;
    }
    Ok(())
}

/// Writes how many elements there are, where that is printed.
fn put_count<W: Target>(
    alloc: Global,
    show: &Show,
    prefix: &str,
    count: usize,
    writer: &mut W,
) -> Result<(), SerializeFault>
    ensures { Writes (count_line show.now prefix.now count) (told_by W.written W.failures writer.old) result
        (told_by W.written W.failures writer.new) }
{
    match show {
        Show::Count => {
            let line = format!(in alloc; "{prefix}{count}\n")?;
            put(writer, line.as_str())
        }
        _ => Ok(()),
    }
}

/// Writes what is printed of several elements of a page.
fn put_all<W: Target>(
    alloc: Global,
    show: &Show,
    page: &Page<'_>,
    found: &[NodeId],
    writer: &mut W,
) -> Result<(), SerializeFault>
    ensures { Writes (elements_text show.now page.now.forest.now page.now.file.now (string_bytes page.now.prefix) found.now)
        (told_by W.written W.failures writer.old) result (told_by W.written W.failures writer.new) }
{
    put_elements(alloc, show, page, found, writer)?;
    put_count(alloc, show, page.prefix.as_str(), found.len(), writer)
}

/// Writes what is asked for of the elements of a page that are selected, in tree order: a line for each, or how many they are. Where there
/// are several files, each line but of JSON begins with the name of the page's. Answers whether there are any.
///
/// Errors: [`SerializeFault::Write`] and [`SerializeFault::Memory`], after a beginning of the lines was written.
pub fn write_selected<W: Target>(
    alloc: Global,
    forest: &Forest,
    selectors: &Selectors,
    show: &Show,
    file: &str,
    has_several: bool,
    writer: &mut W,
) -> Result<bool, SerializeFault>
    ensures writes { Writes (selected_text show.now selectors.now forest.now file.now has_several) (told_by W.written W.failures writer.old)
        result (told_by W.written W.failures writer.new) }
    ensures any { IfOk result (λ any. any ≡ not (length (selected_in selectors.now forest.now) == 0)) }
{
    let Ok(found) = select_all(alloc, forest, forest.document(), selectors) else {
        return Err(SerializeFault::Memory);
    };
    let page = Page {
        forest,
        file,
        prefix: prefix_of(alloc, has_several, file)?,
    };
    put_all(alloc, show, &page, found.as_slice(), writer)?;
    Ok(!found.is_empty())
}
