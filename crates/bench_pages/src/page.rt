//! A forest of a page.

use html_forest::Forest;
use markup::{
    Attribute, Attributes, ElementFlags, KnownNamespace, LocalName, Namespace, NodeOrText,
    ParseFault, QualName, Text, TreeSink, is_html_name,
};
use std::alloc::Global;

/// A name in a namespace.
fn name(alloc: Global, ns: KnownNamespace, local: &str) -> Result<QualName, ParseFault> {
    Ok(QualName::new(
        None,
        Namespace::from_known(ns),
        LocalName::from_str(alloc, local)?,
    ))
}

/// Attributes with one of them.
fn attributes(alloc: Global, local: &str, value: &str) -> Result<Attributes, ParseFault> {
    let mut made = Attributes::new(alloc);
    made.push(Attribute {
        name: name(alloc, KnownNamespace::NoNamespace, local)?,
        value: Text::from_str(alloc, value)?,
    })?;
    Ok(made)
}

/// Puts an element with a text last into the document.
fn add_element(
    alloc: Global,
    forest: &mut Forest,
    local: &str,
    value: &str,
    text: &str,
) -> Result<(), ParseFault> {
    let name = name(alloc, KnownNamespace::Html, local)?;
    let attributes = attributes(alloc, "title", value)?;
    let text = Text::from_str(alloc, text)?;
    if is_html_name(&name, "template") {
        return Ok(());
    }
    let flags = ElementFlags {
        template: false,
        mathml_annotation_xml_integration_point: false,
        had_duplicate_attributes: false,
    };
    let _before = forest.get_document();
    let element = forest.create_element(name, attributes, flags)?;
    let document = forest.get_document();
    forest.append(&document, NodeOrText::AppendNode(element))?;
    forest.append(&element, NodeOrText::AppendText(text))
}

/// A page of elements with a title and a text each, so many.
pub fn page_of(alloc: Global, count: usize, text: &str) -> Result<Forest, ParseFault> {
    let mut forest = Forest::new(alloc)?;
    for _ in 0..count {
        add_element(alloc, &mut forest, "p", "one & two", text)?;
    }
    Ok(forest)
}
