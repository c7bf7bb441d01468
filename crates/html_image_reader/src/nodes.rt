//! Nodes from an image.
ghost use Rattle.std.specs.Prelude.{◌<◌};

use crate::attributes::{attributes, namespace_of};
use crate::parts::{Front, Parts};
use crate::read::ReadFault;
use html_forest::{Forest, NodeId};
use markup::{ElementFlags, LocalName, NodeOrText, QualName, Text, TreeSink, is_html_name};
use std::alloc::Global;

/// The node that was made last and put into the document is taken out of it.
fn take_out(forest: &mut Forest, number: usize) -> Result<(), ReadFault> {
    let id = NodeId::new(number);
    if forest.node(id).is_none() {
        return Err(ReadFault::NotAnImage);
    }
    forest.remove_from_parent(&id);
    Ok(())
}

/// Makes the text node of a number. The document has no children yet, so the text joins none.
fn add_text(forest: &mut Forest, number: usize, text: Text) -> Result<(), ReadFault> {
    let document = forest.get_document();
    forest.append(&document, NodeOrText::AppendText(text))?;
    take_out(forest, number)
}

/// Makes an element, and the node of a template's contents.
fn add_element(
    alloc: Global,
    parts: Parts<'_>,
    front: &mut Front,
    forest: &mut Forest,
    number: usize,
) -> Result<(), ReadFault> {
    let kind = parts.word(number, 0);
    let local = parts.text(front, parts.word(number, 6), parts.word(number, 7))?;
    let local = LocalName::from_str(alloc, local)?;
    let name = QualName::new(None, namespace_of(kind / 256 % 256)?, local);
    let attributes = attributes(
        alloc,
        parts,
        front,
        parts.word(number, 8),
        parts.word(number, 9),
    )?;
    let flags = ElementFlags {
        template: is_html_name(&name, "template"),
        mathml_annotation_xml_integration_point: kind / 65536 == 1,
        had_duplicate_attributes: false,
    };
    forest.create_element(name, attributes, flags)?;
    Ok(())
}

/// A text of a node, by the words of its record that say where it is and its length.
fn text(
    alloc: Global,
    parts: Parts<'_>,
    front: &mut Front,
    number: usize,
    k: usize,
) -> Result<Text, ReadFault>
    requires { k < 11 }
{
    let text = parts.text(front, parts.word(number, k), parts.word(number, k + 1))?;
    Ok(Text::from_str(alloc, text)?)
}

/// Makes the node of a number, which stands nowhere yet.
fn add_node(
    alloc: Global,
    parts: Parts<'_>,
    front: &mut Front,
    forest: &mut Forest,
    number: usize,
) -> Result<(), ReadFault> {
    match parts.word(number, 0) % 256 {
        1 => add_element(alloc, parts, front, forest, number),
        3 => {
            let text = text(alloc, parts, front, number, 6)?;
            add_text(forest, number, text)
        }
        7 => {
            let target = text(alloc, parts, front, number, 6)?;
            let text = text(alloc, parts, front, number, 8)?;
            forest.create_pi(target, text)?;
            Ok(())
        }
        8 => {
            let text = text(alloc, parts, front, number, 6)?;
            forest.create_comment(text)?;
            Ok(())
        }
        10 => {
            let name = text(alloc, parts, front, number, 6)?;
            let public_id = text(alloc, parts, front, number, 8)?;
            let system_id = text(alloc, parts, front, number, 10)?;
            forest.append_doctype_to_document(name, public_id, system_id)?;
            take_out(forest, number)
        }
        _ => Err(ReadFault::NotAnImage),
    }
}

/// Makes all nodes. The document is there from the start, and the contents of a template are made with it.
pub(crate) fn add_nodes(
    alloc: Global,
    parts: Parts<'_>,
    forest: &mut Forest,
) -> Result<(), ReadFault> {
    let mut front = Front::default();
    for number in 0..parts.nodes.len() / 48 {
        if forest.node(NodeId::new(number)).is_none() {
            add_node(alloc, parts, &mut front, forest, number)?;
        }
    }
    Ok(())
}
