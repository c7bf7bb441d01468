//! Nodes in an image.
ghost use Rattle.std.specs.Prelude.{◌≡◌, ◌+◌, ◌*◌, ◌∷◌, ◌++◌, [], None, IfOk, OnOk, encode_utf8_all, length};
ghost use Rattle.std.specs.Str.{chars};
ghost use Rattle.markup.specs.Forest.{contents_of, data_of};
ghost use Rattle.markup.specs.Forest.NodeData.{Doctype, ProcessingInstruction, Text};
ghost use Rattle.html_forest.specs.Views.{contents_in, data_view};
ghost use Rattle.html_tree_image.specs.Image;
ghost use Rattle.html_tree_image.specs.Image.{all_attribute_texts, attribute_records, attributes_of, extents, kind_number, links};
ghost use Rattle.html_tree_image.specs.Image.{namespace_number, node_attributes, node_record, node_texts, nodes_of, point_number};
ghost use Rattle.html_tree_image.specs.Image.{texts_of, words};

use crate::attributes::{push_attributes, push_text};
use crate::words::{link, number_of, push_words};
use html_forest::{Forest, NodeData, NodeId};
use markup::{Attribute, Namespace};
use std::alloc::{AllocError, Global};

/// The parts of an image after its header.
#[derive(Drop)]
pub(crate) struct Parts {
    /// The records of the nodes.
    pub nodes: Vec<u8>,
    /// The records of the attributes.
    pub attributes: Vec<u8>,
    /// The texts.
    pub texts: Vec<u8>,
}

// What a node is.
fn kind(about: &NodeData<'_>) -> usize
    ensures { result ≡ kind_number (data_view about.now) }
{
    match about {
        NodeData::Document => 9,
        NodeData::Contents => 11,
        NodeData::Doctype { .. } => 10,
        NodeData::Text(_) => 3,
        NodeData::Comment(_) => 8,
        NodeData::ProcessingInstruction { .. } => 7,
        NodeData::Element {
            name,
            integration_point,
            ..
        } => element_kind(&name.ns, *integration_point),
    }
}

// What a node is that is an element.
fn element_kind(namespace: &Namespace, integration_point: bool) -> usize
    ensures { result ≡ 1 + (256 * namespace_number namespace.now + point_number integration_point) }
{
    let point = if integration_point { 65536 } else { 0 };
    1 + (256 * number_of(namespace) + point)
}

// Adds what a node is, and its neighbours.
fn push_links(
    nodes: &mut Vec<u8>,
    forest: &Forest,
    id: NodeId,
    about: &NodeData<'_>,
) -> Result<(), AllocError>
    ensures { OnOk result (nodes.new.items ≡ nodes.old.items ++ words (kind_number (data_view about.now) ∷ links forest.now id)) }
{
    let numbers = [
        kind(about),
        link(forest.parent(id)),
        link(forest.first_child(id)),
        link(forest.last_child(id)),
        link(forest.previous_sibling(id)),
        link(forest.next_sibling(id)),
    ];
    push_words(nodes, &numbers)?;
    Ok(())
}

// Adds what a text or a comment has.
fn push_characters(parts: &mut Parts, text: &str) -> Result<(), AllocError>
    ensures nodes { OnOk result (parts.new.nodes.items ≡ parts.old.nodes.items
        ++ words (extents (length parts.old.texts.items) (length parts.old.attributes.items) None (Text (chars text.now)))) }
    ensures attributes { OnOk result (parts.new.attributes.items ≡ parts.old.attributes.items) }
    ensures texts { OnOk result (parts.new.texts.items ≡ parts.old.texts.items ++ node_texts (Text (chars text.now))) }
{
    let at = parts.texts.len();
    let length = push_text(&mut parts.texts, text)?;
    push_words(&mut parts.nodes, &[at, length, 0, 0, 0, 0])?;
    Ok(())
}

// Adds what a doctype has.
fn push_doctype(
    parts: &mut Parts,
    name: &str,
    public_id: &str,
    system_id: &str,
) -> Result<(), AllocError>
    ensures nodes { OnOk result (parts.new.nodes.items ≡ parts.old.nodes.items
        ++ words (extents (length parts.old.texts.items) (length parts.old.attributes.items) None
        (Doctype (chars name.now) (chars public_id.now) (chars system_id.now)))) }
    ensures attributes { OnOk result (parts.new.attributes.items ≡ parts.old.attributes.items) }
    ensures texts { OnOk result (parts.new.texts.items ≡ parts.old.texts.items
        ++ node_texts (Doctype (chars name.now) (chars public_id.now) (chars system_id.now))) }
{
    let at = parts.texts.len();
    let length = push_text(&mut parts.texts, name)?;
    let second_at = parts.texts.len();
    let second = push_text(&mut parts.texts, public_id)?;
    let third_at = parts.texts.len();
    let third = push_text(&mut parts.texts, system_id)?;
    push_words(
        &mut parts.nodes,
        &[at, length, second_at, second, third_at, third],
    )?;
    Ok(())
}

// Adds what a processing instruction has.
fn push_instruction(parts: &mut Parts, target: &str, text: &str) -> Result<(), AllocError>
    ensures nodes { OnOk result (parts.new.nodes.items ≡ parts.old.nodes.items
        ++ words (extents (length parts.old.texts.items) (length parts.old.attributes.items) None
        (ProcessingInstruction (chars target.now) (chars text.now)))) }
    ensures attributes { OnOk result (parts.new.attributes.items ≡ parts.old.attributes.items) }
    ensures texts { OnOk result (parts.new.texts.items ≡ parts.old.texts.items
        ++ node_texts (ProcessingInstruction (chars target.now) (chars text.now))) }
{
    let at = parts.texts.len();
    let length = push_text(&mut parts.texts, target)?;
    let second_at = parts.texts.len();
    let second = push_text(&mut parts.texts, text)?;
    push_words(&mut parts.nodes, &[at, length, second_at, second, 0, 0])?;
    Ok(())
}

// Adds what an element has.
fn push_element(
    parts: &mut Parts,
    local: &str,
    attributes: &[Attribute],
    contents: Option<NodeId>,
) -> Result<(), AllocError>
    ensures nodes { OnOk result (parts.new.nodes.items ≡ parts.old.nodes.items
        ++ words (length parts.old.texts.items ∷ length (encode_utf8_all (chars local.now)) ∷ length parts.old.attributes.items
        ∷ length attributes.now ∷ Image.link contents ∷ 0 ∷ [])) }
    ensures attributes { OnOk result (parts.new.attributes.items ≡ parts.old.attributes.items
        ++ attribute_records (length parts.old.texts.items + length (encode_utf8_all (chars local.now))) attributes.now) }
    ensures texts { OnOk result (parts.new.texts.items ≡ parts.old.texts.items
        ++ (encode_utf8_all (chars local.now) ++ all_attribute_texts attributes.now)) }
{
    let at = parts.texts.len();
    let first = parts.attributes.len();
    let length = push_text(&mut parts.texts, local)?;
    push_attributes(&mut parts.attributes, &mut parts.texts, attributes)?;
    push_words(
        &mut parts.nodes,
        &[at, length, first, attributes.len(), link(contents), 0],
    )?;
    Ok(())
}

// Adds what a node has.
fn push_data(parts: &mut Parts, about: &NodeData<'_>) -> Result<(), AllocError>
    ensures nodes { OnOk result (parts.new.nodes.items ≡ parts.old.nodes.items
        ++ words (extents (length parts.old.texts.items) (length parts.old.attributes.items) (contents_in about.now)
        (data_view about.now))) }
    ensures attributes { OnOk result (parts.new.attributes.items ≡ parts.old.attributes.items
        ++ node_attributes (length parts.old.texts.items) (data_view about.now)) }
    ensures texts { OnOk result (parts.new.texts.items ≡ parts.old.texts.items ++ node_texts (data_view about.now)) }
{
    match about {
        NodeData::Document | NodeData::Contents => push_words(&mut parts.nodes, &[0; 6]),
        NodeData::Doctype {
            name,
            public_id,
            system_id,
        } => push_doctype(parts, name.as_str(), public_id.as_str(), system_id.as_str()),
        NodeData::Text(text) | NodeData::Comment(text) => push_characters(parts, text.as_str()),
        NodeData::ProcessingInstruction { target, text } => {
            push_instruction(parts, target.as_str(), text.as_str())
        }
        NodeData::Element {
            name,
            attrs,
            template_contents,
            ..
        } => push_element(
            parts,
            name.local.as_str(),
            attrs.as_slice(),
            *template_contents,
        ),
    }
}

// Adds a node.
fn push_node(
    parts: &mut Parts,
    forest: &Forest,
    id: NodeId,
    about: &NodeData<'_>,
) -> Result<(), AllocError>
    requires about { data_view about.now ≡ data_of forest.now id }
    requires contents { contents_in about.now ≡ contents_of forest.now id }
    ensures nodes { OnOk result (parts.new.nodes.items ≡ parts.old.nodes.items
        ++ node_record forest.now id (length parts.old.texts.items) (length parts.old.attributes.items)) }
    ensures attributes { OnOk result (parts.new.attributes.items ≡ parts.old.attributes.items
        ++ node_attributes (length parts.old.texts.items) (data_of forest.now id)) }
    ensures texts { OnOk result (parts.new.texts.items ≡ parts.old.texts.items ++ node_texts (data_of forest.now id)) }
{
    push_links(&mut parts.nodes, forest, id, about)?;
    push_data(parts, about)
}

/// The parts of a forest's image.
pub(crate) fn parts_of(alloc: Global, forest: &Forest) -> Result<Parts, AllocError>
    ensures nodes { IfOk result (λ parts. parts.nodes.items ≡ nodes_of forest.now) }
    ensures attributes { IfOk result (λ parts. parts.attributes.items ≡ attributes_of forest.now) }
    ensures texts { IfOk result (λ parts. parts.texts.items ≡ texts_of forest.now) }
{
    forest.keeps();
    let mut parts = Parts {
        nodes: Vec::new(alloc),
        attributes: Vec::new(alloc),
        texts: Vec::new(alloc),
    };
    let mut number = 0;
    'nodes: while let Some(about) = forest.node(NodeId::new(number)) {
        push_node(&mut parts, forest, NodeId::new(number), &about)?;
        number += 1;
    }
    Ok(parts)
}
