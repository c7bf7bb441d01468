//! Worked rows, and a caller over any sink.
ghost use Rattle.std.specs.Prelude.{◌≡◌, IfOk};
ghost use Rattle.markup.specs.Forest.{node_count};

use crate::steps::{Step, attributes, built, name, text};
use html_forest::{Forest, NodeData, NodeId};
use markup::{
    Attribute, Attributes, ElementFlags, NodeOrText, ParseFault, QuirksMode, Text, TreeSink,
    is_html_name, namespaces,
};
use std::alloc::Global;

fn write_each(pieces: &[&str], out: &mut String) -> Result<(), ParseFault> {
    for piece in pieces {
        out.push_str(piece)?;
    }
    Ok(())
}

fn write_attributes(attributes: &[Attribute], out: &mut String) -> Result<(), ParseFault> {
    for attribute in attributes {
        let local = attribute.name.local.as_str();
        write_each(&[":", local, "=", attribute.value.as_str()], out)?;
    }
    Ok(())
}

// A node in a few characters: a text in quotes, an element by its name and its attributes.
fn write_node(about: &NodeData<'_>, out: &mut String) -> Result<(), ParseFault> {
    match about {
        NodeData::Text(words) => write_each(&["'", words.as_str(), "'"], out),
        NodeData::Element { name, attrs, .. } => {
            out.push_str(name.local.as_str())?;
            write_attributes(attrs.as_slice(), out)
        }
        _ => write_each(&["other"], out),
    }
}

pub(super) fn children(alloc: Global, forest: &Forest, id: NodeId) -> Result<String, ParseFault> {
    let mut out = String::new(alloc);
    for child in forest.children(id) {
        if !out.is_empty() {
            out.push_str(" ")?;
        }
        if let Some(about) = forest.node(child) {
            write_node(&about, &mut out)?;
        }
    }
    Ok(out)
}

// Whether the children of a node are these.
fn are_children(
    alloc: Global,
    forest: &Forest,
    id: NodeId,
    want: &str,
) -> Result<bool, ParseFault> {
    let found = children(alloc, forest, id)?;
    Ok(found.as_str() == want)
}

// Whether the children of a node are these after the steps.
fn are_built(alloc: Global, steps: &[Step], node: usize, want: &str) -> Result<bool, ParseFault> {
    let forest = built(alloc, steps)?;
    are_children(alloc, &forest, NodeId::new(node), want)
}

const JOINED: &[Step<'static>] = &[
    Step::Element("p"),
    Step::AppendText(1, "a"),
    Step::AppendText(1, "b"),
    Step::AppendText(1, ""),
];

const BEFORE_TEXT: &[Step<'static>] = &[
    Step::Element("p"),
    Step::AppendText(1, "c"),
    Step::BeforeText(2, "b"),
];

const AFTER_TEXT: &[Step<'static>] = &[
    Step::Element("p"),
    Step::AppendText(1, "a"),
    Step::Element("br"),
    Step::Append(1, 3),
    Step::BeforeText(3, "b"),
];

const MOVED: &[Step<'static>] = &[
    Step::Element("x"),
    Step::Element("y"),
    Step::AppendText(1, "a"),
    Step::AppendText(2, "b"),
    Step::Reparent(1, 2),
];

const NEAR: &[Step<'static>] = &[
    Step::Element("e"),
    Step::Element("p"),
    Step::NearText(1, 2, "t"),
];

const KEPT: &[Step<'static>] = &[
    Step::Element("p"),
    Step::Append(0, 1),
    Step::Append(1, 0),
    Step::Append(1, 1),
];

const TEMPLATE: &[Step<'static>] = &[Step::Element("template"), Step::AppendText(2, "t")];

// Steps, a node, and its children after them.
const ROWS: &[(&[Step<'static>], usize, &str)] = &[
    (JOINED, 1, "'ab'"),
    (BEFORE_TEXT, 1, "'b' 'c'"),
    (AFTER_TEXT, 1, "'ab' br"),
    (MOVED, 1, ""),
    (MOVED, 2, "'b' 'a'"),
    (NEAR, 2, "'t'"),
    (KEPT, 1, ""),
    (TEMPLATE, 1, ""),
    (TEMPLATE, 2, "'t'"),
];

#[test]
fn rows(rt: HostRuntime) {
    for &(steps, node, want) in ROWS {
        assert!(rt;
            are_built(rt.alloc(), steps, node, want) == Ok(true),
            "{want}"
        );
    }
}

// A paragraph with some words, last in the document of any sink.
fn paragraph<S: TreeSink>(
    alloc: Global,
    sink: &mut S,
    attributes: Attributes,
    words: Text,
) -> Result<S::Handle, ParseFault>
    ensures { IfOk result (λ made. S.node made ≡ node_count (S.forest sink.old)) }
{
    let document = sink.get_document();
    let name = name(alloc, namespaces::HTML, "p")?;
    let flags = ElementFlags {
        template: is_html_name(&name, "template"),
        ..ElementFlags::default()
    };
    let made = sink.create_element(name, attributes, flags)?;
    sink.append(&document, NodeOrText::AppendNode(made))?;
    sink.append(&made, NodeOrText::AppendText(words))?;
    Ok(made)
}

fn put_paragraph(alloc: Global, forest: &mut Forest) -> Result<NodeId, ParseFault> {
    let first = attributes(alloc, &[("x", "1")])?;
    paragraph(alloc, forest, first, text(alloc, "a")?)
}

// Gives the paragraph attributes that it has, that it lacks, and that it was just given.
fn add_more(alloc: Global, forest: &mut Forest, made: NodeId) -> Result<(), ParseFault> {
    let more = attributes(alloc, &[("x", "2"), ("y", "3"), ("y", "4")])?;
    if forest.node(made).is_some() {
        forest.add_attrs_if_missing(&made, more)?;
    }
    Ok(())
}

// Whether a paragraph stands in the document where it was put.
fn is_paragraph_put(alloc: Global, forest: &mut Forest) -> Result<bool, ParseFault> {
    let made = put_paragraph(alloc, forest)?;
    add_more(alloc, forest, made)?;
    let document = forest.get_document();
    Ok(
        are_children(alloc, forest, document, "p:x=1:y=3")?
            && are_children(alloc, forest, made, "'a'")?
            && forest.parent(made) == Some(document)
            && forest.quirks() == QuirksMode::NoQuirks,
    )
}

fn is_any_sink(alloc: Global) -> Result<bool, ParseFault> {
    let mut forest = Forest::new(alloc)?;
    let put = is_paragraph_put(alloc, &mut forest)?;
    let finished = forest.finish();
    Ok(put && finished.error_count() == 0)
}

#[test]
fn any_sink(rt: HostRuntime) {
    assert!(rt; is_any_sink(rt.alloc()) == Ok(true));
}
