//! The forest beside the plain one, after each of many steps.
use crate::plain::{Kind, Plain, PlainNode};
use crate::steps::{Step, take};
use html_forest::{Forest, NodeData, NodeId};
use markup::{ParseFault, QuirksMode};
use std::alloc::Global;

fn same_attributes(about: &NodeData<'_>, node: &PlainNode) -> bool {
    match about {
        NodeData::Element { attrs, .. } => {
            if attrs.len() != node.attributes.len() {
                return false;
            }
            for (found, wanted) in attrs.as_slice().iter().zip(node.attributes.as_slice()) {
                if found.name.local.as_str() != wanted.0.as_str()
                    || found.value.as_str() != wanted.1.as_str()
                {
                    return false;
                }
            }
            true
        }
        _ => node.attributes.is_empty(),
    }
}

fn words_of<'a>(about: &NodeData<'a>) -> (Kind, &'a str) {
    match about {
        NodeData::Document => (Kind::Document, ""),
        NodeData::Contents => (Kind::Contents, ""),
        NodeData::Doctype { name, .. } => (Kind::Doctype, name.as_str()),
        NodeData::Text(text) => (Kind::Text, text.as_str()),
        NodeData::Comment(text) => (Kind::Comment, text.as_str()),
        NodeData::ProcessingInstruction { target, .. } => (Kind::Instruction, target.as_str()),
        NodeData::Element {
            name,
            template_contents,
            ..
        } => match template_contents {
            Some(_) => (Kind::Template, name.local.as_str()),
            None => (Kind::Element, name.local.as_str()),
        },
    }
}

fn same_data(about: &NodeData<'_>, node: &PlainNode) -> bool {
    let (kind, words) = words_of(about);
    kind == node.kind && words == node.words.as_str() && same_attributes(about, node)
}

fn same_children(forest: &Forest, id: NodeId, wanted: &[usize]) -> bool {
    let mut count = 0;
    for (child, want) in forest.children(id).zip(wanted) {
        if child.number() != *want {
            return false;
        }
        count = usize::saturating_add(count, 1);
    }
    let mut all = 0;
    for _child in forest.children(id) {
        all = usize::saturating_add(all, 1);
    }
    count == wanted.len() && all == wanted.len()
}

fn same_node(forest: &Forest, plain: &Plain, at: usize, node: &PlainNode) -> bool {
    let id = NodeId::new(at);
    let same_parent = match (forest.parent(id), plain.parent(at)) {
        (Some(parent), Some(wanted)) => parent.number() == wanted,
        (None, None) => true,
        _ => false,
    };
    let same_contents = match forest.template_contents(id) {
        Some(contents) => node.kind == Kind::Template && contents.number() > at,
        None => node.kind != Kind::Template,
    };
    match forest.node(id) {
        Some(about) => {
            same_parent
                && same_contents
                && same_data(&about, node)
                && same_children(forest, id, &node.children)
        }
        None => false,
    }
}

/// Whether both are the same.
pub fn same(forest: &Forest, plain: &Plain) -> bool {
    for (i, node) in plain.nodes.iter().enumerate() {
        if !same_node(forest, plain, i, node) {
            return false;
        }
    }
    forest.node(NodeId::new(plain.nodes.len())).is_none()
        && forest.quirks() == plain.quirks
        && forest.error_count() == plain.errors
}

const WORDS: [&str; 4] = ["", "a", "b", "é"];

const NAMES: [&str; 4] = ["p", "template", "b", "annotation-xml"];

// Attributes that are given at once, of which an element may have some, and which may have one name.
const PAIRS: [&[(&str, &str)]; 4] = [
    &[("p", "a"), ("b", "é")],
    &[("b", ""), ("b", "a")],
    &[("template", "b"), ("p", "")],
    &[("annotation-xml", "a"), ("template", "b")],
];

// The next number of a sequence with no pattern to speak of.
fn next(seed: u32) -> u32 {
    seed.wrapping_mul(1664525).wrapping_add(1013904223)
}

fn step(seed: u32, count: usize) -> Step<'static> {
    let word = WORDS[(seed >> 7) as usize % 4];
    let name = NAMES[(seed >> 9) as usize % 4];
    let count = if count == 0 { 1 } else { count };
    let a = (seed >> 11) as usize % count;
    let b = (seed >> 17) as usize % count;
    let c = (seed >> 23) as usize % count;
    match (seed >> 3) % 16 {
        0 | 1 => Step::Element(name),
        2 => Step::Comment(word),
        3 => Step::Instruction(name, word),
        4 => Step::Doctype(name),
        5 | 6 => Step::Append(a, b),
        7 => Step::AppendText(a, word),
        8 => Step::Before(a, b),
        9 => Step::BeforeText(a, word),
        10 => Step::Near(a, b, c),
        11 => Step::NearText(a, b, word),
        12 => {
            if b % 2 == 0 {
                Step::Attribute(a, name, word)
            } else {
                Step::Attributes(a, PAIRS[c % 4])
            }
        }
        13 => Step::Remove(a),
        14 => Step::Reparent(a, b),
        _ => {
            if a % 2 == 0 {
                Step::Quirks(QuirksMode::LimitedQuirks)
            } else {
                Step::Error
            }
        }
    }
}

// Takes a step in both, and says whether they are the same afterwards; after a fault, whether the forest is as it was.
fn take_both(
    alloc: Global,
    forest: &mut Forest,
    plain: &mut Plain,
    step: Step,
) -> Result<bool, ParseFault> {
    match take(alloc, forest, step) {
        Ok(taken) => {
            if taken {
                plain.take(step)?;
            }
            Ok(same(forest, plain))
        }
        Err(fault) => {
            if same(forest, plain) {
                Err(fault)
            } else {
                Ok(false)
            }
        }
    }
}

// The first of so many steps after which the two differ.
fn difference(
    alloc: Global,
    forest: &mut Forest,
    plain: &mut Plain,
    start: u32,
    count: u32,
) -> Result<Option<u32>, ParseFault> {
    let mut seed = start;
    for i in 0..count {
        seed = next(seed);
        let step = step(seed, plain.nodes.len());
        if !take_both(alloc, forest, plain, step)? {
            return Ok(Some(i));
        }
    }
    Ok(None)
}

fn first_difference(alloc: Global, start: u32, count: u32) -> Result<Option<u32>, ParseFault> {
    let mut forest = Forest::new(alloc)?;
    let mut plain = Plain::new(alloc)?;
    difference(alloc, &mut forest, &mut plain, start, count)
}

#[test]
fn forest_is_as_plain(rt: HostRuntime) {
    for start in [1, 7, 11, 2026] {
        let found = first_difference(rt.alloc(), start, 200);
        assert!(rt; matches!(found, Ok(None)), "from {start}");
    }
}

#[test]
fn forest_is_as_plain_in_many_short_runs(rt: HostRuntime) {
    for start in 0..3000 {
        let found = first_difference(rt.alloc(), start, 24);
        assert!(rt; matches!(found, Ok(None)), "from {start}");
    }
}
