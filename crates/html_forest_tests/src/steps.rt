//! Steps that build a forest, each tried only where its conditions hold.
use crate::conditions::{is_loose, is_node, is_parent, may_be_above};
use html_forest::{Forest, NodeId};
use markup::{
    Attribute, Attributes, ElementFlags, LocalName, Namespace, NodeOrText, ParseFault, QualName,
    QuirksMode, Text, TreeSink, is_html_name, namespaces,
};
use std::alloc::Global;
use std::borrow::CowStr;

/// A call of a sink. Nodes are told by their numbers.
#[derive(Clone, Copy)]
pub enum Step<'a> {
    Element(&'a str),
    Comment(&'a str),
    Instruction(&'a str, &'a str),
    Doctype(&'a str),
    Append(usize, usize),
    AppendText(usize, &'a str),
    Before(usize, usize),
    BeforeText(usize, &'a str),
    Near(usize, usize, usize),
    NearText(usize, usize, &'a str),
    Attribute(usize, &'a str, &'a str),
    Attributes(usize, &'a [(&'a str, &'a str)]),
    Remove(usize),
    Reparent(usize, usize),
    Quirks(QuirksMode),
    Error,
}

pub fn text(alloc: Global, characters: &str) -> Result<Text, ParseFault> {
    Ok(Text::new(String::from_str(alloc, characters)?))
}

pub fn name(alloc: Global, ns: &str, local: &str) -> Result<QualName, ParseFault> {
    Ok(QualName::new(
        None,
        Namespace::new(String::from_str(alloc, ns)?),
        LocalName::new(String::from_str(alloc, local)?),
    ))
}

fn attribute(alloc: Global, local: &str, value: &str) -> Result<Attribute, ParseFault> {
    Ok(Attribute {
        name: name(alloc, namespaces::NONE, local)?,
        value: text(alloc, value)?,
    })
}

fn push_each(
    alloc: Global,
    attributes: &mut Attributes,
    all: &[(&str, &str)],
) -> Result<(), ParseFault> {
    for (local, value) in all {
        attributes.push(attribute(alloc, local, value)?)?;
    }
    Ok(())
}

/// Attributes of no namespace, by their names and values.
pub fn attributes(alloc: Global, all: &[(&str, &str)]) -> Result<Attributes, ParseFault> {
    let mut attributes = Attributes::new(alloc);
    push_each(alloc, &mut attributes, all)?;
    Ok(attributes)
}

fn create(alloc: Global, forest: &mut Forest, local: &str) -> Result<bool, ParseFault> {
    let name = name(alloc, namespaces::HTML, local)?;
    let flags = ElementFlags {
        template: is_html_name(&name, "template"),
        mathml_annotation_xml_integration_point: local == "annotation-xml",
        had_duplicate_attributes: false,
    };
    let made = forest.create_element(name, Attributes::new(alloc), flags)?;
    let named = forest.elem_name(&made).local.as_str() == local;
    Ok(named && forest.same_node(&made, &made))
}

fn append(forest: &mut Forest, parent: NodeId, child: NodeId) -> Result<bool, ParseFault> {
    if !is_parent(forest, parent) || !is_loose(forest, parent, child) {
        return Ok(false);
    }
    forest.append(&parent, NodeOrText::AppendNode(child))?;
    Ok(true)
}

fn append_text(
    alloc: Global,
    forest: &mut Forest,
    parent: NodeId,
    characters: &str,
) -> Result<bool, ParseFault> {
    if !is_parent(forest, parent) {
        return Ok(false);
    }
    forest.append(&parent, NodeOrText::AppendText(text(alloc, characters)?))?;
    Ok(true)
}

fn before(forest: &mut Forest, sibling: NodeId, child: NodeId) -> Result<bool, ParseFault> {
    match forest.parent(sibling) {
        Some(parent) if is_loose(forest, parent, child) => {
            forest.append_before_sibling(&sibling, NodeOrText::AppendNode(child))?;
            Ok(true)
        }
        _ => Ok(false),
    }
}

fn before_text(
    alloc: Global,
    forest: &mut Forest,
    sibling: NodeId,
    characters: &str,
) -> Result<bool, ParseFault> {
    if forest.parent(sibling).is_none() {
        return Ok(false);
    }
    forest.append_before_sibling(&sibling, NodeOrText::AppendText(text(alloc, characters)?))?;
    Ok(true)
}

fn near(
    forest: &mut Forest,
    element: NodeId,
    previous: NodeId,
    child: NodeId,
) -> Result<bool, ParseFault> {
    if !is_node(forest, element) || !is_parent(forest, previous) {
        return Ok(false);
    }
    let loose = match forest.parent(element) {
        Some(parent) => is_loose(forest, parent, child),
        None => is_loose(forest, previous, child),
    };
    if !loose {
        return Ok(false);
    }
    forest.append_based_on_parent_node(&element, &previous, NodeOrText::AppendNode(child))?;
    Ok(true)
}

fn near_text(
    alloc: Global,
    forest: &mut Forest,
    element: NodeId,
    previous: NodeId,
    characters: &str,
) -> Result<bool, ParseFault> {
    if !is_node(forest, element) || !is_parent(forest, previous) {
        return Ok(false);
    }
    let text = NodeOrText::AppendText(text(alloc, characters)?);
    forest.append_based_on_parent_node(&element, &previous, text)?;
    Ok(true)
}

fn add_attributes(
    alloc: Global,
    forest: &mut Forest,
    target: NodeId,
    all: &[(&str, &str)],
) -> Result<bool, ParseFault> {
    if !is_node(forest, target) {
        return Ok(false);
    }
    forest.add_attrs_if_missing(&target, attributes(alloc, all)?)?;
    Ok(true)
}

fn remove(forest: &mut Forest, target: NodeId) -> bool {
    if !is_node(forest, target) {
        return false;
    }
    forest.remove_from_parent(&target);
    true
}

fn reparent(forest: &mut Forest, from: NodeId, to: NodeId) -> Result<bool, ParseFault> {
    let _document = forest.get_document();
    if !is_node(forest, from) || !is_parent(forest, to) {
        return Ok(false);
    }
    if may_be_above(forest, from, to) {
        return Ok(false);
    }
    forest.reparent_children(&from, &to)?;
    Ok(true)
}

fn comment(alloc: Global, forest: &mut Forest, characters: &str) -> Result<bool, ParseFault> {
    forest.create_comment(text(alloc, characters)?)?;
    Ok(true)
}

fn instruction(
    alloc: Global,
    forest: &mut Forest,
    target: &str,
    characters: &str,
) -> Result<bool, ParseFault> {
    let target = text(alloc, target)?;
    forest.create_pi(target, text(alloc, characters)?)?;
    Ok(true)
}

fn doctype(alloc: Global, forest: &mut Forest, name: &str) -> Result<bool, ParseFault> {
    let public_id = text(alloc, "p")?;
    let system_id = text(alloc, "s")?;
    forest.append_doctype_to_document(text(alloc, name)?, public_id, system_id)?;
    Ok(true)
}

/// Makes the call where its conditions hold, and says whether they did.
pub fn take(alloc: Global, forest: &mut Forest, step: Step) -> Result<bool, ParseFault> {
    match step {
        Step::Element(local) => create(alloc, forest, local),
        Step::Comment(characters) => comment(alloc, forest, characters),
        Step::Instruction(target, characters) => instruction(alloc, forest, target, characters),
        Step::Doctype(name) => doctype(alloc, forest, name),
        Step::Quirks(mode) => {
            forest.set_quirks_mode(mode);
            Ok(true)
        }
        Step::Error => {
            forest.parse_error(CowStr::Borrowed("an error"));
            Ok(true)
        }
        _ => take_put(alloc, forest, step),
    }
}

fn take_put(alloc: Global, forest: &mut Forest, step: Step) -> Result<bool, ParseFault> {
    match step {
        Step::Append(parent, child) => append(forest, NodeId::new(parent), NodeId::new(child)),
        Step::AppendText(parent, characters) => {
            append_text(alloc, forest, NodeId::new(parent), characters)
        }
        Step::Before(sibling, child) => before(forest, NodeId::new(sibling), NodeId::new(child)),
        Step::BeforeText(sibling, characters) => {
            before_text(alloc, forest, NodeId::new(sibling), characters)
        }
        Step::Near(element, previous, child) => near(
            forest,
            NodeId::new(element),
            NodeId::new(previous),
            NodeId::new(child),
        ),
        Step::NearText(element, previous, characters) => near_text(
            alloc,
            forest,
            NodeId::new(element),
            NodeId::new(previous),
            characters,
        ),
        Step::Attribute(target, local, value) => {
            add_attributes(alloc, forest, NodeId::new(target), &[(local, value)])
        }
        Step::Attributes(target, all) => add_attributes(alloc, forest, NodeId::new(target), all),
        Step::Remove(target) => Ok(remove(forest, NodeId::new(target))),
        Step::Reparent(from, to) => reparent(forest, NodeId::new(from), NodeId::new(to)),
        _ => Ok(false),
    }
}

/// Makes the calls whose conditions hold.
pub fn take_each(alloc: Global, forest: &mut Forest, steps: &[Step]) -> Result<(), ParseFault> {
    for step in steps {
        let _taken = take(alloc, forest, *step)?;
    }
    Ok(())
}

/// A new forest, and what the calls make of it.
pub fn built(alloc: Global, steps: &[Step]) -> Result<Forest, ParseFault> {
    let mut forest = Forest::new(alloc)?;
    take_each(alloc, &mut forest, steps)?;
    Ok(forest)
}
