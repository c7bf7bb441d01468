//! A plain forest: lists of numbers, with nothing kept twice. A parent is found by a search.
use crate::steps::Step;
use markup::{ParseFault, QuirksMode};
use std::alloc::Global;

/// What a node is.
#[derive(Clone, Copy, Debug, PartialEq, Eq)]
pub enum Kind {
    Document,
    Contents,
    Doctype,
    Text,
    Comment,
    Instruction,
    Element,
    Template,
}

#[derive(Debug, Drop)]
pub struct PlainNode {
    pub kind: Kind,
    /// The name, the text or the target.
    pub words: String,
    pub attributes: Vec<(String, String)>,
    pub children: Vec<usize>,
}

#[derive(Debug, Drop)]
pub struct Plain {
    alloc: Global,
    pub nodes: Vec<PlainNode>,
    pub quirks: QuirksMode,
    pub errors: u64,
}

impl PlainNode {
    /// Whether it is an element that has no attribute of this name.
    fn may_be_given(&self, local: &str) -> bool {
        for attribute in &self.attributes {
            if attribute.0.as_str() == local {
                return false;
            }
        }
        self.kind == Kind::Element || self.kind == Kind::Template
    }
}

fn pair(alloc: Global, local: &str, value: &str) -> Result<(String, String), ParseFault> {
    let local = String::from_str(alloc, local)?;
    let value = String::from_str(alloc, value)?;
    Ok((local, value))
}

/// Makes a list of the others and a child, before one of them or at the end.
fn put_among(
    children: &mut Vec<usize>,
    others: &[usize],
    before: Option<usize>,
    child: usize,
) -> Result<(), ParseFault> {
    for other in others {
        if before == Some(*other) {
            children.push(child)?;
        }
        children.push(*other)?;
    }
    if before.is_none() {
        children.push(child)?;
    }
    Ok(())
}

impl Plain {
    pub fn new(alloc: Global) -> Result<Plain, ParseFault> {
        let mut plain = Plain {
            alloc,
            nodes: Vec::new(alloc),
            quirks: QuirksMode::NoQuirks,
            errors: 0,
        };
        plain.add(Kind::Document, "")?;
        Ok(plain)
    }

    fn add(&mut self, kind: Kind, words: &str) -> Result<usize, ParseFault> {
        let made = self.nodes.len();
        self.nodes.push(PlainNode {
            kind,
            words: String::from_str(self.alloc, words)?,
            attributes: Vec::new(self.alloc),
            children: Vec::new(self.alloc),
        })?;
        Ok(made)
    }

    pub fn parent(&self, node: usize) -> Option<usize> {
        for (i, other) in self.nodes.iter().enumerate() {
            for child in &other.children {
                if *child == node {
                    return Some(i);
                }
            }
        }
        None
    }

    /// Puts a node into the list of another, before a child of it or at the end.
    fn put(
        &mut self,
        parent: usize,
        before: Option<usize>,
        child: usize,
    ) -> Result<(), ParseFault> {
        if let Some(node) = self.nodes.get_mut(parent) {
            let mut children = Vec::new(self.alloc);
            put_among(&mut children, &node.children, before, child)?;
            node.children = children;
        }
        Ok(())
    }

    fn previous(&self, parent: usize, before: Option<usize>) -> Option<usize> {
        let mut last = None;
        if let Some(node) = self.nodes.get(parent) {
            for other in &node.children {
                if before == Some(*other) {
                    return last;
                }
                last = Some(*other);
            }
        }
        last
    }

    fn put_text(
        &mut self,
        parent: usize,
        before: Option<usize>,
        text: &str,
    ) -> Result<(), ParseFault> {
        if text.is_empty() {
            return Ok(());
        }
        if let Some(previous) = self.previous(parent, before)
            && let Some(node) = self.nodes.get_mut(previous)
            && node.kind == Kind::Text
        {
            node.words.push_str(text)?;
            return Ok(());
        }
        let made = self.add(Kind::Text, text)?;
        self.put(parent, before, made)
    }

    fn add_loose(&mut self, kind: Kind, words: &str) -> Result<(), ParseFault> {
        let _made = self.add(kind, words)?;
        Ok(())
    }

    fn create(&mut self, local: &str) -> Result<(), ParseFault> {
        if local != "template" {
            return self.add_loose(Kind::Element, local);
        }
        self.add_loose(Kind::Template, local)?;
        self.add_loose(Kind::Contents, "")
    }

    fn put_doctype(&mut self, name: &str) -> Result<(), ParseFault> {
        let made = self.add(Kind::Doctype, name)?;
        self.put(0, None, made)
    }

    fn add_attribute(&mut self, at: usize, local: &str, value: &str) -> Result<(), ParseFault> {
        if let Some(node) = self.nodes.get_mut(at)
            && node.may_be_given(local)
        {
            node.attributes.push(pair(self.alloc, local, value)?)?;
        }
        Ok(())
    }

    fn add_attributes(&mut self, at: usize, all: &[(&str, &str)]) -> Result<(), ParseFault> {
        for (local, value) in all {
            self.add_attribute(at, local, value)?;
        }
        Ok(())
    }

    fn remove(&mut self, node: usize) -> Result<(), ParseFault> {
        if let Some(parent) = self.parent(node)
            && let Some(parent) = self.nodes.get_mut(parent)
        {
            parent.children.retain(|child| *child != node);
        }
        Ok(())
    }

    fn reparent(&mut self, from: usize, to: usize) -> Result<(), ParseFault> {
        let mut moved = Vec::new(self.alloc);
        if let Some(node) = self.nodes.get_mut(from) {
            moved.extend_from_slice(&node.children)?;
            node.children.clear();
        }
        if let Some(node) = self.nodes.get_mut(to) {
            node.children.extend_from_slice(&moved)?;
        }
        Ok(())
    }

    /// Does what a step does whose conditions hold.
    pub fn take(&mut self, step: Step) -> Result<(), ParseFault> {
        match step {
            Step::Element(local) => self.create(local),
            Step::Comment(words) => self.add_loose(Kind::Comment, words),
            Step::Instruction(target, _) => self.add_loose(Kind::Instruction, target),
            Step::Doctype(name) => self.put_doctype(name),
            Step::Quirks(mode) => {
                self.quirks = mode;
                Ok(())
            }
            Step::Error => {
                self.errors = self.errors.saturating_add(1);
                Ok(())
            }
            _ => self.take_put(step),
        }
    }

    fn take_put(&mut self, step: Step) -> Result<(), ParseFault> {
        match step {
            Step::Append(parent, child) => self.put(parent, None, child),
            Step::AppendText(parent, words) => self.put_text(parent, None, words),
            Step::Before(sibling, child) => match self.parent(sibling) {
                Some(parent) => self.put(parent, Some(sibling), child),
                None => Ok(()),
            },
            Step::BeforeText(sibling, words) => match self.parent(sibling) {
                Some(parent) => self.put_text(parent, Some(sibling), words),
                None => Ok(()),
            },
            _ => self.take_near(step),
        }
    }

    fn take_near(&mut self, step: Step) -> Result<(), ParseFault> {
        match step {
            Step::Near(element, previous, child) => match self.parent(element) {
                Some(parent) => self.put(parent, Some(element), child),
                None => self.put(previous, None, child),
            },
            Step::NearText(element, previous, words) => match self.parent(element) {
                Some(parent) => self.put_text(parent, Some(element), words),
                None => self.put_text(previous, None, words),
            },
            Step::Attribute(at, local, value) => self.add_attribute(at, local, value),
            Step::Attributes(at, all) => self.add_attributes(at, all),
            Step::Remove(node) => self.remove(node),
            Step::Reparent(from, to) => self.reparent(from, to),
            _ => Ok(()),
        }
    }
}
