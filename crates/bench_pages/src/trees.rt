//! Trees from their description, which need not be what any page gives. A tree is lines of words with a tab between them:
//!
//! - `+`, namespace, local name, and four words for each attribute: prefix, namespace, local name, value; `-` alone is no prefix: an element,
//!   which is open
//! - `-`: the end of the open element
//! - `=` and a text; `!` and a comment; `<` and the name of a doctype
//! - `.`: the end of the tree
//!
//! In texts, comments and values `\n`, `\r`, `\t`, `\0` and `\\` stand for characters.
use crate::conditions::{is_loose, is_parent};
use crate::counts::Counts;
use crate::judged::judge;
use anyhow::{Result, bail};
use html_forest::{Forest, NodeId};
use markup::{
    Attribute, Attributes, ElementFlags, LocalName, Namespace, NodeOrText, ParseFault, Prefix,
    QualName, Text, TreeSink, is_html_name,
};
use std::alloc::Global;

/// A tree, and what is open in it.
#[derive(Drop)]
struct Tree {
    forest: Forest,
    open: Vec<NodeId>,
}

fn unescaped(alloc: Global, word: &str) -> Result<Text, ParseFault> {
    let mut text = Text::empty(alloc);
    let mut escaped = false;
    for c in word.chars() {
        if escaped {
            text.push(match c {
                'n' => '\n',
                'r' => '\r',
                't' => '\t',
                '0' => '\0',
                other => other,
            })?;
            escaped = false;
        } else if c == '\\' {
            escaped = true;
        } else {
            text.push(c)?;
        }
    }
    Ok(text)
}

fn name(alloc: Global, prefix: &str, ns: &str, local: &str) -> Result<QualName, ParseFault> {
    let prefix = if prefix == "-" {
        None
    } else {
        Some(Prefix::new(String::from_str(alloc, prefix)?))
    };
    Ok(QualName::new(
        prefix,
        Namespace::new(String::from_str(alloc, ns)?),
        LocalName::from_str(alloc, local)?,
    ))
}

fn attributes(alloc: Global, words: &[String]) -> Result<Attributes, ParseFault> {
    let mut made = Attributes::new(alloc);
    for word in words.chunks_exact(4) {
        if let [prefix, ns, local, value] = word {
            made.push(Attribute {
                name: name(alloc, prefix.as_str(), ns.as_str(), local.as_str())?,
                value: unescaped(alloc, value.as_str())?,
            })?;
        }
    }
    Ok(made)
}

impl Tree {
    fn new(alloc: Global) -> Result<Tree, ParseFault> {
        Ok(Tree {
            forest: Forest::new(alloc)?,
            open: Vec::new(alloc),
        })
    }

    /// What the next node is put into.
    fn parent(&self) -> NodeId {
        match self.open.last() {
            Some(open) => *open,
            None => self.forest.document(),
        }
    }

    fn put(&mut self, child: NodeId) -> Result<(), ParseFault> {
        let parent = self.parent();
        if is_parent(&self.forest, parent) && is_loose(&self.forest, parent, child) {
            self.forest.append(&parent, NodeOrText::AppendNode(child))?;
        }
        Ok(())
    }

    fn put_text(&mut self, text: Text) -> Result<(), ParseFault> {
        let parent = self.parent();
        if is_parent(&self.forest, parent) {
            self.forest.append(&parent, NodeOrText::AppendText(text))?;
        }
        Ok(())
    }

    fn open(&mut self, name: QualName, attributes: Attributes) -> Result<(), ParseFault> {
        let flags = ElementFlags {
            template: is_html_name(&name, "template"),
            mathml_annotation_xml_integration_point: false,
            had_duplicate_attributes: false,
        };
        let made = self.forest.create_element(name, attributes, flags)?;
        self.put(made)?;
        let inner = match self.forest.template_contents(made) {
            Some(contents) => contents,
            None => made,
        };
        self.open.push(inner)?;
        Ok(())
    }

    /// Takes a line that is not the end of the tree.
    fn take(&mut self, alloc: Global, words: &[String]) -> Result<(), ParseFault> {
        match words {
            [kind, ns, local, rest @ ..] if kind.as_str() == "+" => {
                let name = name(alloc, "-", ns.as_str(), local.as_str())?;
                self.open(name, attributes(alloc, rest)?)
            }
            [kind] if kind.as_str() == "-" => {
                drop(self.open.pop());
                Ok(())
            }
            [kind, text] if kind.as_str() == "=" => {
                self.put_text(unescaped(alloc, text.as_str())?)
            }
            [kind, text] if kind.as_str() == "!" => {
                let made = self
                    .forest
                    .create_comment(unescaped(alloc, text.as_str())?)?;
                self.put(made)
            }
            [kind, name] if kind.as_str() == "<" => {
                let name = unescaped(alloc, name.as_str())?;
                self.forest
                    .append_doctype_to_document(name, Text::empty(alloc), Text::empty(alloc))
            }
            _ => Ok(()),
        }
    }
}

fn words_of(alloc: Global, line: &str) -> Result<Vec<String>> {
    let mut words = Vec::new(alloc);
    for word in line.split('\t') {
        words.push(String::from_str(alloc, word)?)?;
    }
    Ok(words)
}

/// Judges each tree of a description.
pub fn take_all<R: Print>(
    rt: &R,
    alloc: Global,
    counts: &mut Counts,
    file: &str,
    text: &str,
) -> Result<()> {
    let mut number = 0u64;
    let Ok(mut tree) = Tree::new(alloc) else {
        bail!("no memory for a tree");
    };
    for line in text.lines() {
        if line == "." {
            judge(rt, alloc, counts, file, number, &mut tree.forest)?;
            number = number.saturating_add(1);
            let Ok(next) = Tree::new(alloc) else {
                bail!("no memory for a tree");
            };
            tree = next;
        } else if tree.take(alloc, words_of(alloc, line)?.as_slice()).is_err() {
            bail!("no memory for a node");
        }
    }
    Ok(())
}
