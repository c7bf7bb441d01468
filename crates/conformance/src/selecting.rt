//! Selectors: what a text is as one, and what selectors select in a page.

use crate::lines::{put_line, without_last};
use html_forest::{Forest, NodeId};
use html_nodes::attribute_of;
use html_selector_text::Selector;
use html_selectors::{Index, select_all, select_first};
use markup::ParseFault;
use row_format::{Heading, Row};
use std::alloc::{AllocError, Global};

/// What parts a selector and the ids of the elements that it selects, in a line.
const ARROW: &str = " => ";

/// A selector as it is written, or why a text is none.
pub fn selector(alloc: Global, row: &Row) -> Result<String, ParseFault> {
    let data = row.data(alloc)?;
    Ok(match Selector::parse(alloc, data.as_str()) {
        Ok(selector) => format!(in alloc; "{selector}")?,
        Err(error) => format!(in alloc; "{error}")?,
    })
}

/// The ids of nodes, parted by spaces.
fn ids_of(alloc: Global, forest: &Forest, nodes: &[NodeId]) -> Result<String, AllocError> {
    if nodes.is_empty() {
        return String::from_str(alloc, "none");
    }
    let mut ids = String::new(alloc);
    for node in nodes {
        if !ids.is_empty() {
            ids.push(' ')?;
        }
        ids.push_str(attribute_of(forest, *node, "id").unwrap_or("-"))?;
    }
    Ok(ids)
}

/// Whether the calls that search one by one, and those without an index, agree with what an index selects.
fn agree(
    alloc: Global,
    index: &Index<'_>,
    forest: &Forest,
    selector: &Selector,
    found: &[NodeId],
) -> Result<bool, ParseFault> {
    let top = forest.document();
    let listed = index
        .select_each(top, selector)?
        .collect::<Vec<NodeId>>(alloc)?;
    let again = select_all(alloc, forest, top, selector)?;
    let first = select_first(alloc, forest, top, selector)?;
    Ok(listed.as_slice() == found && again.as_slice() == found && first == found.first().copied())
}

/// The ids of what a selector selects, in words.
fn found(
    alloc: Global,
    index: &Index<'_>,
    forest: &Forest,
    selector: &Selector,
) -> Result<String, ParseFault> {
    let found = index.select_all(forest.document(), selector)?;
    if !agree(alloc, index, forest, selector, found.as_slice())? {
        return Ok(String::from_str(alloc, "the calls select other elements")?);
    }
    Ok(ids_of(alloc, forest, found.as_slice())?)
}

/// What a text selects, in words.
fn selected_by(
    alloc: Global,
    index: &Index<'_>,
    forest: &Forest,
    text: &str,
) -> Result<String, ParseFault> {
    match Selector::parse(alloc, text) {
        Ok(selector) => found(alloc, index, forest, &selector),
        Err(error) => Ok(format!(in alloc; "{error}")?),
    }
}

/// The line of a selector, as it has to be.
fn line_of(
    alloc: Global,
    index: &Index<'_>,
    forest: &Forest,
    text: &str,
) -> Result<String, ParseFault> {
    let words = selected_by(alloc, index, forest, text)?;
    Ok(format!(in alloc; "{text}{ARROW}{words}")?)
}

/// What the selectors of a row select in its page: a line for each, with the selector and the ids.
pub fn selected(alloc: Global, row: &Row, forest: &Forest) -> Result<String, ParseFault> {
    let Some(wanted) = row.setting(alloc, Heading::Selected)? else {
        return Ok(String::new(alloc));
    };
    let index = Index::new(alloc, forest)?;
    let mut lines = String::new(alloc);
    for line in wanted.as_str().split('\n') {
        let text = line.split_once(ARROW).map_or(line, |(text, _)| text);
        let seen = line_of(alloc, &index, forest, text)?;
        put_line(&mut lines, seen.as_str())?;
    }
    Ok(without_last(alloc, lines.as_str())?)
}
