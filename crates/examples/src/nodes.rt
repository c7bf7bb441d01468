//! A walk of nodes that ends by itself, and one that is counted.

use figpliers::{Forest, NodeId, ParseFault, Step, is_html, nodes_below, text_content, walk};
use std::alloc::Global;

/// The title of a page, if it has one.
pub fn title(alloc: Global, forest: &Forest) -> Result<Option<String>, ParseFault> {
    for id in nodes_below(forest, forest.document()) {
        if is_html(forest, id, "title") {
            return Ok(Some(text_content(alloc, forest, id)?));
        }
    }
    Ok(None)
}

/// How many of the children of a node are elements of HTML of this name.
pub fn count_children(forest: &Forest, parent: NodeId, name: &str) -> u64 {
    let mut children = forest.children(parent);
    let mut count = 0u64;
    for _ in 0..u64::MAX {
        match children.next() {
            Some(id) => {
                if is_html(forest, id, name) {
                    count = count.saturating_add(1);
                }
            }
            None => break,
        }
    }
    count
}

/// How many levels of lists there are at most.
pub fn list_levels(forest: &Forest) -> u64 {
    let mut levels = 0u64;
    let mut most = 0u64;
    for step in walk(forest, forest.document()) {
        match step {
            Step::Enter(id) if is_html(forest, id, "ul") => {
                levels = levels.saturating_add(1);
                most = most.max(levels);
            }
            Step::Leave(id) if is_html(forest, id, "ul") => levels = levels.saturating_sub(1),
            _ => {}
        }
    }
    most
}
