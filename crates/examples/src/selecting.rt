//! Elements by CSS selectors: a text of selectors that is asked once, and one that is parsed once and asked of many pages.

use figpliers::{Forest, ParseFault, Selector, SelectorError, select, select_first, text_content};
use std::alloc::Global;

/// The text of each link that leads to another host.
pub fn links_elsewhere(alloc: Global, forest: &Forest) -> Result<Vec<String>, SelectorError> {
    let mut texts = Vec::new(alloc);
    let links = "a[href^='http:'], a[href^='https:'], a[href^='//']";
    for id in select(alloc, forest, forest.document(), links)? {
        texts.push(text_content(alloc, forest, id)?)?;
    }
    Ok(texts)
}

/// The text of the first element of a page that a selector selects, if it selects one.
pub fn first_text(
    alloc: Global,
    forest: &Forest,
    selector: &Selector,
) -> Result<Option<String>, ParseFault> {
    match select_first(alloc, forest, forest.document(), selector)? {
        Some(id) => Ok(Some(text_content(alloc, forest, id)?)),
        None => Ok(None),
    }
}
