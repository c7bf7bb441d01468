//! What selectors select in a page, and how long that takes.
//!
//! Standard output gets a line for each selector: the numbers of the elements that are selected, counted from 0 in tree order, or
//! `refused` where the text is no selector. Standard error gets how long the search took, by an index that is there, and with the making of
//! one.
use crate::files::bytes_of;
use anyhow::{Result, bail};
use html_forest::{Forest, NodeId};
use html_nodes::{element_name, nodes_below};
use html_pages::document_lossy;
use html_selector_text::{SelectorError, parse};
use html_selectors::{Index, select_all};
use html_standard_references::standard;
use selectors::Selectors;
use std::alloc::Global;
use std::rt::{Clock, Files};
use std::time::Instant;

/// The document of a page, with the Standard's references.
fn page_of(alloc: Global, bytes: &[u8]) -> Result<Forest> {
    let Ok(references) = standard(alloc) else {
        bail!("no memory for the references");
    };
    let Ok(forest) = document_lossy(alloc, references, bytes) else {
        bail!("no memory for the page");
    };
    Ok(forest)
}

/// Tells what each of some selectors selects in a page: the words are its name, and the selectors.
pub(crate) fn select_each<R: Files + Clock + Print + Eprint>(
    rt: &R,
    alloc: Global,
    words: &[&str],
) -> Result<()> {
    let Some((path, selectors)) = words.split_first() else {
        bail!("the name of a page is missing");
    };
    let bytes = bytes_of(rt, alloc, path)?;
    let forest = page_of(alloc, bytes.as_slice())?;
    for word in selectors {
        match parse(alloc, word) {
            Ok(selectors) => measure(rt, alloc, &forest, word, &selectors)?,
            Err(SelectorError::Memory) => bail!("no memory for the selector"),
            Err(SelectorError::Syntax { .. }) => println!(rt; "refused")?,
        }
    }
    Ok(())
}

fn measure<R: Clock + Print + Eprint>(
    rt: &R,
    alloc: Global,
    forest: &Forest,
    text: &str,
    selectors: &Selectors,
) -> Result<()> {
    let start = Instant::now(rt)?;
    let Ok(again) = select_all(alloc, forest, forest.document(), selectors) else {
        bail!("no memory for the search");
    };
    let once = start.elapsed(rt)?.as_secs_f64();
    let Ok(index) = Index::new(alloc, forest) else {
        bail!("no memory for the index");
    };
    let start = Instant::now(rt)?;
    let Ok(found) = index.select_all(forest.document(), selectors) else {
        bail!("no memory for the search");
    };
    let seconds = start.elapsed(rt)?.as_secs_f64();
    let numbers = numbers_of(alloc, forest, found.as_slice())?;
    println!(rt; "{numbers}")?;
    eprintln!(rt;
        "{text}: {} found, {seconds} s, {once} s with an index",
        again.len()
    )?;
    Ok(())
}

// The numbers of those elements among all of a page.
fn numbers_of(alloc: Global, forest: &Forest, found: &[NodeId]) -> Result<String> {
    let mut text = String::new(alloc);
    let mut number = 0u64;
    let mut next = 0usize;
    for id in nodes_below(forest, forest.document()) {
        if element_name(forest, id).is_some() {
            if found.get(next) == Some(&id) {
                text.push_str(format!(in alloc; "{number} ")?.as_str())?;
                next = next.saturating_add(1);
            }
            number = number.saturating_add(1);
        }
    }
    Ok(text)
}
