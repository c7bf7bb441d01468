//! Judges the documents of files, and reads back what is written of them. A file is a page, or has trees (`trees.rt`) if its name ends
//! in `.trees`.
//!
//! Standard output gets a line for each document that is judged faithful but is not read back, and for each that is read back but not judged
//! faithful; and last how many there were. Standard error gets for each page how long it took to judge and to write it.
use crate::counts::Counts;
use crate::judged::{judge, measure};
use crate::trees;
use anyhow::{Context, Result, bail};
use html_forest::Forest;
use html_pages::{References, document_lossy};
use std::alloc::Global;
use std::fs::File;
use std::io::Read;
use std::rt::{Clock, Files};

/// Judges the documents of files, and tells how many there were.
pub(crate) fn judge_all<R: Files + Clock + Print + Eprint>(
    rt: &R,
    alloc: Global,
    counts: &mut Counts,
    paths: &[&str],
) -> Result<()> {
    for path in paths {
        take_file(rt, alloc, counts, path)?;
    }
    println!(rt; "{counts}")?;
    Ok(())
}

fn take_file<R: Files + Clock + Print + Eprint>(
    rt: &R,
    alloc: Global,
    counts: &mut Counts,
    path: &str,
) -> Result<()> {
    let bytes = bytes_of(rt, alloc, path)?;
    if path.ends_with(".trees") {
        let text = String::from_utf8_lossy(alloc, bytes.as_slice())?;
        trees::take_all(rt, alloc, counts, path, text.as_str())
    } else {
        let mut forest = page_of(alloc, bytes.as_slice())?;
        measure(rt, alloc, path, &forest)?;
        judge(rt, alloc, counts, path, 0, &mut forest)
    }
}

/// The bytes of a file.
pub(crate) fn bytes_of<R: Files>(rt: &R, alloc: Global, path: &str) -> Result<Vec<u8>> {
    let mut file = File::open(rt, path).context("a page")?;
    let mut bytes = Vec::new(alloc);
    file.read_to_end(&mut bytes)?;
    Ok(bytes)
}

/// The document of a page, with the five references that a written text needs.
fn page_of(alloc: Global, bytes: &[u8]) -> Result<Forest> {
    let Ok(references) = References::five(alloc) else {
        bail!("no memory for the references");
    };
    let Ok(forest) = document_lossy(alloc, references, bytes) else {
        bail!("no memory for the page");
    };
    Ok(forest)
}
