//! One document: whether it is judged faithful, whether it is read back, and how long the judge takes.
use crate::counts::Counts;
use anyhow::{Result, bail};
use devices::VecWriter;
use html_faithful_walk::{first_unfaithful, why_unfaithful};
use html_forest::{Forest, ForestNode, NodeData, NodeId};
use html_pages::{References, is_read_back};
use html_serialize::{SerializeOpts, serialize};
use markup::{QuirksMode, TreeSink};
use std::alloc::Global;
use std::rt::Clock;
use std::time::Instant;

/// The quirks mode that a document asks for whose doctype is written without its identifiers (HTML Standard, section 13.2.6.4.1).
fn written_quirks(forest: &Forest) -> QuirksMode {
    for id in forest.children(forest.document()) {
        if matches!(forest.node(id), Some(NodeData::Doctype { .. })) {
            return QuirksMode::NoQuirks;
        }
    }
    QuirksMode::Quirks
}

fn tell_missed<R: Print>(
    rt: &R,
    alloc: Global,
    file: &str,
    number: u64,
    forest: &Forest,
    id: NodeId,
) -> Result<()> {
    let Ok(why) = why_unfaithful(alloc, forest, true, id) else {
        bail!("no memory for the reason");
    };
    println!(rt;
        "{file} {number}: read back, but not judged faithful: node {}: {why}",
        id.number()
    )?;
    Ok(())
}

/// Judges a document, and reads back what is written of it, where it is put in the quirks mode that the written text asks for.
pub fn judge<R: Print>(
    rt: &R,
    alloc: Global,
    counts: &mut Counts,
    file: &str,
    number: u64,
    forest: &mut Forest,
) -> Result<()> {
    let quirks = written_quirks(forest);
    forest.set_quirks_mode(quirks);
    let Ok(first) = first_unfaithful(alloc, forest, true) else {
        bail!("no memory for the judge");
    };
    let Ok(references) = References::five(alloc) else {
        bail!("no memory for the references");
    };
    let Ok(read_back) = is_read_back(alloc, references, forest) else {
        bail!("no memory for the second reading");
    };
    counts.take(first.is_none(), read_back);
    match first {
        Some(id) if read_back => tell_missed(rt, alloc, file, number, forest, id),
        None if !read_back => {
            println!(rt; "{file} {number}: judged faithful, but not read back")?;
            Ok(())
        }
        _ => Ok(()),
    }
}

/// Tells how long it takes to judge a document, and to write it.
pub fn measure<R: Clock + Eprint>(
    rt: &R,
    alloc: Global,
    file: &str,
    forest: &Forest,
) -> Result<()> {
    let start = Instant::now(rt)?;
    let judged = first_unfaithful(alloc, forest, true);
    let judging = start.elapsed(rt)?.as_secs_f64();
    if judged.is_err() {
        bail!("no memory for the judge");
    }
    let mut writer = VecWriter::new(alloc);
    let node = ForestNode {
        forest,
        id: forest.document(),
    };
    let start = Instant::now(rt)?;
    let written = serialize(alloc, &mut writer, &node, SerializeOpts::default());
    let writing = start.elapsed(rt)?.as_secs_f64();
    if written.is_err() {
        bail!("no memory for the text");
    }
    let bytes = writer.into_bytes().len();
    eprintln!(rt; "{file}: {bytes} bytes, judged in {judging} s, written in {writing} s")?;
    Ok(())
}
