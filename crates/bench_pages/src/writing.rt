//! How fast a forest is written.
use crate::page;
use anyhow::{Result, bail};
use html_forest::ForestNode;
use html_serialize::{SerializeOpts, serialize};
use markup::TreeSink;
use markup::devices::MemWriter;
use std::alloc::Global;
use std::rt::Clock;
use std::time::Instant;

// 400 characters, of which four are escaped.
const MIXED: &str =
    "It was the best of times & it was the worst of times, it was the age of wisdom, it was the age of foolishness, < it was the epoch of belief, it was the epoch of incredulity, it was the season of Light, it was the season of Darkness, > it was the spring of hope, it was the winter of despair, we had everything before us, we had nothing before us, we were all going & direct to Heaven, we were all..";

// As many, of which none is.
const CLEAN: &str =
    "It was the best of times, and it was the worst of times, it was the age of wisdom, it was the age of foolishness, it was the epoch of belief, it was the epoch of incredulity, it was the season of Light, it was the season of Darkness, it was the spring of hope, and it was the winter of despair, we had everything before us, we had nothing before us, we were all going direct to Heaven, we were all going";

/// Tells how long it takes to write forests of so many elements: with texts of which something is escaped, and with others.
pub(crate) fn measure_both<R: Clock + Print + Eprint>(
    rt: &R,
    alloc: Global,
    count: usize,
) -> Result<()> {
    measure(rt, alloc, "mixed", count, MIXED)?;
    measure(rt, alloc, "clean", count, CLEAN)
}

fn measure<R: Clock + Print + Eprint>(
    rt: &R,
    alloc: Global,
    what: &str,
    count: usize,
    text: &str,
) -> Result<()> {
    let Ok(mut forest) = page::page_of(alloc, count, text) else {
        bail!("no memory for the page");
    };
    let id = forest.get_document();
    let Ok(mut writer) = MemWriter::new(alloc, count.saturating_mul(600), usize::MAX, None, false)
    else {
        bail!("no memory for the text");
    };
    let node = ForestNode {
        forest: &forest,
        id,
    };
    let start = Instant::now(rt)?;
    let answer = serialize(alloc, &mut writer, &node, SerializeOpts::default());
    let seconds = start.elapsed(rt)?.as_secs_f64();
    if answer.is_err() {
        bail!("the page was not written");
    }
    let bytes = writer.written().len();
    println!(rt; "{what}: {count} elements, {bytes} bytes")?;
    eprintln!(rt; "{what}: {seconds} s")?;
    Ok(())
}
