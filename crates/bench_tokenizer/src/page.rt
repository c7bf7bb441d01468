//! Measures how fast a page is read.

use crate::counts::Counts;
use crate::read::read;
use anyhow::{Result, bail};
use html_tokenizer::References;
use std::io;
use std::time::Instant;

/// Measures a page without errors of single characters and with them.
pub(crate) fn measure(rt: &HostRuntime, page: &str, table: &References) -> Result<()> {
    measure_reading(rt, page, table, false)?;
    measure_reading(rt, page, table, true)
}

/// Tells how long it takes to read a page, and what was counted.
fn measure_reading(
    rt: &HostRuntime,
    page: &str,
    table: &References,
    exact_errors: bool,
) -> Result<()> {
    let Ok(table) = table.copy(rt.alloc()) else {
        bail!("no memory");
    };
    let start = Instant::now(rt)?;
    let Ok(counts) = read(rt.alloc(), page, table, exact_errors) else {
        bail!("the page was not read");
    };
    let seconds = start.elapsed(rt)?.as_secs_f64();
    eprintln!(rt; "exact_errors={exact_errors}: {seconds} s")?;
    Ok(tell(rt, page.len(), exact_errors, &counts)?)
}

/// Tells what was counted.
fn tell(rt: &HostRuntime, bytes: usize, exact_errors: bool, counts: &Counts) -> io::Result<()> {
    println!(rt;
        "exact_errors={exact_errors}: {bytes} bytes, {} tokens\n\
         {} characters of text, {} tags, {} attributes, {} comments, {} errors",
        counts.tokens,
        counts.characters,
        counts.tags,
        counts.attributes,
        counts.comments,
        counts.errors
    )
}
