//! Measures how fast a queue gives its characters.

use crate::drain::{characters_by_next, runs_by_pop_except_from};
use anyhow::{Result, bail};
use html_queue::BufferQueue;
use markup::ParseFault;
use std::alloc::Global;
use std::io;
use std::time::Instant;

/// A line of 50 characters, one of them of two bytes, with four runs between tags and references.
const LINE: &str = "<p class=one>Caf\u{e9} &amp; bar, a plain line</p>....\n";

/// Measures a queue of so many characters.
pub(crate) fn measure(rt: &HostRuntime, characters: usize) -> Result<()> {
    take_both(rt, characters, &mut BufferQueue::new())
}

/// Takes the characters of a queue one by one, and then once more in runs.
fn take_both(rt: &HostRuntime, characters: usize, queue: &mut BufferQueue) -> Result<()> {
    take_by_next(rt, characters, queue)?;
    take_by_pop_except_from(rt, characters, queue)
}

/// Fills a queue and takes its characters one by one.
fn take_by_next(rt: &HostRuntime, characters: usize, queue: &mut BufferQueue) -> Result<()> {
    let start = Instant::now(rt)?;
    fill(rt.alloc(), queue, characters)?;
    tell_time(rt, "push_back", start)?;
    let start = Instant::now(rt)?;
    let taken = characters_by_next(queue);
    Ok(tell(rt, "next", start, taken, "characters")?)
}

/// Fills a queue and takes its runs and the stops between them.
fn take_by_pop_except_from(
    rt: &HostRuntime,
    characters: usize,
    queue: &mut BufferQueue,
) -> Result<()> {
    fill(rt.alloc(), queue, characters)?;
    let start = Instant::now(rt)?;
    let Ok(runs) = runs_by_pop_except_from(queue) else {
        bail!("no memory");
    };
    Ok(tell(rt, "pop_except_from", start, runs, "runs and members")?)
}

/// Tells how long something took, and what was taken.
fn tell(rt: &HostRuntime, name: &str, start: Instant, taken: u64, what: &str) -> io::Result<()> {
    tell_time(rt, name, start)?;
    println!(rt; "{name}: {taken} {what}")
}

fn tell_time(rt: &HostRuntime, name: &str, start: Instant) -> io::Result<()> {
    let seconds = start.elapsed(rt)?.as_secs_f64();
    eprintln!(rt; "{name}: {seconds} s")
}

/// Puts as many whole lines as have so many characters into a queue, line by line.
fn fill(alloc: Global, queue: &mut BufferQueue, characters: usize) -> Result<()> {
    for _line in 0..characters / 50 {
        if push_line(alloc, queue).is_err() {
            bail!("no memory");
        }
    }
    Ok(())
}

fn push_line(alloc: Global, queue: &mut BufferQueue) -> Result<(), ParseFault> {
    queue.push_back(String::from_str(alloc, LINE)?)
}
