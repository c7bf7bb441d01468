//! Measures how the time to tokenize grows with texts that try to make it grow.

use crate::pauses::read_past_pauses;
use crate::shape::{SHAPES, Shape, text_of};
use anyhow::{Result, bail};
use std::time::Instant;

/// How many times the bytes a text has.
const TIMES: &[usize] = &[1, 2, 4, 8];

/// Measures each shape of text.
pub(crate) fn measure(rt: &HostRuntime, bytes: usize) -> Result<()> {
    for &shape in SHAPES {
        measure_shape(rt, shape, bytes)?;
    }
    Ok(())
}

/// Tells how long it takes to read a shape at so many bytes, at two, four and eight times as many.
fn measure_shape(rt: &HostRuntime, shape: Shape, bytes: usize) -> Result<()> {
    let name = shape.name;
    let mut once = 0.0;
    for &times in TIMES {
        let seconds = measure_text(rt, shape, bytes.saturating_mul(times))?;
        if times == 1 {
            once = seconds;
        }
        let ratio = seconds / once;
        eprintln!(rt; "{name}: {seconds} s, {times} times the text takes {ratio} times as long")?;
    }
    Ok(())
}

/// How many seconds it takes to read a shape at so many bytes. Tells how many errors there are.
fn measure_text(rt: &HostRuntime, shape: Shape, bytes: usize) -> Result<f64> {
    let text = text_of(rt.alloc(), shape, bytes)?;
    let start = Instant::now(rt)?;
    let Ok(counts) = read_past_pauses(rt.alloc(), text, shape.is_cut) else {
        bail!("the text was not read");
    };
    let seconds = start.elapsed(rt)?.as_secs_f64();
    println!(rt; "{}: {} errors", shape.name, counts.errors)?;
    Ok(seconds)
}
