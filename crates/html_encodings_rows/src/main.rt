//! Reads rows of a file, and says how many of them are read otherwise than they say: `html_encodings_rows FILE`.
//!
//! A row has words, and bytes as hexadecimal digits, or `-` where there are none:
//!
//! - `decode LABEL BYTES TEXT`: the text, in UTF-8, of bytes in an encoding, whole and cut in two at each place;
//! - `label BYTES NAME`: the encoding of a label, or `-` if it has none;
//! - `sniff BYTES LABEL NAME WHY`: the encoding of a page that came with a label, and how it was found out, or without `WHY`.
#![tactic(auto)]

mod bytes;
mod faults;
mod rows;

use crate::faults::RowFault;
use crate::rows::Counts;
use std::io::{BufWriter, Write};
use std::{env, fs};

fn main(rt: HostRuntime) -> Result<(), RowFault> {
    let alloc = rt.alloc();
    let mut words = env::args(&rt)?;
    let _program = words.next();
    let Some(name) = words.next() else {
        return Err(RowFault::NoFile);
    };
    let text = fs::read_to_string(&rt, name.as_str())?;
    let mut out = BufWriter::new(alloc, rt.stdout())?;
    let mut counts = Counts::new();
    for line in text.lines() {
        if !counts.row(alloc, line)? {
            writeln!(out, "otherwise: {line}")?;
        }
    }
    let rows = counts.rows;
    let different = counts.different;
    writeln!(out, "{rows} rows, {different} read otherwise")?;
    out.flush()?;
    Ok(())
}
