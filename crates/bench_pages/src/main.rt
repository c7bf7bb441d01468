//! Times what is done with pages: `bench_pages COMMAND [WORD].. [-- COMMAND [WORD]..]..`.
//!
//! - `tree BYTES`: how fast a page of so many bytes becomes a tree.
//! - `write ELEMENTS`: how fast a forest of so many elements is written.
//! - `judge FILE..`: judges documents, and reads back what is written of them; the status is 1 where one is judged faithful that is not
//!   read back.
//! - `select FILE SELECTOR..`: what selectors select in a page, and how long that takes.
//!
//! Standard output gets what was found, which is the same in each run, and standard error how long it took.
#![tactic(auto)]

mod build;
mod conditions;
mod counts;
mod files;
mod judged;
mod page;
mod selecting;
mod trees;
mod writing;

use crate::counts::Counts;
use anyhow::{Context, Result, bail};
use std::alloc::Global;
use std::env;
use std::process::ExitCode;
use std::rt::{Clock, Files};

fn main(rt: HostRuntime) -> Result<ExitCode> {
    let alloc = rt.alloc();
    let words: Vec<String> = env::args(&rt)?.skip(1).collect(alloc)?;
    let mut counts = Counts::default();
    run_all(&rt, alloc, &mut counts, words.as_slice())?;
    Ok(ExitCode::from(u8::from(counts.wrong > 0)))
}

/// Runs the commands, which `--` parts.
fn run_all<R: Files + Clock + Print + Eprint>(
    rt: &R,
    alloc: Global,
    counts: &mut Counts,
    words: &[String],
) -> Result<()> {
    let mut command = Vec::new(alloc);
    for word in words {
        if word.as_str() == "--" {
            run(rt, alloc, counts, command.as_slice())?;
            command = Vec::new(alloc);
        } else {
            command.push(word.as_str())?;
        }
    }
    run(rt, alloc, counts, command.as_slice())
}

/// Runs a command with its words.
fn run<R: Files + Clock + Print + Eprint>(
    rt: &R,
    alloc: Global,
    counts: &mut Counts,
    words: &[&str],
) -> Result<()> {
    let Some((command, rest)) = words.split_first() else {
        bail!("a command is missing: tree, write, judge or select");
    };
    if *command == "tree" {
        return build::measure(rt, alloc, number(rest)?);
    }
    if *command == "write" {
        return writing::measure_both(rt, alloc, number(rest)?);
    }
    if *command == "judge" {
        return files::judge_all(rt, alloc, counts, rest);
    }
    if *command == "select" {
        return selecting::select_each(rt, alloc, rest);
    }
    bail!("no such command: tree, write, judge or select");
}

/// The number that a command has.
fn number(words: &[&str]) -> Result<usize> {
    let Some(word) = words.first() else {
        bail!("a number is missing");
    };
    word.parse().context("a number")
}
