//! Runs rows of files on the public calls of the parser, and says how many of them differ: `conformance FILE|FOLDER..`. A folder stands
//! for the files in it whose names end in `.dat`.
//!
//! A file is one of html5lib's, or has the headings of `row_format`. Each row is run whole, in pieces of one and of three characters,
//! with exact errors and without. For a row that differs the program prints to standard error the file, the line, the input, the
//! expected output and the actual one, and exits with status 1; with 2 if a file can't be read or has no row.
#![tactic(auto)]

mod attacks;
mod check;
mod lines;
mod listing;
mod selecting;
mod settings;
mod tokens;
mod trees;
mod words;
mod written;

use crate::check::run_rows;
use row_format::{Counts, rows_of};
use std::process::ExitCode;
use std::{env, fs, io};

/// Takes a file of a folder, if it has rows.
fn push_row_file(rt: &HostRuntime, files: &mut Vec<String>, path: &str) -> io::Result<()> {
    if path.ends_with(".dat") {
        files.push(String::from_str(rt.alloc(), path)?)?;
    }
    Ok(())
}

/// The files that a word stands for: those of a folder, or the one of that name.
fn push_files(rt: &HostRuntime, files: &mut Vec<String>, word: String) -> io::Result<()> {
    if !fs::metadata(rt, word.as_str())?.is_dir() {
        files.push(word)?;
        return Ok(());
    }
    for entry in fs::read_dir(rt, word.as_str())? {
        let entry = entry?;
        push_row_file(rt, files, entry.path().as_str())?;
    }
    Ok(())
}

/// The files that are named.
fn files(rt: &HostRuntime) -> io::Result<Vec<String>> {
    let mut files = Vec::new(rt.alloc());
    for word in env::args(rt)?.skip(1) {
        push_files(rt, &mut files, word)?;
    }
    Ok(files)
}

/// Runs the rows of a file.
fn run_file(rt: &HostRuntime, counts: &mut Counts, file: &str) -> io::Result<()> {
    let bytes = fs::read(rt, file)?;
    let text = String::from_utf8_lossy(rt.alloc(), bytes.as_slice())?;
    let rows = rows_of(rt.alloc(), text.as_str())?;
    run_rows(rt, counts, file, rows.as_slice())?;
    Ok(())
}

/// Runs the rows of all files.
fn run_all(rt: &HostRuntime, counts: &mut Counts) -> io::Result<()> {
    for file in &files(rt)? {
        run_file(rt, counts, file.as_str())?;
    }
    Ok(())
}

fn main(rt: HostRuntime) -> ExitCode {
    let mut counts = Counts::new();
    if let Err(error) = run_all(&rt, &mut counts) {
        let _ = eprintln!(rt; "fault: {error}");
        return ExitCode::from(2);
    }
    let status = counts.status();
    let Counts { rows, different } = counts;
    let _ = println!(rt; "{rows} rows, {different} differ");
    ExitCode::from(status)
}
