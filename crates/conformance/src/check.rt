//! Running rows, and reporting those that differ.

use crate::{attacks, selecting, tokens, trees, written};
use markup::ParseFault;
use row_format::headings::line_of;
use row_format::{Counts, HOWS, Heading, How, Part, Row, is_as_expected};
use std::alloc::{AllocError, Global};

/// What is seen of a row, under a heading.
fn seen(alloc: Global, row: &Row, heading: Heading, how: How) -> Result<String, ParseFault> {
    match heading {
        Heading::Tokens | Heading::Told | Heading::Pending | Heading::Counts => {
            tokens::seen(alloc, row, heading, how)
        }
        Heading::Normal
        | Heading::Report
        | Heading::Cleaned
        | Heading::CleanedDocument
        | Heading::Encoding
        | Heading::Fault => written::seen(alloc, row, heading, how),
        Heading::Outside => attacks::seen(alloc, row, how),
        Heading::Selector => selecting::selector(alloc, row),
        _ => trees::seen(alloc, row, heading, how),
    }
}

/// The same, or the words of the fault by which nothing is seen.
fn seen_or_fault(
    alloc: Global,
    row: &Row,
    heading: Heading,
    how: How,
) -> Result<String, AllocError> {
    match seen(alloc, row, heading, how) {
        Ok(text) => Ok(text),
        Err(fault) => format!(in alloc; "fault: {fault}"),
    }
}

/// What is seen under a heading where that is not what is expected, and how the row was run then.
fn first_other(
    alloc: Global,
    row: &Row,
    heading: Heading,
    wanted: &str,
) -> Result<Option<(How, String)>, AllocError> {
    for &how in HOWS {
        if heading.is_expected_if(how.exact) {
            let seen = seen_or_fault(alloc, row, heading, how)?;
            if !is_as_expected(wanted, seen.as_str()) {
                return Ok(Some((how, seen)));
            }
        }
    }
    Ok(None)
}

/// Reports to standard error that a row differs under a heading, where a merge shows it.
fn report(
    rt: &HostRuntime,
    file: &str,
    row: &Row,
    heading: Heading,
    wanted: &str,
    how: How,
    seen: &str,
) -> Result<(), AllocError> {
    let data = row.data(rt.alloc())?;
    let line = row.line;
    let heading = line_of(heading);
    let words = how.words();
    let _ = eprintln!(rt; "{file}:{line}: {heading} differs, {words}");
    let _ = eprintln!(rt; "input:\n{data}\nexpected:\n{wanted}\nseen:\n{seen}\n");
    Ok(())
}

/// Runs a row for what is expected under a heading. Returns whether the output differs, and reports it if so.
fn differs_in(rt: &HostRuntime, file: &str, row: &Row, part: &Part) -> Result<bool, AllocError> {
    let alloc = rt.alloc();
    let wanted = row.expected(alloc, part)?;
    let wanted = wanted.as_str();
    let Some((how, seen)) = first_other(alloc, row, part.heading, wanted)? else {
        return Ok(false);
    };
    report(rt, file, row, part.heading, wanted, how, seen.as_str())?;
    Ok(true)
}

/// Runs a row for each heading. Answers whether something else is seen under one.
fn differs(rt: &HostRuntime, file: &str, row: &Row) -> Result<bool, AllocError> {
    let mut is_other = false;
    for part in &row.parts {
        if part.heading.is_expected() && differs_in(rt, file, row, part)? {
            is_other = true;
        }
    }
    Ok(is_other)
}

/// Whether a row expects nothing, as where its heading is misspelled; reports it if so.
fn is_vain(rt: &HostRuntime, file: &str, row: &Row) -> bool {
    let is_vain = !row.expects();
    if is_vain {
        let line = row.line;
        let _ = eprintln!(rt; "{file}:{line}: nothing is expected");
    }
    is_vain
}

/// Runs the rows of a file, and reports those that differ.
pub fn run_rows(
    rt: &HostRuntime,
    counts: &mut Counts,
    file: &str,
    rows: &[Row],
) -> Result<(), AllocError> {
    for row in rows {
        let is_other = is_vain(rt, file, row) || differs(rt, file, row)?;
        counts.count(is_other);
    }
    Ok(())
}
