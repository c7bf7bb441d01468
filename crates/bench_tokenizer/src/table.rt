//! Checks a table of named character references, and looks names up in it.

use html_tokenizer::{ReferenceRow, References};
use std::io;

/// Whether a row is the longest match of its own name.
fn is_found(table: &References, row: &ReferenceRow) -> bool {
    match table.longest(row.name.as_str()) {
        None => false,
        Some(other) => other.name.as_str() == row.name.as_str(),
    }
}

/// How many rows are the longest match of their own names.
fn found(table: &References) -> usize {
    let mut count: usize = 0;
    for row in table.rows() {
        if is_found(table, row) {
            count = count.saturating_add(1);
        }
    }
    count
}

fn show_row(rt: &HostRuntime, row: &ReferenceRow) -> io::Result<()> {
    print!(rt; "{} {:X}", row.name.as_str(), row.first)?;
    match row.second {
        None => Ok(()),
        Some(second) => print!(rt; " {second:X}"),
    }
}

/// Tells the longest match of a text.
fn show_longest(rt: &HostRuntime, table: &References, text: &str) -> io::Result<()> {
    match table.longest(text) {
        None => print!(rt; "none"),
        Some(row) => show_row(rt, row),
    }
}

fn show(rt: &HostRuntime, table: &References, text: &str) -> io::Result<()> {
    print!(rt; "{text}: ")?;
    show_longest(rt, table, text)?;
    let behind = if table.goes_on(text) {
        ", goes on"
    } else {
        ", ends"
    };
    println!(rt; "{behind}")
}

const SHOWN: &[&str] = &[
    "notit;", "notin;", "noti", "amp", "ampere", "acE;", "Zoo", "fjlig;",
];

/// Tells how many rows a table has and how many are found, and what some texts match.
pub(crate) fn show_all(rt: &HostRuntime, table: &References) -> io::Result<()> {
    println!(rt; "{} names, {} found", table.rows().len(), found(table))?;
    for &text in SHOWN {
        show(rt, table, text)?;
    }
    Ok(())
}
