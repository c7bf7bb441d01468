//! Worked values of tables, each public call on the way.

use html_references::{ReferenceRow, References, TableFault};
use std::alloc::{AllocError, Global};

type Row<'a> = (&'a str, u32, Option<u32>);

fn push_rows(alloc: Global, made: &mut Vec<ReferenceRow>, rows: &[Row]) -> Result<(), AllocError> {
    for (name, first, second) in rows {
        let name = String::from_str(alloc, name)?;
        made.push(ReferenceRow::new(name, *first, *second))?;
    }
    Ok(())
}

fn rows_of(alloc: Global, rows: &[Row]) -> Result<Vec<ReferenceRow>, AllocError> {
    let mut made = Vec::new(alloc);
    push_rows(alloc, &mut made, rows)?;
    Ok(made)
}

fn table(alloc: Global, rows: &[Row]) -> Result<References, TableFault> {
    References::new(alloc, rows_of(alloc, rows)?)
}

fn has_fault(alloc: Global, row: &FaultyRows) -> bool {
    match table(alloc, row.0) {
        Ok(_) => false,
        Err(fault) => fault == row.1,
    }
}

fn lookups(alloc: Global) -> Result<References, TableFault> {
    table(alloc, &[("not", 0xAC, None), ("notin;", 0x2209, None)])
}

type FaultyRows<'a> = (&'a [Row<'a>], TableFault);

const FAULTY: &[FaultyRows] = &[
    (
        &[("amp;", 0x26, None), ("a;b", 0x41, None)],
        TableFault::BadName(2),
    ),
    (
        &[("x", 0x41, None), ("x", 0, None)],
        TableFault::BadValue(2),
    ),
    (
        &[("x", 0x41, None), ("x", 0x42, None)],
        TableFault::Duplicate(2),
    ),
    (&[("", 0x41, None)], TableFault::BadName(1)),
    (&[(";", 0x41, None)], TableFault::BadName(1)),
    (&[("a;;", 0x41, None)], TableFault::BadName(1)),
    (&[("a b", 0x41, None)], TableFault::BadName(1)),
    (&[("é", 0x41, None)], TableFault::BadName(1)),
    (&[("&amp", 0x26, None)], TableFault::BadName(1)),
    (&[("a;b", 0, None)], TableFault::BadName(1)),
    (
        &[("x", 0x41, None), ("x;;", 0, None), ("x", 0x41, None)],
        TableFault::BadName(2),
    ),
    (
        &[("x", 0, None), ("a;b", 0x41, None)],
        TableFault::BadValue(1),
    ),
    (&[("x", 0xD800, None)], TableFault::BadValue(1)),
    (&[("x", 0xDFFF, None)], TableFault::BadValue(1)),
    (&[("x", 0x11_0000, None)], TableFault::BadValue(1)),
    (&[("x", 0x41, Some(0))], TableFault::BadValue(1)),
    (&[("x", 0x41, Some(0xD900))], TableFault::BadValue(1)),
    (
        &[
            ("y", 0x41, None),
            ("x", 0x41, None),
            ("x", 0x42, None),
            ("y", 0x42, None),
        ],
        TableFault::Duplicate(3),
    ),
];

#[test]
fn the_first_faulty_row_is_told(rt: HostRuntime) {
    for row in FAULTY {
        assert!(rt; has_fault(rt.alloc(), row));
    }
}

// Whether these rows of a table are as they were written.
fn are_kept(found: &[ReferenceRow], rows: &[Row]) -> bool {
    for (place, row) in rows.iter().enumerate() {
        match found.get(place) {
            Some(found) if is_kept(found, row) => {}
            _ => return false,
        }
    }
    found.len() == rows.len()
}

fn is_kept(found: &ReferenceRow, row: &Row) -> bool {
    found.name.as_str() == row.0 && found.first == row.1 && found.second == row.2
}

// Whether a table of rows has them, and so does its copy.
fn is_table_of(alloc: Global, rows: &[Row]) -> bool {
    let Ok(made) = table(alloc, rows) else {
        return false;
    };
    are_kept(made.rows(), rows) && is_copy_of(alloc, &made, rows)
}

fn is_copy_of(alloc: Global, made: &References, rows: &[Row]) -> bool {
    let Ok(copied) = made.copy(alloc) else {
        return false;
    };
    are_kept(copied.rows(), rows)
}

const KEPT: &[&[Row]] = &[
    &[],
    &[("x;", 0x41, None), ("x", 0x42, None), ("X", 0x43, None)],
    &[
        ("b", 0xD7FF, None),
        ("a", 0xE000, None),
        ("c", 0x10_FFFF, None),
    ],
    &[("0;", 1, Some(2))],
    &[("z9Z", 0x3C, Some(0x20D2)), ("q", 0x10000, None)],
];

#[test]
fn checked_tables_keep_their_rows(rt: HostRuntime) {
    for &rows in KEPT {
        assert!(rt; is_table_of(rt.alloc(), rows));
    }
}

const FIVE: &[Row] = &[
    ("amp;", 0x26, None),
    ("lt;", 0x3C, None),
    ("gt;", 0x3E, None),
    ("quot;", 0x22, None),
    ("nbsp;", 0xA0, None),
];

// Whether a table finds each of the five rows by its name.
fn finds_the_five(table: &References) -> bool {
    for row in FIVE {
        if !finds(table, row) {
            return false;
        }
    }
    true
}

fn finds(table: &References, row: &Row) -> bool {
    match table.longest(row.0) {
        Some(found) => is_kept(found, row),
        None => false,
    }
}

// Whether the table of five finds each row by its name, and has no more.
fn are_the_five(alloc: Global) -> bool {
    let Ok(five) = References::five(alloc) else {
        return false;
    };
    five.rows().len() == FIVE.len() && finds_the_five(&five)
}

#[test]
fn the_five_stand_for_their_characters(rt: HostRuntime) {
    assert!(rt; are_the_five(rt.alloc()));
}

// Whether a table has so many rows, or memory for it was refused.
fn has_rows_or_no_memory(table: Result<References, TableFault>, count: usize) -> bool {
    match table {
        Ok(table) => table.rows().len() == count,
        Err(fault) => fault == TableFault::Memory,
    }
}

fn copied(alloc: Global) -> Result<References, TableFault> {
    lookups(alloc)?.copy(alloc)
}

#[test]
fn refused_memory_is_told(rt: HostRuntime) {
    assert!(rt; has_rows_or_no_memory(copied(rt.alloc()), 2));
    assert!(rt; has_rows_or_no_memory(References::five(rt.alloc()), 5));
}
