//! Rows, as a file has them.
ghost use Rattle.std.specs.Prelude.{◌≡◌};
ghost use Rattle.std.specs.List.{list_any};

use crate::escapes::without_escapes;
use crate::headings::{Heading, heading_of};
use std::alloc::{AllocError, Global};

/// A part of a row: a heading, and the lines below it, with a line feed between two.
#[derive(Drop)]
pub struct Part {
    pub heading: Heading,
    pub text: String,
    has_lines: bool,
}

/// A row.
#[derive(Drop)]
pub struct Row {
    /// The line of the file where it begins, counted from 1.
    pub line: usize,
    /// Its first part is the text that is read.
    pub parts: Vec<Part>,
}

impl Part {
    fn new(alloc: Global, heading: Heading) -> Part {
        Part {
            heading,
            text: String::new(alloc),
            has_lines: false,
        }
    }

    /// Takes the next line below the heading.
    fn take(&mut self, line: &str) -> Result<(), AllocError> {
        if self.has_lines {
            self.text.push('\n')?;
        }
        self.has_lines = true;
        self.text.push_str(line)
    }

    /// What is expected: the line that is empty before the next row is none of it.
    fn expected(&self) -> &str {
        let text = self.text.as_str();
        text.strip_suffix('\n').unwrap_or(text)
    }
}

impl Row {
    /// The first part of this heading.
    fn part(&self, heading: Heading) -> Option<&Part> {
        for part in &self.parts {
            if part.heading == heading {
                return Some(part);
            }
        }
        None
    }

    /// Whether it has a part of this heading.
    pub fn has(&self, heading: Heading) -> bool
        ensures { result ≡ list_any (λ part. ⟦<Heading as PartialEq>⟧.eq part.heading heading) self.now.parts.items }
    {
        let parts = self.parts.as_slice();
        parts.iter().any(|part| part.heading == heading)
    }

    /// Whether it expects any output.
    pub fn expects(&self) -> bool {
        for part in &self.parts {
            if part.heading.is_expected() {
                return true;
            }
        }
        false
    }

    /// A text of the row, as it stands there or without its escapes.
    fn read(&self, alloc: Global, text: &str) -> Result<String, AllocError> {
        if self.has(Heading::Escaped) {
            without_escapes(alloc, text)
        } else {
            String::from_str(alloc, text)
        }
    }

    /// The text that is read.
    pub fn data(&self, alloc: Global) -> Result<String, AllocError> {
        match self.parts.first() {
            Some(part) => self.read(alloc, part.text.as_str()),
            None => Ok(String::new(alloc)),
        }
    }

    /// What is expected under a heading.
    pub fn expected(&self, alloc: Global, part: &Part) -> Result<String, AllocError> {
        self.read(alloc, part.expected())
    }

    /// What stands under the first heading of this kind.
    pub fn setting(&self, alloc: Global, heading: Heading) -> Result<Option<String>, AllocError> {
        match self.part(heading) {
            Some(part) => Ok(Some(self.expected(alloc, part)?)),
            None => Ok(None),
        }
    }

    /// Takes a line, below the last heading or as a heading of its own.
    fn take(&mut self, alloc: Global, line: &str) -> Result<(), AllocError> {
        if let Some(heading) = heading_of(line) {
            self.parts.push(Part::new(alloc, heading))?;
            return Ok(());
        }
        match self.parts.last_mut() {
            Some(part) => part.take(line),
            None => Ok(()),
        }
    }
}

/// Begins a row where a line does.
fn begin(alloc: Global, rows: &mut Vec<Row>, number: usize, line: &str) -> Result<(), AllocError> {
    if heading_of(line).is_some_and(|heading| heading.begins_row()) {
        rows.push(Row {
            line: number,
            parts: Vec::new(alloc),
        })?;
    }
    Ok(())
}

/// Takes a line into the last row. Those before the first row are words about the file.
fn take(alloc: Global, rows: &mut Vec<Row>, line: &str) -> Result<(), AllocError> {
    match rows.last_mut() {
        Some(row) => row.take(alloc, line),
        None => Ok(()),
    }
}

/// The rows of a file.
pub fn rows_of(alloc: Global, file: &str) -> Result<Vec<Row>, AllocError> {
    let mut rows = Vec::new(alloc);
    for (place, line) in file.split('\n').enumerate() {
        begin(alloc, &mut rows, place.saturating_add(1), line)?;
        take(alloc, &mut rows, line)?;
    }
    Ok(rows)
}
