//! Tables: which can be written as such, and their rows.

use crate::writer::Writer;
use html_forest::{Forest, NodeId};
use html_nodes::is_html;
use std::alloc::AllocError;

/// What a table has.
#[derive(Clone, Copy)]
pub(crate) struct Shape {
    /// Whether each cell has one line of text and nothing that a cell of Markdown can't have.
    pub is_simple: bool,
    /// Whether its first row has headings.
    pub has_head: bool,
    /// How many cells the longest row has.
    pub columns: usize,
    /// How many rows there are, and cells in the last one.
    pub rows: usize,
    pub cells: usize,
}

/// A table of which nothing is known yet.
pub(crate) const NO_ROWS: Shape = Shape {
    is_simple: true,
    has_head: true,
    columns: 0,
    rows: 0,
    cells: 0,
};

impl Shape {
    /// Notes a row.
    pub fn add_row(&mut self) {
        self.rows = self.rows.saturating_add(1);
        self.cells = 0;
    }

    /// Notes a cell.
    pub fn add_cell(&mut self, is_heading: bool) {
        self.cells = self.cells.saturating_add(1);
        self.columns = self.columns.max(self.cells);
        if self.rows == 1 && !is_heading {
            self.has_head = false;
        }
    }
}

/// Whether a cell is a heading: a `th`, or in a row of a `thead`.
pub(crate) fn is_heading(forest: &Forest, id: NodeId) -> bool {
    if is_html(forest, id, "th") {
        return true;
    }
    let Some(row) = forest.parent(id) else {
        return false;
    };
    match forest.parent(row) {
        Some(part) => is_html(forest, part, "thead"),
        None => false,
    }
}

/// A table that is written.
#[derive(Clone, Copy)]
pub(crate) struct Table {
    pub shape: Shape,
    /// How many rows were written, and cells of the last one.
    pub rows: usize,
    pub cells: usize,
}

impl Writer {
    /// Writes so many cells, each with that text.
    fn push_cells(&mut self, cell: &str, count: usize) -> Result<(), AllocError> {
        for _ in 0..count {
            self.output.push_str(cell, '|')?;
        }
        Ok(())
    }

    /// Writes the line below the headings.
    fn push_rule(&mut self, columns: usize) -> Result<(), AllocError> {
        self.push_prefix()?;
        self.output.push('|')?;
        self.push_cells(" --- |", columns)?;
        self.output.push('\n')
    }

    /// Starts a row; before the first one of a table without headings a row without text.
    pub fn start_row(&mut self) -> Result<(), AllocError> {
        let Some(table) = self.table else {
            return Ok(());
        };
        if table.rows == 0 {
            self.start_block()?;
            if !table.shape.has_head {
                self.output.push('|')?;
                self.push_cells("  |", table.shape.columns)?;
                self.output.push('\n')?;
                self.push_rule(table.shape.columns)?;
                self.push_prefix()?;
            }
        } else {
            self.push_prefix()?;
        }
        self.table = Some(Table {
            rows: table.rows.saturating_add(1),
            cells: 0,
            ..table
        });
        self.output.push('|')
    }

    /// Ends a row; the first one has as many cells as the longest.
    pub fn end_row(&mut self) -> Result<(), AllocError> {
        let Some(table) = self.table else {
            return Ok(());
        };
        if table.rows == 1 {
            let missing = table.shape.columns.saturating_sub(table.cells);
            self.push_cells("  |", missing)?;
        }
        self.output.push('\n')?;
        if table.rows == 1 && table.shape.has_head {
            return self.push_rule(table.shape.columns);
        }
        Ok(())
    }

    /// Ends a cell.
    pub fn end_cell(&mut self, forest: &Forest) -> Result<(), AllocError> {
        self.end_line(forest)?;
        if let Some(table) = self.table {
            self.table = Some(Table {
                cells: table.cells.saturating_add(1),
                ..table
            });
        }
        self.output.push_str(" |", '|')
    }
}
