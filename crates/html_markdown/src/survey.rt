//! Which tables can be written as such: a walk before the one that writes.

use crate::elements::{Role, role_of};
use crate::escape::is_white;
use crate::tables::{NO_ROWS, Shape, is_heading};
use html_forest::{Forest, NodeData, NodeId};
use html_nodes::{is_html, nodes_below};
use std::alloc::{AllocError, Global};

/// An element that is open.
#[derive(Clone, Copy)]
struct Open {
    id: NodeId,
    is_hidden: bool,
    is_table: bool,
    is_block: bool,
}

/// What is known of the tables so far.
#[derive(Drop)]
struct Survey {
    /// Of each table, in tree order.
    shapes: Vec<Shape>,
    /// The places of those that are open.
    tables: Vec<usize>,
    /// Whether the cell or caption has text, and whether a block began or ended since.
    has_text: bool,
    has_edge: bool,
    /// Whether a cell or a caption began in the table.
    is_in_cell: bool,
}

impl Survey {
    /// The table in which the walk is.
    fn shape(&mut self) -> Option<&mut Shape> {
        let place = *self.tables.last()?;
        self.shapes.get_mut(place)
    }

    /// Notes that the table is none that Markdown can have.
    fn refuse(&mut self) {
        if let Some(shape) = self.shape() {
            shape.is_simple = false;
        }
    }

    fn start_table(&mut self) -> Result<(), AllocError> {
        self.refuse();
        self.tables.push(self.shapes.len())?;
        self.shapes.push(NO_ROWS)?;
        self.is_in_cell = false;
        Ok(())
    }

    fn start_row(&mut self) {
        if let Some(shape) = self.shape() {
            shape.add_row();
        }
        self.is_in_cell = false;
    }

    /// Notes that a line of text may begin.
    fn start_line(&mut self) {
        self.is_in_cell = true;
        self.has_text = false;
        self.has_edge = false;
    }

    fn start_cell(&mut self, is_heading: bool) {
        if let Some(shape) = self.shape() {
            shape.add_cell(is_heading);
        }
        self.start_line();
    }

    fn start_caption(&mut self) {
        if let Some(shape) = self.shape() {
            if shape.rows > 0 {
                shape.is_simple = false;
            }
        }
        self.start_line();
    }

    fn start_block(&mut self, forest: &Forest, id: NodeId) {
        if is_html(forest, id, "caption") {
            self.start_caption();
        } else {
            self.has_edge = true;
        }
    }

    /// Notes something that shows in a line.
    fn show(&mut self) {
        if !self.is_in_cell || (self.has_text && self.has_edge) {
            self.refuse();
        }
        self.has_text = true;
        self.has_edge = false;
    }

    /// Notes the start of an element.
    fn start(&mut self, forest: &Forest, id: NodeId, role: Role) -> Result<(), AllocError> {
        match role {
            Role::Table => self.start_table(),
            Role::Row => {
                self.start_row();
                Ok(())
            }
            Role::Cell => {
                self.start_cell(is_heading(forest, id));
                Ok(())
            }
            Role::Block => {
                self.start_block(forest, id);
                Ok(())
            }
            Role::Image => {
                self.show();
                Ok(())
            }
            Role::Heading(_)
            | Role::Rule
            | Role::Quote
            | Role::Bullets
            | Role::Numbers
            | Role::Item
            | Role::Preformatted => {
                self.refuse();
                Ok(())
            }
            _ => Ok(()),
        }
    }

    /// Notes a node; `is_hidden` says that what it is in is left out.
    fn take(&mut self, forest: &Forest, id: NodeId, is_hidden: bool) -> Result<Open, AllocError> {
        let role = role_of(forest, id);
        if !is_hidden {
            match forest.node(id) {
                Some(NodeData::Text(text)) => {
                    if !text.as_str().chars().all(is_white) {
                        self.show();
                    }
                }
                _ => self.start(forest, id, role)?,
            }
        }
        Ok(Open {
            id,
            is_hidden: is_hidden || matches!(role, Role::Hidden | Role::Image),
            is_table: !is_hidden && role == Role::Table,
            is_block: !is_hidden && role == Role::Block,
        })
    }

    /// Notes the end of an element.
    fn leave(&mut self, open: Open) {
        if open.is_table {
            let _ = self.tables.pop();
        }
        if open.is_block {
            self.has_edge = true;
        }
    }

    /// Notes the end of the elements that a node with that parent is not in.
    fn leave_to(&mut self, opens: &mut Vec<Open>, parent: Option<NodeId>) {
        while let Some(open) = opens.last().copied() {
            if Some(open.id) == parent {
                break;
            }
            let _ = opens.pop();
            self.leave(open);
        }
    }
}

/// The tables in a node, in tree order, but for those that are left out.
pub(crate) fn shapes_of(
    alloc: Global,
    forest: &Forest,
    top: NodeId,
) -> Result<Vec<Shape>, AllocError> {
    let mut survey = Survey {
        shapes: Vec::new(alloc),
        tables: Vec::new(alloc),
        has_text: false,
        has_edge: false,
        is_in_cell: false,
    };
    let mut opens = Vec::new(alloc);
    opens.push(survey.take(forest, top, false)?)?;
    for id in nodes_below(forest, top) {
        survey.leave_to(&mut opens, forest.parent(id));
        let is_hidden = match opens.last() {
            Some(open) => open.is_hidden,
            None => false,
        };
        opens.push(survey.take(forest, id, is_hidden)?)?;
    }
    Ok(survey.shapes)
}
