//! The writer: lines and the blocks that they are in.

use crate::containers::{Container, Marker, push_empty_line, push_prefix};
use crate::escape::Place;
use crate::marks::{Marks, NOTHING, PLAIN, Style};
use crate::output::Output;
use crate::tables::Table;
use std::alloc::{AllocError, Global};

/// How many quotes and items may stand in one another; those in more are left out, and what is in them stays.
const DEPTH: usize = 32;

/// In what text is written.
#[derive(Clone, Copy, PartialEq, Eq)]
pub(crate) enum Room {
    /// In blocks of its own.
    Blocks,
    /// In a heading of that level.
    Heading(usize),
    /// In the cell of a table.
    Cell,
    /// In a code block.
    Code,
}

/// A list in which items are written.
#[derive(Clone, Copy)]
pub(crate) struct List {
    /// The number of the next item, of a list that has numbers.
    pub number: Option<u32>,
    /// The character before or after which the items are.
    pub mark: char,
    /// Whether there are empty lines between its items.
    pub is_loose: bool,
    /// Whether an item was written.
    pub has_items: bool,
}

/// Writes Markdown.
#[derive(Drop)]
pub(crate) struct Writer {
    pub output: Output,
    pub containers: Vec<Container>,
    pub lists: Vec<List>,
    pub has_blocks: bool,
    // How many containers the last block is in, if it is a paragraph.
    pub paragraph_in: Option<usize>,
    // The mark of the list that ended just now.
    pub ended_list: Option<char>,
    pub room: Room,
    // Whether a line of text is open.
    pub is_open: bool,
    pub style: Style,
    // What is open in the line, and the style of its last character.
    pub marks: Marks,
    pub written: Style,
    // The code of the span or the block that is open.
    pub code: String,
    // Whether white space waits, and how many line breaks do.
    pub space: bool,
    pub breaks: u8,
    pub place: Place,
    pub table: Option<Table>,
}

impl Writer {
    /// A writer that has written nothing.
    pub fn new(alloc: Global) -> Writer {
        Writer {
            output: Output::new(alloc),
            containers: Vec::new(alloc),
            lists: Vec::new(alloc),
            has_blocks: false,
            paragraph_in: None,
            ended_list: None,
            room: Room::Blocks,
            is_open: false,
            style: PLAIN,
            marks: NOTHING,
            written: PLAIN,
            code: String::new(alloc),
            space: false,
            breaks: 0,
            place: Place::Inside,
            table: None,
        }
    }

    /// Writes what stands before a line.
    pub fn push_prefix(&mut self) -> Result<(), AllocError> {
        push_prefix(&mut self.output, &mut self.containers)
    }

    /// Says of the container in which an empty line is written that it has one.
    fn loosen(&mut self, depth: usize) {
        if depth > 0 {
            if let Some(container) = self.containers.get_mut(depth - 1) {
                container.is_loose = true;
            }
        }
    }

    /// Whether the next block follows without an empty line.
    fn joins(&self, depth: usize) -> bool {
        match self.containers.get(depth) {
            Some(container) => container.joins,
            None => false,
        }
    }

    /// Starts a block: writes the empty line before it, and what stands before its first line.
    pub fn start_block(&mut self) -> Result<(), AllocError> {
        if self.has_blocks {
            let depth = self
                .containers
                .iter()
                .position(|container| container.is_fresh)
                .unwrap_or(self.containers.len());
            if !self.joins(depth) {
                self.loosen(depth);
                push_empty_line(&mut self.output, &self.containers)?;
            }
        }
        self.has_blocks = true;
        self.paragraph_in = None;
        self.ended_list = None;
        self.push_prefix()
    }

    /// Whether a list that starts here may follow a paragraph without an empty line (CommonMark, section 5.2).
    fn may_join(&self, first: Option<u32>) -> bool {
        if self.paragraph_in != Some(self.containers.len()) || !matches!(first, None | Some(1)) {
            return false;
        }
        match self.containers.last() {
            Some(container) => !container.is_fresh && !matches!(container.marker, Marker::Quote),
            None => false,
        }
    }

    /// Goes on in a container, if there are not too many; answers whether.
    fn enter(&mut self, marker: Marker, joins: bool) -> Result<bool, AllocError> {
        if self.containers.len() >= DEPTH {
            return Ok(false);
        }
        self.containers.push(Container {
            marker,
            is_fresh: true,
            joins,
            is_loose: false,
        })?;
        Ok(true)
    }

    /// Goes on in a quote.
    pub fn enter_quote(&mut self) -> Result<bool, AllocError> {
        self.enter(Marker::Quote, false)
    }

    /// Goes on in an item of the list.
    pub fn enter_item(&mut self, number: Option<u32>) -> Result<bool, AllocError> {
        let Some(list) = self.lists.last().copied() else {
            return Ok(false);
        };
        let number = match list.number {
            Some(next) => Some(number.unwrap_or(next)),
            None => None,
        };
        let joins = if list.has_items {
            !list.is_loose
        } else {
            self.may_join(number)
        };
        let marker = match number {
            Some(number) => Marker::Number(number, list.mark),
            None => Marker::Bullet(list.mark),
        };
        if let Some(list) = self.lists.last_mut() {
            list.number = match number {
                Some(number) => Some(number.saturating_add(1).min(999_999_999)),
                None => None,
            };
        }
        self.enter(marker, joins)
    }

    /// Goes on after a quote or an item.
    pub fn leave_container(&mut self) {
        let Some(container) = self.containers.pop() else {
            return;
        };
        if matches!(container.marker, Marker::Quote) {
            return;
        }
        if let Some(list) = self.lists.last_mut() {
            list.has_items = list.has_items || !container.is_fresh;
            list.is_loose = list.is_loose || container.is_loose;
        }
    }

    /// Starts a list, with a mark other than that of a list just before it.
    pub fn enter_list(&mut self, first: Option<u32>) -> Result<(), AllocError> {
        let (usual, other) = match first {
            Some(_) => ('.', ')'),
            None => ('-', '+'),
        };
        let mark = if self.ended_list == Some(usual) {
            other
        } else {
            usual
        };
        self.lists.push(List {
            number: first,
            mark,
            is_loose: false,
            has_items: false,
        })?;
        Ok(())
    }

    /// Ends a list.
    pub fn leave_list(&mut self) {
        if let Some(list) = self.lists.pop() {
            if list.has_items {
                self.ended_list = Some(list.mark);
            }
        }
    }
}
