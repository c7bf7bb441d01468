//! The walk of what is written.

use crate::code::fence_of;
use crate::containers::push_empty_line;
use crate::elements::{Role, number_of, role_of};
use crate::escape::is_white;
use crate::marks::Style;
use crate::tables::{Shape, Table};
use crate::writer::{Room, Writer};
use html_forest::{Forest, NodeData, NodeId};
use html_nodes::attribute_of;
use std::alloc::AllocError;
use std::mem;

/// What is done behind an element.
#[derive(Clone, Copy)]
pub(crate) enum Ending {
    /// Nothing.
    Nothing,
    /// The line ends.
    Line,
    /// The line of a heading ends.
    Heading,
    /// A quote or an item ends.
    Container,
    /// A list ends.
    List,
    /// A code block ends.
    Preformatted,
    /// A row ends.
    Row,
    /// A cell ends.
    Cell,
    /// A table that is written as such ends.
    Table,
}

/// An element that is open.
#[derive(Clone, Copy)]
pub(crate) struct Frame {
    pub id: NodeId,
    /// Whether what is in it is left out.
    pub is_hidden: bool,
    /// What comes back behind it.
    style: Style,
    room: Room,
    ending: Ending,
}

/// Whether all of a text is white space.
fn is_blank(text: &str) -> bool {
    text.chars().all(is_white)
}

impl Writer {
    /// The end of a block.
    fn end_block(&mut self, forest: &Forest) -> Result<(), AllocError> {
        match self.room {
            Room::Blocks => self.end_line(forest),
            Room::Heading(_) | Room::Cell => {
                self.space = true;
                Ok(())
            }
            Room::Code => {
                if !self.code.is_empty() && !self.code.as_str().ends_with('\n') {
                    self.code.push('\n')?;
                }
                Ok(())
            }
        }
    }

    /// A line break.
    fn break_line(&mut self) -> Result<(), AllocError> {
        match self.room {
            Room::Blocks => {
                self.breaks = self.breaks.saturating_add(1);
                Ok(())
            }
            Room::Heading(_) | Room::Cell => {
                self.space = true;
                Ok(())
            }
            Room::Code => self.code.push('\n'),
        }
    }

    /// Adds a text to the code block.
    fn put_code(&mut self, text: &str) -> Result<(), AllocError> {
        for character in text.chars() {
            self.code
                .push(if character == '\r' { '\n' } else { character })?;
        }
        Ok(())
    }

    /// Writes a text.
    fn take_text(&mut self, forest: &Forest, text: &str) -> Result<(), AllocError> {
        if self.room == Room::Code {
            self.put_code(text)
        } else {
            self.put_text(forest, text)
        }
    }

    /// Writes a character of a code block; answers whether a line starts after it.
    fn push_of_code(&mut self, character: char, starts: bool) -> Result<bool, AllocError> {
        if character == '\n' {
            if starts {
                push_empty_line(&mut self.output, &self.containers)?;
            } else {
                self.output.push('\n')?;
            }
            return Ok(true);
        }
        if starts {
            self.push_prefix()?;
        }
        self.output.push(character)?;
        Ok(false)
    }

    /// Writes the lines of a code block.
    fn push_code(&mut self, code: &str) -> Result<(), AllocError> {
        let mut starts = true;
        for character in code.chars() {
            starts = self.push_of_code(character, starts)?;
        }
        if starts {
            Ok(())
        } else {
            self.output.push('\n')
        }
    }

    /// Writes the code block that ends.
    fn end_code_block(&mut self) -> Result<(), AllocError> {
        let alloc = *self.code.allocator();
        let code = mem::replace(&mut self.code, String::new(alloc));
        if is_blank(code.as_str()) {
            return Ok(());
        }
        let fence = fence_of(code.as_str()).max(3);
        self.start_block()?;
        self.output.push_many('`', fence)?;
        self.output.push('\n')?;
        self.push_code(code.as_str())?;
        self.push_prefix()?;
        self.output.push_many('`', fence)?;
        self.output.push('\n')
    }

    /// Writes a thematic break. It is one in an item too.
    fn put_rule(&mut self, forest: &Forest) -> Result<(), AllocError> {
        self.end_block(forest)?;
        if self.room == Room::Blocks {
            self.start_block()?;
            self.output.push_str("***\n", '\n')?;
        }
        Ok(())
    }

    /// Starts an item, if there is a list.
    fn enter_li(&mut self, forest: &Forest, id: NodeId) -> Result<Ending, AllocError> {
        self.end_block(forest)?;
        if self.room == Room::Blocks && self.enter_item(number_of(forest, id, "value"))? {
            Ok(Ending::Container)
        } else {
            Ok(Ending::Line)
        }
    }

    fn enter_blockquote(&mut self, forest: &Forest) -> Result<Ending, AllocError> {
        self.end_block(forest)?;
        if self.room == Room::Blocks && self.enter_quote()? {
            Ok(Ending::Container)
        } else {
            Ok(Ending::Line)
        }
    }

    fn enter_ul_or_ol(
        &mut self,
        forest: &Forest,
        first: Option<u32>,
    ) -> Result<Ending, AllocError> {
        self.end_block(forest)?;
        if self.room == Room::Blocks {
            self.enter_list(first)?;
            Ok(Ending::List)
        } else {
            Ok(Ending::Line)
        }
    }

    fn enter_heading(&mut self, forest: &Forest, level: usize) -> Result<Ending, AllocError> {
        self.end_block(forest)?;
        if self.room == Room::Blocks {
            self.room = Room::Heading(level);
            Ok(Ending::Heading)
        } else {
            Ok(Ending::Line)
        }
    }

    fn enter_pre(&mut self, forest: &Forest) -> Result<Ending, AllocError> {
        self.end_block(forest)?;
        if self.room == Room::Blocks {
            self.room = Room::Code;
            Ok(Ending::Preformatted)
        } else {
            Ok(Ending::Line)
        }
    }

    fn enter_table(&mut self, forest: &Forest, shape: Shape) -> Result<Ending, AllocError> {
        self.end_block(forest)?;
        if self.room == Room::Blocks && shape.is_simple {
            self.table = Some(Table {
                shape,
                rows: 0,
                cells: 0,
            });
            Ok(Ending::Table)
        } else {
            Ok(Ending::Line)
        }
    }

    fn enter_row(&mut self, forest: &Forest) -> Result<Ending, AllocError> {
        self.end_block(forest)?;
        if self.room == Room::Blocks && self.table.is_some() {
            self.start_row()?;
            Ok(Ending::Row)
        } else {
            Ok(Ending::Line)
        }
    }

    fn enter_cell(&mut self, forest: &Forest) -> Result<Ending, AllocError> {
        self.end_block(forest)?;
        if self.room == Room::Blocks && self.table.is_some() {
            self.room = Room::Cell;
            self.output.push(' ')?;
            Ok(Ending::Cell)
        } else {
            Ok(Ending::Line)
        }
    }

    /// Starts an element; answers what is done behind it.
    fn start(
        &mut self,
        forest: &Forest,
        id: NodeId,
        role: Role,
        shape: Shape,
    ) -> Result<Ending, AllocError> {
        match role {
            Role::Inline | Role::Hidden => Ok(Ending::Nothing),
            Role::Link => {
                if attribute_of(forest, id, "href").is_some() {
                    self.style.link = Some(id);
                }
                Ok(Ending::Nothing)
            }
            Role::Strong => {
                self.style.strong = true;
                Ok(Ending::Nothing)
            }
            Role::Emphasis => {
                self.style.emphasis = true;
                Ok(Ending::Nothing)
            }
            Role::Code => {
                self.style.code = Some(id);
                Ok(Ending::Nothing)
            }
            Role::Break => {
                self.break_line()?;
                Ok(Ending::Nothing)
            }
            Role::Image => {
                if self.room != Room::Code {
                    self.put_image(forest, id)?;
                }
                Ok(Ending::Nothing)
            }
            Role::Block => {
                self.end_block(forest)?;
                Ok(Ending::Line)
            }
            Role::Rule => {
                self.put_rule(forest)?;
                Ok(Ending::Nothing)
            }
            Role::Heading(level) => self.enter_heading(forest, level),
            Role::Quote => self.enter_blockquote(forest),
            Role::Bullets => self.enter_ul_or_ol(forest, None),
            Role::Numbers => {
                let first = number_of(forest, id, "start").unwrap_or(1);
                self.enter_ul_or_ol(forest, Some(first))
            }
            Role::Item => self.enter_li(forest, id),
            Role::Preformatted => self.enter_pre(forest),
            Role::Table => self.enter_table(forest, shape),
            Role::Row => self.enter_row(forest),
            Role::Cell => self.enter_cell(forest),
        }
    }

    /// Ends an element, while its room is still the one that text in it has.
    fn end(&mut self, forest: &Forest, ending: Ending) -> Result<(), AllocError> {
        match ending {
            Ending::Nothing => Ok(()),
            Ending::Line => self.end_block(forest),
            Ending::Heading => self.end_line(forest),
            Ending::Container => {
                self.end_line(forest)?;
                self.leave_container();
                Ok(())
            }
            Ending::List => {
                self.end_line(forest)?;
                self.leave_list();
                Ok(())
            }
            Ending::Preformatted => self.end_code_block(),
            Ending::Row => self.end_row(),
            Ending::Cell => self.end_cell(forest),
            Ending::Table => {
                self.table = None;
                Ok(())
            }
        }
    }

    /// Goes on behind an element.
    pub fn leave(&mut self, forest: &Forest, frame: Frame) -> Result<(), AllocError> {
        self.end(forest, frame.ending)?;
        self.style = frame.style;
        self.room = frame.room;
        Ok(())
    }

    /// Writes a text, or goes on in another node; `is_hidden` says that what the node is in is left out.
    pub fn take(
        &mut self,
        forest: &Forest,
        id: NodeId,
        role: Role,
        is_hidden: bool,
        shape: Shape,
    ) -> Result<Frame, AllocError> {
        let style = self.style;
        let room = self.room;
        let mut ending = Ending::Nothing;
        if !is_hidden {
            match forest.node(id) {
                Some(NodeData::Text(text)) => self.take_text(forest, text.as_str())?,
                _ => ending = self.start(forest, id, role, shape)?,
            }
        }
        Ok(Frame {
            id,
            is_hidden: is_hidden || matches!(role, Role::Hidden | Role::Image),
            style,
            room,
            ending,
        })
    }
}
