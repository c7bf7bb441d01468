//! Text in lines.

use crate::code::push_span;
use crate::escape::{Place, is_white, push_text};
use crate::links::push_image;
use crate::marks::{PLAIN, Style};
use crate::writer::{Room, Writer};
use html_forest::{Forest, NodeId};
use html_nodes::attribute_of;
use std::alloc::AllocError;

impl Writer {
    /// Whether text is in the cell of a table.
    pub fn is_in_cell(&self) -> bool {
        self.room == Room::Cell
    }

    /// Opens a line of text.
    fn open_line(&mut self) -> Result<(), AllocError> {
        self.space = false;
        self.breaks = 0;
        self.written = PLAIN;
        self.is_open = true;
        self.place = Place::Inside;
        match self.room {
            Room::Heading(level) => {
                self.start_block()?;
                self.output.push_many('#', level)?;
                self.output.push(' ')
            }
            Room::Blocks => {
                self.start_block()?;
                self.paragraph_in = Some(self.containers.len());
                self.place = Place::Start;
                Ok(())
            }
            Room::Cell | Room::Code => Ok(()),
        }
    }

    /// Writes the code span that is open.
    fn end_code(&mut self) -> Result<(), AllocError> {
        if !self.code.is_empty() {
            let in_cell = self.is_in_cell();
            push_span(&mut self.output, self.code.as_str(), in_cell)?;
            self.code.clear();
        }
        Ok(())
    }

    /// Closes all that is open in the line.
    pub fn close_marks(&mut self, forest: &Forest) -> Result<(), AllocError> {
        self.end_code()?;
        let in_cell = self.is_in_cell();
        self.marks
            .close_for(forest, &mut self.output, PLAIN, in_cell)
    }

    /// Ends the line of text.
    pub fn end_line(&mut self, forest: &Forest) -> Result<(), AllocError> {
        if self.is_open && self.room != Room::Code {
            self.close_marks(forest)?;
            self.is_open = false;
            if !self.is_in_cell() {
                self.output.push('\n')?;
            }
        }
        Ok(())
    }

    /// Ends the line if an empty one waits, as after two `br`.
    fn end_paragraph(&mut self, forest: &Forest) -> Result<(), AllocError> {
        if self.breaks > 1 && self.room == Room::Blocks {
            self.end_line(forest)?;
        }
        Ok(())
    }

    /// Writes the line break or the space that waits (CommonMark, section 6.7).
    fn push_waiting(&mut self, style: Style) -> Result<(), AllocError> {
        let has_break = self.breaks > 0;
        let has_space = self.space;
        self.breaks = 0;
        self.space = false;
        if has_break {
            self.end_code()?;
            self.output.push_str("\\\n", '\n')?;
            self.place = Place::Start;
            return self.push_prefix();
        }
        if has_space {
            if style.code.is_some() && !self.code.is_empty() {
                return self.code.push(' ');
            }
            return self.output.push(' ');
        }
        Ok(())
    }

    /// Whether code in a style goes on with the code span that is open: code spans can't touch.
    fn goes_on(&self, style: Style) -> bool {
        let other = Style {
            code: self.written.code,
            ..style
        };
        style.code.is_some() && other == self.written && !self.space && self.breaks == 0
    }

    /// Makes ready for something in a style; `is_word` says that it is a letter or a digit.
    fn come_to(&mut self, forest: &Forest, style: Style, is_word: bool) -> Result<(), AllocError> {
        self.end_paragraph(forest)?;
        if !self.is_open {
            self.open_line()?;
        }
        if style != self.written {
            if !self.goes_on(style) {
                self.end_code()?;
            }
            let in_cell = self.is_in_cell();
            self.marks
                .close_for(forest, &mut self.output, style, in_cell)?;
        }
        self.push_waiting(style)?;
        if style != self.written {
            self.marks.open_for(&mut self.output, style, is_word)?;
            if style.link.is_some() || style.strong || style.emphasis {
                self.place = Place::Inside;
            }
            self.written = style;
        }
        Ok(())
    }

    /// Writes a character of text that is no white space.
    fn put_visible(
        &mut self,
        forest: &Forest,
        character: char,
        following: Option<char>,
    ) -> Result<(), AllocError> {
        let style = self.style;
        self.come_to(forest, style, character.is_alphanumeric())?;
        if style.code.is_some() {
            self.place = Place::Inside;
            return self.code.push(character);
        }
        let quoted = self.place.marks_block(character, following)
            || (character == '#' && matches!(self.room, Room::Heading(_)));
        self.place = self.place.after(character);
        push_text(&mut self.output, character, quoted)
    }

    /// Writes a character of text.
    fn put(
        &mut self,
        forest: &Forest,
        character: char,
        following: Option<char>,
    ) -> Result<(), AllocError> {
        if is_white(character) {
            self.space = true;
            return Ok(());
        }
        self.put_visible(forest, character, following)
    }

    /// Writes a text.
    pub fn put_text(&mut self, forest: &Forest, text: &str) -> Result<(), AllocError> {
        let mut waiting = None;
        for character in text.chars() {
            if let Some(before) = waiting {
                self.put(forest, before, Some(character))?;
            }
            waiting = Some(character);
        }
        match waiting {
            Some(last) => self.put(forest, last, None),
            None => Ok(()),
        }
    }

    /// Writes an image.
    pub fn put_image(&mut self, forest: &Forest, id: NodeId) -> Result<(), AllocError> {
        let text = attribute_of(forest, id, "alt").unwrap_or("");
        let url = attribute_of(forest, id, "src").unwrap_or("");
        if text.is_empty() && url.is_empty() {
            return Ok(());
        }
        let style = Style {
            code: None,
            ..self.style
        };
        self.come_to(forest, style, false)?;
        self.place = Place::Inside;
        let in_cell = self.is_in_cell();
        let alloc = *self.code.allocator();
        push_image(alloc, &mut self.output, text, url, in_cell)
    }
}
