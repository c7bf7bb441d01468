//! The text that is written.

use std::alloc::{AllocError, Global};

/// A Markdown text in the making, of which the last character may be held back.
#[derive(Drop)]
pub(crate) struct Output {
    text: String,
    // A character that isn't written yet: what follows decides how it is written.
    held: Option<char>,
    last: char,
    // Whether a delimiter at the end closes only before white space or punctuation.
    wants_edge: bool,
}

/// Whether a character is white space or punctuation to all readers of Markdown (CommonMark, section 2.1).
pub(crate) fn is_edge(character: char) -> bool {
    character.is_ascii() && !character.is_ascii_alphanumeric()
}

impl Output {
    /// A text without characters.
    pub fn new(alloc: Global) -> Output {
        Output {
            text: String::new(alloc),
            held: None,
            last: '\n',
            wants_edge: false,
        }
    }

    /// Writes what is held back as it is.
    fn settle(&mut self) -> Result<(), AllocError> {
        match self.held {
            Some(character) => {
                self.held = None;
                self.text.push(character)
            }
            None => Ok(()),
        }
    }

    /// Writes a character.
    pub fn push(&mut self, character: char) -> Result<(), AllocError> {
        self.settle()?;
        self.text.push(character)?;
        self.last = character;
        self.wants_edge = false;
        Ok(())
    }

    /// Writes a character again and again.
    pub fn push_many(&mut self, character: char, count: usize) -> Result<(), AllocError> {
        for _ in 0..count {
            self.push(character)?;
        }
        Ok(())
    }

    /// Writes characters of which the last one is `last`.
    pub fn push_str(&mut self, more: &str, last: char) -> Result<(), AllocError> {
        self.settle()?;
        self.text.push_str(more)?;
        self.last = last;
        self.wants_edge = false;
        Ok(())
    }

    /// Writes a character of text, which may yet be written in another way.
    pub fn hold(&mut self, character: char) -> Result<(), AllocError> {
        self.settle()?;
        self.held = Some(character);
        self.last = character;
        self.wants_edge = false;
        Ok(())
    }

    /// Writes a number in decimal digits.
    pub fn push_number(&mut self, number: u32) -> Result<(), AllocError> {
        self.settle()?;
        write!(self.text, "{number}")?;
        self.last = '0';
        self.wants_edge = false;
        Ok(())
    }

    /// Writes a character as a numeric character reference (CommonMark, section 2.5).
    pub fn push_reference(&mut self, character: char) -> Result<(), AllocError> {
        self.push_str("&#", '#')?;
        self.push_number(character as u32)?;
        self.push(';')
    }

    /// Makes the end such that a delimiter opens there (CommonMark, section 6.2): a letter that is last is written as a reference, which
    /// is punctuation to a reader.
    pub fn make_edge(&mut self) -> Result<(), AllocError> {
        match self.held {
            Some(character) => {
                if is_edge(character) {
                    return Ok(());
                }
                self.held = None;
                self.push_reference(character)
            }
            None => Ok(()),
        }
    }

    /// Takes from an exclamation mark at the end that what follows would be read as an image.
    pub fn quiet_mark(&mut self) -> Result<(), AllocError> {
        if self.held == Some('!') {
            self.held = None;
            self.push_str("\\!", '!')
        } else {
            Ok(())
        }
    }

    /// The last character, a line feed at the start.
    pub fn last(&self) -> char {
        self.last
    }

    /// Writes a delimiter that closes.
    pub fn close_with(&mut self, delimiter: char, count: usize) -> Result<(), AllocError> {
        let wants_edge = delimiter == '_' || !self.last.is_alphanumeric();
        self.push_many(delimiter, count)?;
        self.wants_edge = wants_edge;
        Ok(())
    }

    /// Whether what follows has to be white space or punctuation.
    pub fn wants_edge(&self) -> bool {
        self.wants_edge
    }

    /// The text.
    pub fn finish(self) -> Result<String, AllocError> {
        let Output { mut text, held, .. } = self;
        if let Some(character) = held {
            text.push(character)?;
        }
        Ok(text)
    }
}
