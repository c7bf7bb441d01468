//! Links and emphasis: what is open, what text is to have, and the delimiters between.

use crate::links::push_destination;
use crate::output::Output;
use html_forest::{Forest, NodeId};
use html_nodes::attribute_of;
use std::alloc::AllocError;

/// What a text is in. Of links in one another the inner one counts.
#[derive(Clone, Copy, PartialEq, Eq)]
pub(crate) struct Style {
    pub link: Option<NodeId>,
    pub strong: bool,
    pub emphasis: bool,
    pub code: Option<NodeId>,
}

/// A text that is in nothing.
pub(crate) const PLAIN: Style = Style {
    link: None,
    strong: false,
    emphasis: false,
    code: None,
};

/// What is open: a link, in it strong emphasis, in that emphasis; each with the character of its delimiter.
#[derive(Clone, Copy)]
pub(crate) struct Marks {
    pub link: Option<NodeId>,
    pub strong: Option<char>,
    pub emphasis: Option<char>,
}

/// Nothing is open.
pub(crate) const NOTHING: Marks = Marks {
    link: None,
    strong: None,
    emphasis: None,
};

/// Writes a delimiter that opens; `before_word` says that a letter or a digit follows, as it is. Delimiters that touch have different
/// characters, so that they are not read as one run (CommonMark, section 6.2).
fn open_with(output: &mut Output, count: usize, before_word: bool) -> Result<char, AllocError> {
    let delimiter = if output.last() == '*' { '_' } else { '*' };
    if !before_word {
        output.make_edge()?;
    }
    output.push_many(delimiter, count)?;
    Ok(delimiter)
}

impl Marks {
    /// Closes the link.
    fn close_link(
        &mut self,
        forest: &Forest,
        output: &mut Output,
        in_cell: bool,
    ) -> Result<(), AllocError> {
        if let Some(id) = self.link {
            output.push_str("](", '(')?;
            push_destination(
                output,
                attribute_of(forest, id, "href").unwrap_or(""),
                in_cell,
            )?;
            output.push(')')?;
            self.link = None;
        }
        Ok(())
    }

    fn close_strong(&mut self, output: &mut Output) -> Result<(), AllocError> {
        if let Some(delimiter) = self.strong {
            output.close_with(delimiter, 2)?;
            self.strong = None;
        }
        Ok(())
    }

    fn close_emphasis(&mut self, output: &mut Output) -> Result<(), AllocError> {
        if let Some(delimiter) = self.emphasis {
            output.close_with(delimiter, 1)?;
            self.emphasis = None;
        }
        Ok(())
    }

    /// Closes what a text of that style is not in.
    pub fn close_for(
        &mut self,
        forest: &Forest,
        output: &mut Output,
        style: Style,
        in_cell: bool,
    ) -> Result<(), AllocError> {
        let other_link = self.link != style.link;
        let other_strong = other_link || self.strong.is_some() != style.strong;
        if other_strong || !style.emphasis {
            self.close_emphasis(output)?;
        }
        if other_link || !style.strong {
            self.close_strong(output)?;
        }
        if other_link {
            self.close_link(forest, output, in_cell)?;
        }
        Ok(())
    }

    /// Opens the link.
    fn open_link(&mut self, output: &mut Output, link: Option<NodeId>) -> Result<(), AllocError> {
        if let (Some(id), None) = (link, self.link) {
            output.quiet_mark()?;
            output.push('[')?;
            self.link = Some(id);
        }
        Ok(())
    }

    /// Opens strong emphasis.
    fn open_strong(&mut self, output: &mut Output, before_word: bool) -> Result<(), AllocError> {
        if self.strong.is_none() {
            self.strong = Some(open_with(output, 2, before_word)?);
        }
        Ok(())
    }

    /// Opens emphasis.
    fn open_emphasis(&mut self, output: &mut Output, before_word: bool) -> Result<(), AllocError> {
        if self.emphasis.is_none() {
            self.emphasis = Some(open_with(output, 1, before_word)?);
        }
        Ok(())
    }

    /// Whether emphasis opens for a text of that style.
    fn opens_emphasis(&self, style: Style) -> bool {
        style.emphasis && self.emphasis.is_none()
    }

    /// Opens what a text of that style is in.
    pub fn open_for(
        &mut self,
        output: &mut Output,
        style: Style,
        is_word: bool,
    ) -> Result<(), AllocError> {
        let is_word = is_word && style.code.is_none();
        self.open_link(output, style.link)?;
        if style.strong {
            let before_word = is_word && !self.opens_emphasis(style);
            self.open_strong(output, before_word)?;
        }
        if style.emphasis {
            self.open_emphasis(output, is_word)?;
        }
        Ok(())
    }
}
