//! The writer of a rendered text (HTML Standard, section 3.2.7; CSS Text, section 4.1).
ghost use Rattle.std.specs.Prelude.{◌≡◌, ◌++◌, IfErr, OnOk, option_map, replicate};
ghost use Rattle.std.specs.Str.{chars};
ghost use Rattle.markup.specs.declared.fault.ParseFault.TheVariants.{Memory};
ghost use Rattle.html_inner_text.specs.InnerText as spec;
ghost use Rattle.html_inner_text.specs.Items as items;
ghost use Rattle.html_inner_text.specs.declared.writer.Edge.TheVariants.{LineEnd};

use crate::styles::Style;
use markup::{ParseFault, Text};
use std::alloc::Global;

/// What comes before or after the text in an element.
#[derive(Clone, Copy, Debug)]
pub(crate) enum Edge {
    /// Nothing.
    Nothing,
    /// A character that ends the line.
    LineEnd(char),
    /// A required line break, with its count; with a count of 0 only the edge of a box in which lines begin and end.
    Required(usize),
    /// A box in the line.
    Atomic,
    /// The start of a box in the line that has lines of its own.
    BoxStart,
    /// The end of such a box.
    BoxEnd,
}

/// What a collapsible space comes after.
#[derive(Clone, Copy, Debug)]
pub(crate) enum White {
    /// The start of a line, where it is removed.
    AtLineStart,
    /// Text.
    AfterText,
    /// Another one, which is not yet written.
    AfterSpace,
}

/// Writes the text of items.
#[derive(Drop)]
pub(crate) struct Writer {
    pub text: Text,
    // The greatest count of the required line breaks at the end.
    pub required: usize,
    pub white: White,
}

/// Adds line feeds.
fn push_line_feeds(text: &mut Text, count: usize) -> Result<(), ParseFault>
    ensures ok { OnOk result (text.new ≡ text.old ++ replicate count 10) }
    ensures fault { IfErr result (λ fault. fault ≡ Memory) }
{
    for _index in 0..count {
        text.push('\n')?;
    }
    Ok(())
}

/// Adds the space that waits, if one does.
fn push_space(text: &mut Text, white: White) -> Result<(), ParseFault>
    ensures ok { OnOk result (text.new ≡ text.old ++ spec.waiting_space white) }
    ensures fault { IfErr result (λ fault. fault ≡ Memory) }
{
    match white {
        White::AfterSpace => text.push(' '),
        White::AtLineStart | White::AfterText => Ok(()),
    }
}

fn is_white(character: char) -> bool
    ensures { result ≡ spec.is_white character }
{
    character == ' ' || character == '\t' || character == '\n' || character == '\r'
}

impl White {
    /// What comes after white space here.
    fn after_white(self) -> White
        ensures { result ≡ spec.after_white self }
    {
        match self {
            White::AtLineStart => White::AtLineStart,
            White::AfterText | White::AfterSpace => White::AfterSpace,
        }
    }
}

/// What comes after a preserved character.
fn after_preserved(character: char) -> White
    ensures { result ≡ spec.after_preserved character }
{
    if character == '\n' {
        White::AtLineStart
    } else {
        White::AfterText
    }
}

impl Writer {
    /// A writer that has written nothing.
    pub(crate) fn new(alloc: Global) -> Writer
        ensures { result ≡ spec.empty }
    {
        Writer {
            text: Text::empty(alloc),
            required: 0,
            white: White::AtLineStart,
        }
    }

    // Writes the line feeds of the required line breaks.
    fn break_line(&mut self) -> Result<(), ParseFault>
        ensures text { OnOk result (self.new.text ≡ spec.broken self.old) }
        ensures required { self.new.required ≡ self.old.required }
        ensures white { self.new.white ≡ self.old.white }
        ensures fault { IfErr result (λ fault. fault ≡ Memory) }
    {
        if self.text.is_empty() {
            return Ok(());
        }
        push_line_feeds(&mut self.text, self.required)
    }

    // Writes a character at the end of a line.
    fn end_line(&mut self, character: char) -> Result<(), ParseFault>
        ensures ok { OnOk result (self.new ≡ spec.edged self.old (LineEnd character)) }
        ensures fault { IfErr result (λ fault. fault ≡ Memory) }
    {
        self.break_line()?;
        self.text.push(character)?;
        self.required = 0;
        self.white = White::AtLineStart;
        Ok(())
    }

    // Writes the line feeds and the space before what comes next in the line.
    fn separate(&mut self) -> Result<(), ParseFault>
        ensures ok { OnOk result (self.new ≡ spec.separated self.old) }
        ensures fault { IfErr result (λ fault. fault ≡ Memory) }
    {
        self.break_line()?;
        push_space(&mut self.text, self.white)?;
        self.required = 0;
        Ok(())
    }

    // Writes a character that stays.
    fn show(&mut self, white: White, character: char) -> Result<(), ParseFault>
        ensures ok { OnOk result (self.new ≡ spec.shown self.old white character) }
        ensures fault { IfErr result (λ fault. fault ≡ Memory) }
    {
        self.separate()?;
        self.text.push(character)?;
        self.white = white;
        Ok(())
    }

    // Writes a character of collapsible text.
    fn collapse(&mut self, character: char) -> Result<(), ParseFault>
        ensures ok { OnOk result (self.new ≡ spec.collapsed self.old character) }
        ensures fault { IfErr result (λ fault. fault ≡ Memory) }
    {
        if is_white(character) {
            self.white = self.white.after_white();
            return Ok(());
        }
        self.show(White::AfterText, character)
    }

    // Writes a character of text.
    fn push(&mut self, preserves: bool, character: char) -> Result<(), ParseFault>
        ensures ok { OnOk result (self.new ≡ spec.pushed preserves self.old character) }
        ensures fault { IfErr result (λ fault. fault ≡ Memory) }
    {
        if preserves {
            self.show(after_preserved(character), character)
        } else {
            self.collapse(character)
        }
    }

    // Writes a text.
    #[tactic(auto, using(crate::proofs::Writing::written_more))]
    fn write(&mut self, preserves: bool, text: &str) -> Result<(), ParseFault>
        ensures ok { OnOk result (self.new ≡ spec.written preserves self.old (chars text.now)) }
        ensures fault { IfErr result (λ fault. fault ≡ Memory) }
    {
        for character in text.chars() {
            self.push(preserves, character)?;
        }
        Ok(())
    }

    /// Writes a text that inherits that style, if there is one.
    pub(crate) fn write_text(&mut self, style: Style, text: Option<&str>) -> Result<(), ParseFault>
        ensures ok { OnOk result (self.new ≡ spec.run self.old (items.text_items style (option_map (λ text. chars text.now) text.entry))) }
        ensures fault { IfErr result (λ fault. fault ≡ Memory) }
    {
        match text {
            Some(text) => {
                if style.rendered {
                    self.write(style.preserves, text)
                } else {
                    Ok(())
                }
            }
            None => Ok(()),
        }
    }

    // Notes a required line break.
    fn require(&mut self, count: usize)
        ensures { self.new ≡ spec.required self.old count }
    {
        if self.required < count {
            self.required = count;
        }
        self.white = White::AtLineStart;
    }

    // Notes a box in the line.
    fn put_box(&mut self) -> Result<(), ParseFault>
        ensures ok { OnOk result (self.new ≡ spec.boxed self.old self.old.white) }
        ensures fault { IfErr result (λ fault. fault ≡ Memory) }
    {
        match self.white {
            White::AfterSpace => self.separate()?,
            White::AtLineStart | White::AfterText => {}
        }
        self.white = White::AfterText;
        Ok(())
    }

    /// Writes an edge.
    pub(crate) fn write_edge(&mut self, edge: Edge) -> Result<(), ParseFault>
        ensures ok { OnOk result (self.new ≡ spec.edged self.old edge) }
        ensures fault { IfErr result (λ fault. fault ≡ Memory) }
    {
        match edge {
            Edge::Nothing => Ok(()),
            Edge::LineEnd(character) => self.end_line(character),
            Edge::Required(count) => {
                self.require(count);
                Ok(())
            }
            Edge::Atomic => self.put_box(),
            Edge::BoxStart => {
                self.put_box()?;
                self.require(0);
                Ok(())
            }
            Edge::BoxEnd => {
                self.require(0);
                self.put_box()
            }
        }
    }
}
