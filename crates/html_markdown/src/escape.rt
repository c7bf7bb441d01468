//! Characters that would be read as markup.
ghost use Rattle.std.specs.Prelude.{◌≡◌, ◌++◌, IfErr, IfOk, OnOk};
ghost use Rattle.std.specs.Str.{chars};
ghost use Rattle.markup.specs.declared.fault.ParseFault.TheVariants.{Memory};
ghost use Rattle.html_markdown.specs.Description as spec;

use crate::output::{Output, is_edge};
use markup::{ParseFault, Text};
use std::alloc::{AllocError, Global};

/// Whether a character of text is read as markup wherever it stands (CommonMark, sections 2.4 and 6; GitHub's `~` and `|` too).
pub(crate) fn is_markup(character: char) -> bool
    ensures { result ≡ spec.is_markup character }
{
    character == '\\'
        || character == '`'
        || character == '*'
        || character == '_'
        || character == '['
        || character == ']'
        || character == '<'
        || character == '&'
        || character == '~'
        || character == '|'
}

/// Whether it is white space that is collapsed.
pub(crate) fn is_white(character: char) -> bool
    ensures { result ≡ spec.is_white character }
{
    character == ' '
        || character == '\t'
        || character == '\n'
        || character == '\r'
        || character == '\u{c}'
}

/// Adds a character of a description.
#[tactic(auto, unfolding(crate::specs::Description::described))]
fn push_described(text: &mut Text, character: char) -> Result<(), ParseFault>
    ensures ok { OnOk result (text.new ≡ text.old ++ spec.described character) }
    ensures fault { IfErr result (λ fault. fault ≡ Memory) }
{
    if is_white(character) {
        return text.push(' ');
    }
    if is_markup(character) {
        text.push('\\')?;
    }
    text.push(character)
}

/// A text that stands for an image (CommonMark, section 6.4): its white space as spaces, and a backslash before markup.
pub(crate) fn description(alloc: Global, text: &str) -> Result<Text, ParseFault>
    ensures ok { IfOk result (λ made. made ≡ spec.description (chars text.now)) }
    ensures fault { IfErr result (λ fault. fault ≡ Memory) }
{
    let mut made = Text::empty(alloc);
    for character in text.chars() {
        push_described(&mut made, character)?;
    }
    Ok(made)
}

/// Where a character of a paragraph stands in its line.
#[derive(Clone, Copy)]
pub(crate) enum Place {
    /// At the start.
    Start,
    /// After so many digits, with which the line starts.
    Digits(u8),
    /// After something else.
    Inside,
}

/// Whether nothing follows that is known, or white space.
fn is_end(following: Option<char>) -> bool {
    match following {
        Some(character) => is_white(character),
        None => true,
    }
}

/// Whether a character at the start of a line would begin a block, or be the line below a heading or in a table (CommonMark, sections
/// 4 and 5).
fn begins_block(character: char, following: Option<char>) -> bool {
    match character {
        '#' | '>' | '=' => true,
        '+' => is_end(following),
        '-' => is_end(following) || following == Some('-'),
        ':' => is_end(following) || following == Some('-'),
        _ => false,
    }
}

impl Place {
    /// Whether a character here would be read as the markup of a block.
    pub fn marks_block(self, character: char, following: Option<char>) -> bool {
        match self {
            Place::Start => begins_block(character, following),
            Place::Digits(_) => matches!(character, '.' | ')') && is_end(following),
            Place::Inside => false,
        }
    }

    /// The place after a character.
    pub fn after(self, character: char) -> Place {
        match self {
            Place::Start if character.is_ascii_digit() => Place::Digits(1),
            Place::Digits(count) if character.is_ascii_digit() && count < 9 => {
                Place::Digits(count + 1)
            }
            _ => Place::Inside,
        }
    }
}

/// Writes a character of text, with a backslash if it is `quoted`.
pub(crate) fn push_text(
    output: &mut Output,
    character: char,
    quoted: bool,
) -> Result<(), AllocError> {
    if character == '\u{a0}' {
        return output.push_str("&nbsp;", ';');
    }
    if quoted || is_markup(character) {
        output.push('\\')?;
        return output.push(character);
    }
    let is_space = !character.is_ascii() && character.is_whitespace();
    if is_space || (output.wants_edge() && !is_edge(character)) {
        return output.push_reference(character);
    }
    output.hold(character)
}
