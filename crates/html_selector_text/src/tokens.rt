//! What the characters of a selector are read as.

use markup::Text;
use selectors::Name;

/// How a number begins.
#[derive(Clone, Copy, PartialEq, Eq)]
pub(crate) enum Sign {
    Unsigned,
    Plus,
    Minus,
}

/// A number (CSS Syntax Level 3, section 4.3.12).
#[derive(Clone, Copy)]
pub(crate) struct Number {
    pub sign: Sign,
    /// Whether there is neither a fraction nor an exponent.
    pub is_integer: bool,
    /// The digits before a fraction, without the sign; what is greater counts as 1,000,000,000.
    pub value: u32,
}

/// A token (CSS Syntax Level 3, section 4).
#[derive(Drop)]
pub(crate) enum TokenKind {
    /// A name.
    Ident(Name),
    /// A name with an opening parenthesis.
    Function(Name),
    /// A name behind `@`.
    AtKeyword(Text),
    /// A name behind `#`, and whether it begins as an ident.
    Hash(Text, bool),
    /// A string.
    Str(Text),
    /// A string that does not end on its line.
    BadStr,
    /// A `url()` without quotes.
    Url,
    BadUrl,
    Number(Number),
    Percentage,
    /// A number with a unit.
    Dimension(Number, Name),
    /// White space.
    Space,
    /// `<!--`.
    Cdo,
    /// `-->`.
    Cdc,
    /// Any other character.
    Delim(char),
    /// The end of the text.
    End,
}

/// A token, and how many characters stand before it.
#[derive(Drop)]
pub(crate) struct Token {
    pub kind: TokenKind,
    pub at: usize,
}
