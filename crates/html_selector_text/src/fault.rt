//! Why a text is no selector.
ghost use Rattle.std.specs.Prelude.{◌≡◌};
ghost use Rattle.html_selector_text.specs.declared.fault.SelectorError.TheVariants.{Memory};

use markup::ParseFault;
use std::alloc::{AllocError, AllocFailed};
use std::error::Error;
use std::fmt;

/// What is wrong with a text.
#[derive(Clone, Copy, Debug, PartialEq, Eq)]
pub enum SyntaxFault {
    /// A selector is missing: the text is empty, or nothing stands beside a comma or a combinator.
    NoSelector,
    /// This continues no selector.
    Unexpected,
    /// A name is missing.
    NoName,
    /// After the name of an attribute stands neither an operator nor `]`.
    NoOperator,
    /// After an operator stands neither a name nor a string that ends on its line.
    NoValue,
    /// After a value stands neither `i` nor `s` nor `]`.
    NoBracket,
    /// A closing parenthesis is missing.
    NoParenthesis,
    /// No pseudo-class of that name is known.
    UnknownPseudoClass,
    /// A pseudo-element is no element.
    PseudoElement,
    /// No namespace of that prefix is known.
    UnknownPrefix,
    /// In the parentheses stands no An+B (CSS Syntax, section 6).
    NoNth,
    /// `:has()` stands in `:has()`.
    HasInHas,
    /// More than 32 parentheses stand in one another.
    TooDeep,
    /// There are more than 4,096 parts: type selectors, `*`, ids, classes, attribute selectors and pseudo-classes.
    TooManyParts,
    /// The text that is displayed of the selectors has more than 4,096 parts.
    TooManyPartsWritten,
}

/// Why no selector came of a text.
#[derive(Clone, Copy, Debug, PartialEq, Eq)]
pub enum SelectorError {
    /// There was no memory.
    Memory,
    /// The text is no selector.
    Syntax {
        /// What is wrong.
        fault: SyntaxFault,
        /// How many characters stand before the place.
        at: usize,
    },
}

fn words(fault: SyntaxFault) -> &'static str {
    match fault {
        SyntaxFault::NoSelector => "a selector is missing",
        SyntaxFault::Unexpected => "this continues no selector",
        SyntaxFault::NoName => "a name is missing",
        SyntaxFault::NoOperator => "neither an operator nor `]` follows the name of an attribute",
        SyntaxFault::NoValue => "neither a name nor a string follows the operator",
        SyntaxFault::NoBracket => "neither `i` nor `s` nor `]` follows the value",
        SyntaxFault::NoParenthesis => "a closing parenthesis is missing",
        SyntaxFault::UnknownPseudoClass => "no pseudo-class of that name is known",
        SyntaxFault::PseudoElement => "a pseudo-element is no element",
        SyntaxFault::UnknownPrefix => "no namespace of that prefix is known",
        SyntaxFault::NoNth => "this is no An+B, as `2n+1`",
        SyntaxFault::HasInHas => "`:has()` stands in `:has()`",
        SyntaxFault::TooDeep => "more than 32 parentheses stand in one another",
        SyntaxFault::TooManyParts => "there are more than 4,096 parts",
        SyntaxFault::TooManyPartsWritten =>
            "the selectors, written out, have more than 4,096 parts",
    }
}

impl fmt::Display for SyntaxFault {
    fn fmt<W: fmt::Write>(&self, f: &mut fmt::Formatter<W>) -> fmt::Result {
        f.write_str(words(*self))
    }
}

impl fmt::Display for SelectorError {
    fn fmt<W: fmt::Write>(&self, f: &mut fmt::Formatter<W>) -> fmt::Result {
        match self {
            SelectorError::Memory => f.write_str("there was no memory"),
            SelectorError::Syntax { fault, at } => write!(f, "at character {at}: {fault}"),
        }
    }
}

impl Error for SelectorError {}

impl From<ParseFault> for SelectorError {
    ghost from_gives = { λ _ e. e ≡ Memory };

    fn from(_fault: ParseFault) -> SelectorError {
        SelectorError::Memory
    }
}

impl From<AllocError> for SelectorError {
    ghost from_gives = { λ _ e. e ≡ Memory };

    fn from(_error: AllocError) -> SelectorError {
        SelectorError::Memory
    }
}

impl<T: Drop> From<AllocFailed<T>> for SelectorError {
    ghost from_gives = { λ _ e. e ≡ Memory };

    fn from(_error: AllocFailed<T>) -> SelectorError {
        SelectorError::Memory
    }
}
