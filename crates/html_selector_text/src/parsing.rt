//! Texts to selectors.
ghost use Rattle.std.specs.Prelude.{◌≡◌, IfOk, Ok};
ghost use Rattle.std.specs.Str.{chars};
ghost use Rattle.std.specs.String.{string_bytes};
ghost use Rattle.html_selector_text.specs.Grammar as defined;
ghost use Rattle.html_selector_text.specs.Results.{Gives, PlacedIn};
ghost use Rattle.html_selector_text.specs.Trees.{list_tree};

use crate::characters::{characters, place_of, preprocessed};
use crate::fault::{SelectorError, SyntaxFault};
use crate::grammar::list;
use crate::parts::beyond_limit;
use crate::reading::{is_end, wrong};
use crate::scanning::tokens;
use crate::selector::Selector;
use crate::simples::ListKind;
use crate::tokens::Token;
use selectors::Selectors;
use std::alloc::Global;

// How many parentheses may be opened in one another, and one more.
const DEEPEST: u8 = 33;

// A list of selectors up to the end.
#[tactic(auto, unfolding(crate::specs::Grammar::selector_list))]
fn selector_list(alloc: Global, tokens: &[Token]) -> Result<Selectors, SelectorError>
    ensures { Gives list_tree result (defined.selector_list tokens.now) }
{
    let (selectors, rest) = list(alloc, DEEPEST, false, ListKind::Plain, tokens)?;
    if is_end(rest) {
        Ok(selectors)
    } else {
        Err(wrong(SyntaxFault::Unexpected, rest))
    }
}

// The same of not too many parts.
#[tactic(auto, unfolding(crate::specs::Grammar::limited))]
fn limited(alloc: Global, tokens: &[Token]) -> Result<Selector, SelectorError>
    ensures { Gives (λ s. list_tree s.selectors) result (defined.limited tokens.now) }
{
    let beyond = beyond_limit(tokens);
    if !beyond.is_empty() {
        return Err(wrong(SyntaxFault::TooManyParts, beyond));
    }
    let selectors = selector_list(alloc, tokens)?;
    Selector::new(alloc, selectors)
}

// An error with its place in the text as it was given.
fn placed_in(text: &[char], error: SelectorError) -> SelectorError
    ensures { PlacedIn text.now error result }
{
    match error {
        SelectorError::Memory => SelectorError::Memory,
        SelectorError::Syntax { fault, at } => SelectorError::Syntax {
            fault,
            at: place_of(at, text),
        },
    }
}

// The selectors that a text is.
#[tactic(auto, unfolding(crate::specs::Grammar::parsed))]
fn read(alloc: Global, text: &str) -> Result<Selector, SelectorError>
    ensures { Gives (λ s. list_tree s.selectors) result (defined.parsed (chars text.now)) }
{
    let given = characters(alloc, text)?;
    let chars = preprocessed(alloc, given.as_slice())?;
    let tokens = tokens(alloc, chars.as_slice())?;
    match limited(alloc, tokens.as_slice()) {
        Ok(selector) => Ok(selector),
        Err(error) => Err(placed_in(given.as_slice(), error)),
    }
}

impl Selector {
    /// The selectors that a text is (Selectors Level 4), with the namespaces that HTML's parser knows under their usual prefixes.
    ///
    /// An error says what is wrong first, from the left, and how many characters stand before that place. The items of `:is()` and
    /// `:where()` that are no selectors are left out (section 18.1); all others are to be selectors.
    pub fn parse(alloc: Global, text: &str) -> Result<Selector, SelectorError>
        ensures exact { Gives (λ s. list_tree s.selectors) result (defined.parsed (chars text.now)) }
        ensures read_back { IfOk result (λ s. defined.parsed (chars (string_bytes s.text)) ≡ Ok (list_tree s.selectors)) }
    {
        read(alloc, text)
    }
}

/// The selectors of [`Selector::parse`], without their text.
pub fn parse(alloc: Global, text: &str) -> Result<Selectors, SelectorError>
    ensures { Gives list_tree result (defined.parsed (chars text.now)) }
{
    let selector = Selector::parse(alloc, text)?;
    Ok(selector.into_selectors())
}
