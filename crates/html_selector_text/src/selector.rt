//! Selectors that are parsed once and used many times.
ghost use Rattle.std.specs.Prelude.{◌≡◌, ◌==◌, IfErr, IfOk, length, not};
ghost use Rattle.std.specs.Str.{chars};
ghost use Rattle.std.specs.String.{string_bytes};
ghost use Rattle.markup.specs.declared.fault.ParseFault.TheVariants.{Memory};
ghost use Rattle.html_selector_text.specs.Grammar.{short};
ghost use Rattle.html_selector_text.specs.Parts as parts;
ghost use Rattle.html_selector_text.specs.Results.{Gives};
ghost use Rattle.html_selector_text.specs.Scanning as scanning;
ghost use Rattle.html_selector_text.specs.Trees.{list_tree};
ghost use Rattle.html_selector_text.specs.Written.{written};

use crate::characters::characters;
use crate::fault::{SelectorError, SyntaxFault};
use crate::parts::{MOST_PARTS, beyond_limit};
use crate::scanning::tokens;
use crate::writing::to_text;
use markup::ParseFault;
use selectors::Selectors;
use std::alloc::Global;
use std::fmt;
use std::ops::Deref;

/// A list of selectors, parsed once and used many times: `&selector` serves where calls take `&Selectors`. It displays as its text, which
/// is parsed as the same selectors.
///
/// The text is as the CSSOM serializes selectors. What is parsed as the same is written the same: `:where()` as `:is()`, `:nth-child(1)` as
/// `:first-child`, `*|a` as `a`, and `:enabled` and its kin as the selectors that they stand for.
#[derive(Debug, Drop)]
pub struct Selector {
    selectors: Selectors,
    text: String,
    ghost as_written: { chars (string_bytes text) ≡ written (list_tree selectors) },
}

// Whether a text has too many parts. Each has a character at least, so few texts are read.
#[tactic(auto, using(crate::proofs::ReadBack::Lexing::short_text))]
fn is_too_long(alloc: Global, text: &str) -> Result<bool, ParseFault>
    ensures ok { IfOk result (λ long. long ≡ not (length (parts.beyond_limit (scanning.tokens (chars text.now))) == 0)) }
    ensures fault { IfErr result (λ fault. fault ≡ Memory) }
{
    let chars = characters(alloc, text)?;
    if chars.len() < MOST_PARTS {
        return Ok(false);
    }
    let tokens = tokens(alloc, chars.as_slice())?;
    Ok(!beyond_limit(tokens.as_slice()).is_empty())
}

impl Selector {
    // Selectors with their text, if it is short enough.
    pub(crate) fn new(alloc: Global, selectors: Selectors) -> Result<Selector, SelectorError>
        ensures { Gives (λ s. list_tree s.selectors) result (short (list_tree selectors)) }
    {
        let text = to_text(alloc, &selectors)?;
        if is_too_long(alloc, text.as_str())? {
            return Err(SelectorError::Syntax {
                fault: SyntaxFault::TooManyPartsWritten,
                at: 0,
            });
        }
        Ok(Selector { selectors, text })
    }

    /// The selectors, without their text.
    pub fn into_selectors(self) -> Selectors
        ensures { result ≡ self.selectors }
    {
        let Selector { selectors, text: _ } = self;
        selectors
    }

    /// The text that is displayed.
    pub fn as_str(&self) -> &str
        ensures bytes { result.now ≡ string_bytes self.now.text }
        ensures characters { chars result.now ≡ written (list_tree self.now.selectors) }
    {
        self.text.as_str()
    }
}

// A selector serves where the calls that search pages take selectors.
impl Deref for Selector {
    ghost use Rattle.std.specs.Prelude.{◌≡◌};

    type Target = Selectors;

    ghost deref_gives = { λ selector selectors. selectors ≡ selector.selectors };

    fn deref(&self) -> &Selectors {
        &self.selectors
    }
}

impl fmt::Display for Selector {
    ghost use Rattle.std.specs.Prelude.{Some};
    ghost use Rattle.std.specs.String.{string_bytes};

    ghost output = { λ selector. Some (string_bytes selector.text) };

    fn fmt<W: fmt::Write>(&self, f: &mut fmt::Formatter<W>) -> fmt::Result {
        f.pad(self.text.as_str())
    }
}
