//! Words of ASCII letters.
ghost use Rattle.std.specs.Prelude.{codes, ◌≡◌, ◌∷◌, [], ◌++◌, true, map, IfOk, IfErr, OnOk, OnErr, length, ◌==◌};
ghost use Rattle.std.specs.Char.{is_ascii_alphabetic, to_ascii_lowercase};
ghost use Rattle.std.specs.List.{list_all};
ghost use Rattle.std.specs.Str.{chars};
ghost use Rattle.markup.specs.declared.fault.ParseFault.TheVariants.{Memory};
ghost use Rattle.html_tokenizer_parts.specs.Words.{has_next, same_any_case};

use markup::{ParseFault, Text};
use std::alloc::Global;
use std::marker::Model;

/// A word of ASCII letters, as it was written.
#[derive(Drop)]
pub struct Letters {
    text: Text,
}

impl Model for Letters {
    ghost use Rattle.std.specs.Prelude.{List, ℕ, ◌≡◌, true};
    ghost use Rattle.std.specs.Char.{is_ascii_alphabetic};
    ghost use Rattle.std.specs.List.{list_all};

    ghost Value = { List ℕ };

    ghost view = { λ w. w.text };

    ghost invariant = { λ w. list_all is_ascii_alphabetic w.text ≡ true };
}

impl Letters {
    /// No letters yet.
    pub fn new(alloc: Global) -> Letters
        ensures { result ≡ [] }
    {
        Letters {
            text: Text::empty(alloc),
        }
    }

    /// Puts a letter at the end.
    pub fn push(&mut self, letter: char) -> Result<(), ParseFault>
        requires { is_ascii_alphabetic letter ≡ true }
        ensures ok { OnOk result (self.new ≡ self.old ++ letter ∷ []) }
        ensures err { OnErr result (self.new ≡ self.old) }
        ensures fault { IfErr result (λ fault. fault ≡ Memory) }
    {
        self.text.push(letter)
    }

    /// The word of one letter.
    pub fn first(alloc: Global, letter: char) -> Result<Letters, ParseFault>
        requires { is_ascii_alphabetic letter ≡ true }
        ensures ok { IfOk result (λ word. word ≡ letter ∷ []) }
        ensures fault { IfErr result (λ fault. fault ≡ Memory) }
    {
        let mut word = Letters::new(alloc);
        word.push(letter)?;
        Ok(word)
    }

    /// The letters, as they were written.
    pub fn as_str(&self) -> &str
        ensures is { chars result.now ≡ self.now }
        ensures letters { list_all is_ascii_alphabetic self.now ≡ true }
    {
        self.text.as_str()
    }

    /// Whether there is no letter.
    pub fn is_empty(&self) -> bool
        ensures { result ≡ (length self.now == 0) }
    {
        self.text.is_empty()
    }

    /// Whether this is the given name, in any case.
    pub fn is_any_case(&self, name: &str) -> bool
        ensures is { result ≡ same_any_case (chars name.now) self.now }
        ensures letters { list_all is_ascii_alphabetic self.now ≡ true }
    {
        name.eq_ignore_ascii_case(self.text.as_str())
    }

    /// Whether a name has this letter, in any case, after as many letters as stand here.
    pub fn is_next_in(&self, name: &str, letter: char) -> bool
        ensures { result ≡ has_next name.now self.now letter }
    {
        let place = self.text.as_str().len();
        if place >= name.len() {
            return false;
        }
        char::from(name.as_bytes()[place]).to_ascii_lowercase() == letter.to_ascii_lowercase()
    }

    /// Whether this is `script`, in any case.
    pub fn is_script(&self) -> bool
        ensures is { result ≡ same_any_case (codes "script") self.now }
        ensures letters { list_all is_ascii_alphabetic self.now ≡ true }
    {
        self.is_any_case("script")
    }

    /// The same letters.
    pub fn copied(&self, alloc: Global) -> Result<Letters, ParseFault>
        ensures ok { IfOk result (λ word. word ≡ self.now) }
        ensures fault { IfErr result (λ fault. fault ≡ Memory) }
    {
        let text = Text::from_str(alloc, self.text.as_str())?;
        Ok(Letters { text })
    }

    /// The letters lowered.
    pub fn lowered(&self, alloc: Global) -> Result<Text, ParseFault>
        ensures ok { IfOk result (λ name. name ≡ map to_ascii_lowercase self.now) }
        ensures letters { list_all is_ascii_alphabetic self.now ≡ true }
        ensures fault { IfErr result (λ fault. fault ≡ Memory) }
    {
        let mut lowered = Text::empty(alloc);
        lowered.push_lowered(self.text.as_str())?;
        Ok(lowered)
    }
}
