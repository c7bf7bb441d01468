//! Words after `<!` and after a doctype's name (HTML Standard, sections 13.2.5.42 and 13.2.5.56).
ghost use Rattle.std.specs.Prelude.{◌≡◌, ◌∷◌, [], ◌++◌, ◌==◌, ◌<◌, nat_eq, IfOk, IfErr, OnOk, length, zip};
ghost use Rattle.std.specs.List.{list_all};
ghost use Rattle.markup.specs.declared.fault.ParseFault.TheVariants.{Memory};
ghost use Rattle.html_tokens.specs.Characters.{ends_word};
ghost use Rattle.html_tokenizer_parts.specs.Keywords.{spelling, is_any_case, letter, leads, becomes, may_become, may_declare};
ghost use Rattle.html_tokenizer_parts.specs.Keywords.{may_identify, front_of, IsPart};

use crate::characters::ends_word;
use markup::{ParseFault, Text};
use std::alloc::Global;
use std::marker::Model;

/// A word that says what a declaration is, or which identifier follows.
#[derive(Clone, Copy)]
pub enum Word {
    Dashes,
    Doctype,
    Cdata,
    Public,
    System,
}

impl Word {
    /// The word's letters, lowered where it is read in any case.
    fn spelling(self) -> &'static [char]
        ensures { result.now ≡ spelling self }
    {
        match self {
            Word::Dashes => &['-', '-'],
            Word::Doctype => &['d', 'o', 'c', 't', 'y', 'p', 'e'],
            Word::Cdata => &['[', 'C', 'D', 'A', 'T', 'A', '['],
            Word::Public => &['p', 'u', 'b', 'l', 'i', 'c'],
            Word::System => &['s', 'y', 's', 't', 'e', 'm'],
        }
    }

    /// A character as it is compared with the word's letters.
    fn letter(self, c: char) -> char
        ensures { result ≡ letter (is_any_case self) c }
    {
        match self {
            Word::Dashes | Word::Cdata => c,
            Word::Doctype | Word::Public | Word::System => c.to_ascii_lowercase(),
        }
    }
}

/// What was read of a word, as it was written.
#[derive(Drop)]
pub struct Keyword {
    letters: Vec<char>,
}

impl Model for Keyword {
    ghost use Rattle.std.specs.Prelude.{List, ℕ};
    ghost use Rattle.html_tokenizer_parts.specs.Keywords.{IsPart};

    ghost Value = { List ℕ };

    ghost view = { λ k. k.letters.items };

    ghost invariant = { λ k. IsPart k.letters.items };
}

impl Keyword {
    /// Nothing yet.
    pub fn new(alloc: Global) -> Keyword
        ensures { result ≡ [] }
    {
        Keyword {
            letters: Vec::new(alloc),
        }
    }

    /// Puts a character at the end.
    pub fn push(&mut self, c: char) -> Result<(), ParseFault>
        requires { IsPart (self.old ++ c ∷ []) }
        ensures ok { OnOk result (self.new ≡ self.old ++ c ∷ []) }
        ensures fault { IfErr result (λ fault. fault ≡ Memory) }
    {
        self.letters.push(c)?;
        Ok(())
    }

    /// Whether nothing was read.
    pub fn is_empty(&self) -> bool
        ensures is { result ≡ (length self.now == 0) }
        ensures part { IsPart self.now }
    {
        self.letters.is_empty()
    }

    /// How many characters were read.
    fn len(&self) -> usize
        ensures is { result ≡ length self.now }
        ensures bound { result < 0xffff_ffff_ffff_ffff }
        ensures part { IsPart self.now }
    {
        self.letters.len()
    }

    /// Whether the word's letters are those that were read, as far as both go.
    fn agrees(&self, word: Word) -> bool
        ensures { result ≡ list_all (λ p. nat_eq p.0 (letter (is_any_case word) p.1)) (zip (spelling word) self.now) }
    {
        word.spelling()
            .iter()
            .zip(self.letters.iter())
            .all(|(w, c)| *w == word.letter(*c))
    }

    /// Whether the word begins with what was read and then has c.
    fn leads(&self, c: char, word: Word) -> bool
        ensures is { result ≡ leads word (self.now ++ c ∷ []) }
        ensures part { IsPart self.now }
    {
        let spelling = word.spelling();
        let read = self.len();
        if read >= spelling.len() {
            return false;
        }
        self.agrees(word) && spelling[read] == word.letter(c)
    }

    /// Whether c makes this the whole word.
    pub fn becomes(&self, c: char, word: Word) -> bool
        ensures is { result ≡ becomes word (self.now ++ c ∷ []) }
        ensures part { IsPart self.now }
    {
        self.leads(c, word) && self.len() + 1 == word.spelling().len()
    }

    /// Whether this, with c after it, is the beginning of the word and not all of it.
    pub fn may_become(&self, c: char, word: Word) -> bool
        ensures { result ≡ may_become word (self.now ++ c ∷ []) }
    {
        self.leads(c, word) && self.len() + 1 < word.spelling().len()
    }

    /// Whether this, with c after it, is the beginning of a word after `<!`.
    pub fn may_declare(&self, c: char) -> bool
        ensures { result ≡ may_declare self.now c }
    {
        self.may_become(c, Word::Dashes)
            || self.may_become(c, Word::Doctype)
            || self.may_become(c, Word::Cdata)
    }

    /// Whether this, with c after it, is the beginning of a word after a doctype's name.
    pub fn may_identify(&self, c: char) -> bool
        ensures { result ≡ may_identify self.now c }
    {
        self.may_become(c, Word::Public) || self.may_become(c, Word::System)
    }

    /// Whether c ends the word before it begins.
    pub fn is_ended(&self, c: char) -> bool
        ensures is { result ≡ ends_word (front_of self.now c) }
        ensures part { IsPart self.now }
    {
        self.is_empty() && ends_word(c)
    }

    /// The characters as a text.
    pub fn text(&self, alloc: Global) -> Result<Text, ParseFault>
        ensures ok { IfOk result (λ text. text ≡ self.now) }
        ensures part { IsPart self.now }
        ensures fault { IfErr result (λ fault. fault ≡ Memory) }
    {
        let mut text = Text::empty(alloc);
        for c in self.letters.iter() {
            text.push(*c)?;
        }
        Ok(text)
    }
}
