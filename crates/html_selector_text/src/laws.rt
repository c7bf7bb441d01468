//! What is written of selectors is read as the same.
ghost use Rattle.std.specs.Prelude.{◌≡◌, ◌≤◌, ◌++◌, ℕ, List, Ok};
ghost use Rattle.html_selector_text.specs.Grammar.{parsed};
ghost use Rattle.html_selector_text.specs.Readable.{IsReadable};
ghost use Rattle.html_selector_text.specs.Trees.{ListTree};
ghost use Rattle.html_selector_text.specs.declared.tokens.TokenKind.TheVariants.{Str};
ghost use Rattle.html_selector_text.specs.declared.nth.Term.{Term};
ghost use Rattle.html_selector_text.specs.Nth.{IsPlace, IsSum, places};
ghost use Rattle.html_selector_text.specs.Scanning.{digits, name, read, token};
ghost use Rattle.html_selector_text.specs.Written.{EndsName, NoZero, decimal, identifier, quoted, written};

/// An identifier that is written is read as the same name, where no name goes on behind it.
pub fn identifiers_are_read()
    ensures { (text rest : List ℕ) → NoZero text → EndsName rest → name (identifier text ++ rest) ≡ record { text = text; rest = rest } }
{}

/// A string that is written is one token, of the same characters.
pub fn strings_are_read()
    ensures { (text rest : List ℕ) → NoZero text → token (quoted text ++ rest) ≡ read (Str text) rest }
{}

/// A number that is written is read as the same number, with the digits behind it.
pub fn numbers_are_read()
    ensures { (n : ℕ) (rest : List ℕ) → n ≤ 1000000000 → digits 0 (decimal n ++ rest) ≡ digits n rest }
{}

/// An+B counts, of the numbers from 1 on, just the sums of B and a multiple of A.
pub fn places_are_sums()
    ensures places { (a b : Term) (k : ℕ) → 1 ≤ k → IsPlace (places a b) k → IsSum a b k }
    ensures sums { (a b : Term) (k : ℕ) → 1 ≤ k → IsSum a b k → IsPlace (places a b) k }
{}

/// What any text is parsed as is read back from the text that is written of it. Of all selectors, just those are read back that are as
/// parsing gives them.
pub fn selectors_are_read()
    ensures parsed { (text : List ℕ) (list : ListTree) → parsed text ≡ Ok list → parsed (written list) ≡ Ok list }
    ensures read_back { (list : ListTree) → IsReadable list → parsed (written list) ≡ Ok list }
    ensures these_alone { (list : ListTree) → parsed (written list) ≡ Ok list → IsReadable list }
{}
