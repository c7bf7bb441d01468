//! The URLs of a `srcset` (HTML Standard, section 4.8.4.2.1, "parse a srcset attribute").
ghost use Rattle.std.specs.Prelude.{◌≡◌, ◌∷◌, ◌++◌, ℕ, [], IfErr, IfOk, List, OnOk};
ghost use Rattle.std.specs.Str.{chars};
ghost use Rattle.markup.specs.declared.fault.ParseFault.TheVariants.{Memory};
ghost use Rattle.html_srcset.specs.Srcset as spec;
ghost use Rattle.html_srcset.specs.Srcset.{before, is_between, spot_behind, spot_of, urls_from, within};
ghost use Rattle.html_srcset.specs.declared.srcset.Place.TheVariants.{Before, Within};

use markup::{ParseFault, Text};
use std::alloc::Global;

/// Where a character stands.
#[derive(Clone, Copy)]
enum Place {
    /// Before a URL.
    Before,
    /// In a URL.
    Within,
    /// In the description of a URL, in parentheses or not.
    Behind { in_parentheses: bool },
}

/// What was read of a value.
#[derive(Drop)]
struct Reading {
    place: Place,
    // The URL that has begun, without the commas at its end, and these.
    url: Text,
    commas: Text,
    found: Vec<Text>,
}

/// Whether a character stands between two URLs with their descriptions.
fn is_between(c: char) -> bool
    ensures { result ≡ is_between c }
{
    c.is_ascii_whitespace() || c == ','
}

/// Where the character after one in a description stands.
fn place_behind(in_parentheses: bool, c: char) -> Place
    ensures { (url commas : List ℕ) → spot_of result url commas ≡ spot_behind in_parentheses c }
{
    if c == '(' {
        return Place::Behind {
            in_parentheses: true,
        };
    }
    if c == ')' {
        return Place::Behind {
            in_parentheses: false,
        };
    }
    if c == ',' && !in_parentheses {
        return Place::Before;
    }
    Place::Behind { in_parentheses }
}

impl Reading {
    /// Takes a character that stands before a URL.
    fn take_between(&mut self, c: char) -> Result<(), ParseFault>
        requires { self.old.place ≡ Before }
        ensures ok { OnOk result ((rest : List ℕ)
            → self.new.found.items ++ urls_from (spot_of self.new.place self.new.url self.new.commas) rest
            ≡ self.old.found.items ++ urls_from before (c ∷ rest)) }
        ensures fault { IfErr result (λ fault. fault ≡ Memory) }
    {
        if is_between(c) {
            return Ok(());
        }
        self.url.clear();
        self.url.push(c)?;
        self.commas.clear();
        self.place = Place::Within;
        Ok(())
    }

    /// Ends the URL that has begun.
    fn end_url(&mut self) -> Result<(), ParseFault>
        ensures found { OnOk result (self.new.found.items ≡ self.old.found.items ++ self.old.url ∷ []) }
        ensures place { OnOk result ((url commas : List ℕ) → spot_of self.new.place url commas ≡ spec.spot_after self.old.commas) }
        ensures fault { IfErr result (λ fault. fault ≡ Memory) }
    {
        self.place = if self.commas.is_empty() {
            Place::Behind {
                in_parentheses: false,
            }
        } else {
            Place::Before
        };
        self.found.push(self.url.take())?;
        Ok(())
    }

    /// Takes a character that stands in a URL.
    fn take_within(&mut self, c: char) -> Result<(), ParseFault>
        requires { self.old.place ≡ Within }
        ensures ok { OnOk result ((rest : List ℕ)
            → self.new.found.items ++ urls_from (spot_of self.new.place self.new.url self.new.commas) rest
            ≡ self.old.found.items ++ urls_from (within self.old.url self.old.commas) (c ∷ rest)) }
        ensures fault { IfErr result (λ fault. fault ≡ Memory) }
    {
        if c.is_ascii_whitespace() {
            return self.end_url();
        }
        if c == ',' {
            return self.commas.push(c);
        }
        self.url.append(&self.commas)?;
        self.url.push(c)?;
        self.commas.clear();
        Ok(())
    }

    /// Takes a character.
    fn take(&mut self, c: char) -> Result<(), ParseFault>
        ensures ok { OnOk result ((rest : List ℕ)
            → self.new.found.items ++ urls_from (spot_of self.new.place self.new.url self.new.commas) rest
            ≡ self.old.found.items ++ urls_from (spot_of self.old.place self.old.url self.old.commas) (c ∷ rest)) }
        ensures fault { IfErr result (λ fault. fault ≡ Memory) }
    {
        match self.place {
            Place::Before => self.take_between(c),
            Place::Within => self.take_within(c),
            Place::Behind { in_parentheses } => {
                self.place = place_behind(in_parentheses, c);
                Ok(())
            }
        }
    }

    /// The URLs, where the value ends.
    fn finish(self) -> Result<Vec<Text>, ParseFault>
        ensures ok { IfOk result (λ found. found.items ≡ self.found.items ++ urls_from (spot_of self.place self.url self.commas) []) }
        ensures fault { IfErr result (λ fault. fault ≡ Memory) }
    {
        let Reading {
            place,
            url,
            mut found,
            ..
        } = self;
        if let Place::Within = place {
            found.push(url)?;
        }
        Ok(found)
    }
}

/// The URLs of a `srcset`, in their order; what is said of them is passed over.
pub fn candidates(alloc: Global, value: &str) -> Result<Vec<Text>, ParseFault>
    ensures ok { IfOk result (λ found. found.items ≡ spec.candidates (chars value.now)) }
    ensures fault { IfErr result (λ fault. fault ≡ Memory) }
{
    let mut reading = Reading {
        place: Place::Before,
        url: Text::empty(alloc),
        commas: Text::empty(alloc),
        found: Vec::new(alloc),
    };
    for c in value.chars() {
        reading.take(c)?;
    }
    reading.finish()
}
