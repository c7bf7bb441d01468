//! What stands around a place, on its line.
ghost use Rattle.std.specs.Prelude.{◌≡◌, ◌++◌, ◌<◌, ℕ, List, IfSome, length, take, true};
ghost use Rattle.std.specs.Str.{IsCharBoundary, chars};
ghost use Rattle.html_places.specs.Around.{IsAround, IsGone};
ghost use Rattle.html_places.specs.Places.{place_after};

use crate::cutting::{Size, cut};
use crate::place::{Front, Place};

/// How many characters of its line stand before a place, and behind it, at most.
const REACH: usize = 60;

/// What stands around a place on its line: at most 60 characters before it, and as many behind it.
#[derive(Clone, Copy, Debug)]
pub struct Around<'a> {
    /// What stands before the place.
    pub before: &'a str,
    /// What stands behind it.
    pub behind: &'a str,
}

/// A text that is gone through once, for what stands around places that come in order.
#[derive(Clone, Copy)]
pub struct Surroundings<'a> {
    text: &'a str,
    // What was not gone through, and how far that is.
    rest: &'a str,
    front: Front,
    // How many bytes of its line stand before the rest.
    line: usize,
}

/// A text in two, of which the first has so many bytes; or in one, where it can't be cut there.
fn halves(text: &str, at: usize) -> (&str, &str)
    ensures whole { text.now ≡ result.0.now ++ result.1.now }
    ensures front { IsCharBoundary text.now at → result.0.now ≡ take at text.now }
{
    if !text.is_char_boundary(at) {
        return (text, "");
    }
    text.split_at(at)
}

/// The last characters of a text, at most 60.
fn last_of(text: &str) -> &str
    ensures { (left : List ℕ) × (text.now ≡ left ++ result.now) }
{
    let mut characters = text.chars();
    for _ in 0..REACH {
        if characters.next_back().is_none() {
            return text;
        }
    }
    halves(text, characters.as_str().len()).1
}

/// How many bytes the first characters of the first line of a text have, at most 60.
fn first_len(text: &str) -> usize {
    let mut characters = text.chars();
    for _ in 0..REACH {
        let left = characters.as_str().len();
        match characters.next() {
            None | Some('\n' | '\r') => return text.len().saturating_sub(left),
            Some(_) => {}
        }
    }
    text.len().saturating_sub(characters.as_str().len())
}

/// The first characters of the first line of a text, at most 60.
fn first_of(text: &str) -> &str
    ensures { (right : List ℕ) × (text.now ≡ result.now ++ right) }
{
    halves(text, first_len(text)).0
}

/// The end of a text that has so many bytes.
fn last_bytes(text: &str, len: usize) -> &str
    ensures { (left : List ℕ) × (text.now ≡ left ++ result.now) }
{
    halves(text, text.len().saturating_sub(len)).1
}

impl<'a> Surroundings<'a> {
    /// Those of a text of which nothing was gone through.
    pub fn new(text: &'a str) -> Surroundings<'a>
        ensures gone { IsGone result }
        ensures text { result.text.now ≡ text.now }
    {
        Surroundings {
            text,
            rest: text,
            front: Front::new(),
            line: 0,
        }
    }

    /// Whether the text was gone through up to a place, and not just to the middle of a line end.
    fn is_at(&self, place: Place) -> bool
        ensures { result ≡ true → place ≡ self.now.front.place }
    {
        place == self.front.place && !(self.front.is_return() && self.rest.starts_with('\n'))
    }

    /// Goes past a character.
    fn pass(&mut self)
        requires gone { IsGone self.old }
        ensures gone { IsGone self.new }
        ensures text { self.new.text.now ≡ self.old.text.now }
        ensures less { 0 < length self.old.rest.now → length self.new.rest.now < length self.old.rest.now }
    {
        let (character, rest) = cut(self.rest, Size::Character);
        self.front.pass_all(character);
        self.rest = rest;
        self.line = match character {
            "\n" | "\r" => 0,
            _ => self.line.saturating_add(character.len()),
        };
    }

    /// Goes on to a place; answers whether it was found.
    fn seek(&mut self, place: Place) -> bool
        requires gone { IsGone self.old }
        ensures gone { IsGone self.new }
        ensures text { self.new.text.now ≡ self.old.text.now }
        ensures at { result ≡ true → place ≡ self.new.front.place }
    {
        while !self.is_at(place) {
            if self.rest.is_empty() {
                return false;
            }
            self.pass();
        }
        true
    }

    /// What was gone through of the text, and the rest.
    fn parts(&self) -> (&'a str, &'a str)
        requires gone { IsGone self.now }
        ensures parts { self.now.text.now ≡ result.0.now ++ result.1.now }
        ensures place { self.now.front.place ≡ place_after (chars result.0.now) }
    {
        halves(self.text, self.text.len().saturating_sub(self.rest.len()))
    }

    /// What stands around where the text was gone through up to.
    fn here(&self) -> Around<'a>
        requires gone { IsGone self.now }
        ensures { IsAround self.now.text.now self.now.front.place result }
    {
        let (front, rest) = self.parts();
        Around {
            before: last_of(last_bytes(front, self.line)),
            behind: first_of(rest),
        }
    }

    /// What stands around a place that is not before the one that was asked for last; nothing where there is no such place.
    pub fn around(&mut self, place: Place) -> Option<Around<'a>>
        requires gone { IsGone self.old }
        ensures gone { IsGone self.new }
        ensures text { self.new.text.now ≡ self.old.text.now }
        ensures around { IfSome result (IsAround self.new.text.now place) }
    {
        let mut search = *self;
        if place.is_before(search.front.place) || !search.seek(place) {
            return None;
        }
        *self = search;
        Some(self.here())
    }
}
