//! A text in pieces, and the places of what its document has.
ghost use Rattle.std.specs.Prelude.{◌≡◌, ◌<◌, ◌≤◌, ◌++◌, [], IfOk, IfSome, MatchOption, OnOk, length};
ghost use Rattle.std.specs.Str.{IsUtf8, chars};
ghost use Rattle.html_places.specs.Pieces.{IsTaken};
ghost use Rattle.html_places.specs.Noted.{IsPlaced};
ghost use Rattle.html_places.specs.Places.{IsPlaceIn};

use crate::cutting::{Kind, Size, begins_with_stop, cut, kind_of};
use crate::marking::{after_last_text, fill, fill_nodes};
use crate::noted::NotedForest;
use crate::place::{Front, Place};
use html_forest::Forest;
use std::alloc::{AllocError, Global};

/// What the next piece is.
#[derive(Clone, Copy, PartialEq, Eq)]
enum Next {
    /// It begins a token.
    Token,
    /// It goes on with the token.
    More,
    /// Its first character decides what the text was that the parser holds, as a reference, and begins the token after that.
    Decision,
}

/// What the next piece is after one that was this, of a token that begins so.
fn next_after(next: Next, kind: Kind, is_between: bool) -> Next {
    if is_between {
        return Next::Token;
    }
    match (next, kind) {
        (Next::Token | Next::More, Kind::Text) => Next::Decision,
        _ => Next::More,
    }
}

/// What the next piece is that was to be this, of a token that begins so; `is_stop` is whether its first character ends text.
fn decided(next: Next, kind: Kind, is_stop: bool) -> Next {
    match (next, kind) {
        (Next::More, Kind::Text) if is_stop => Next::Decision,
        _ => next,
    }
}

/// A text in pieces, which a parser takes one after the other, and the places of the nodes and of the parse errors that come of them.
#[derive(Drop)]
pub struct Pieces<'a> {
    text: &'a str,
    is_exact: bool,
    // What is still to be taken, and how far the text was.
    rest: &'a str,
    front: Front,
    next: Next,
    // Where the token begins that is read, and with what; and where the one after it does, if that is known.
    token: Place,
    kind: Kind,
    next_token: Place,
    next_kind: Kind,
    // Where the text begins that stands before the token, if one does.
    text_place: Option<Place>,
    nodes: Vec<Place>,
    errors: Vec<Place>,
}

impl<'a> Pieces<'a> {
    /// A text of which nothing was taken. `is_exact` is whether the tokenizer tells control characters and noncharacters.
    pub fn new(alloc: Global, text: &'a str, is_exact: bool) -> Pieces<'a>
        ensures taken { IsTaken result }
        ensures text { result.text.now ≡ text.now }
        ensures rest { result.rest.now ≡ text.now }
    {
        let front = Front::new();
        Pieces {
            text,
            is_exact,
            rest: text,
            front,
            next: Next::Token,
            token: front.place,
            kind: Kind::Text,
            next_token: front.place,
            next_kind: Kind::Text,
            text_place: None,
            nodes: Vec::new(alloc),
            errors: Vec::new(alloc),
        }
    }

    /// Has the next character decide what the text was that the parser holds, if it cannot go on with it.
    fn begin_decision(&mut self)
        requires taken { IsTaken self.old }
        ensures taken { IsTaken self.new }
        ensures text { self.new.text.now ≡ self.old.text.now }
        ensures rest { self.new.rest.now ≡ self.old.rest.now }
    {
        let is_stop = begins_with_stop(self.rest);
        self.next = decided(self.next, self.kind, is_stop);
    }

    /// Begins a token where the text was taken up to, unless more of the last one is to come.
    fn begin_token(&mut self)
        requires taken { IsTaken self.old }
        ensures taken { IsTaken self.new }
        ensures text { self.new.text.now ≡ self.old.text.now }
        ensures rest { self.new.rest.now ≡ self.old.rest.now }
    {
        self.begin_decision();
        match self.next {
            Next::Token => {
                self.token = self.front.place;
                self.kind = kind_of(self.rest);
            }
            Next::More => {}
            Next::Decision => {
                self.next_token = self.front.place;
                self.next_kind = kind_of(self.rest);
            }
        }
    }

    /// How much of the text the next piece has.
    fn size(&self) -> Size {
        match (self.next, self.kind) {
            (Next::Decision, _) => Size::Character,
            (_, Kind::Markup) => Size::Markup,
            (_, Kind::Text) => {
                if self.is_exact {
                    Size::ExactText
                } else {
                    Size::Text
                }
            }
        }
    }

    /// Takes the next piece; nothing at the end of the text.
    pub fn next_piece(&mut self) -> Option<&'a str>
        requires taken { IsTaken self.old }
        ensures taken { IsTaken self.new }
        ensures text { self.new.text.now ≡ self.old.text.now }
        ensures piece { MatchOption result ((self.old.rest.now ≡ []) × (self.new.rest.now ≡ []))
            (λ piece. (self.old.rest.now ≡ piece.now ++ self.new.rest.now) × (0 < length piece.now) × IsUtf8 piece.now) }
    {
        self.begin_token();
        let text = self.rest;
        if text.is_empty() {
            return None;
        }
        let (piece, rest) = cut(text, self.size());
        self.rest = rest;
        self.front.pass_all(piece);
        Some(piece)
    }

    /// Notes the places of the nodes that came with the text before the last piece, which the parser had held back until then.
    fn note_text(&mut self, forest: &Forest) -> Result<(), AllocError>
        requires taken { IsTaken self.old }
        ensures taken { IsTaken self.new }
        ensures text { self.new.text.now ≡ self.old.text.now }
        ensures rest { self.new.rest.now ≡ self.old.rest.now }
    {
        let Some(place) = self.text_place else {
            return Ok(());
        };
        if self.kind == Kind::Text {
            return Ok(());
        }
        let count = after_last_text(forest, self.nodes.len());
        fill(&mut self.nodes, count, place)
    }

    /// Notes the places of the nodes that came with the last piece.
    fn note_nodes(&mut self, forest: &Forest) -> Result<(), AllocError>
        requires taken { IsTaken self.old }
        ensures taken { IsTaken self.new }
        ensures text { self.new.text.now ≡ self.old.text.now }
        ensures rest { self.new.rest.now ≡ self.old.rest.now }
    {
        self.note_text(forest)?;
        fill_nodes(&mut self.nodes, forest, self.token)
    }

    /// Notes the places of the errors, up to so many, that came with the text before the last piece.
    fn note_text_errors(&mut self, count: usize) -> Result<(), AllocError>
        requires taken { IsTaken self.old }
        ensures taken { IsTaken self.new }
        ensures text { self.new.text.now ≡ self.old.text.now }
        ensures rest { self.new.rest.now ≡ self.old.rest.now }
    {
        let Some(place) = self.text_place else {
            return Ok(());
        };
        if self.kind == Kind::Text {
            return Ok(());
        }
        fill(&mut self.errors, count, place)
    }

    /// Notes the places of the errors that came with the last piece, of which there are so many now.
    fn note_errors(&mut self, count: usize) -> Result<(), AllocError>
        requires taken { IsTaken self.old }
        ensures taken { IsTaken self.new }
        ensures text { self.new.text.now ≡ self.old.text.now }
        ensures rest { self.new.rest.now ≡ self.old.rest.now }
        ensures enough { OnOk result (count ≤ length self.new.errors.items) }
    {
        fill(&mut self.errors, count, self.token)
    }

    /// Where the text begins that stands before what follows.
    fn text_after(&self, is_between: bool) -> Option<Place>
        requires taken { IsTaken self.now }
        ensures { IfSome result (IsPlaceIn (chars self.now.text.now)) }
    {
        match self.kind {
            Kind::Markup if is_between => None,
            Kind::Text if self.text_place.is_none() => Some(self.token),
            _ => self.text_place,
        }
    }

    /// Notes whether the parser stands between tokens.
    fn note_end(&mut self, is_between: bool)
        requires taken { IsTaken self.old }
        ensures taken { IsTaken self.new }
        ensures text { self.new.text.now ≡ self.old.text.now }
        ensures rest { self.new.rest.now ≡ self.old.rest.now }
        ensures errors { self.new.errors ≡ self.old.errors }
    {
        let last = self.next;
        self.text_place = self.text_after(is_between);
        self.next = next_after(last, self.kind, is_between);
        if last == Next::Decision {
            self.token = self.next_token;
            self.kind = self.next_kind;
        }
    }

    /// Notes the places of the nodes and of the errors that came with the last piece. `is_between` says whether the parser now stands
    /// between tokens.
    pub fn note(&mut self, noted: &NotedForest, is_between: bool) -> Result<(), AllocError>
        requires taken { IsTaken self.old }
        ensures taken { IsTaken self.new }
        ensures text { self.new.text.now ≡ self.old.text.now }
        ensures rest { self.new.rest.now ≡ self.old.rest.now }
        ensures enough { OnOk result (length noted.now.errors.items ≤ length self.new.errors.items) }
    {
        self.note_nodes(&noted.forest)?;
        self.note_text_errors(noted.text_errors)?;
        self.note_errors(noted.errors.len())?;
        self.note_end(is_between);
        Ok(())
    }

    /// Begins the end of the text as a token, unless the parser holds one that is cut by it.
    fn begin_end(&mut self)
        requires taken { IsTaken self.old }
        ensures taken { IsTaken self.new }
        ensures text { self.new.text.now ≡ self.old.text.now }
        ensures rest { self.new.rest.now ≡ self.old.rest.now }
    {
        self.begin_token();
        if self.next == Next::Token {
            self.kind = Kind::Markup;
        }
    }

    /// Notes the places of the nodes and of the errors that came with the end of the text: that of the end, or of the token that it cuts.
    fn note_last(&mut self, noted: &NotedForest) -> Result<(), AllocError>
        requires taken { IsTaken self.old }
        ensures taken { IsTaken self.new }
        ensures text { self.new.text.now ≡ self.old.text.now }
        ensures enough { OnOk result (length noted.now.errors.items ≤ length self.new.errors.items) }
    {
        self.begin_end();
        self.note(noted, true)
    }

    /// Puts the places into what was made of the text, once its end was read.
    ///
    /// Errors: out of memory.
    pub fn end(self, noted: NotedForest) -> Result<NotedForest, AllocError>
        requires taken { IsTaken self }
        ensures forest { IfOk result (λ made. made.forest ≡ noted.forest) }
        ensures len { IfOk result (λ made. length made.errors.items ≡ length noted.errors.items) }
        ensures placed { IfOk result (IsPlaced (chars self.entry.text.now)) }
    {
        let mut pieces = self;
        let mut noted = noted;
        pieces.note_last(&noted)?;
        noted.put_places(pieces.nodes, pieces.errors.as_slice());
        if !noted.has_each_place() {
            return Err(AllocError);
        }
        Ok(noted)
    }
}
