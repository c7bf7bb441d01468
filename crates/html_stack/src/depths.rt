//! What is noted of many open elements, so that no question walks over all of them.
ghost use Rattle.std.specs.Prelude.{◌≡◌, ◌<◌, ◌≤◌, ◌||◌, List, ℕ, suc, length, IfSome, true};
ghost use Rattle.html_rules.specs.Names.{is_html};
ghost use Rattle.html_rules.specs.State.{named_in};
ghost use Rattle.html_names.specs.ElementNames.{Named};
ghost use Rattle.html_stack.specs.Noted.{AreRanges, Covers, IsAt, IsNext, IsNoted, NoneFrom, NoneNoted, bears, has};
ghost use Rattle.html_stack.specs.Noted.{is_foreign_named, named, named_any_case};

use crate::entries::OpenElement;
use crate::signs::{Sign, Signs};
use crate::tops::{self, Tops};
use html_names::ElementName;
use markup::{LocalName, Text};
use std::alloc::Global;

/// So many open elements are walked over.
const FEW: usize = 64;

/// What is noted of an open element.
#[derive(Drop)]
pub(crate) struct Note {
    /// The tests that it passes.
    pub(crate) own: Signs,
    /// The first of the elements that `all` is of.
    pub(crate) from: usize,
    /// The tests that one of the elements up to and with it passes.
    pub(crate) all: Signs,
    /// The name that it is found by.
    pub(crate) name: Text,
    /// What was said of the name before.
    pub(crate) below: usize,
}

/// Notes of the elements that were opened first, and what is said of their names.
#[derive(Drop)]
pub(crate) struct Depths {
    pub(crate) notes: Vec<Note>,
    pub(crate) tops: Tops,
}

/// From which element on a note is of elements, and the tests that one of them passes.
#[derive(Clone, Copy)]
pub(crate) struct Range {
    pub(crate) from: usize,
    pub(crate) all: Signs,
}

/// The range of the next note, of an element that passes these tests. A chain of ranges leads to each place in a number of steps that grows
/// with the logarithm of the number of notes.
fn next_range(notes: &[Note], own: Signs) -> Range
    requires { AreRanges notes.now }
    ensures from { result.from ≤ length notes.now }
    ensures own { (sign : Sign) → has own sign ≡ true → has result.all sign ≡ true }
    ensures all { Covers notes.now result.from (length notes.now) result.all }
{
    let count = notes.len();
    let alone = Range {
        from: count,
        all: own,
    };
    if count == 0 {
        return alone;
    }
    let last = &notes[count - 1];
    if last.from == 0 {
        return alone;
    }
    let next = &notes[last.from - 1];
    if count - last.from != last.from - next.from {
        return alone;
    }
    Range {
        from: next.from,
        all: own.with(last.all.with(next.all)),
    }
}

/// How many elements there are up to the last that passes one of two tests, by their notes.
fn reach(notes: &[Note], one: Sign, other: Sign) -> usize
    requires { AreRanges notes.now }
    ensures within { result ≤ length notes.now }
    ensures one { NoneNoted one notes.now result }
    ensures other { NoneNoted other notes.now result }
{
    let mut i = notes.len();
    while i > 0 {
        let note = &notes[i - 1];
        if note.own.has(one) || note.own.has(other) {
            return i;
        }
        if note.all.has(one) || note.all.has(other) {
            i -= 1;
        } else {
            i = note.from;
        }
    }
    0
}

impl Depths {
    /// Nothing is noted.
    pub(crate) fn new(alloc: Global) -> Depths
        ensures { (xs : List Named) → IsNoted xs result }
    {
        Depths {
            notes: Vec::new(alloc),
            tops: Tops::new(alloc),
        }
    }

    /// Puts a note after the others, and says of its name that it is there; whether memory was there for both.
    fn put(&mut self, note: Note, name: Text) -> bool
        ensures noted { (xs : List Named) → IsNext xs self.old note name → IsNoted xs self.old → IsNoted xs self.new }
        ensures added { result ≡ true → length self.new.notes.items ≡ suc (length self.old.notes.items) }
    {
        let is_html = note.own.is_html;
        if self.notes.push(note).is_err() {
            return false;
        }
        if self.tops.set(is_html, name, self.notes.len()) {
            return true;
        }
        drop(self.notes.pop());
        false
    }

    /// Notes the next element; whether memory was there for it.
    fn add(&mut self, alloc: Global, element: &ElementName) -> bool
        requires { AreRanges self.old.notes.items }
        ensures noted { (xs : List Named) → IsAt xs (length self.old.notes.items) element.now → IsNoted xs self.old → IsNoted xs self.new }
        ensures added { result ≡ true → length self.new.notes.items ≡ suc (length self.old.notes.items) }
    {
        let Ok(name) = tops::key(alloc, element) else {
            return false;
        };
        let Ok(copied) = name.copy(alloc) else {
            return false;
        };
        let own = Signs::of(element);
        let range = next_range(self.notes.as_slice(), own);
        let below = self.tops.get(own.is_html, &name);
        let note = Note {
            own,
            from: range.from,
            all: range.all,
            name,
            below,
        };
        self.put(note, copied)
    }

    /// Takes the last note away.
    fn undo(&mut self)
        ensures noted { (xs : List Named) → IsNoted xs self.old → IsNoted xs self.new }
        ensures fewer { 0 < length self.old.notes.items → length self.new.notes.items < length self.old.notes.items }
    {
        if let Some(note) = self.notes.pop() {
            if !self.tops.set(note.own.is_html, note.name, note.below) {
                self.notes.clear();
            }
        }
    }

    /// Notes those elements that are not noted yet, as far as there is memory.
    #[inline(never)]
    fn add_all<Handle>(&mut self, alloc: Global, elements: &[OpenElement<Handle>])
        requires { IsNoted (named elements.now) self.old }
        ensures { IsNoted (named elements.now) self.new }
    {
        while self.notes.len() < elements.len() {
            let element = &elements[self.notes.len()];
            if !self.add(alloc, &element.name) {
                return;
            }
        }
    }

    /// Elements were opened. Where there are many they are noted, as far as there is memory.
    #[inline(always)]
    pub(crate) fn follow<Handle>(&mut self, alloc: Global, elements: &[OpenElement<Handle>])
        requires { IsNoted (named elements.now) self.old }
        ensures { IsNoted (named elements.now) self.new }
    {
        if elements.len() > FEW {
            self.add_all(alloc, elements);
        }
    }

    /// Takes the notes of all but so many elements away.
    #[inline(never)]
    fn undo_all(&mut self, left: usize)
        ensures noted { (xs : List Named) → IsNoted xs self.old → IsNoted xs self.new }
        ensures within { length self.new.notes.items ≤ left }
    {
        while self.notes.len() > left {
            self.undo();
        }
    }

    /// Where elements leave, so that of those that were opened first so many stay.
    #[inline(always)]
    pub(crate) fn cut(&mut self, left: usize)
        ensures noted { (xs : List Named) → IsNoted xs self.old → IsNoted xs self.new }
        ensures within { length self.new.notes.items ≤ left }
    {
        if self.notes.len() > left {
            self.undo_all(left);
        }
    }

    /// The same, where so many are given.
    pub(crate) fn cut_to(&mut self, left: Option<usize>)
        ensures noted { (xs : List Named) → IsNoted xs self.old → IsNoted xs self.new }
        ensures within { IfSome left (λ count. length self.new.notes.items ≤ count) }
    {
        if let Some(left) = left {
            self.cut(left);
        }
    }

    /// How many elements, of as many as are open, there are at most up to the last that passes one of two tests. All, where not all are
    /// noted.
    pub(crate) fn reach(&self, count: usize, one: Sign, other: Sign) -> usize
        requires { AreRanges self.now.notes.items }
        ensures within { result ≤ count }
        ensures beyond { (xs : List Named) → length xs ≡ count → IsNoted xs self.now
            → NoneFrom (λ x. bears one x || bears other x) xs result }
    {
        if self.notes.len() == count {
            reach(self.notes.as_slice(), one, other)
        } else {
            count
        }
    }

    /// How many elements there are at most up to the last HTML element of a name, where all of so many are noted.
    fn reach_html(&self, alloc: Global, count: usize, name: &LocalName) -> usize
        ensures { (xs : List Named) → length xs ≡ count → length self.now.notes.items ≡ count → IsNoted xs self.now
            → NoneFrom (λ x. named_in x.namespace x.name name.now) xs result }
    {
        match Text::from_str(alloc, name.as_str()) {
            Ok(name) => self.tops.get(true, &name),
            Err(_) => count,
        }
    }

    /// How many elements there are at most up to the last of a name, in any case, that is none of HTML's, where all of so many are noted.
    fn reach_foreign(&self, alloc: Global, count: usize, name: &LocalName) -> usize
        ensures { (xs : List Named) → length xs ≡ count → length self.now.notes.items ≡ count → IsNoted xs self.now
            → NoneFrom (is_foreign_named name.now) xs result }
    {
        let mut lowered = Text::empty(alloc);
        match lowered.push_lowered(name.as_str()) {
            Ok(()) => self.tops.get(false, &lowered),
            Err(_) => count,
        }
    }

    /// The same as [`Depths::reach`], for HTML elements of a name.
    pub(crate) fn reach_html_named(&self, alloc: Global, count: usize, name: &LocalName) -> usize
        ensures within { result ≤ count }
        ensures beyond { (xs : List Named) → length xs ≡ count → IsNoted xs self.now
            → NoneFrom (λ x. named_in x.namespace x.name name.now) xs result }
    {
        if self.notes.len() != count {
            return count;
        }
        self.reach_html(alloc, count, name).min(count)
    }

    /// The same as [`Depths::reach`], for a test and HTML elements of a name.
    pub(crate) fn reach_named(
        &self,
        alloc: Global,
        count: usize,
        sign: Sign,
        name: &LocalName,
    ) -> usize
        requires { AreRanges self.now.notes.items }
        ensures within { result ≤ count }
        ensures beyond { (xs : List Named) → length xs ≡ count → IsNoted xs self.now
            → NoneFrom (λ x. bears sign x || named_in x.namespace x.name name.now) xs result }
    {
        if self.notes.len() != count {
            return count;
        }
        let marked = reach(self.notes.as_slice(), sign, sign);
        let named = self.reach_html(alloc, count, name);
        marked.max(named).min(count)
    }

    /// The same for HTML elements and those of a name in any case.
    pub(crate) fn reach_foreign_end(&self, alloc: Global, count: usize, name: &LocalName) -> usize
        requires { AreRanges self.now.notes.items }
        ensures within { result ≤ count }
        ensures beyond { (xs : List Named) → length xs ≡ count → IsNoted xs self.now
            → NoneFrom (λ x. is_html x.namespace || named_any_case name.now x) xs result }
    {
        if self.notes.len() != count {
            return count;
        }
        let html = reach(self.notes.as_slice(), Sign::Html, Sign::Html);
        let named = self.reach_foreign(alloc, count, name);
        html.max(named).min(count)
    }
}
