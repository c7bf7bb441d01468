//! A serializer that passes on to another what a policy keeps.
ghost use Rattle.std.specs.Prelude.{◌≡◌, ◌∷◌, ◌-◌, [], true, false, is_some, OnOk, OnErr, IfOk, IfErr};
ghost use Rattle.std.specs.Str.{chars};
ghost use Rattle.html_clean.specs.Calls.{if_passed, opened_by, text_passed};
ghost use Rattle.html_clean.specs.Filter.{Passes};
ghost use Rattle.html_clean.specs.Counts.{lost_attributes};
ghost use Rattle.html_clean.specs.Policies as policies;
ghost use Rattle.markup.specs.Calls.Call.{StartElem, EndElem};

use crate::attributes::{added_attributes, kept_after};
use crate::counts::Cleaned;
use crate::elements::Fate;
use crate::notes::{Judged, Notes};
use crate::policy::Policy;
use crate::texts::{is_kept_whole, is_no_text, text_at};
use markup::{Attribute, QualName, SerializeFault, Serializer};
use std::alloc::{AllocError, Global};
use std::marker::Model;

/// An element that has begun and not ended.
#[derive(Clone, Copy)]
pub(crate) struct Opened {
    /// Whether it was passed on.
    pub passes: bool,
    /// Whether what stands in it is not.
    pub hides: bool,
}

/// The elements that have begun and not ended. A contract sees the list of them, the last one first.
#[derive(Drop)]
pub(crate) struct Open {
    list: Vec<Opened>,
}

impl Model for Open {
    ghost use Rattle.std.specs.Prelude.{List, reverse};
    ghost use Rattle.html_clean.specs.declared.filter.Opened.{Opened};

    ghost Value = { List Opened };

    ghost view = { λ entries. reverse entries.list.items };
}

impl Open {
    ghost use Rattle.html_clean.specs.Calls.{hides, passes, rest_of};

    pub(crate) fn new(alloc: Global) -> Open
        ensures { result ≡ [] }
    {
        Open {
            list: Vec::new(alloc),
        }
    }

    /// Whether what comes next is not passed on.
    fn hides(&self) -> bool
        ensures { result ≡ hides self.now }
    {
        match self.list.last() {
            Some(last) => last.hides,
            None => false,
        }
    }

    fn push(&mut self, opened: Opened) -> Result<(), AllocError>
        ensures ok { OnOk result (self.new ≡ opened ∷ self.old) }
        ensures err { OnErr result (self.new ≡ self.old) }
    {
        self.list.push(opened)?;
        Ok(())
    }

    /// Ends the last one, and answers whether it was passed on.
    fn pop(&mut self) -> bool
        ensures passed { result ≡ passes self.old }
        ensures rest { self.new ≡ rest_of self.old }
    {
        match self.list.pop() {
            Some(last) => last.passes,
            None => false,
        }
    }
}

/// What an element is after its start tag.
fn opened_by(hidden: bool, fate: Fate, void: bool) -> Opened
    ensures { result ≡ opened_by hidden fate void }
{
    if hidden {
        return Opened {
            passes: false,
            hides: true,
        };
    }
    match fate {
        Fate::Kept => Opened {
            passes: true,
            hides: void,
        },
        Fate::Dropped => Opened {
            passes: false,
            hides: true,
        },
        Fate::Unwrapped => Opened {
            passes: false,
            hides: false,
        },
    }
}

/// How many of so many there are not, where some of those that are kept were added.
fn lost(all: usize, kept: usize, added: usize) -> u64
    ensures { result ≡ all - (kept - added) }
{
    all.saturating_sub(kept.saturating_sub(added)) as u64
}

/// Passes on a start tag with the attributes that are added and kept, and answers how many of its own are not kept.
fn pass_start<S: Serializer>(
    alloc: Global,
    notes: &mut Notes,
    serializer: &mut S,
    passes: bool,
    name: &QualName,
    attrs: &[Attribute],
) -> Result<u64, SerializeFault>
    ensures passes { Passes S.step S.refuses (S.view serializer.old)
        (if_passed passes (StartElem name.now (policies.kept_attributes notes.old name.now.local attrs.now)))
        result (S.view serializer.new) }
    ensures lost { IfOk result (λ lost. passes ≡ true → lost ≡ lost_attributes notes.old name.now.local attrs.now) }
    ensures same_policy { notes.new ≡ notes.old }
    ensures same_references { S.references serializer.new ≡ S.references serializer.old }
{
    if !passes {
        return Ok(0);
    }
    let Ok(added) = added_attributes(alloc, notes.policy(), &name.local) else {
        return Err(SerializeFault::Memory);
    };
    let more = added.len();
    let Ok(kept) = kept_after(alloc, notes, &name.local, added, attrs) else {
        return Err(SerializeFault::Memory);
    };
    let kept = kept.as_slice();
    match serializer.start_elem(name, kept) {
        Ok(()) => Ok(lost(attrs.len(), kept.len(), more)),
        Err(fault) => Err(fault),
    }
}

/// Passes on an end tag.
fn pass_end<S: Serializer>(
    serializer: &mut S,
    passes: bool,
    name: &QualName,
) -> Result<(), SerializeFault>
    ensures passes { Passes S.step S.refuses (S.view serializer.old) (if_passed passes (EndElem name.now)) result (S.view serializer.new) }
    ensures same_references { S.references serializer.new ≡ S.references serializer.old }
{
    if passes {
        serializer.end_elem(name)
    } else {
        Ok(())
    }
}

/// Passes on a text, if it is not empty, and answers whether it did.
fn pass_some<S: Serializer>(serializer: &mut S, text: &str) -> Result<bool, SerializeFault>
    ensures passes { Passes S.step S.refuses (S.view serializer.old) (text_passed false (chars text.now)) result (S.view serializer.new) }
    ensures told { IfOk result (λ told. told ≡ is_some (text_passed false (chars text.now))) }
    ensures same_references { S.references serializer.new ≡ S.references serializer.old }
{
    if is_no_text(text) {
        return Ok(false);
    }
    match serializer.write_text(text) {
        Ok(()) => Ok(true),
        Err(fault) => Err(fault),
    }
}

/// Passes on what is kept of a text, if anything is, and answers whether it did. A text of which all is kept is not copied.
fn pass_text<S: Serializer>(
    alloc: Global,
    serializer: &mut S,
    hides: bool,
    front: bool,
    text: &str,
) -> Result<bool, SerializeFault>
    ensures passes { Passes S.step S.refuses (S.view serializer.old)
        (text_passed hides (policies.text_at front (chars text.now))) result (S.view serializer.new) }
    ensures told { IfOk result (λ told. told ≡ is_some (text_passed hides (policies.text_at front (chars text.now)))) }
    ensures same_references { S.references serializer.new ≡ S.references serializer.old }
{
    if hides {
        return Ok(false);
    }
    if is_kept_whole(front, text) {
        return pass_some(serializer, text);
    }
    let Ok(kept) = text_at(alloc, front, text) else {
        return Err(SerializeFault::Memory);
    };
    pass_some(serializer, kept.as_str())
}

/// Passes on to a serializer what a policy keeps, call by call, and counts what it doesn't.
///
/// After `Memory` of its own the serializer has been told nothing of the call.
#[derive(Drop)]
pub struct Filter<'a, S: Serializer> {
    serializer: &'a mut S,
    /// The policy.
    notes: Notes<'a>,
    alloc: Global,
    begun: Open,
    /// Whether nothing was passed on yet.
    front: bool,
    counts: Cleaned,
}

impl<'a, S: Serializer> Filter<'a, S> {
    ghost use Rattle.std.specs.Prelude.{[], true};
    ghost use Rattle.html_clean.specs.Counts.{nothing_counted};

    /// A filter after which nothing has begun.
    pub fn new(alloc: Global, policy: &'a Policy, serializer: &'a mut S) -> Filter<'a, S>
        ensures same_reference { result.serializer.ghost_name ≡ serializer.entry.ghost_name }
        ensures serializer { result.serializer.now ≡ serializer.old }
        ensures policy { result.notes ≡ policy.now }
        ensures begun { result.begun ≡ [] }
        ensures front { result.front ≡ true }
        ensures counts { result.counts ≡ nothing_counted }
    {
        Filter {
            serializer,
            notes: Notes::new(alloc, policy),
            alloc,
            begun: Open::new(alloc),
            front: true,
            counts: Cleaned::default(),
        }
    }
}

impl<'a, S: Serializer> Filter<'a, S> {
    /// What was not passed on until now, counted.
    pub fn counts(&self) -> Cleaned
        ensures { result ≡ self.now.counts }
    {
        self.counts
    }

    /// Gives the serializer back.
    pub fn end(self) -> &'a mut S
        ensures same_reference { result.ghost_name ≡ self.entry.serializer.ghost_name }
        ensures serializer { result.now ≡ self.entry.serializer.now }
    {
        let Filter { serializer, .. } = self;
        serializer
    }
}

impl<'a, S: Serializer> Serializer for Filter<'a, S> {
    ghost use Rattle.std.specs.Prelude.{◌∷◌};
    ghost use Rattle.html_clean.specs.Filter.{Filtering, refuses_over, step_over};

    ghost State = { Filtering S.State };

    ghost view = { λ f. record {
      policy = f.notes;
      inner = S.view f.serializer.now;
      stack = f.begun;
      front = f.front;
      counts = f.counts;
    } };

    ghost step = { step_over S.step };

    ghost refuses = { refuses_over S.refuses };

    ghost references = { λ f. f.serializer.ghost_name ∷ S.references f.serializer.now };

    fn start_elem(&mut self, name: &QualName, attrs: &[Attribute]) -> Result<(), SerializeFault> {
        let Judged { fate, is_void } = self.notes.element(name);
        let hidden = self.begun.hides();
        let opened = opened_by(hidden, fate, is_void);
        self.begun.push(opened)?;
        let lost = pass_start(
            self.alloc,
            &mut self.notes,
            self.serializer,
            opened.passes,
            name,
            attrs,
        )?;
        self.front = self.front && !opened.passes;
        self.counts = self.counts.start_counted(hidden, fate, lost);
        Ok(())
    }

    fn end_elem(&mut self, name: &QualName) -> Result<(), SerializeFault> {
        let passes = self.begun.pop();
        pass_end(self.serializer, passes, name)?;
        self.front = self.front && !passes;
        Ok(())
    }

    fn write_text(&mut self, text: &str) -> Result<(), SerializeFault> {
        let told = pass_text(
            self.alloc,
            self.serializer,
            self.begun.hides(),
            self.front,
            text,
        )?;
        self.front = self.front && !told;
        Ok(())
    }

    fn write_comment(&mut self, _text: &str) -> Result<(), SerializeFault> {
        self.counts = self.counts.comment_counted(self.begun.hides());
        Ok(())
    }

    fn write_doctype(&mut self, _name: &str) -> Result<(), SerializeFault> {
        Ok(())
    }

    fn write_processing_instruction(
        &mut self,
        _target: &str,
        _contents: &str,
    ) -> Result<(), SerializeFault> {
        self.counts = self.counts.comment_counted(self.begun.hides());
        Ok(())
    }
}
