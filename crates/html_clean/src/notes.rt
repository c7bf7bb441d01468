//! What a policy says of known names, noted when it is first asked.
ghost use Rattle.std.specs.Prelude.{◌≡◌, ◌<◌, Some, IfSome};
ghost use Rattle.html_clean.specs.Notes as notes;
ghost use Rattle.html_clean.specs.Names.{is_void};
ghost use Rattle.html_clean.specs.Notes.{IsElementAt, IsElementNote, IsJudged, IsVerdictOn};
ghost use Rattle.html_clean.specs.Policies.{fate};

use crate::attributes::{has_url, is_named_for, is_safe_attribute_name, is_unprefixed};
use crate::elements::{Fate, html_fate, is_html, other_fate};
use crate::names::is_void;
use crate::policy::Policy;
use markup::{KnownName, LocalName, QualName};
use std::alloc::Global;
use std::marker::Model;

/// How many known names there are.
const NAMES: usize = 626;

/// How many verdicts are kept.
const SLOTS: usize = 1024;

/// What a policy says of an attribute, by its name and that of its element.
#[derive(Clone, Copy, PartialEq, Eq)]
pub(crate) enum Verdict {
    /// It is not kept.
    Refused,
    /// It is kept, whatever its value.
    Kept,
    /// It is kept where its value is a URL that is.
    KeptByUrl,
}

/// What becomes of an element, and whether it has no children.
#[derive(Clone, Copy)]
pub(crate) struct Judged {
    pub fate: Fate,
    pub is_void: bool,
}

/// A verdict on an attribute of a known name, of an element of a known name.
#[derive(Clone, Copy)]
pub(crate) struct NotedVerdict {
    pub element: KnownName,
    pub name: KnownName,
    pub verdict: Verdict,
}

/// What a policy says of an attribute, by its name and that of its element.
fn verdict_of(policy: &Policy, element: &LocalName, name: &QualName) -> Verdict
    ensures { result ≡ notes.verdict policy.now element.now name.now }
{
    if !is_safe_attribute_name(name) || !is_named_for(policy, element, &name.local) {
        Verdict::Refused
    } else if has_url(policy, &name.local) {
        Verdict::KeptByUrl
    } else {
        Verdict::Kept
    }
}

/// What becomes of the HTML element of a name.
fn judge(policy: &Policy, name: &LocalName) -> Judged
    ensures { IsJudged policy.now name.now result }
{
    Judged {
        fate: html_fate(policy, name),
        is_void: is_void(name),
    }
}

/// Where a verdict is noted.
fn slot_of(element: KnownName, name: KnownName) -> usize
    ensures { result < 1024 }
{
    (element.place as usize * 61 + name.place as usize) % SLOTS
}

/// A policy, with its answers for known names as far as they were asked. Where no memory is left for notes, nothing is noted. A contract
/// sees the policy.
#[derive(Drop)]
pub(crate) struct Notes<'a> {
    policy: &'a Policy,
    /// HTML elements, by the place of their names.
    elements: Vec<Option<Judged>>,
    verdicts: Vec<Option<NotedVerdict>>,
}

impl<'a> Model for Notes<'a> {
    ghost use Rattle.html_clean.specs.Notes.{AreNotes};
    ghost use Rattle.html_clean.specs.declared.policy.Policy.{Policy};

    ghost Value = { Policy };

    ghost view = { λ n. n.policy.now };

    ghost invariant = { λ n. AreNotes n.policy.now n.elements.items n.verdicts.items };
}

impl<'a> Notes<'a> {
    /// A policy of which nothing is noted.
    pub(crate) fn new(alloc: Global, policy: &'a Policy) -> Notes<'a>
        ensures { result ≡ policy.now }
    {
        let mut elements = Vec::new(alloc);
        let mut verdicts = Vec::new(alloc);
        let _ = elements.resize(NAMES, None);
        let _ = verdicts.resize(SLOTS, None);
        Notes {
            policy,
            elements,
            verdicts,
        }
    }

    /// The policy.
    pub(crate) fn policy(&self) -> &'a Policy
        ensures { result.now ≡ self.now }
    {
        self.policy
    }

    /// What was noted of the HTML element of a known name.
    fn noted_element(&self, known: KnownName) -> Option<Judged>
        ensures { IsElementNote self.now known.place result }
    {
        match self.elements.get(known.place as usize) {
            Some(noted) => *noted,
            None => None,
        }
    }

    /// Notes what becomes of the HTML element of a known name.
    fn note_element(&mut self, known: KnownName, judged: Judged)
        requires { IsElementAt self.old known.place judged }
        ensures { self.new ≡ self.old }
    {
        let place = known.place as usize;
        if place < self.elements.len() {
            self.elements[place] = Some(judged);
        }
    }

    /// What becomes of the HTML element of a name.
    fn html_element(&mut self, name: &LocalName) -> Judged
        ensures judged { IsJudged self.old name.now result }
        ensures same { self.new ≡ self.old }
    {
        let Some(known) = name.known() else {
            return judge(self.policy, name);
        };
        if let Some(noted) = self.noted_element(known) {
            return noted;
        }
        let judged = judge(self.policy, name);
        self.note_element(known, judged);
        judged
    }

    /// What becomes of an element.
    pub(crate) fn element(&mut self, name: &QualName) -> Judged
        ensures fate { result.fate ≡ fate self.old name.now }
        ensures void { result.is_void ≡ is_void name.now.local }
        ensures same { self.new ≡ self.old }
    {
        if is_html(name) {
            return self.html_element(&name.local);
        }
        Judged {
            fate: other_fate(self.policy, &name.local),
            is_void: is_void(&name.local),
        }
    }

    /// The verdict that was noted on an attribute.
    fn noted_verdict(&self, element: KnownName, name: KnownName) -> Option<Verdict>
        ensures { IfSome result (IsVerdictOn self.now element name) }
    {
        match self.verdicts.get(slot_of(element, name)) {
            Some(Some(noted)) if noted.element == element && noted.name == name => {
                Some(noted.verdict)
            }
            _ => None,
        }
    }

    /// Notes a verdict on an attribute.
    fn note_verdict(&mut self, element: KnownName, name: KnownName, verdict: Verdict)
        requires { IsVerdictOn self.old element name verdict }
        ensures { self.new ≡ self.old }
    {
        let slot = slot_of(element, name);
        if slot < self.verdicts.len() {
            self.verdicts[slot] = Some(NotedVerdict {
                element,
                name,
                verdict,
            });
        }
    }

    /// What the policy says of an attribute, by its name and that of its element.
    pub(crate) fn verdict(&mut self, element: &LocalName, name: &QualName) -> Verdict
        ensures verdict { result ≡ notes.verdict self.old element.now name.now }
        ensures same { self.new ≡ self.old }
    {
        if !is_unprefixed(name) {
            return Verdict::Refused;
        }
        let (Some(one), Some(two)) = (element.known(), name.local.known()) else {
            return verdict_of(self.policy, element, name);
        };
        if let Some(verdict) = self.noted_verdict(one, two) {
            return verdict;
        }
        let verdict = verdict_of(self.policy, element, name);
        self.note_verdict(one, two, verdict);
        verdict
    }
}
