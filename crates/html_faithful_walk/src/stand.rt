//! Where nodes stand in their parent, and which may stand there.
ghost use Rattle.std.specs.Prelude.{◌≡◌, IfErr, IfOk};
ghost use Rattle.std.specs.Str.{bytes_eq};
ghost use Rattle.markup.specs.declared.fault.ParseFault.TheVariants.{Memory};
ghost use Rattle.html_forest.specs.Views.{characters};
ghost use Rattle.html_faithful.specs.Forms.{lowered};
ghost use Rattle.html_faithful.specs.Walk.{is_void};
ghost use Rattle.html_faithful_judge.specs.Mades.{made_as};
ghost use Rattle.html_faithful_walk.specs.Walking.{after_of, after_stand, after_text_of, inside_of, takes_elements};

use crate::parents::Parent;
use html_faithful_judge::made::Made;
use html_faithful_judge::{is_raw_text, lowered};
use html_forest::TextRef;
use html_tokens::states::RawKind;
use markup::{LocalName, ParseFault, QualName};
use std::alloc::Global;

/// Which nodes may come next.
#[derive(Clone, Copy)]
pub(crate) enum Inside<'a> {
    /// Those that begin a document.
    Start,
    /// Any, if the rules put them there.
    Any,
    /// The text of an element that has raw text, or nothing.
    Raw(RawKind, &'a QualName),
    /// None.
    Done,
}

/// Where the next node stands in its parent.
#[derive(Clone, Copy)]
pub(crate) struct Stand<'a> {
    /// What it stands in.
    pub parent: Parent,
    /// Whether a text stands just before it.
    pub after_text: bool,
    /// Whether a line feed is dropped here.
    pub drops: bool,
    /// Which nodes may come.
    pub inside: Inside<'a>,
}

/// What comes after the nodes in an element.
#[derive(Clone, Copy)]
pub(crate) struct After<'a> {
    /// The element that ends there, if it has an end tag.
    pub finishes: Option<&'a QualName>,
    /// What the nodes after it stand in.
    pub parent: Parent,
}

impl<'a> Inside<'a> {
    /// Which nodes may come after a text, if that may come next.
    pub(crate) fn after_text(
        self,
        alloc: Global,
        text: TextRef<'_>,
    ) -> Result<Option<Inside<'a>>, ParseFault>
        ensures ok { IfOk result (λ after. after ≡ after_text_of self.entry (characters text.entry)) }
        ensures fault { IfErr result (λ fault. fault ≡ Memory) }
    {
        match self {
            Inside::Start => Ok(None),
            Inside::Any => Ok(Some(Inside::Any)),
            Inside::Raw(kind, name) => {
                if is_raw_text(alloc, kind, name.local.as_str(), text.as_str())? {
                    Ok(Some(Inside::Done))
                } else {
                    Ok(None)
                }
            }
            Inside::Done => Ok(None),
        }
    }
}

impl Inside<'_> {
    /// Whether an element may come next.
    pub(crate) fn takes_elements(self) -> bool
        ensures { result ≡ takes_elements self.entry }
    {
        matches!(self, Inside::Start | Inside::Any)
    }
}

impl<'a> Stand<'a> {
    /// Where nodes stand after a comment or an element, by what both stand in.
    pub(crate) fn after(parent: Parent) -> Stand<'a>
        ensures { result ≡ after_stand parent }
    {
        Stand {
            parent,
            after_text: false,
            drops: false,
            inside: Inside::Any,
        }
    }
}

/// Whether a name has no letter in upper case.
fn is_lowered(alloc: Global, name: &LocalName) -> Result<bool, ParseFault>
    ensures ok { IfOk result (λ is. is ≡ bytes_eq (lowered name.now) name.now) }
    ensures fault { IfErr result (λ fault. fault ≡ Memory) }
{
    Ok(lowered(alloc, name)? == *name)
}

/// Which nodes may stand in an element of this name that was opened, and is void or is not; nothing where none may, and it may not have
/// none.
pub(crate) fn what_may_stand<'a>(
    made: &Made,
    alloc: Global,
    name: &'a QualName,
    void: bool,
) -> Result<Option<Inside<'a>>, ParseFault>
    requires { void ≡ is_void name.now }
    ensures ok { IfOk result (λ inside. inside ≡ inside_of name.entry (made_as made.now)) }
    ensures fault { IfErr result (λ fault. fault ≡ Memory) }
{
    if void {
        if !made.drops_line_feed && made.raw.is_none() {
            return Ok(Some(Inside::Done));
        }
        return Ok(None);
    }
    match made.raw {
        None => Ok(Some(Inside::Any)),
        Some(kind) => {
            if is_lowered(alloc, &name.local)? {
                Ok(Some(Inside::Raw(kind, name)))
            } else {
                Ok(None)
            }
        }
    }
}

impl<'a> After<'a> {
    /// What comes after the nodes in an element, which is void or is not.
    pub(crate) fn of(name: &'a QualName, parent: Parent, void: bool) -> After<'a>
        requires { void ≡ is_void name.now }
        ensures { result ≡ after_of name.entry parent }
    {
        let finishes = if void { None } else { Some(name) };
        After { finishes, parent }
    }
}
