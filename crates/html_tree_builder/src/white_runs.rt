//! White space where other text is no run, which is taken at once (HTML Standard, section 13.2.6).
ghost use Rattle.std.specs.Prelude.{◌≡◌, false, IfErr, IfOk};
ghost use Rattle.markup.specs.Forest.{Forest};
ghost use Rattle.markup.specs.declared.fault.ParseFault.TheVariants.{Memory};
ghost use Rattle.html_rules_laws.specs.Usable.{Usable};
ghost use Rattle.html_rules.specs.State.{Answers};
ghost use Rattle.html_tree_builder.specs.Running.{LeavesText, is_of_framesets, refuses_text, white_before, white_in, white_run_of};
ghost use Rattle.html_tree_builder.specs.States.{built, state_of};
ghost use Rattle.html_tree_builder.specs.Texts.{HasWhiteFront, IsSplit};

use crate::construction::Construction;
use crate::runs::{Run, takes_text};
use crate::texts::split_first;
use crate::told::is_white;
use html_rules::InsertionMode;
use markup::{ParseFault, Text, TreeSink};
use std::alloc::Global;

/// The run that white space is by the rules of a mode, if it is one.
fn white_in(mode: InsertionMode) -> Option<Run>
    ensures { result ≡ white_in mode }
{
    match mode {
        InsertionMode::Initial => Some(Run::Dropped),
        InsertionMode::BeforeHtml => Some(Run::Dropped),
        InsertionMode::BeforeHead => Some(Run::Dropped),
        InsertionMode::InHead => Some(Run::Raw),
        InsertionMode::InHeadNoscript => Some(Run::Raw),
        InsertionMode::AfterHead => Some(Run::Raw),
        InsertionMode::InColumnGroup => Some(Run::Raw),
        InsertionMode::InFrameset => Some(Run::Raw),
        InsertionMode::AfterFrameset => Some(Run::Raw),
        InsertionMode::AfterBody => Some(Run::InBody),
        InsertionMode::AfterAfterBody => Some(Run::InBody),
        InsertionMode::AfterAfterFrameset => Some(Run::InBody),
        _ => None,
    }
}

/// The same where no element is open.
fn white_before(mode: InsertionMode) -> Option<Run>
    ensures { result ≡ white_before mode }
{
    match mode {
        InsertionMode::Initial => Some(Run::Dropped),
        InsertionMode::BeforeHtml => Some(Run::Dropped),
        _ => None,
    }
}

/// The white space at the front of a text, and what stands after it.
fn split_white(alloc: Global, text: &str) -> Result<(Text, &str), ParseFault>
    ensures ok { IfOk result (λ parts. HasWhiteFront text.now parts.0 parts.1.now) }
    ensures fault { IfErr result (λ fault. fault ≡ Memory) }
{
    let mut white = Text::empty(alloc);
    let mut rest = text;
    while let Some((character, behind)) = split_first(rest) {
        if !is_white(character) {
            break;
        }
        white.push_str(character)?;
        rest = behind;
    }
    Ok((white, rest))
}

/// Whether characters other than white space are errors by the rules of a mode, and dropped.
fn is_of_framesets(mode: InsertionMode) -> bool
    ensures { result ≡ is_of_framesets mode }
{
    match mode {
        InsertionMode::InFrameset => true,
        InsertionMode::AfterFrameset => true,
        InsertionMode::AfterAfterFrameset => true,
        _ => false,
    }
}

impl<Sink: TreeSink> Construction<Sink> {
    /// Whether characters other than white space are errors here, and dropped.
    fn refuses_text(&self) -> bool
        ensures { (a : Answers) (f : Forest) → result ≡ refuses_text (state_of a self.now f) }
    {
        if !is_of_framesets(self.mode) {
            return false;
        }
        match self.adjusted_current_node() {
            Some(element) => takes_text(element),
            None => true,
        }
    }

    /// The run that white space is, if it is one.
    fn white_run(&self) -> Option<Run>
        ensures { (a : Answers) (f : Forest) → result ≡ white_run_of (state_of a self.now f) }
    {
        if self.foster_parenting {
            return None;
        }
        match self.adjusted_current_node() {
            Some(element) if takes_text(element) => white_in(self.mode),
            Some(_) => None,
            None => white_before(self.mode),
        }
    }

    /// Takes the white space at the front of a text, where it is a run, or else its first character: what stands after that.
    pub(crate) fn process_front<'a>(
        &mut self,
        sink: &mut Sink,
        text: &'a str,
        first: &'a str,
        behind: &'a str,
    ) -> Result<&'a str, ParseFault>
        requires split { IsSplit text.now first.now behind.now }
        requires usable { Usable (built Sink.TreeSink self.old (Sink.forest sink.old)) }
        requires going { self.old.has_ended ≡ false }
        ensures ok { IfOk result (λ rest. LeavesText text.now rest.now
            (built Sink.TreeSink self.old (Sink.forest sink.old)) (built Sink.TreeSink self.new (Sink.forest sink.new))) }
        ensures fault { IfErr result (λ fault. fault ≡ Memory) }
    {
        if self.refuses_text() && !is_white(first) {
            self.report_character(sink, first);
            return Ok(behind);
        }
        if let Some(run) = self.white_run() {
            let (white, rest) = split_white(self.alloc, text)?;
            if !white.is_empty() {
                self.process_run(sink, run, white)?;
                return Ok(rest);
            }
        }
        self.process_character(sink, first)?;
        Ok(behind)
    }
}
