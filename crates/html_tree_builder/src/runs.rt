//! Runs of text that are taken at once, not character by character.
ghost use Rattle.std.specs.Prelude.{◌≡◌, ℕ, IfErr, MatchOption, None, OnOk, Some};
ghost use Rattle.markup.specs.Forest.{Forest};
ghost use Rattle.markup.specs.declared.fault.ParseFault.TheVariants.{Memory};
ghost use Rattle.html_rules.specs.Actions.{act};
ghost use Rattle.html_rules.specs.State.{Answers, adjusted_by};
ghost use Rattle.html_stack.specs.Stacks.{open_of};
ghost use Rattle.html_tokens.specs.declared.token.Token.TheVariants.{CharacterTokens};
ghost use Rattle.html_tree_builder.specs.Running.{run_action, run_at, run_in, run_of, takes_text};
ghost use Rattle.html_tree_builder.specs.States.{Stands, state_of, Performs};

use crate::construction::{Construction, lent};
use html_rules::{InsertionMode, TagSet};
use html_stack::{OpenElement, adjusted};
use markup::{ParseFault, Text, TreeSink};

/// The situations in which the characters of a text are taken at once, up to its end.
#[derive(Clone, Copy, Debug, PartialEq, Eq)]
pub(crate) enum Run {
    /// By the rules for a body.
    InBody,
    /// As the text of an element.
    Raw,
    /// As text of a table, which waits.
    Waiting,
    /// In foreign content.
    Foreign,
    /// White space that is dropped.
    Dropped,
}

/// Whether text in an element is taken by the rules of the mode, whatever the sink answers.
pub(crate) fn takes_text<Handle>(element: &OpenElement<Handle>) -> bool
    ensures { (node : Handle → ℕ) → result ≡ takes_text (open_of node element.now) }
{
    let name = &element.name;
    name.is_html()
        || name.is_in(TagSet::MathmlTextIntegrationPoint)
        || name.is_in(TagSet::SvgHtmlIntegrationPoint)
}

/// The run that text is by the rules of a mode, if it is one.
fn run_in(mode: InsertionMode) -> Option<Run>
    ensures { result ≡ run_in mode }
{
    match mode {
        InsertionMode::InBody => Some(Run::InBody),
        InsertionMode::InCaption => Some(Run::InBody),
        InsertionMode::InCell => Some(Run::InBody),
        InsertionMode::InTemplate => Some(Run::InBody),
        InsertionMode::Text => Some(Run::Raw),
        InsertionMode::InTableText => Some(Run::Waiting),
        _ => None,
    }
}

/// The run that text is where an element is the adjusted current node, if it is one.
fn run_at<Handle>(element: &OpenElement<Handle>, mode: InsertionMode) -> Option<Run>
    ensures { (node : Handle → ℕ) → result ≡ run_at (Some (open_of node element.now)) mode }
{
    if takes_text(element) {
        run_in(mode)
    } else if element.name.is_in(TagSet::AnnotationXml) {
        None
    } else {
        Some(Run::Foreign)
    }
}

impl<Sink: TreeSink> Construction<Sink> {
    /// The adjusted current node: in a fragment in which the root alone is open, the context.
    pub(crate) fn adjusted_current_node(&self) -> Option<&OpenElement<Sink::Handle>>
        ensures { MatchOption result (adjusted_by self.now.context_elem self.now.stack.open_elems ≡ None)
            (λ x. adjusted_by self.now.context_elem self.now.stack.open_elems ≡ Some (open_of Sink.node x.now)) }
    {
        adjusted(self.stack.open_elems(), lent(&self.context_elem))
    }

    /// The run that a text is, up to its end, if it is one.
    pub(crate) fn run(&self) -> Option<Run>
        ensures { (a : Answers) (f : Forest) → result ≡ run_of (state_of a self.now f) }
    {
        if self.foster_parenting {
            return None;
        }
        let element = self.adjusted_current_node()?;
        run_at(element, self.mode)
    }

    /// Takes a run of characters, which is handed on.
    #[inline(always)]
    pub(crate) fn process_run(
        &mut self,
        sink: &mut Sink,
        run: Run,
        text: Text,
    ) -> Result<(), ParseFault>
        requires stands { Stands (Sink.forest sink.old) self.old }
        ensures ok { OnOk result (Performs (act (run_action run) (CharacterTokens text)) self.old self.new
            (Sink.forest sink.old) (Sink.forest sink.new)) }
        ensures fault { IfErr result (λ fault. fault ≡ Memory) }
    {
        match run {
            Run::InBody => self.append_own_in_body(sink, text),
            Run::Raw => self.append_own_text(sink, text),
            Run::Waiting => self.keep_text(text.as_str()),
            Run::Foreign => {
                self.frameset_not_ok_unless_white(text.as_str());
                self.append_own_text(sink, text)
            }
            Run::Dropped => Ok(()),
        }
    }
}
