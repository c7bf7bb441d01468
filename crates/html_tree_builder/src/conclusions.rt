//! What comes once the actions of a row are done (HTML Standard, section 13.2.6).
ghost use Rattle.std.specs.Prelude.{◌≡◌, ℕ, IfOk, IfErr, OnOk, option_map};
ghost use Rattle.std.specs.Str.{chars};
ghost use Rattle.markup.specs.Forest.{Forest};
ghost use Rattle.markup.specs.declared.fault.ParseFault.TheVariants.{Memory};
ghost use Rattle.html_tokens.specs.declared.token.Token.{Token};
ghost use Rattle.html_rules.specs.Encodings.{encoding_hint, encoding_of_content, is_content_type};
ghost use Rattle.html_rules.specs.Rules.{Turn, concluded, encoding_reply, using_rules_for};
ghost use Rattle.html_rules.specs.State.{Answers, State};
ghost use Rattle.html_rules.specs.Tokens.{attributes_of};
ghost use Rattle.html_rules.specs.declared.insertion_mode.InsertionMode.{InsertionMode as Mode};
ghost use Rattle.html_names.specs.Given.{Gives};
ghost use Rattle.html_modes.specs.Tables.{conclusion_of};
ghost use Rattle.html_tree_builder.specs.Rows.{ending_of, next_turn};
ghost use Rattle.html_tree_builder.specs.declared.conclusions.Ending.TheVariants.{Replied};
ghost use Rattle.html_tree_builder.specs.declared.conclusions.Next.TheVariants.{Ends};
ghost use Rattle.html_tree_builder.specs.States.{Stands, state_of};
ghost use Rattle.html_tree_builder.specs.Told.{token_of};
ghost use Rattle.html_tree_builder.specs.Turning.{MayConclude, MayGoOn, MayUse};

use crate::conditions::value_of;
use crate::construction::Construction;
use crate::told::{Content, NamedToken};
use html_modes::{Action, Conclusion};
use html_names::{equals_any_case, extract_a_character_encoding_from_a_meta_element};
use html_rules::InsertionMode;
use html_tokens::TokenSinkResult;
use markup::{Attribute, ParseFault, Text, TreeSink};
use std::alloc::Global;

/// How a turn ends.
#[derive(Drop)]
pub(crate) enum Ending<Handle> {
    /// The token is done with; a self-closing flag was acknowledged, or was not.
    Finished(bool),
    /// The token is taken again.
    Again,
    /// The token is done with, and this is answered.
    Replied(TokenSinkResult<Handle>),
}

/// What comes once the actions of a row are done.
#[derive(Drop)]
pub(crate) enum Next<Handle> {
    /// The turn ends.
    Ends(Ending<Handle>),
    /// The token is processed using the rules for a mode.
    Using(InsertionMode),
    /// The same, and then something more is done.
    UsingThen(InsertionMode, &'static Action),
}

/// Whether a value is there, and is `content-type` in any case.
fn is_content_type(value: Option<&Text>) -> bool
    ensures { result ≡ is_content_type (option_map (λ value. value.now) value.entry) }
{
    match value {
        Some(value) => equals_any_case(value.as_str(), "content-type"),
        None => false,
    }
}

/// The encoding that a value of `content` names, if it is there.
fn encoding_of_content(content: Option<&Text>) -> Option<&str>
    ensures { Gives (encoding_of_content (option_map (λ value. value.now) content.entry)) result }
{
    match content {
        Some(content) => extract_a_character_encoding_from_a_meta_element(content.as_str()),
        None => None,
    }
}

/// The encoding that attributes name: by `charset`, or by `http-equiv` and `content`.
#[tactic(auto, unfolding(html_rules::specs::Encodings::encoding_hint))]
fn hint_of(attributes: &[Attribute]) -> Option<&str>
    ensures { Gives (encoding_hint attributes.now) result }
{
    if let Some(charset) = value_of(attributes, "charset") {
        return Some(charset.as_str());
    }
    if is_content_type(value_of(attributes, "http-equiv")) {
        encoding_of_content(value_of(attributes, "content"))
    } else {
        None
    }
}

impl<'a> NamedToken<'a> {
    /// The encoding that a tag names, if it names one.
    #[tactic(auto, unfolding(html_rules::specs::Encodings::encoding_hint))]
    fn encoding_hint(&self) -> Option<&'a str>
        ensures { Gives (encoding_hint (attributes_of (token_of self.now.content))) result }
    {
        match self.content {
            Content::Tag(tag) => hint_of(tag.attrs.as_slice()),
            _ => None,
        }
    }
}

/// What is answered to a tag that may name the encoding of the document.
fn encoding_reply<Handle>(alloc: Global, label: Option<&str>) -> Result<Ending<Handle>, ParseFault>
    ensures ok { IfOk result (λ ending. (node : Handle → ℕ) → ending_of node ending ≡ encoding_reply
        (option_map (λ label. chars label.now) label.entry)) }
    ensures fault { IfErr result (λ fault. fault ≡ Memory) }
{
    match label {
        None => Ok(Ending::Finished(true)),
        Some(label) => {
            let label = Text::from_str(alloc, label)?;
            Ok(Ending::Replied(TokenSinkResult::EncodingIndicator(label)))
        }
    }
}

/// The turn ends with a reply.
fn replied<Handle>(reply: TokenSinkResult<Handle>) -> Next<Handle>
    ensures { result ≡ Ends (Replied reply) }
{
    Next::Ends(Ending::Replied(reply))
}

impl<Sink: TreeSink> Construction<Sink> {
    /// What comes once the actions of a row are done, where `script` was the current node before them.
    pub(crate) fn conclude(
        &mut self,
        ends: &'static Conclusion,
        script: Sink::Handle,
        told: &NamedToken<'_>,
    ) -> Result<Next<Sink::Handle>, ParseFault>
        ensures ok { IfOk result (λ next. (a : Answers) (f : Forest) (using : Mode → Token → State → Turn)
            → concluded using (conclusion_of ends.now) (token_of told.now.content) (Sink.node script)
            (state_of a self.old f) ≡ next_turn Sink.node using next (token_of told.now.content) (state_of a self.new f)) }
        ensures may { IfOk result (λ next. (n : ℕ) (a : Answers) (f : Forest) → MayConclude (MayUse n)
            (using_rules_for n) (conclusion_of ends.now) (token_of told.now.content) (state_of a self.old f)
            → MayGoOn (MayUse n) (using_rules_for n) next (token_of told.now.content) (state_of a self.new f)) }
        ensures stands { OnOk result ((f : Forest) → Stands f self.old → Stands f self.new) }
        ensures fault { IfErr result (λ fault. fault ≡ Memory) }
    {
        match ends {
            Conclusion::Done => Ok(Next::Ends(Ending::Finished(false))),
            Conclusion::Acknowledged => Ok(Next::Ends(Ending::Finished(true))),
            Conclusion::Reprocess(mode) => {
                self.set_mode(*mode);
                Ok(Next::Ends(Ending::Again))
            }
            Conclusion::ReprocessInOriginal => {
                self.restore_mode();
                Ok(Next::Ends(Ending::Again))
            }
            Conclusion::ReprocessInMode => Ok(Next::Ends(Ending::Again)),
            Conclusion::Using(mode) => Ok(Next::Using(*mode)),
            Conclusion::UsingThen(mode, after) => Ok(Next::UsingThen(*mode, after)),
            Conclusion::UsingCurrentMode => Ok(Next::Using(self.mode)),
            Conclusion::RawText(kind) => Ok(replied(TokenSinkResult::RawData(*kind))),
            Conclusion::PlainText => Ok(replied(TokenSinkResult::Plaintext)),
            Conclusion::RunScript => Ok(replied(TokenSinkResult::Script(script))),
            Conclusion::ReportEncoding => {
                Ok(Next::Ends(encoding_reply(self.alloc, told.encoding_hint())?))
            }
        }
    }
}
