//! A token is taken in turns, until it is done with (HTML Standard, section 13.2.6).
ghost use Rattle.std.specs.Prelude.{◌≡◌, ◌≤◌, ◌+◌, true, IfErr, IfOk, OnOk};
ghost use Rattle.markup.specs.declared.fault.ParseFault.TheVariants.{Memory};
ghost use Rattle.html_tokens.specs.Sink.{numbered};
ghost use Rattle.html_tokens.specs.declared.token.Token.{Token};
ghost use Rattle.html_tokens.specs.declared.token.Token.TheVariants.{TagToken};
ghost use Rattle.html_rules.specs.Rules.{check_acknowledged, is_self_closing, settle};
ghost use Rattle.html_rules_laws.specs.Upright.{MayCome};
ghost use Rattle.html_tree_builder.specs.States.{Stands, built, Performs};
ghost use Rattle.html_tree_builder.specs.Told.{IsTold, token_of};

use crate::conclusions::Ending;
use crate::construction::Construction;
use crate::errors;
use crate::told::{Content, NamedToken};
use html_tokens::{Tag, TagKind, TokenSinkResult};
use markup::count::Count;
use markup::{ParseFault, TreeSink};

/// Whether a tag is a start tag that closes itself.
pub(crate) fn is_self_closing(tag: &Tag) -> bool
    ensures { result ≡ is_self_closing (TagToken tag.now) }
{
    tag.kind == TagKind::StartTag && tag.self_closing
}

impl NamedToken<'_> {
    /// Whether it is a start tag that closes itself.
    fn is_self_closing(&self) -> bool
        ensures { result ≡ is_self_closing (token_of self.now.content) }
    {
        match self.content {
            Content::Tag(tag) => is_self_closing(tag),
            _ => false,
        }
    }
}

impl<Sink: TreeSink> Construction<Sink> {
    /// A self-closing flag that was not acknowledged is an error.
    #[tactic(auto, unfolding(html_rules::specs::Stack::parse_error))]
    pub(crate) fn check_acknowledged(&self, sink: &mut Sink, acknowledged: bool, closes: bool)
        ensures state { (t : Token) → closes ≡ is_self_closing t → Performs (check_acknowledged acknowledged t)
            self.now self.now (Sink.forest sink.old) (Sink.forest sink.new) }
        ensures stands { Stands (Sink.forest sink.old) self.now → Stands (Sink.forest sink.new) self.now }
    {
        if !acknowledged && closes {
            sink.parse_error(errors::not_acknowledged());
        }
    }

    /// What a token comes to, turn by turn. Each is counted, and they are no more than sixteen, and four for each open element.
    pub(crate) fn settle(
        &mut self,
        sink: &mut Sink,
        told: &NamedToken<'_>,
        turns: &mut Count,
    ) -> Result<TokenSinkResult<Sink::Handle>, ParseFault>
        requires told { IsTold told.now }
        requires stands { Stands (Sink.forest sink.old) self.old }
        requires may { MayCome (token_of told.now.content) (built Sink.TreeSink self.old (Sink.forest sink.old)) }
        requires settled { (settle (token_of told.now.content) (built Sink.TreeSink self.old (Sink.forest sink.old))).is_settled ≡ true }
        ensures state { OnOk result
            (built Sink.TreeSink self.new (Sink.forest sink.new) ≡
            (settle (token_of told.now.content) (built Sink.TreeSink self.old (Sink.forest sink.old))).state) }
        ensures reply { IfOk result
            (λ reply. numbered Sink.node reply ≡
            (settle (token_of told.now.content) (built Sink.TreeSink self.old (Sink.forest sink.old))).reply) }
        ensures stands { OnOk result (Stands (Sink.forest sink.new) self.new) }
        ensures counted { OnOk result
            (turns.new.count ≡ turns.old.count +
            (settle (token_of told.now.content) (built Sink.TreeSink self.old (Sink.forest sink.old))).turns) }
        ensures most { turns.new.count ≤ turns.old.count +
            (settle (token_of told.now.content) (built Sink.TreeSink self.old (Sink.forest sink.old))).turns }
        ensures fault { IfErr result (λ fault. fault ≡ Memory) }
    {
        loop {
            turns.add_one();
            match self.turn(sink, told)? {
                Ending::Again => {}
                Ending::Finished(acknowledged) => {
                    self.check_acknowledged(sink, acknowledged, told.is_self_closing());
                    return Ok(TokenSinkResult::Continue);
                }
                Ending::Replied(reply) => return Ok(reply),
            }
        }
    }
}
