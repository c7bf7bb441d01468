//! A tag that is lent is taken where it stands (HTML Standard, section 13.2.6).
ghost use Rattle.std.specs.Prelude.{◌≡◌, ◌≤◌, ◌+◌, false, IfErr, OnOk};
ghost use Rattle.markup.specs.declared.fault.ParseFault.TheVariants.{Memory};
ghost use Rattle.html_tokens.specs.Sink.{Counts, Gives, OnRefused, fails, tells_failed};
ghost use Rattle.html_tokens.specs.declared.token.Token.TheVariants.{TagToken};
ghost use Rattle.html_rules_laws.specs.Coming.{IsTaken};
ghost use Rattle.html_rules_laws.specs.Usable.{Usable};
ghost use Rattle.html_rules.specs.State.{hushed};
ghost use Rattle.html_rules.specs.Step.{is_barred, is_quiet, step};
ghost use Rattle.html_tree_builder.specs.States.{built};
ghost use Rattle.html_tree_builder.specs.Turns.{most_turns, turns_of};

use crate::builder::TreeBuilder;
use crate::construction::Construction;
use html_rules::InsertionMode;
use html_tokens::{Tag, TagKind, TokenSinkResult};
use markup::{ParseFault, TreeSink};

impl<Sink: TreeSink> Construction<Sink> {
    /// Whether a tag can't come.
    fn bars_tag(&self, tag: &Tag) -> bool
        ensures { result ≡ is_barred self.now.mode (TagToken tag.now) }
    {
        match self.mode {
            InsertionMode::Text => tag.kind == TagKind::StartTag,
            _ => false,
        }
    }
}

impl<Sink: TreeSink> TreeBuilder<Sink> {
    /// Takes a tag that nothing stands against. Where memory is wanting the builder has failed.
    #[tactic(auto, unfolding(html_rules::specs::Step::taken))]
    #[inline(always)]
    fn process_tag_or_fail(
        &mut self,
        tag: &mut Tag,
        line: u64,
    ) -> Result<TokenSinkResult<Sink::Handle>, ParseFault>
        requires usable { Usable (hushed (built Sink.TreeSink self.old.construction (Sink.forest self.old.sink))) }
        requires going { self.old.construction.has_ended ≡ false }
        requires works { self.old.has_failed ≡ false }
        ensures taken { IsTaken Sink.node (TagToken tag.old)
            (built Sink.TreeSink self.old.construction (Sink.forest self.old.sink))
            (built Sink.TreeSink self.new.construction (Sink.forest self.new.sink)) result }
        ensures failed { self.new.has_failed ≡ fails result }
        ensures counted { OnOk result (self.new.turns.count ≡ self.old.turns.count + turns_of (TagToken tag.old)
            (built Sink.TreeSink self.old.construction (Sink.forest self.old.sink))) }
        ensures most { self.new.turns.count ≤ self.old.turns.count + most_turns self.old.construction.stack.open_elems }
        ensures fault { IfErr result (λ fault. fault ≡ Memory) }
    {
        self.report_line(line);
        match self
            .construction
            .process_tag(&mut self.sink, tag, &mut self.turns)
        {
            Ok(reply) => Ok(reply),
            Err(fault) => {
                self.has_failed = true;
                Err(fault)
            }
        }
    }

    /// Takes a tag, unless something stands against it.
    #[inline(always)]
    pub(crate) fn process_lent_tag(
        &mut self,
        tag: &mut Tag,
        line_number: u64,
    ) -> Result<TokenSinkResult<Sink::Handle>, ParseFault>
        requires { self.old.has_failed ≡ false → Usable (hushed (built Sink.TreeSink self.old.construction (Sink.forest self.old.sink))) }
        ensures gives { Gives Sink.node
            (step (hushed (built Sink.TreeSink self.old.construction (Sink.forest self.old.sink)))
            (TagToken tag.old) line_number) result (hushed (built Sink.TreeSink self.new.construction (Sink.forest self.new.sink))) }
        ensures failed_before { tells_failed result ≡ self.old.has_failed }
        ensures failed_after { self.new.has_failed ≡ fails result }
        ensures unchanged { OnRefused result
            (hushed (built Sink.TreeSink self.new.construction (Sink.forest self.new.sink)) ≡ hushed
            (built Sink.TreeSink self.old.construction (Sink.forest self.old.sink))) }
        ensures same_errors { OnRefused result ((Sink.forest self.new.sink).errors ≡ (Sink.forest self.old.sink).errors) }
        ensures counts { Counts (is_quiet
            (hushed (built Sink.TreeSink self.old.construction (Sink.forest self.old.sink))) (TagToken tag.old))
            (TagToken tag.old) result (Sink.forest self.old.sink).errors (Sink.forest self.new.sink).errors }
        ensures sound { self.new.has_failed ≡ false
            → Usable (hushed (built Sink.TreeSink self.new.construction (Sink.forest self.new.sink))) }
        ensures counted { OnOk result (self.new.turns.count ≡ self.old.turns.count + turns_of (TagToken tag.old)
            (built Sink.TreeSink self.old.construction (Sink.forest self.old.sink))) }
        ensures most { self.new.turns.count ≤ self.old.turns.count + most_turns self.old.construction.stack.open_elems }
    {
        if self.has_failed {
            return Err(ParseFault::Failed);
        }
        if self.construction.has_ended() {
            return Err(ParseFault::Ended);
        }
        if self.construction.bars_tag(tag) {
            return Err(ParseFault::TokenInText);
        }
        self.process_tag_or_fail(tag, line_number)
    }
}
