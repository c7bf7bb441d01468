//! The tree builder takes tokens (HTML Standard, section 13.2.6).
ghost use Rattle.std.specs.Prelude.{◌≡◌, ◌≤◌, ◌+◌, [], false, true, IfErr, OnOk};
ghost use Rattle.markup.specs.declared.fault.ParseFault.TheVariants.{Memory};
ghost use Rattle.html_tokens.specs.Sink.{Counts, Gives, OnRefused, fails, tells_failed};
ghost use Rattle.html_tokens.specs.declared.token.Token.TheVariants.{TagToken};
ghost use Rattle.html_rules_laws.specs.Coming.{IsTaken};
ghost use Rattle.html_rules_laws.specs.Usable.{Usable};
ghost use Rattle.html_rules.specs.State.{hushed};
ghost use Rattle.html_rules.specs.Step.{is_barred, is_barred_in_text, is_quiet, step};
ghost use Rattle.html_rules_laws.specs.Soundness.{AreOpened};
ghost use Rattle.html_tree_builder.specs.States.{built};
ghost use Rattle.html_tree_builder.specs.Turns.{most_turns, turns_of};

use crate::builder::TreeBuilder;
use crate::construction::Construction;
use html_rules::InsertionMode;
use html_tokens::{Tag, TagKind, Token, TokenSink, TokenSinkResult};
use markup::{ParseFault, TreeSink};

/// Whether a token can't come while the text of an element is read.
fn is_barred_in_text(token: &Token) -> bool
    ensures { result ≡ is_barred_in_text token.now }
{
    match token {
        Token::TagToken(tag) => tag.kind == TagKind::StartTag,
        Token::CommentToken(_) => true,
        Token::NullCharacterToken => true,
        _ => false,
    }
}

/// Whether a token can't come in a mode.
fn is_barred(mode: InsertionMode, token: &Token) -> bool
    ensures { result ≡ is_barred mode token.now }
{
    match mode {
        InsertionMode::Text => is_barred_in_text(token),
        _ => false,
    }
}

impl<Sink: TreeSink> Construction<Sink> {
    /// Whether the end was told.
    pub(crate) fn has_ended(&self) -> bool
        ensures { result ≡ self.now.has_ended }
    {
        self.has_ended
    }

    /// Whether a token can't come.
    fn bars(&self, token: &Token) -> bool
        ensures { result ≡ is_barred self.now.mode token.now }
    {
        is_barred(self.mode, token)
    }

    /// All elements leave the stack, and the sink is told of each.
    fn end(&mut self, sink: &mut Sink)
        requires { AreOpened (Sink.forest sink.old) self.old.stack.open_elems }
        ensures left { self.new ≡ record self.old { stack = record self.old.stack { open_elems = [] }; has_ended = true } }
        ensures same { Sink.forest sink.new ≡ Sink.forest sink.old }
    {
        self.stack.pop_all(sink);
        self.has_ended = true;
    }

    /// The same where the sink is told nothing any more.
    fn end_untold(&mut self)
        ensures { self.new ≡ record self.old { stack = record self.old.stack { open_elems = [] }; has_ended = true } }
    {
        self.stack.truncate(0);
        self.has_ended = true;
    }
}

impl<Sink: TreeSink> TreeBuilder<Sink> {
    /// Tells the sink a line that differs from the last one that it was told.
    pub(crate) fn report_line(&mut self, line: u64)
        ensures same { built Sink.TreeSink self.new.construction (Sink.forest self.new.sink) ≡ built Sink.TreeSink
            self.old.construction (Sink.forest self.old.sink) }
        ensures works { self.new.has_failed ≡ self.old.has_failed }
        ensures turns { self.new.turns.count ≡ self.old.turns.count }
        ensures open { self.new.construction.stack.open_elems ≡ self.old.construction.stack.open_elems }
    {
        if line != self.current_line {
            self.current_line = line;
            self.sink.set_current_line(line);
        }
    }

    /// Takes a token that nothing stands against. Where memory is wanting the builder has failed.
    #[inline(always)]
    fn process_or_fail(
        &mut self,
        token: &mut Token,
        line: u64,
    ) -> Result<TokenSinkResult<Sink::Handle>, ParseFault>
        requires usable { Usable (hushed (built Sink.TreeSink self.old.construction (Sink.forest self.old.sink))) }
        requires going { self.old.construction.has_ended ≡ false }
        requires works { self.old.has_failed ≡ false }
        ensures taken { IsTaken Sink.node token.old
            (built Sink.TreeSink self.old.construction (Sink.forest self.old.sink))
            (built Sink.TreeSink self.new.construction (Sink.forest self.new.sink)) result }
        ensures failed { self.new.has_failed ≡ fails result }
        ensures counted { OnOk result (self.new.turns.count ≡ self.old.turns.count + turns_of token.old
            (built Sink.TreeSink self.old.construction (Sink.forest self.old.sink))) }
        ensures most { self.new.turns.count ≤ self.old.turns.count + most_turns self.old.construction.stack.open_elems }
        ensures fault { IfErr result (λ fault. fault ≡ Memory) }
    {
        self.report_line(line);
        match self
            .construction
            .process(&mut self.sink, token, &mut self.turns)
        {
            Ok(reply) => Ok(reply),
            Err(fault) => {
                self.has_failed = true;
                Err(fault)
            }
        }
    }

    /// Takes a token, unless something stands against it.
    #[inline(always)]
    fn process_lent_token(
        &mut self,
        token: &mut Token,
        line_number: u64,
    ) -> Result<TokenSinkResult<Sink::Handle>, ParseFault>
        requires { self.old.has_failed ≡ false → Usable (hushed (built Sink.TreeSink self.old.construction (Sink.forest self.old.sink))) }
        ensures gives { Gives Sink.node
            (step (hushed (built Sink.TreeSink self.old.construction (Sink.forest self.old.sink))) token.old
            line_number) result (hushed (built Sink.TreeSink self.new.construction (Sink.forest self.new.sink))) }
        ensures failed_before { tells_failed result ≡ self.old.has_failed }
        ensures failed_after { self.new.has_failed ≡ fails result }
        ensures unchanged { OnRefused result
            (hushed (built Sink.TreeSink self.new.construction (Sink.forest self.new.sink)) ≡ hushed
            (built Sink.TreeSink self.old.construction (Sink.forest self.old.sink))) }
        ensures same_errors { OnRefused result ((Sink.forest self.new.sink).errors ≡ (Sink.forest self.old.sink).errors) }
        ensures counts { Counts (is_quiet
            (hushed (built Sink.TreeSink self.old.construction (Sink.forest self.old.sink))) token.old) token.old
            result (Sink.forest self.old.sink).errors (Sink.forest self.new.sink).errors }
        ensures sound { self.new.has_failed ≡ false
            → Usable (hushed (built Sink.TreeSink self.new.construction (Sink.forest self.new.sink))) }
        ensures counted { OnOk result (self.new.turns.count ≡ self.old.turns.count + turns_of token.old
            (built Sink.TreeSink self.old.construction (Sink.forest self.old.sink))) }
        ensures most { self.new.turns.count ≤ self.old.turns.count + most_turns self.old.construction.stack.open_elems }
    {
        if self.has_failed {
            return Err(ParseFault::Failed);
        }
        if self.construction.has_ended() {
            return Err(ParseFault::Ended);
        }
        if self.construction.bars(token) {
            return Err(ParseFault::TokenInText);
        }
        self.process_or_fail(token, line_number)
    }
}

impl<Sink: TreeSink> TokenSink for TreeBuilder<Sink> {
    ghost use Rattle.html_rules.specs.ForeignContent.{asks_cdata};
    ghost use Rattle.html_rules.specs.State.{State, hushed};
    ghost use Rattle.html_rules.specs.Step.{ended, is_quiet, step};
    ghost use Rattle.html_rules_laws.proofs.Progress.UsableTokens.{usable_laws};
    ghost use Rattle.html_rules_laws.specs.Usable.{Usable};
    ghost use Rattle.html_tree_builder.specs.States.{built};

    type Handle = Sink::Handle;

    ghost State = { State };

    ghost view = { λ b. hushed (built Sink.TreeSink b.construction (Sink.forest b.sink)) };

    ghost is_sound = { Usable };

    ghost step = { step };

    ghost ended = { ended };

    ghost asks_cdata = { asks_cdata };

    ghost errors = { λ b. (Sink.forest b.sink).errors };

    ghost errors_ended = { λ _ n. n };

    ghost is_quiet = { is_quiet };

    ghost has_failed = { λ b. b.has_failed };

    ghost number = { Sink.node };

    ghost laws = { usable_laws };

    #[inline(always)]
    fn process_token(
        &mut self,
        token: Token,
        line_number: u64,
    ) -> Result<TokenSinkResult<Sink::Handle>, ParseFault>
        requires { self.old.has_failed ≡ false → Usable (hushed (built Sink.TreeSink self.old.construction (Sink.forest self.old.sink))) }
        ensures gives { Gives Sink.node
            (step (hushed (built Sink.TreeSink self.old.construction (Sink.forest self.old.sink))) token
            line_number) result (hushed (built Sink.TreeSink self.new.construction (Sink.forest self.new.sink))) }
        ensures failed_before { tells_failed result ≡ self.old.has_failed }
        ensures failed_after { self.new.has_failed ≡ fails result }
        ensures unchanged { OnRefused result
            (hushed (built Sink.TreeSink self.new.construction (Sink.forest self.new.sink)) ≡ hushed
            (built Sink.TreeSink self.old.construction (Sink.forest self.old.sink))) }
        ensures same_errors { OnRefused result ((Sink.forest self.new.sink).errors ≡ (Sink.forest self.old.sink).errors) }
        ensures counts { Counts (is_quiet
            (hushed (built Sink.TreeSink self.old.construction (Sink.forest self.old.sink))) token) token result
            (Sink.forest self.old.sink).errors (Sink.forest self.new.sink).errors }
        ensures sound { self.new.has_failed ≡ false
            → Usable (hushed (built Sink.TreeSink self.new.construction (Sink.forest self.new.sink))) }
        ensures counted { OnOk result (self.new.turns.count ≡ self.old.turns.count + turns_of token
            (built Sink.TreeSink self.old.construction (Sink.forest self.old.sink))) }
        ensures most { self.new.turns.count ≤ self.old.turns.count + most_turns self.old.construction.stack.open_elems }
    {
        let mut token = token;
        self.process_lent_token(&mut token, line_number)
    }

    #[inline(always)]
    fn process_tag(
        &mut self,
        tag: &mut Tag,
        line_number: u64,
    ) -> Result<TokenSinkResult<Sink::Handle>, ParseFault>
        requires { self.old.has_failed ≡ false → Usable (hushed (built Sink.TreeSink self.old.construction (Sink.forest self.old.sink))) }
        ensures gives { Gives Sink.node
            (step (hushed (built Sink.TreeSink self.old.construction (Sink.forest self.old.sink)))
            (TagToken tag.old) line_number) result (hushed (built Sink.TreeSink self.new.construction (Sink.forest self.new.sink))) }
        ensures failed_before { tells_failed result ≡ self.old.has_failed }
        ensures failed_after { self.new.has_failed ≡ fails result }
        ensures unchanged { OnRefused result
            (hushed (built Sink.TreeSink self.new.construction (Sink.forest self.new.sink)) ≡ hushed
            (built Sink.TreeSink self.old.construction (Sink.forest self.old.sink))) }
        ensures same_errors { OnRefused result ((Sink.forest self.new.sink).errors ≡ (Sink.forest self.old.sink).errors) }
        ensures counts { Counts (is_quiet
            (hushed (built Sink.TreeSink self.old.construction (Sink.forest self.old.sink))) (TagToken tag.old))
            (TagToken tag.old) result (Sink.forest self.old.sink).errors (Sink.forest self.new.sink).errors }
        ensures sound { self.new.has_failed ≡ false
            → Usable (hushed (built Sink.TreeSink self.new.construction (Sink.forest self.new.sink))) }
        ensures counted { OnOk result (self.new.turns.count ≡ self.old.turns.count + turns_of (TagToken tag.old)
            (built Sink.TreeSink self.old.construction (Sink.forest self.old.sink))) }
        ensures most { self.new.turns.count ≤ self.old.turns.count + most_turns self.old.construction.stack.open_elems }
    {
        self.process_lent_tag(tag, line_number)
    }

    fn end(&mut self) {
        if self.has_failed {
            self.construction.end_untold();
        } else {
            self.construction.end(&mut self.sink);
        }
    }

    fn adjusted_current_node_present_but_not_in_html_namespace(&self) -> bool {
        match self.construction.adjusted_current_node() {
            Some(element) => !element.name.is_html(),
            None => false,
        }
    }
}
