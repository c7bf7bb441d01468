//! A token that is told is taken as a whole (HTML Standard, section 13.2.6).
ghost use Rattle.std.specs.Prelude.{◌≡◌, ◌≤◌, ◌+◌, [], false, IfErr, IfOk, OnOk};
ghost use Rattle.std.specs.Str.{chars};
ghost use Rattle.markup.specs.declared.fault.ParseFault.TheVariants.{Memory};
ghost use Rattle.html_rules_laws.specs.Coming.{came_of};
ghost use Rattle.html_rules_laws.specs.Usable.{Usable};
ghost use Rattle.html_rules.specs.Actions.{set_ignore_lf};
ghost use Rattle.html_rules.specs.Choice.{choose};
ghost use Rattle.html_tokens.specs.Sink.{numbered};
ghost use Rattle.html_tokens.specs.declared.token.Token.TheVariants.{CharacterTokens, TagToken};
ghost use Rattle.html_rules.specs.Rules.{settle};
ghost use Rattle.html_rules.specs.State.{Answers};
ghost use Rattle.html_rules.specs.Stack.{parse_error};
ghost use Rattle.html_rules.specs.Step.{ends_table_text, doctype_taken, first_doctype_taken, if_kept, text_taken, untouched};
ghost use Rattle.html_rules.specs.Tokens.{name_of};
ghost use Rattle.html_tree_builder.specs.States.{Stands, built, state_of, Performs};
ghost use Rattle.html_tree_builder.specs.Told.{IsTold, token_of};
ghost use Rattle.html_tree_builder.specs.Turns.{most_turns, turns_of};

use crate::construction::Construction;
use crate::errors;
use crate::texts::{after_line_feed, split_first};
use crate::told::{Content, NamedToken};
use html_names::{ElementClass, doctype_error_and_quirks};
use html_rules::{InsertionMode, Rules};
use html_tokens::{Doctype, Tag, Token, TokenSinkResult};
use markup::count::Count;
use markup::{LocalName, ParseFault, Text, TreeSink};
use std::borrow::CowStr;
use std::mem;

impl<'a> NamedToken<'a> {
    ghost use Rattle.html_names.specs.Classes.{IsClassOf};
    ghost use Rattle.html_rules.specs.Names.{Html};

    /// A tag whose name has this class.
    pub(crate) fn of_class(tag: &'a Tag, class: ElementClass) -> NamedToken<'a>
        requires { IsClassOf Html tag.now.name class }
        ensures told { IsTold result }
        ensures content { token_of result.content ≡ TagToken tag.now }
    {
        NamedToken {
            content: Content::Tag(tag),
            name: &tag.name,
            class,
        }
    }

    /// What has this name, or no name.
    fn of(content: Content<'a>, name: &'a LocalName) -> NamedToken<'a>
        requires { name.now ≡ name_of (token_of content) }
        ensures told { IsTold result }
        ensures content { token_of result.content ≡ token_of content.entry }
    {
        NamedToken {
            content,
            name,
            class: ElementClass::html(name),
        }
    }
}

impl<Sink: TreeSink> Construction<Sink> {
    /// What a token comes to.
    fn settle_named(
        &mut self,
        sink: &mut Sink,
        told: &NamedToken<'_>,
        turns: &mut Count,
    ) -> Result<TokenSinkResult<Sink::Handle>, ParseFault>
        requires told { IsTold told.now }
        requires usable { Usable (built Sink.TreeSink self.old (Sink.forest sink.old)) }
        requires going { self.old.has_ended ≡ false }
        ensures state { OnOk result
            (built Sink.TreeSink self.new (Sink.forest sink.new) ≡
            (settle (token_of told.now.content) (built Sink.TreeSink self.old (Sink.forest sink.old))).state) }
        ensures reply { IfOk result
            (λ reply. numbered Sink.node reply ≡
            (settle (token_of told.now.content) (built Sink.TreeSink self.old (Sink.forest sink.old))).reply) }
        ensures counted { OnOk result
            (turns.new.count ≡ turns.old.count +
            (settle (token_of told.now.content) (built Sink.TreeSink self.old (Sink.forest sink.old))).turns) }
        ensures most { turns.new.count ≤ turns.old.count + most_turns self.old.stack.open_elems }
        ensures fault { IfErr result (λ fault. fault ≡ Memory) }
    {
        self.settle(sink, told, turns)
    }

    /// Takes one character. Its turns are not counted.
    pub(crate) fn process_character(
        &mut self,
        sink: &mut Sink,
        character: &str,
    ) -> Result<(), ParseFault>
        requires usable { Usable (built Sink.TreeSink self.old (Sink.forest sink.old)) }
        requires going { self.old.has_ended ≡ false }
        ensures ok { OnOk result (built Sink.TreeSink self.new (Sink.forest sink.new) ≡
            (settle (CharacterTokens (chars character.now)) (built Sink.TreeSink self.old (Sink.forest sink.old))).state) }
        ensures fault { IfErr result (λ fault. fault ≡ Memory) }
    {
        let name = LocalName::empty(self.alloc);
        let told = NamedToken::of(Content::Characters(character), &name);
        drop(self.settle_named(sink, &told, &mut Count::new())?);
        Ok(())
    }

    /// The sink is told that a character was not expected.
    pub(crate) fn report_character(&self, sink: &mut Sink, character: &str)
        ensures { Performs parse_error self.now self.now (Sink.forest sink.old) (Sink.forest sink.new) }
    {
        let name = LocalName::empty(self.alloc);
        let told = NamedToken::of(Content::Characters(character), &name);
        self.report_unexpected(sink, &told);
    }

    /// Takes a text: a run at once, and up to where one begins by runs of white space and single characters.
    fn process_text(&mut self, sink: &mut Sink, text: &str) -> Result<(), ParseFault>
        requires usable { Usable (built Sink.TreeSink self.old (Sink.forest sink.old)) }
        requires going { self.old.has_ended ≡ false }
        ensures ok { OnOk result (built Sink.TreeSink self.new (Sink.forest sink.new) ≡
            (text_taken (chars text.now) (untouched (built Sink.TreeSink self.old (Sink.forest sink.old)))).state) }
        ensures fault { IfErr result (λ fault. fault ≡ Memory) }
    {
        let mut rest = text;
        while let Some((character, behind)) = split_first(rest) {
            if let Some(run) = self.run() {
                let run_text = Text::from_str(self.alloc, rest)?;
                self.process_run(sink, run, run_text)?;
                return Ok(());
            }
            rest = self.process_front(sink, rest, character, behind)?;
        }
        Ok(())
    }

    /// Takes characters that are lent, which may be none. A line feed at their front is dropped where that is asked for.
    #[inline(never)]
    fn process_lent_characters(&mut self, sink: &mut Sink, text: &str) -> Result<(), ParseFault>
        requires usable { Usable (built Sink.TreeSink self.old (Sink.forest sink.old)) }
        requires going { self.old.has_ended ≡ false }
        ensures ok { OnOk result (built Sink.TreeSink self.new (Sink.forest sink.new) ≡
            (came_of (CharacterTokens (chars text.now)) (built Sink.TreeSink self.old (Sink.forest sink.old))).state) }
        ensures fault { IfErr result (λ fault. fault ≡ Memory) }
    {
        if text.is_empty() {
            return Ok(());
        }
        let rest = after_line_feed(self.ignore_lf, text);
        self.set_ignore_lf(false);
        self.process_text(sink, rest)?;
        Ok(())
    }

    /// The same of a text that is handed on where it is a run.
    #[inline(never)]
    fn process_characters(&mut self, sink: &mut Sink, text: &mut Text) -> Result<(), ParseFault>
        requires usable { Usable (built Sink.TreeSink self.old (Sink.forest sink.old)) }
        requires going { self.old.has_ended ≡ false }
        ensures ok { OnOk result (built Sink.TreeSink self.new (Sink.forest sink.new) ≡
            (came_of (CharacterTokens text.old) (built Sink.TreeSink self.old (Sink.forest sink.old))).state) }
        ensures fault { IfErr result (λ fault. fault ≡ Memory) }
    {
        if text.is_empty() {
            return Ok(());
        }
        if self.ignore_lf {
            return self.process_lent_characters(sink, text.as_str());
        }
        match self.run() {
            Some(run) => self.process_run(sink, run, text.take()),
            None => self.process_lent_characters(sink, text.as_str()),
        }
    }

    /// An error of a doctype is told.
    #[tactic(auto, unfolding(html_rules::specs::Stack::parse_error))]
    fn report_doctype(&self, sink: &mut Sink, is_error: bool)
        ensures state { (a : Answers) → state_of a self.now (Sink.forest sink.new) ≡ choose is_error
            (λ _. parse_error (state_of a self.now (Sink.forest sink.old))) (λ _. state_of a self.now (Sink.forest sink.old)) }
        ensures stands { Stands (Sink.forest sink.old) self.now → Stands (Sink.forest sink.new) self.now }
    {
        if is_error {
            sink.parse_error(errors::unexpected_doctype());
        }
    }

    /// A doctype is put into the document, unless none is to be there.
    fn append_doctype(&mut self, sink: &mut Sink, doctype: Doctype) -> Result<(), ParseFault>
        requires stands { Stands (Sink.forest sink.old) self.old }
        ensures ok { OnOk result (Performs (if_kept self.old.opts.drop_doctype doctype) self.old self.new
            (Sink.forest sink.old) (Sink.forest sink.new)) }
        ensures fault { IfErr result (λ fault. fault ≡ Memory) }
    {
        if self.opts.drop_doctype {
            return Ok(());
        }
        self.stack.append_doctype_to_document(sink, doctype)?;
        Ok(())
    }

    /// Whether a doctype puts the pending table character tokens into the tree, as it does by the Standard.
    fn ends_table_text(&self) -> bool
        ensures { result ≡ ends_table_text self.now.stack.rules self.now.mode }
    {
        match (self.stack.rules(), self.mode) {
            (Rules::Standard, InsertionMode::InTableText) => true,
            _ => false,
        }
    }

    /// Takes a doctype where one belongs.
    fn process_first_doctype(&mut self, sink: &mut Sink, doctype: Doctype) -> Result<(), ParseFault>
        requires stands { Stands (Sink.forest sink.old) self.old }
        ensures ok { OnOk result (Performs (first_doctype_taken doctype) self.old self.new (Sink.forest sink.old) (Sink.forest sink.new)) }
        ensures fault { IfErr result (λ fault. fault ≡ Memory) }
    {
        let (is_error, quirks) = doctype_error_and_quirks(
            self.stack.rules(),
            &doctype,
            self.opts.iframe_srcdoc,
        );
        self.report_doctype(sink, is_error);
        self.append_doctype(sink, doctype)?;
        self.set_quirks_mode(sink, quirks);
        self.set_mode(InsertionMode::BeforeHtml);
        Ok(())
    }

    /// Takes a doctype, which is taken out where it belongs.
    #[inline(never)]
    fn process_doctype(&mut self, sink: &mut Sink, doctype: &mut Doctype) -> Result<(), ParseFault>
        requires stands { Stands (Sink.forest sink.old) self.old }
        ensures ok { OnOk result (Performs (doctype_taken self.old.mode doctype.old) self.old self.new
            (Sink.forest sink.old) (Sink.forest sink.new)) }
        ensures fault { IfErr result (λ fault. fault ≡ Memory) }
    {
        match self.mode {
            InsertionMode::Initial => {
                self.process_first_doctype(sink, mem::replace(doctype, Doctype::default()))
            }
            _ => {
                self.report_doctype(sink, true);
                Ok(())
            }
        }
    }

    /// Takes the message of an error, which is told on. Nothing else changes.
    fn process_error(&mut self, sink: &mut Sink, message: &mut CowStr<'static>)
        ensures { built Sink.TreeSink self.new (Sink.forest sink.new) ≡ parse_error (built Sink.TreeSink self.old (Sink.forest sink.old)) }
    {
        sink.parse_error(mem::replace(message, CowStr::Borrowed("")));
    }

    /// Takes what is neither text nor a doctype.
    fn process_named(
        &mut self,
        sink: &mut Sink,
        told: &NamedToken<'_>,
        turns: &mut Count,
    ) -> Result<TokenSinkResult<Sink::Handle>, ParseFault>
        requires told { IsTold told.now }
        requires usable { Usable (built Sink.TreeSink self.old (Sink.forest sink.old)) }
        requires going { self.old.has_ended ≡ false }
        ensures state { OnOk result
            (built Sink.TreeSink self.new (Sink.forest sink.new) ≡
            (settle (token_of told.now.content) (set_ignore_lf false (built Sink.TreeSink self.old (Sink.forest sink.old)))).state) }
        ensures reply { IfOk result
            (λ reply. numbered Sink.node reply ≡
            (settle (token_of told.now.content) (set_ignore_lf false (built Sink.TreeSink self.old (Sink.forest sink.old)))).reply) }
        ensures counted { OnOk result
            (turns.new.count ≡ turns.old.count +
            (settle (token_of told.now.content) (set_ignore_lf false (built Sink.TreeSink self.old (Sink.forest sink.old)))).turns) }
        ensures most { turns.new.count ≤ turns.old.count + most_turns self.old.stack.open_elems }
        ensures fault { IfErr result (λ fault. fault ≡ Memory) }
    {
        self.set_ignore_lf(false);
        self.settle_named(sink, told, turns)
    }

    /// Takes a tag, which may be moved to its element.
    #[inline(never)]
    pub(crate) fn process_tag(
        &mut self,
        sink: &mut Sink,
        tag: &mut Tag,
        turns: &mut Count,
    ) -> Result<TokenSinkResult<Sink::Handle>, ParseFault>
        requires usable { Usable (built Sink.TreeSink self.old (Sink.forest sink.old)) }
        requires going { self.old.has_ended ≡ false }
        ensures state { OnOk result
            (built Sink.TreeSink self.new (Sink.forest sink.new) ≡
            (settle (TagToken tag.old) (set_ignore_lf false (built Sink.TreeSink self.old (Sink.forest sink.old)))).state) }
        ensures reply { IfOk result
            (λ reply. numbered Sink.node reply ≡
            (settle (TagToken tag.old) (set_ignore_lf false (built Sink.TreeSink self.old (Sink.forest sink.old)))).reply) }
        ensures counted { OnOk result
            (turns.new.count ≡ turns.old.count +
            (settle (TagToken tag.old) (set_ignore_lf false (built Sink.TreeSink self.old (Sink.forest sink.old)))).turns) }
        ensures most { turns.new.count ≤ turns.old.count + most_turns self.old.stack.open_elems }
        ensures fault { IfErr result (λ fault. fault ≡ Memory) }
    {
        self.set_ignore_lf(false);
        let class = ElementClass::html(&tag.name);
        self.settle_tag(sink, tag, class, turns)
    }

    /// Takes a token, of which an error's message is taken out, and a doctype where it belongs. An error is told on, and an empty text
    /// changes nothing. Its turns are counted, unless it is text.
    #[tactic(auto, unfolding(html_rules::specs::Step::taken))]
    #[inline(always)]
    pub(crate) fn process(
        &mut self,
        sink: &mut Sink,
        token: &mut Token,
        turns: &mut Count,
    ) -> Result<TokenSinkResult<Sink::Handle>, ParseFault>
        requires usable { Usable (built Sink.TreeSink self.old (Sink.forest sink.old)) }
        requires going { self.old.has_ended ≡ false }
        ensures state { OnOk result
            (built Sink.TreeSink self.new (Sink.forest sink.new) ≡
            (came_of token.old (built Sink.TreeSink self.old (Sink.forest sink.old))).state) }
        ensures reply { IfOk result
            (λ reply. numbered Sink.node reply ≡ (came_of token.old (built Sink.TreeSink self.old (Sink.forest sink.old))).reply) }
        ensures counted { OnOk result
            (turns.new.count ≡ turns.old.count + turns_of token.old (built Sink.TreeSink self.old (Sink.forest sink.old))) }
        ensures most { turns.new.count ≤ turns.old.count + most_turns self.old.stack.open_elems }
        ensures fault { IfErr result (λ fault. fault ≡ Memory) }
    {
        match token {
            Token::ParseError(message) => {
                self.process_error(sink, message);
                Ok(TokenSinkResult::Continue)
            }
            Token::CharacterTokens(text) => {
                self.process_characters(sink, text)?;
                Ok(TokenSinkResult::Continue)
            }
            Token::DoctypeToken(doctype) => {
                if self.ends_table_text() {
                    return self.process_nameless(sink, Content::Doctype(doctype), turns);
                }
                self.set_ignore_lf(false);
                self.process_doctype(sink, doctype)?;
                Ok(TokenSinkResult::Continue)
            }
            Token::TagToken(tag) => self.process_tag(sink, tag, turns),
            Token::CommentToken(text) => {
                self.process_nameless(sink, Content::Comment(text), turns)
            }
            Token::NullCharacterToken => self.process_nameless(sink, Content::Null, turns),
            Token::EOFToken => self.process_nameless(sink, Content::EndOfFile, turns),
        }
    }

    /// Takes what is neither text nor a doctype nor a tag.
    #[inline(never)]
    fn process_nameless(
        &mut self,
        sink: &mut Sink,
        content: Content<'_>,
        turns: &mut Count,
    ) -> Result<TokenSinkResult<Sink::Handle>, ParseFault>
        requires nameless { [] ≡ name_of (token_of content) }
        requires usable { Usable (built Sink.TreeSink self.old (Sink.forest sink.old)) }
        requires going { self.old.has_ended ≡ false }
        ensures state { OnOk result
            (built Sink.TreeSink self.new (Sink.forest sink.new) ≡
            (settle (token_of content.entry) (set_ignore_lf false (built Sink.TreeSink self.old (Sink.forest sink.old)))).state) }
        ensures reply { IfOk result
            (λ reply. numbered Sink.node reply ≡
            (settle (token_of content.entry) (set_ignore_lf false (built Sink.TreeSink self.old (Sink.forest sink.old)))).reply) }
        ensures counted { OnOk result
            (turns.new.count ≡ turns.old.count +
            (settle (token_of content.entry) (set_ignore_lf false (built Sink.TreeSink self.old (Sink.forest sink.old)))).turns) }
        ensures most { turns.new.count ≤ turns.old.count + most_turns self.old.stack.open_elems }
        ensures fault { IfErr result (λ fault. fault ≡ Memory) }
    {
        let name = LocalName::empty(self.alloc);
        self.process_named(sink, &NamedToken::of(content, &name), turns)
    }
}
