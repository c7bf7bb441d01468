//! Actions of rows, where they only put one node, close the current node, or move what no tree shows.
ghost use Rattle.std.specs.Prelude.{◌≡◌, Bool, IfErr, IfOk, Some, false, not};
ghost use Rattle.markup.specs.declared.fault.ParseFault.TheVariants.{Memory};
ghost use Rattle.html_tokens.specs.declared.token.Token.{Token};
ghost use Rattle.html_rules.specs.State.{Open, current_is, is_in, is_named};
ghost use Rattle.html_rules.specs.Table as table;
ghost use Rattle.html_rules.specs.Tokens.{name_of};
ghost use Rattle.html_rules.specs.declared.tag_set.TagSet.TheVariants.{CursoryImpliedEnd};
ghost use Rattle.html_modes.specs.Tables.{action_of};
ghost use Rattle.html_faithful.specs.Harmless.{closes_if, does, implies, is_opened, provided};
ghost use Rattle.html_faithful_judge.specs.Mades.{made_as};
ghost use Rattle.html_faithful_judge.specs.Tokens.{IsNamed, token_of};

use crate::made::{Change, FormChange, Made, Put};
use crate::tokens::NamedToken;
use html_modes::Action;
use html_rules::{InsertionMode, TagSet};
use markup::ParseFault;
use std::alloc::Global;

impl Made {
    /// The current node, if it is in a set, is closed by its own end tag.
    pub(crate) fn close_in(&mut self, set: TagSet, token: &NamedToken<'_>) -> bool
        ensures { closes_if (is_in set) (token_of token.now.content) (made_as self.old) ≡ provided result (made_as self.new) }
    {
        let passes = self.spot.current_is(set);
        self.closes(passes, token)
    }

    /// The same, if it has the token's name.
    pub(crate) fn close_named(&mut self, token: &NamedToken<'_>) -> bool
        requires { IsNamed token.now }
        ensures { closes_if (is_named (name_of (token_of token.now.content))) (token_of token.now.content) (made_as self.old)
            ≡ provided result (made_as self.new) }
    {
        let passes = self.spot.current_is_named(token.class, token.name);
        self.closes(passes, token)
    }

    /// A `p` that is the current node is closed, where one is in button scope.
    pub(crate) fn close_p(&mut self, token: &NamedToken<'_>) -> bool
        ensures { does table.CloseP (token_of token.now.content) (made_as self.old) ≡ provided result (made_as self.new) }
    {
        if self
            .spot
            .as_stack()
            .in_scope(TagSet::ButtonScope, TagSet::P)
        {
            self.close_in(TagSet::P, token)
        } else {
            true
        }
    }

    /// The current node is closed by the adoption agency.
    pub(crate) fn adopt(&mut self, token: &NamedToken<'_>) -> bool
        requires { IsNamed token.now }
        ensures { does table.AdoptionAgency (token_of token.now.content) (made_as self.old) ≡ provided result (made_as self.new) }
    {
        if !self.is_untouched() {
            return false;
        }
        self.close_named(token) && self.changes(Change::EntryLeft)
    }

    /// The current node is closed, unless it is `html`.
    pub(crate) fn pop_current(&mut self, token: &NamedToken<'_>) -> bool
        ensures { does table.Pop (token_of token.now.content) (made_as self.old) ≡ provided result (made_as self.new) }
    {
        let passes = self.spot.current_is_not(TagSet::Html);
        self.closes(passes, token)
    }

    /// The form that the form element pointer names is closed.
    pub(crate) fn remove_form(&mut self, token: &NamedToken<'_>) -> bool
        ensures { does table.RemoveFormElem (token_of token.now.content) (made_as self.old) ≡ provided result (made_as self.new) }
    {
        if self.is_untouched() && self.spot.is_form_current() {
            self.close_in(TagSet::Form, token)
        } else {
            false
        }
    }

    /// The current node is closed in foreign content.
    pub(crate) fn close_foreign(&mut self, token: &NamedToken<'_>) -> bool
        requires { IsNamed token.now }
        ensures { does table.CloseForeign (token_of token.now.content) (made_as self.old) ≡ provided result (made_as self.new) }
    {
        if self.spot.is_root_alone() {
            return false;
        }
        let passes = self.spot.current_is_any_case(token.name);
        self.closes(passes, token)
    }

    /// Whether the end tag of the current node would be implied, if it is not excepted.
    fn implies(&self, implied: TagSet, excepted: bool) -> bool
        ensures { (p : Open → Bool) → excepted ≡ current_is p (made_as self.now).spot.path → result ≡ implies implied p (made_as self.now) }
    {
        self.spot.current_is(implied) && !excepted
    }

    /// Whether no end tag would be implied but those of a set.
    pub(crate) fn implies_none_but(&self, except: TagSet) -> bool
        ensures { result ≡ not (implies CursoryImpliedEnd (is_in except) (made_as self.now)) }
    {
        let excepted = self.spot.current_is(except);
        !self.implies(TagSet::CursoryImpliedEnd, excepted)
    }

    /// Whether no end tag would be implied but that of the token's name.
    pub(crate) fn implies_none_but_token(&self, token: &NamedToken<'_>) -> bool
        requires { IsNamed token.now }
        ensures { result ≡ not (implies CursoryImpliedEnd (is_named (name_of (token_of token.now.content))) (made_as self.now)) }
    {
        let excepted = self.spot.current_is_named(token.class, token.name);
        !self.implies(TagSet::CursoryImpliedEnd, excepted)
    }

    /// Whether no end tag of a set would be implied.
    pub(crate) fn implies_none(&self, implied: TagSet) -> bool
        ensures { result ≡ not (implies implied (λ x. false) (made_as self.now)) }
    {
        !self.spot.current_is(implied)
    }

    /// Whether an element was put and opened.
    pub fn is_opened(&self) -> bool
        ensures { result ≡ is_opened (made_as self.now).put }
    {
        match &self.put {
            Some(Put::Element { opened, .. }) => *opened,
            _ => false,
        }
    }

    /// The form element pointer names the element that was opened.
    pub(crate) fn set_form(&mut self) -> bool
        ensures { (t : Token) → does table.SetFormElem t (made_as self.old) ≡ provided result (made_as self.new) }
    {
        if !self.is_opened() || self.closed {
            return false;
        }
        self.form = FormChange::FormSet;
        true
    }

    /// The form element pointer names nothing.
    pub(crate) fn forget_form(&mut self) -> bool
        ensures { (t : Token) → does table.ForgetFormElem t (made_as self.old) ≡ provided result (made_as self.new) }
    {
        if !self.closed {
            return false;
        }
        self.form = FormChange::FormForgotten;
        true
    }

    /// The original mode becomes the mode.
    pub(crate) fn restore_mode(&mut self)
        ensures { (t : Token) → does table.RestoreMode t (made_as self.old) ≡ Some (made_as self.new) }
    {
        if let Some(mode) = self.spot.orig_mode {
            self.spot.mode = mode;
        }
        self.spot.orig_mode = None;
    }

    /// The insertion mode is reset.
    pub(crate) fn reset_mode(&mut self)
        ensures { (t : Token) → does table.ResetMode t (made_as self.old) ≡ Some (made_as self.new) }
    {
        self.spot.reset_mode();
    }
    /// The frameset-ok flag is cleared, unless the token's text is white space.
    pub(crate) fn frameset_not_ok_unless_white(&mut self, token: &NamedToken<'_>)
        ensures { does table.FramesetNotOkUnlessWhite (token_of token.now.content) (made_as self.old) ≡ Some (made_as self.new) }
    {
        let white = token.is_white();
        self.spot.frameset_ok = self.spot.frameset_ok && white;
    }

    /// A template insertion mode is pushed.
    pub(crate) fn push_template_mode(&mut self, mode: InsertionMode) -> Result<bool, ParseFault>
        ensures ok { IfOk result (λ goes_on. (t : Token) → does (table.PushTemplateMode mode) t (made_as self.old)
            ≡ provided goes_on (made_as self.new)) }
        ensures fault { IfErr result (λ fault. fault ≡ Memory) }
    {
        self.spot.stack.push_template_mode(mode)?;
        Ok(true)
    }

    /// The current template insertion mode leaves.
    pub(crate) fn pop_template_mode(&mut self)
        ensures { (t : Token) → does table.PopTemplateMode t (made_as self.old) ≡ Some (made_as self.new) }
    {
        drop(self.spot.stack.pop_template_mode());
    }

    /// The current template insertion mode is changed.
    pub(crate) fn set_template_mode(&mut self, mode: InsertionMode) -> Result<bool, ParseFault>
        ensures ok { IfOk result (λ goes_on. (t : Token) → does (table.SetTemplateMode mode) t (made_as self.old)
            ≡ provided goes_on (made_as self.new)) }
        ensures fault { IfErr result (λ fault. fault ≡ Memory) }
    {
        self.pop_template_mode();
        self.push_template_mode(mode)
    }
}
