//! What each action of a row does (HTML Standard, section 13.2.6).
ghost use Rattle.std.specs.Prelude.{◌≡◌, true, IfErr, OnOk};
ghost use Rattle.markup.specs.declared.fault.ParseFault.TheVariants.{Memory};
ghost use Rattle.html_modes.specs.Tables.{action_of};
ghost use Rattle.html_rules.specs.Actions.{act};
ghost use Rattle.html_rules.specs.Stack.{parse_error};
ghost use Rattle.html_rules.specs.Table.{Then};
ghost use Rattle.html_tree_builder.specs.Acting.{MayAct, is_alone};
ghost use Rattle.html_tree_builder.specs.States.{Stands, built, Performs};
ghost use Rattle.html_tree_builder.specs.Told.{IsTold, token_of};

use crate::actions::insertions::Insertion;
use crate::construction::Construction;
use crate::errors;
use crate::told::NamedToken;
use html_modes::Action;
use html_rules::TagSet;
use markup::{ParseFault, QuirksMode, TreeSink};

impl<Sink: TreeSink> Construction<Sink> {
    /// Whether the adjusted current node is no element of HTML (HTML Standard, section 13.2.6).
    fn is_in_foreign_content(&self) -> bool {
        match self.adjusted_current_node() {
            Some(element) => !element.name.is_html(),
            None => false,
        }
    }

    /// The sink is told that a token was not expected.
    #[tactic(auto, unfolding(html_rules::specs::Stack::parse_error))]
    #[inline(never)]
    pub(crate) fn report_unexpected(&self, sink: &mut Sink, told: &NamedToken<'_>)
        ensures { Performs parse_error self.now self.now (Sink.forest sink.old) (Sink.forest sink.new) }
    {
        let is_foreign = self.is_in_foreign_content();
        let message = errors::of_token(
            self.alloc,
            told,
            self.mode,
            is_foreign,
            self.opts.exact_errors,
        );
        sink.parse_error(message);
    }

    /// An action is done that has no others in it.
    fn act_alone(
        &mut self,
        sink: &mut Sink,
        action: &Action,
        told: &NamedToken<'_>,
    ) -> Result<(), ParseFault>
        requires told { IsTold told.now }
        requires stands { Stands (Sink.forest sink.old) self.old }
        requires may { MayAct (action_of action.now) (token_of told.now.content) (built Sink.TreeSink self.old (Sink.forest sink.old)) }
        requires alone { is_alone (action_of action.now) ≡ true }
        ensures ok { OnOk result (built Sink.TreeSink self.new (Sink.forest sink.new) ≡ act (action_of action.now)
            (token_of told.now.content) (built Sink.TreeSink self.old (Sink.forest sink.old))) }
        ensures fault { IfErr result (λ fault. fault ≡ Memory) }
    {
        match action {
            Action::Nothing | Action::Then(..) | Action::When(..) => Ok(()),
            Action::ParseError => {
                self.report_unexpected(sink, told);
                Ok(())
            }
            Action::InsertElement => self.insert_copy(sink, Insertion::Element, told),
            Action::InsertVoid => self.insert_copy(sink, Insertion::Void, told),
            Action::InsertVoidAs(name) => self.insert_void_as(sink, *name, told),
            Action::InsertFormVoid => self.insert_form_void(sink, told),
            Action::InsertNew(name) => self.insert_new(sink, *name),
            Action::InsertNewVoid(name) => self.insert_new_void(sink, *name),
            Action::CreateRoot => self.create_root(sink, told),
            Action::CreateNewRoot => self.create_new_root(sink),
            Action::AppendText => self.append_text(sink, told.text()),
            Action::AppendReplacement => self.append_replacement(sink),
            Action::AppendComment => self.append_comment(sink, told.text()),
            Action::AppendCommentToDocument => self.append_comment_to_doc(sink, told.text()),
            Action::AppendCommentToRoot => self.append_comment_to_html(sink, told.text()),
            Action::InsertTemplate => self.insert_template(sink, told),
            Action::AddAttributesToRoot => self.add_attributes_to_root(sink, told),
            Action::AddAttributesToBody => self.add_attributes_to_body(sink, told),
            Action::RemoveBody => {
                self.remove_body(sink);
                Ok(())
            }
            Action::Pop => {
                self.pop_told(sink, told);
                Ok(())
            }
            Action::PopUntil(set) => {
                self.pop_until(*set);
                Ok(())
            }
            Action::ClearBackTo(set) => {
                self.clear_back_to(*set);
                Ok(())
            }
            Action::Close(set) => {
                self.close_in(sink, *set);
                Ok(())
            }
            Action::CloseToken => {
                self.close_named(sink, told.class, told.name);
                Ok(())
            }
            Action::CloseP => {
                self.close_p(sink);
                Ok(())
            }
            Action::CloseItem(items) => {
                self.close_item(sink, *items);
                Ok(())
            }
            Action::ImpliedEndTags => {
                self.implied_end_tags(sink, TagSet::CursoryImpliedEnd);
                Ok(())
            }
            Action::ImpliedEndTagsExcept(set) => {
                self.implied_end_tags_except(sink, *set);
                Ok(())
            }
            Action::ImpliedEndTagsExceptToken => {
                self.implied_end_tags_except_named(sink, told.class, told.name);
                Ok(())
            }
            Action::ImpliedEndTagsThoroughly => {
                self.implied_end_tags(sink, TagSet::ThoroughImpliedEnd);
                Ok(())
            }
            Action::AnyOtherEndTag => {
                self.any_other_end_tag(sink, told.class, told.name);
                Ok(())
            }
            Action::CheckBodyEnd => {
                self.check_body_end(sink);
                Ok(())
            }
            Action::SetHeadElem => {
                self.set_head_elem(sink);
                Ok(())
            }
            Action::PushHeadElem => self.push_head_elem(),
            Action::RemoveHeadElem => {
                self.remove_head_elem(sink);
                Ok(())
            }
            Action::SetFormElem => {
                self.set_form_elem(sink);
                Ok(())
            }
            Action::RemoveFormElem => {
                self.remove_form_elem(sink);
                Ok(())
            }
            Action::ForgetFormElem => {
                self.forget_form_elem();
                Ok(())
            }
            Action::Reconstruct => self.reconstruct(sink),
            Action::InsertFormatting => self.insert_copy(sink, Insertion::Formatting, told),
            Action::InsertMarker => self.push_marker(),
            Action::ClearToMarker => {
                self.clear_to_marker();
                Ok(())
            }
            Action::AdoptionAgency => self.adoption_agency(sink, told.class, told.name),
            Action::AdoptNobr => self.adopt_nobr(sink),
            Action::CloseMisnestedA => self.close_misnested_a(sink),
            Action::SwitchTo(mode) => {
                self.set_mode(*mode);
                Ok(())
            }
            Action::SaveMode => {
                self.save_mode();
                Ok(())
            }
            Action::RestoreMode => {
                self.restore_mode();
                Ok(())
            }
            Action::ResetMode => {
                self.reset_mode();
                Ok(())
            }
            Action::PushTemplateMode(mode) => self.push_template_mode(*mode),
            Action::SetTemplateMode(mode) => self.set_template_mode(*mode),
            Action::PopTemplateMode => {
                self.pop_template_mode();
                Ok(())
            }
            Action::SetQuirks => {
                self.set_quirks_mode(sink, QuirksMode::Quirks);
                Ok(())
            }
            Action::FramesetNotOk => {
                self.frameset_not_ok();
                Ok(())
            }
            Action::FramesetNotOkUnlessWhite => {
                self.frameset_not_ok_unless_white(told.text());
                Ok(())
            }
            Action::IgnoreLineFeed => {
                self.set_ignore_lf(true);
                Ok(())
            }
            Action::EnableFosterParenting => {
                self.set_foster_parenting(true);
                Ok(())
            }
            Action::DisableFosterParenting => {
                self.set_foster_parenting(false);
                Ok(())
            }
            Action::KeepText => self.keep_text(told.text()),
            Action::InsertPendingText => self.insert_pending_text(sink),
            Action::EnterForeign(namespace) => self.enter_foreign(sink, *namespace, told),
            Action::InsertForeign => self.insert_copy(sink, Insertion::Foreign, told),
            Action::PopForeign => {
                self.pop_foreign(sink);
                Ok(())
            }
            Action::CloseForeign => {
                self.close_foreign(told.name);
                Ok(())
            }
        }
    }

    /// The first of two actions is done.
    #[cycle(act)]
    fn act_first(
        &mut self,
        sink: &mut Sink,
        first: &Action,
        more: &Action,
        told: &NamedToken<'_>,
    ) -> Result<(), ParseFault>
        requires told { IsTold told.now }
        requires stands { Stands (Sink.forest sink.old) self.old }
        requires may { MayAct (Then (action_of first.now) (action_of more.now)) (token_of told.now.content)
            (built Sink.TreeSink self.old (Sink.forest sink.old)) }
        ensures ok { OnOk result (built Sink.TreeSink self.new (Sink.forest sink.new) ≡ act (action_of first.now)
            (token_of told.now.content) (built Sink.TreeSink self.old (Sink.forest sink.old))) }
        ensures stands { OnOk result (Stands (Sink.forest sink.new) self.new) }
        ensures may { OnOk result (MayAct (action_of more.now) (token_of told.now.content)
            (built Sink.TreeSink self.new (Sink.forest sink.new))) }
        ensures fault { IfErr result (λ fault. fault ≡ Memory) }
    {
        let _ = more;
        self.act(sink, first, told)?;
        Ok(())
    }

    /// An action is done.
    #[cycle(act)]
    pub(crate) fn act(
        &mut self,
        sink: &mut Sink,
        action: &Action,
        told: &NamedToken<'_>,
    ) -> Result<(), ParseFault>
        requires told { IsTold told.now }
        requires stands { Stands (Sink.forest sink.old) self.old }
        requires may { MayAct (action_of action.now) (token_of told.now.content) (built Sink.TreeSink self.old (Sink.forest sink.old)) }
        ensures ok { OnOk result (built Sink.TreeSink self.new (Sink.forest sink.new) ≡ act (action_of action.now)
            (token_of told.now.content) (built Sink.TreeSink self.old (Sink.forest sink.old))) }
        ensures fault { IfErr result (λ fault. fault ≡ Memory) }
    {
        match action {
            Action::Then(first, more) => {
                self.act_first(sink, first, more, told)?;
                self.act(sink, more, told)?;
            }
            Action::When(condition, action) => {
                if self.holds(sink, condition, told) {
                    self.act(sink, action, told)?;
                }
            }
            _ => self.act_alone(sink, action, told)?,
        }
        Ok(())
    }

    /// The same, with what stands after it.
    pub(crate) fn perform(
        &mut self,
        sink: &mut Sink,
        action: &Action,
        told: &NamedToken<'_>,
    ) -> Result<(), ParseFault>
        requires told { IsTold told.now }
        requires stands { Stands (Sink.forest sink.old) self.old }
        requires may { MayAct (action_of action.now) (token_of told.now.content) (built Sink.TreeSink self.old (Sink.forest sink.old)) }
        ensures ok { OnOk result (built Sink.TreeSink self.new (Sink.forest sink.new) ≡ act (action_of action.now)
            (token_of told.now.content) (built Sink.TreeSink self.old (Sink.forest sink.old))) }
        ensures stands { OnOk result (Stands (Sink.forest sink.new) self.new) }
        ensures fault { IfErr result (λ fault. fault ≡ Memory) }
    {
        self.act(sink, action, told)?;
        Ok(())
    }
}
