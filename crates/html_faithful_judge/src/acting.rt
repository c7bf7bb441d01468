//! What each action of a row does, where it only puts one node, closes the current node, or moves what no tree shows.
ghost use Rattle.std.specs.Prelude.{◌≡◌, IfErr, IfOk, true};
ghost use Rattle.markup.specs.declared.fault.ParseFault.TheVariants.{Memory};
ghost use Rattle.html_modes.specs.Tables.{action_of, condition_of};
ghost use Rattle.html_faithful.specs.Harmless.{asks_pointers, does, provided};
ghost use Rattle.html_faithful_judge.specs.Mades.{is_alone, made_as};
ghost use Rattle.html_faithful_judge.specs.Tokens.{IsNamed, token_of};

use crate::made::{Change, Made, Put};
use crate::tokens::NamedToken;
use html_modes::{Action, Condition};
use html_rules::TagSet;
use markup::ParseFault;
use std::alloc::Global;

/// Whether a condition asks for the form element pointer or for the list of active formatting elements.
fn asks_pointers(condition: &Condition) -> bool
    ensures { result ≡ asks_pointers (condition_of condition.now) }
{
    match condition {
        Condition::Not(other) => asks_pointers(other),
        Condition::Both(one, other) => asks_pointers(one) || asks_pointers(other),
        Condition::HasFormElem
        | Condition::FormElemInScope
        | Condition::FormElemIsCurrent
        | Condition::AListed => true,
        _ => false,
    }
}

impl Made {
    /// An action is done that has no others in it; answers whether it did no harm.
    fn does_alone(
        &mut self,
        alloc: Global,
        action: &Action,
        token: &NamedToken<'_>,
    ) -> Result<bool, ParseFault>
        requires named { IsNamed token.now }
        requires alone { is_alone (action_of action.now) ≡ true }
        ensures ok { IfOk result (λ goes_on. does (action_of action.now) (token_of token.now.content) (made_as self.old)
            ≡ provided goes_on (made_as self.new)) }
        ensures fault { IfErr result (λ fault. fault ≡ Memory) }
    {
        match action {
            Action::Then(..) => Ok(false),
            Action::When(..) => Ok(false),
            Action::Nothing => Ok(true),
            // An element, a text, a comment is put.
            Action::CreateRoot => self.create_root(alloc, token),
            Action::InsertElement => self.insert_element(alloc, token),
            Action::InsertFormatting => self.insert_formatting(alloc, token),
            Action::InsertTemplate => self.insert_template(alloc, token),
            Action::InsertVoid => self.insert_void(alloc, token),
            Action::EnterForeign(namespace) => self.enter_foreign(alloc, *namespace, token),
            Action::InsertForeign => self.insert_foreign(alloc, token),
            Action::AppendText => Ok(self.puts(Put::TextHere)),
            Action::AppendComment => Ok(self.puts(Put::CommentHere)),
            Action::AppendCommentToRoot => Ok(self.puts(Put::InRoot)),
            Action::AppendCommentToDocument => Ok(self.puts(Put::InDocument)),
            // The current node is closed.
            Action::CloseP => Ok(self.close_p(token)),
            Action::PopUntil(names) => Ok(self.close_in(*names, token)),
            Action::Close(names) => Ok(self.close_in(*names, token)),
            Action::CloseToken => Ok(self.close_named(token)),
            Action::AnyOtherEndTag => Ok(self.close_named(token)),
            Action::AdoptionAgency => Ok(self.adopt(token)),
            Action::Pop => Ok(self.pop_current(token)),
            Action::RemoveFormElem => Ok(self.remove_form(token)),
            Action::CloseForeign => Ok(self.close_foreign(token)),
            // Nothing else would be closed.
            Action::CloseItem(items) => Ok(!self.spot.has_item(*items)),
            Action::ClearBackTo(names) => Ok(self.spot.current_is(*names)),
            Action::ImpliedEndTags => Ok(self.implies_none(TagSet::CursoryImpliedEnd)),
            Action::ImpliedEndTagsExcept(names) => Ok(self.implies_none_but(*names)),
            Action::ImpliedEndTagsExceptToken => Ok(self.implies_none_but_token(token)),
            Action::ImpliedEndTagsThoroughly => Ok(self.implies_none(TagSet::ThoroughImpliedEnd)),
            Action::CheckBodyEnd => Ok(self.spot.context().ends_with_body),
            // The list of active formatting elements and the form element pointer.
            Action::Reconstruct => Ok(self.is_untouched()),
            Action::InsertMarker => Ok(self.changes(Change::MarkerPushed)),
            Action::ClearToMarker => Ok(self.changes(Change::MarkerLeft)),
            Action::SetFormElem => Ok(self.set_form()),
            Action::ForgetFormElem => Ok(self.forget_form()),
            // Modes and flags.
            Action::FramesetNotOk => {
                self.spot.frameset_ok = false;
                Ok(true)
            }
            Action::FramesetNotOkUnlessWhite => {
                self.frameset_not_ok_unless_white(token);
                Ok(true)
            }
            Action::SwitchTo(mode) => {
                self.spot.mode = *mode;
                Ok(true)
            }
            Action::SaveMode => {
                self.spot.orig_mode = Some(self.spot.mode);
                Ok(true)
            }
            Action::RestoreMode => {
                self.restore_mode();
                Ok(true)
            }
            Action::ResetMode => {
                self.reset_mode();
                Ok(true)
            }
            Action::PushTemplateMode(mode) => self.push_template_mode(*mode),
            Action::SetTemplateMode(mode) => self.set_template_mode(*mode),
            Action::PopTemplateMode => {
                self.pop_template_mode();
                Ok(true)
            }
            Action::SetHeadElem => {
                self.spot.has_head = true;
                Ok(true)
            }
            Action::IgnoreLineFeed => {
                self.drops_line_feed = true;
                Ok(true)
            }
            // All else does more, or is an error.
            Action::ParseError => Ok(false),
            Action::InsertVoidAs(_) => Ok(false),
            Action::InsertFormVoid => Ok(false),
            Action::InsertNew(_) => Ok(false),
            Action::InsertNewVoid(_) => Ok(false),
            Action::CreateNewRoot => Ok(false),
            Action::AppendReplacement => Ok(false),
            Action::AddAttributesToRoot => Ok(false),
            Action::AddAttributesToBody => Ok(false),
            Action::RemoveBody => Ok(false),
            Action::PushHeadElem => Ok(false),
            Action::RemoveHeadElem => Ok(false),
            Action::AdoptNobr => Ok(false),
            Action::CloseMisnestedA => Ok(false),
            Action::SetQuirks => Ok(false),
            Action::EnableFosterParenting => Ok(false),
            Action::DisableFosterParenting => Ok(false),
            Action::KeepText => Ok(false),
            Action::InsertPendingText => Ok(false),
            Action::PopForeign => Ok(false),
        }
    }

    /// An action is done; answers whether it did no harm.
    pub(crate) fn does(
        &mut self,
        alloc: Global,
        action: &Action,
        token: &NamedToken<'_>,
    ) -> Result<bool, ParseFault>
        requires { IsNamed token.now }
        ensures ok { IfOk result (λ goes_on. does (action_of action.now) (token_of token.now.content) (made_as self.old)
            ≡ provided goes_on (made_as self.new)) }
        ensures fault { IfErr result (λ fault. fault ≡ Memory) }
    {
        match action {
            Action::Then(first, more) => {
                if !self.does(alloc, first, token)? {
                    return Ok(false);
                }
                self.does(alloc, more, token)
            }
            Action::When(condition, action) => {
                if asks_pointers(condition) && !self.is_untouched() {
                    return Ok(false);
                }
                if !self.spot.holds(condition, token) {
                    return Ok(true);
                }
                self.does(alloc, action, token)
            }
            _ => self.does_alone(alloc, action, token),
        }
    }
}
