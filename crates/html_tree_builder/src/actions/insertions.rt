//! Elements that are inserted for a tag, which is moved to them or copied (HTML Standard, sections 13.2.6.1 and 13.2.6.5).
ghost use Rattle.std.specs.Prelude.{◌≡◌, true, IfErr, IfSome, OnOk};
ghost use Rattle.markup.specs.declared.fault.ParseFault.TheVariants.{Memory};
ghost use Rattle.html_modes.specs.Tables.{action_of};
ghost use Rattle.html_tokens.specs.declared.token.Token.{Token as RuleToken};
ghost use Rattle.html_tokens.specs.declared.token.Token.TheVariants.{TagToken};
ghost use Rattle.html_rules.specs.Actions.{act};
ghost use Rattle.html_tree_builder.specs.Acting.{MayAct};
ghost use Rattle.html_tree_builder.specs.Inserting.{inserting, is_indifferent};
ghost use Rattle.html_tree_builder.specs.States.{built, Changes, Performs, Stands};
ghost use Rattle.html_tree_builder.specs.Told.{IsTold, token_of};

use crate::construction::Construction;
use crate::told::{Content, NamedToken};
use html_modes::{Action, Condition};
use html_names::ElementClass;
use html_rules::TagSet;
use html_tokens::Tag;
use markup::{ParseFault, TreeSink};

/// How an element is inserted for a tag.
#[derive(Clone, Copy)]
pub(crate) enum Insertion {
    /// The element is opened.
    Element,
    /// It is popped at once.
    Void,
    /// It is opened, and listed.
    Formatting,
    /// It is one of foreign content.
    Foreign,
}

/// The insertion that an action is, if it is one.
#[inline(always)]
fn insertion_of(action: &Action) -> Option<Insertion>
    ensures { IfSome result (λ insertion. action_of action.now ≡ inserting insertion) }
{
    match action {
        Action::InsertElement => Some(Insertion::Element),
        Action::InsertVoid => Some(Insertion::Void),
        Action::InsertFormatting => Some(Insertion::Formatting),
        Action::InsertForeign => Some(Insertion::Foreign),
        _ => None,
    }
}

/// Whether an action does the same for every token.
fn is_indifferent(action: &Action) -> bool
    ensures { result ≡ is_indifferent (action_of action.now) }
{
    match action {
        Action::Then(first, more) => is_indifferent(first) && is_indifferent(more),
        Action::InsertMarker => true,
        Action::FramesetNotOk => true,
        Action::IgnoreLineFeed => true,
        Action::SaveMode => true,
        Action::SwitchTo(_) => true,
        _ => false,
    }
}

impl<Sink: TreeSink> Construction<Sink> {
    ghost use Rattle.html_names.specs.Classes.{IsClassOf};
    ghost use Rattle.html_rules.specs.Names.{Html};

    /// An element is inserted for a tag, whose name and attributes are moved to it.
    #[inline(always)]
    fn insert_moved(
        &mut self,
        sink: &mut Sink,
        insertion: Insertion,
        class: &ElementClass,
        tag: &mut Tag,
    ) -> Result<(), ParseFault>
        requires class { IsClassOf Html tag.old.name class.now }
        requires stands { Stands (Sink.forest sink.old) self.old }
        ensures ok { OnOk result (Performs (act (inserting insertion) (TagToken tag.old)) self.old self.new
            (Sink.forest sink.old) (Sink.forest sink.new)) }
        ensures fault { IfErr result (λ fault. fault ≡ Memory) }
    {
        match insertion {
            Insertion::Element => self.insert_element_or_script(sink, class, tag),
            Insertion::Void => self.insert_void(sink, class, tag),
            Insertion::Formatting => self.insert_formatting(sink, class, tag),
            Insertion::Foreign => self.insert_foreign(sink, tag.take()),
        }
    }

    /// An element is inserted for a copy of a tag; nothing is for any other token.
    #[inline(never)]
    pub(crate) fn insert_copy(
        &mut self,
        sink: &mut Sink,
        insertion: Insertion,
        told: &NamedToken<'_>,
    ) -> Result<(), ParseFault>
        requires told { IsTold told.now }
        requires stands { Stands (Sink.forest sink.old) self.old }
        ensures ok { OnOk result (Performs (act (inserting insertion) (token_of told.now.content)) self.old self.new
            (Sink.forest sink.old) (Sink.forest sink.new)) }
        ensures fault { IfErr result (λ fault. fault ≡ Memory) }
    {
        let Content::Tag(tag) = told.content else {
            return Ok(());
        };
        let mut tag = tag.copy(self.alloc)?;
        self.insert_moved(sink, insertion, &told.class, &mut tag)
    }

    /// An action is done that does the same for every token.
    fn act_indifferent(&mut self, action: &Action) -> Result<(), ParseFault>
        requires { is_indifferent (action_of action.now) ≡ true }
        ensures ok { OnOk result ((t : RuleToken) → Changes (act (action_of action.now) t) self.old self.new) }
        ensures fault { IfErr result (λ fault. fault ≡ Memory) }
    {
        match action {
            Action::Then(first, more) => {
                self.act_indifferent(first)?;
                self.act_indifferent(more)?;
                Ok(())
            }
            Action::InsertMarker => self.push_marker(),
            Action::FramesetNotOk => {
                self.frameset_not_ok();
                Ok(())
            }
            Action::IgnoreLineFeed => {
                self.set_ignore_lf(true);
                Ok(())
            }
            Action::SaveMode => {
                self.save_mode();
                Ok(())
            }
            Action::SwitchTo(mode) => {
                self.set_mode(*mode);
                Ok(())
            }
            _ => Ok(()),
        }
    }

    /// An action that inserts nothing for a tag is mostly one of a few, which are done at once.
    #[inline(always)]
    fn act_at_once(
        &mut self,
        sink: &mut Sink,
        action: &Action,
        tag: &Tag,
        class: &ElementClass,
    ) -> Result<(), ParseFault>
        requires class { IsClassOf Html tag.now.name class.now }
        requires stands { Stands (Sink.forest sink.old) self.old }
        requires may { MayAct (action_of action.now) (TagToken tag.now) (built Sink.TreeSink self.old (Sink.forest sink.old)) }
        ensures ok { OnOk result (built Sink.TreeSink self.new (Sink.forest sink.new) ≡ act (action_of action.now)
            (TagToken tag.now) (built Sink.TreeSink self.old (Sink.forest sink.old))) }
        ensures fault { IfErr result (λ fault. fault ≡ Memory) }
    {
        match action {
            Action::Reconstruct => self.reconstruct(sink),
            Action::CloseP => {
                self.close_p(sink);
                Ok(())
            }
            Action::ImpliedEndTags => {
                self.implied_end_tags(sink, TagSet::CursoryImpliedEnd);
                Ok(())
            }
            Action::CloseToken => {
                self.close_named(sink, *class, &tag.name);
                Ok(())
            }
            Action::AdoptionAgency => self.adoption_agency(sink, *class, &tag.name),
            Action::FramesetNotOk => {
                self.frameset_not_ok();
                Ok(())
            }
            Action::SwitchTo(mode) => {
                self.set_mode(*mode);
                Ok(())
            }
            Action::ClearBackTo(set) => {
                self.clear_back_to(*set);
                Ok(())
            }
            Action::ClearToMarker => {
                self.clear_to_marker();
                Ok(())
            }
            Action::CloseItem(items) => {
                self.close_item(sink, *items);
                Ok(())
            }
            Action::PopUntil(set) => {
                self.pop_until(*set);
                Ok(())
            }
            Action::AnyOtherEndTag => {
                self.any_other_end_tag(sink, *class, &tag.name);
                Ok(())
            }
            Action::When(Condition::AListed, action) => {
                if self.lists_a() {
                    self.act_told(sink, action, tag, class)?;
                }
                Ok(())
            }
            _ => self.act_told(sink, action, tag, class),
        }
    }

    /// Any action is done.
    #[inline(never)]
    fn act_told(
        &mut self,
        sink: &mut Sink,
        action: &Action,
        tag: &Tag,
        class: &ElementClass,
    ) -> Result<(), ParseFault>
        requires class { IsClassOf Html tag.now.name class.now }
        requires stands { Stands (Sink.forest sink.old) self.old }
        requires may { MayAct (action_of action.now) (TagToken tag.now) (built Sink.TreeSink self.old (Sink.forest sink.old)) }
        ensures ok { OnOk result (built Sink.TreeSink self.new (Sink.forest sink.new) ≡ act (action_of action.now)
            (TagToken tag.now) (built Sink.TreeSink self.old (Sink.forest sink.old))) }
        ensures fault { IfErr result (λ fault. fault ≡ Memory) }
    {
        self.act(sink, action, &NamedToken::of_class(tag, *class))
    }

    /// The same, with what stands after it.
    #[inline(always)]
    fn perform_at_once(
        &mut self,
        sink: &mut Sink,
        action: &Action,
        tag: &Tag,
        class: &ElementClass,
    ) -> Result<(), ParseFault>
        requires class { IsClassOf Html tag.now.name class.now }
        requires stands { Stands (Sink.forest sink.old) self.old }
        requires may { MayAct (action_of action.now) (TagToken tag.now) (built Sink.TreeSink self.old (Sink.forest sink.old)) }
        ensures ok { OnOk result (built Sink.TreeSink self.new (Sink.forest sink.new) ≡ act (action_of action.now)
            (TagToken tag.now) (built Sink.TreeSink self.old (Sink.forest sink.old))) }
        ensures stands { OnOk result (Stands (Sink.forest sink.new) self.new) }
        ensures fault { IfErr result (λ fault. fault ≡ Memory) }
    {
        self.act_at_once(sink, action, tag, class)?;
        Ok(())
    }

    /// An action is done for a tag of that class, which is moved to its element where nothing after that asks for it.
    #[inline(always)]
    pub(crate) fn act_on_tag(
        &mut self,
        sink: &mut Sink,
        action: &Action,
        tag: &mut Tag,
        class: &ElementClass,
    ) -> Result<(), ParseFault>
        requires class { IsClassOf Html tag.old.name class.now }
        requires stands { Stands (Sink.forest sink.old) self.old }
        requires may { MayAct (action_of action.now) (TagToken tag.old) (built Sink.TreeSink self.old (Sink.forest sink.old)) }
        ensures ok { OnOk result (built Sink.TreeSink self.new (Sink.forest sink.new) ≡ act (action_of action.now)
            (TagToken tag.old) (built Sink.TreeSink self.old (Sink.forest sink.old))) }
        ensures fault { IfErr result (λ fault. fault ≡ Memory) }
    {
        let mut rest = action;
        while let Action::Then(first, more) = rest {
            if let Some(insertion) = insertion_of(first)
                && is_indifferent(more)
            {
                self.insert_moved(sink, insertion, class, tag)?;
                return self.act_indifferent(more);
            }
            self.perform_at_once(sink, first, tag, class)?;
            rest = more;
        }
        match insertion_of(rest) {
            Some(insertion) => self.insert_moved(sink, insertion, class, tag),
            None => self.act_at_once(sink, rest, tag, class),
        }
    }
}
