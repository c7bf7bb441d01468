//! Modes, flags and pointers (HTML Standard, section 13.2.4).
ghost use Rattle.std.specs.Prelude.{◌≡◌, OnOk, IfErr, false};
ghost use Rattle.std.specs.Str.{chars};
ghost use Rattle.markup.specs.declared.fault.ParseFault.TheVariants.{Memory};
ghost use Rattle.html_rules.specs.Actions.{restore_mode, forget_form_elem, frameset_not_ok, frameset_not_ok_unless_white};
ghost use Rattle.html_rules.specs.Actions.{save_mode, pop_template_mode, push_template_mode, set_foster_parenting};
ghost use Rattle.html_rules.specs.Actions.{set_ignore_lf, set_mode, set_quirks_mode, set_template_mode};
ghost use Rattle.html_stack.specs.Modes.{IsContext};
ghost use Rattle.html_rules.specs.Reset.{reset_insertion_mode};
ghost use Rattle.html_tree_builder.specs.States.{Changes, Performs};

use crate::construction::Construction;
use crate::told::is_white;
use html_names::ElementName;
use html_rules::InsertionMode;
use markup::{ParseFault, QuirksMode, TreeSink};

impl<Sink: TreeSink> Construction<Sink> {
    /// "Switch the insertion mode".
    #[tactic(auto, unfolding(html_rules::specs::Actions::set_mode))]
    pub(crate) fn set_mode(&mut self, mode: InsertionMode)
        ensures { Changes (set_mode mode) self.old self.new }
    {
        self.mode = mode;
    }

    /// The mode becomes the original one.
    #[tactic(auto, unfolding(html_rules::specs::Actions::save_mode))]
    pub(crate) fn save_mode(&mut self)
        ensures { Changes save_mode self.old self.new }
    {
        self.orig_mode = Some(self.mode);
    }

    /// The original mode becomes the mode.
    #[tactic(auto, unfolding(html_rules::specs::Actions::restore_mode))]
    pub(crate) fn restore_mode(&mut self)
        ensures { Changes restore_mode self.old self.new }
    {
        if let Some(mode) = self.orig_mode {
            self.mode = mode;
        }
        self.orig_mode = None;
    }

    /// The name of the context of a fragment.
    fn context_name(&self) -> Option<&ElementName>
        ensures { IsContext self.now.context_elem result }
    {
        match &self.context_elem {
            Some(context) => Some(&context.name),
            None => None,
        }
    }

    /// "Reset the insertion mode appropriately".
    #[tactic(auto, unfolding(html_rules::specs::Reset::reset_insertion_mode))]
    pub(crate) fn reset_mode(&mut self)
        ensures { Changes reset_insertion_mode self.old self.new }
    {
        let has_head = self.head_elem.is_some();
        let mode = self
            .stack
            .reset_insertion_mode(has_head, self.context_name());
        self.mode = mode;
    }

    /// A template insertion mode is pushed.
    #[tactic(auto, unfolding(html_rules::specs::Actions::push_template_mode))]
    pub(crate) fn push_template_mode(&mut self, mode: InsertionMode) -> Result<(), ParseFault>
        ensures ok { OnOk result (Changes (push_template_mode mode) self.old self.new) }
        ensures fault { IfErr result (λ fault. fault ≡ Memory) }
    {
        self.stack.push_template_mode(mode)
    }

    /// The current template insertion mode is popped.
    #[tactic(auto, unfolding(html_rules::specs::Actions::pop_template_mode))]
    pub(crate) fn pop_template_mode(&mut self)
        ensures { Changes pop_template_mode self.old self.new }
    {
        let _ = self.stack.pop_template_mode();
    }

    /// The current template insertion mode is changed.
    #[tactic(auto, unfolding(html_rules::specs::Actions::set_template_mode))]
    pub(crate) fn set_template_mode(&mut self, mode: InsertionMode) -> Result<(), ParseFault>
        ensures ok { OnOk result (Changes (set_template_mode mode) self.old self.new) }
        ensures fault { IfErr result (λ fault. fault ≡ Memory) }
    {
        let _ = self.stack.pop_template_mode();
        self.stack.push_template_mode(mode)
    }

    /// The document is in a quirks mode.
    #[tactic(auto, unfolding(html_rules::specs::Actions::set_quirks_mode))]
    pub(crate) fn set_quirks_mode(&mut self, sink: &mut Sink, mode: QuirksMode)
        ensures { Performs (set_quirks_mode mode) self.old self.new (Sink.forest sink.old) (Sink.forest sink.new) }
    {
        self.quirks_mode = mode;
        sink.set_quirks_mode(mode);
    }

    /// The frameset-ok flag is cleared.
    #[tactic(auto, unfolding(html_rules::specs::Actions::frameset_not_ok))]
    pub(crate) fn frameset_not_ok(&mut self)
        ensures { Changes frameset_not_ok self.old self.new }
    {
        self.frameset_ok = false;
    }

    /// The same, unless a text is white space.
    #[tactic(auto, unfolding(html_rules::specs::Actions::frameset_not_ok_unless_white))]
    #[inline(always)]
    pub(crate) fn frameset_not_ok_unless_white(&mut self, text: &str)
        ensures { Changes (frameset_not_ok_unless_white (chars text.now)) self.old self.new }
    {
        self.frameset_ok = self.frameset_ok && is_white(text);
    }

    /// A line feed that comes next is dropped, or is not.
    #[tactic(auto, unfolding(html_rules::specs::Actions::set_ignore_lf))]
    pub(crate) fn set_ignore_lf(&mut self, ignore_lf: bool)
        ensures { Changes (set_ignore_lf ignore_lf) self.old self.new }
    {
        self.ignore_lf = ignore_lf;
    }

    /// Foster parenting is enabled or disabled.
    #[tactic(auto, unfolding(html_rules::specs::Actions::set_foster_parenting))]
    pub(crate) fn set_foster_parenting(&mut self, foster_parenting: bool)
        ensures { Changes (set_foster_parenting foster_parenting) self.old self.new }
    {
        self.foster_parenting = foster_parenting;
    }

    /// The form element pointer names nothing.
    #[tactic(auto, unfolding(html_rules::specs::Actions::forget_form_elem))]
    pub(crate) fn forget_form_elem(&mut self)
        ensures { Changes forget_form_elem self.old self.new }
    {
        self.form_elem = None;
    }
}
