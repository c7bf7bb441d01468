//! Elements that leave the stack, the list, and text that waits (HTML Standard, section 13.2.4).
ghost use Rattle.std.specs.Prelude.{◌≡◌, OnOk, IfErr};
ghost use Rattle.std.specs.Str.{chars};
ghost use Rattle.markup.specs.declared.fault.ParseFault.TheVariants.{Memory};
ghost use Rattle.html_rules.specs.Actions.{keep_text};
ghost use Rattle.html_rules.specs.Formatting.{clear_active_formatting_to_marker, push_marker};
ghost use Rattle.html_rules.specs.State.{is_in, is_named};
ghost use Rattle.html_rules.specs.Stack.{generate_implied_end_except, generate_implied_end_tags, pop_until, pop_until_current};
ghost use Rattle.html_tree_builder.specs.States.{Changes, Performs, Stands};

use crate::construction::Construction;
use html_names::ElementClass;
use html_rules::TagSet;
use markup::{LocalName, ParseFault, TreeSink};

impl<Sink: TreeSink> Construction<Sink> {
    ghost use Rattle.html_names.specs.Classes.{IsClassOf};
    ghost use Rattle.html_rules.specs.Names.{Html};

    /// Elements are popped until one of a set was popped.
    #[tactic(auto, unfolding(html_rules::specs::Stack::pop_until))]
    pub(crate) fn pop_until(&mut self, set: TagSet)
        ensures { Changes (pop_until (is_in set)) self.old self.new }
    {
        self.stack.pop_until(set);
    }

    /// Elements are popped until the current node is in a set.
    #[tactic(auto, unfolding(html_rules::specs::Stack::pop_until_current))]
    pub(crate) fn clear_back_to(&mut self, set: TagSet)
        ensures { Changes (pop_until_current (is_in set)) self.old self.new }
    {
        self.stack.pop_until_current(set);
    }

    /// "Generate implied end tags".
    #[tactic(auto, unfolding(html_rules::specs::Stack::generate_implied_end_tags))]
    pub(crate) fn implied_end_tags(&mut self, sink: &mut Sink, implied: TagSet)
        requires stands { Stands (Sink.forest sink.old) self.old }
        ensures { Performs (generate_implied_end_tags implied) self.old self.new (Sink.forest sink.old) (Sink.forest sink.new) }
    {
        self.stack.generate_implied_end_tags(sink, implied);
    }

    /// The same, except for a set.
    #[tactic(auto, unfolding(html_rules::specs::Stack::generate_implied_end_except))]
    pub(crate) fn implied_end_tags_except(&mut self, sink: &mut Sink, set: TagSet)
        requires stands { Stands (Sink.forest sink.old) self.old }
        ensures { Performs (generate_implied_end_except (is_in set)) self.old self.new (Sink.forest sink.old) (Sink.forest sink.new) }
    {
        self.stack.generate_implied_end_except_in(sink, set);
    }

    /// The same, except for a name.
    #[tactic(auto, unfolding(html_rules::specs::Stack::generate_implied_end_except))]
    pub(crate) fn implied_end_tags_except_named(
        &mut self,
        sink: &mut Sink,
        class: ElementClass,
        name: &LocalName,
    )
        requires class { IsClassOf Html name.now class }
        requires stands { Stands (Sink.forest sink.old) self.old }
        ensures { Performs (generate_implied_end_except (is_named name.now)) self.old self.new
            (Sink.forest sink.old) (Sink.forest sink.new) }
    {
        self.stack.generate_implied_end_except(sink, class, name);
    }

    /// A marker is listed.
    #[tactic(auto, unfolding(html_rules::specs::Formatting::push_marker))]
    pub(crate) fn push_marker(&mut self) -> Result<(), ParseFault>
        ensures ok { OnOk result (Changes push_marker self.old self.new) }
        ensures fault { IfErr result (λ fault. fault ≡ Memory) }
    {
        self.stack.push_marker()
    }

    /// "Clear the list of active formatting elements up to the last marker".
    #[tactic(auto, unfolding(html_rules::specs::Formatting::clear_active_formatting_to_marker))]
    pub(crate) fn clear_to_marker(&mut self)
        ensures { Changes clear_active_formatting_to_marker self.old self.new }
    {
        self.stack.clear_active_formatting_to_marker();
    }

    /// Text waits in the pending table character tokens.
    #[tactic(auto, unfolding(html_rules::specs::Actions::keep_text))]
    pub(crate) fn keep_text(&mut self, text: &str) -> Result<(), ParseFault>
        ensures ok { OnOk result (Changes (keep_text (chars text.now)) self.old self.new) }
        ensures fault { IfErr result (λ fault. fault ≡ Memory) }
    {
        self.pending_table_text.push_str(text)?;
        Ok(())
    }
}
