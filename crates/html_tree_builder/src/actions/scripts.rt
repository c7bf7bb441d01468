//! Scripts that are never run: those of fragments, and one that the end of the input cuts off (HTML Standard, sections 13.2.6.4.4 and
//! 13.2.6.4.8).
ghost use Rattle.std.specs.Prelude.{◌≡◌, OnOk, IfErr};
ghost use Rattle.markup.specs.declared.fault.ParseFault.TheVariants.{Memory};
ghost use Rattle.html_rules.specs.Places.{insert_element_for};
ghost use Rattle.html_rules.specs.Stack.{pop_but_root};
ghost use Rattle.html_tree_builder.specs.States.{Stands, Performs};
ghost use Rattle.html_tree_builder.specs.Told.{cuts_off_text, token_of};

use crate::construction::Construction;
use crate::told::{Content, NamedToken};
use html_names::ElementClass;
use html_rules::{InsertionMode, TagSet};
use html_tokens::Tag;
use markup::{ParseFault, TreeSink};

impl<Sink: TreeSink> Construction<Sink> {
    ghost use Rattle.html_names.specs.Classes.{IsClassOf};
    ghost use Rattle.html_rules.specs.Names.{Html};

    /// The script of a tag is inserted, and the sink is told before that it has started.
    #[inline(never)]
    fn insert_started_script(
        &mut self,
        sink: &mut Sink,
        class: ElementClass,
        tag: Tag,
    ) -> Result<(), ParseFault>
        requires class { IsClassOf Html tag.name class }
        requires stands { Stands (Sink.forest sink.old) self.old }
        ensures ok { OnOk result (Performs (insert_element_for tag) self.old self.new (Sink.forest sink.old) (Sink.forest sink.new)) }
        ensures fault { IfErr result (λ fault. fault ≡ Memory) }
    {
        self.stack
            .insert_started_script(sink, class, tag, self.foster_parenting)?;
        Ok(())
    }

    /// An element is inserted for a tag, whose name and attributes are moved to it; in a fragment a script has started.
    #[inline(always)]
    pub(crate) fn insert_element_or_script(
        &mut self,
        sink: &mut Sink,
        class: &ElementClass,
        tag: &mut Tag,
    ) -> Result<(), ParseFault>
        requires class { IsClassOf Html tag.old.name class.now }
        requires stands { Stands (Sink.forest sink.old) self.old }
        ensures ok { OnOk result (Performs (insert_element_for tag.old) self.old self.new (Sink.forest sink.old)
            (Sink.forest sink.new)) }
        ensures fault { IfErr result (λ fault. fault ≡ Memory) }
    {
        if class.is_in(TagSet::Script) && self.is_fragment() {
            return self.insert_started_script(sink, *class, tag.take());
        }
        self.insert_element(sink, class, tag)
    }

    /// Whether the input ends within the text of an element.
    fn cuts_off_text(&self, told: &NamedToken<'_>) -> bool
        ensures { result ≡ cuts_off_text (token_of told.now.content) self.now.mode }
    {
        matches!(told.content, Content::EndOfFile) && matches!(self.mode, InsertionMode::Text)
    }

    /// Tells the sink of a script that the end of the input cuts off.
    fn report_cut_off_script(&self, sink: &mut Sink, told: &NamedToken<'_>)
        requires stands { Stands (Sink.forest sink.old) self.now }
        ensures { Sink.forest sink.new ≡ Sink.forest sink.old }
    {
        if self.cuts_off_text(told) {
            self.stack.report_cut_off_script(sink);
        }
    }

    /// The current node is popped, unless it is the root. Where it is a script that the end of the input cuts off, the sink is told
    /// before that it has started.
    #[inline(never)]
    pub(crate) fn pop_told(&mut self, sink: &mut Sink, told: &NamedToken<'_>)
        requires stands { Stands (Sink.forest sink.old) self.old }
        ensures { Performs pop_but_root self.old self.new (Sink.forest sink.old) (Sink.forest sink.new) }
    {
        self.report_cut_off_script(sink, told);
        self.pop_but_root(sink);
    }
}
