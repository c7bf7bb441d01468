//! Elements, text and comments that are inserted, and elements that are closed (HTML Standard, sections 13.2.6.1 and 13.2.6.3).
ghost use Rattle.std.specs.Prelude.{◌≡◌, [], OnOk, IfErr};
ghost use Rattle.std.specs.Str.{chars};
ghost use Rattle.markup.specs.declared.fault.ParseFault.TheVariants.{Memory};
ghost use Rattle.html_rules.specs.Formatting.{create_formatting_element_for, reconstruct_active_formatting_elements};
ghost use Rattle.html_rules.specs.State.{is_in, is_named};
ghost use Rattle.html_rules.specs.Stack.{add_attributes_to_body, add_attributes_to_root, check_body_end, close_item};
ghost use Rattle.html_rules.specs.Stack.{close_p_element_in_button_scope, expect_to_close, pop_but_root};
ghost use Rattle.html_rules.specs.Stack.{process_end_tag_in_body, remove_body};
ghost use Rattle.html_rules.specs.Places.{append_comment, append_comment_to_doc, append_comment_to_html, append_text};
ghost use Rattle.html_rules.specs.Places.{create_root, insert_and_pop_element_for, insert_element_for, insert_phantom};
ghost use Rattle.html_modes.specs.Tables.{spelled};
ghost use Rattle.html_stack.specs.Wanted.{IsOfHtml};
ghost use Rattle.html_rules.specs.Tokens.{attributes_of};
ghost use Rattle.html_tree_builder.specs.States.{Stands, Performs};
ghost use Rattle.html_tree_builder.specs.Told.{token_of};

use crate::construction::Construction;
use crate::told::NamedToken;
use html_modes::Implied;
use html_names::ElementClass;
use html_rules::TagSet;
use html_tokens::Tag;
use markup::{Attributes, LocalName, ParseFault, Text, TreeSink};

impl<Sink: TreeSink> Construction<Sink> {
    ghost use Rattle.html_names.specs.Classes.{IsClassOf};
    ghost use Rattle.html_rules.specs.Names.{Html};

    /// An element is inserted for a tag, whose name and attributes are moved to it.
    #[inline(always)]
    pub(crate) fn insert_element(
        &mut self,
        sink: &mut Sink,
        class: &ElementClass,
        tag: &mut Tag,
    ) -> Result<(), ParseFault>
        requires class { IsClassOf Html tag.old.name class.now }
        requires stands { Stands (Sink.forest sink.old) self.old }
        ensures ok { OnOk result (Performs (insert_element_for tag.old) self.old self.new (Sink.forest sink.old)
            (Sink.forest sink.new)) }
        ensures fault { IfErr result (λ fault. fault ≡ Memory) }
    {
        self.stack
            .insert_element_of(sink, class, tag, self.foster_parenting, self.form_elem)?;
        Ok(())
    }

    /// An element is inserted for a tag, whose name and attributes are moved to it, and popped at once.
    #[inline(always)]
    pub(crate) fn insert_void(
        &mut self,
        sink: &mut Sink,
        class: &ElementClass,
        tag: &mut Tag,
    ) -> Result<(), ParseFault>
        requires class { IsClassOf Html tag.old.name class.now }
        requires stands { Stands (Sink.forest sink.old) self.old }
        ensures ok { OnOk result (Performs (insert_and_pop_element_for tag.old) self.old self.new (Sink.forest sink.old)
            (Sink.forest sink.new)) }
        ensures fault { IfErr result (λ fault. fault ≡ Memory) }
    {
        self.stack
            .insert_and_pop_element_of(sink, class, tag, self.foster_parenting, self.form_elem)?;
        Ok(())
    }

    /// An element is inserted for a tag, whose name and attributes are moved to it, and listed.
    #[inline(never)]
    pub(crate) fn insert_formatting(
        &mut self,
        sink: &mut Sink,
        class: &ElementClass,
        tag: &mut Tag,
    ) -> Result<(), ParseFault>
        requires class { IsClassOf Html tag.old.name class.now }
        requires stands { Stands (Sink.forest sink.old) self.old }
        ensures ok { OnOk result (Performs (create_formatting_element_for tag.old) self.old self.new
            (Sink.forest sink.old) (Sink.forest sink.new)) }
        ensures fault { IfErr result (λ fault. fault ≡ Memory) }
    {
        self.stack
            .create_formatting_element_of(sink, class, tag, self.foster_parenting)?;
        Ok(())
    }

    /// An element is inserted without a tag of its own.
    #[inline(never)]
    pub(crate) fn insert_new(&mut self, sink: &mut Sink, name: Implied) -> Result<(), ParseFault>
        requires stands { Stands (Sink.forest sink.old) self.old }
        ensures ok { OnOk result (Performs (insert_phantom (spelled name)) self.old self.new (Sink.forest sink.old)
            (Sink.forest sink.new)) }
        ensures fault { IfErr result (λ fault. fault ≡ Memory) }
    {
        let name = name.local_name(self.alloc)?;
        self.stack
            .insert_phantom(sink, name, self.foster_parenting, self.form_elem)?;
        Ok(())
    }

    /// The root is made, and opened.
    #[inline(never)]
    pub(crate) fn create_root(
        &mut self,
        sink: &mut Sink,
        told: &NamedToken<'_>,
    ) -> Result<(), ParseFault>
        requires stands { Stands (Sink.forest sink.old) self.old }
        ensures ok { OnOk result (Performs (create_root (attributes_of (token_of told.now.content))) self.old
            self.new (Sink.forest sink.old) (Sink.forest sink.new)) }
        ensures fault { IfErr result (λ fault. fault ≡ Memory) }
    {
        let attrs = told.attributes(self.alloc)?;
        self.stack.create_root(sink, attrs)?;
        Ok(())
    }

    /// The root is made without attributes, and opened.
    #[inline(never)]
    pub(crate) fn create_new_root(&mut self, sink: &mut Sink) -> Result<(), ParseFault>
        requires stands { Stands (Sink.forest sink.old) self.old }
        ensures ok { OnOk result (Performs (create_root []) self.old self.new (Sink.forest sink.old) (Sink.forest sink.new)) }
        ensures fault { IfErr result (λ fault. fault ≡ Memory) }
    {
        let attrs = Attributes::new(self.alloc);
        self.stack.create_root(sink, attrs)?;
        Ok(())
    }

    /// Text is put at the appropriate place.
    #[inline(never)]
    pub(crate) fn append_text(&mut self, sink: &mut Sink, text: &str) -> Result<(), ParseFault>
        requires stands { Stands (Sink.forest sink.old) self.old }
        ensures ok { OnOk result (Performs (append_text (chars text.now)) self.old self.new (Sink.forest sink.old) (Sink.forest sink.new)) }
        ensures fault { IfErr result (λ fault. fault ≡ Memory) }
    {
        let text = Text::from_str(self.alloc, text)?;
        self.append_own_text(sink, text)
    }

    /// The same of a text that is handed on.
    #[inline(always)]
    pub(crate) fn append_own_text(&mut self, sink: &mut Sink, text: Text) -> Result<(), ParseFault>
        requires stands { Stands (Sink.forest sink.old) self.old }
        ensures ok { OnOk result (Performs (append_text text) self.old self.new (Sink.forest sink.old) (Sink.forest sink.new)) }
        ensures fault { IfErr result (λ fault. fault ≡ Memory) }
    {
        self.stack.append_text(sink, text, self.foster_parenting)?;
        Ok(())
    }

    /// A comment is put at the appropriate place.
    #[inline(never)]
    pub(crate) fn append_comment(&mut self, sink: &mut Sink, text: &str) -> Result<(), ParseFault>
        requires stands { Stands (Sink.forest sink.old) self.old }
        ensures ok { OnOk result (Performs (append_comment (chars text.now)) self.old self.new
            (Sink.forest sink.old) (Sink.forest sink.new)) }
        ensures fault { IfErr result (λ fault. fault ≡ Memory) }
    {
        let text = Text::from_str(self.alloc, text)?;
        self.stack
            .append_comment(sink, text, self.foster_parenting)?;
        Ok(())
    }

    /// A comment is put last into the document.
    #[inline(never)]
    pub(crate) fn append_comment_to_doc(
        &mut self,
        sink: &mut Sink,
        text: &str,
    ) -> Result<(), ParseFault>
        requires stands { Stands (Sink.forest sink.old) self.old }
        ensures ok { OnOk result (Performs (append_comment_to_doc (chars text.now)) self.old self.new
            (Sink.forest sink.old) (Sink.forest sink.new)) }
        ensures fault { IfErr result (λ fault. fault ≡ Memory) }
    {
        let text = Text::from_str(self.alloc, text)?;
        self.stack.append_comment_to_doc(sink, text)?;
        Ok(())
    }

    /// A comment is put last into the root.
    #[inline(never)]
    pub(crate) fn append_comment_to_html(
        &mut self,
        sink: &mut Sink,
        text: &str,
    ) -> Result<(), ParseFault>
        requires stands { Stands (Sink.forest sink.old) self.old }
        ensures ok { OnOk result (Performs (append_comment_to_html (chars text.now)) self.old self.new
            (Sink.forest sink.old) (Sink.forest sink.new)) }
        ensures fault { IfErr result (λ fault. fault ≡ Memory) }
    {
        let text = Text::from_str(self.alloc, text)?;
        self.stack.append_comment_to_html(sink, text)?;
        Ok(())
    }

    /// The root gets attributes that it lacks.
    #[inline(never)]
    pub(crate) fn add_attributes_to_root(
        &mut self,
        sink: &mut Sink,
        told: &NamedToken<'_>,
    ) -> Result<(), ParseFault>
        requires stands { Stands (Sink.forest sink.old) self.old }
        ensures ok { OnOk result (Performs (add_attributes_to_root (attributes_of (token_of told.now.content)))
            self.old self.new (Sink.forest sink.old) (Sink.forest sink.new)) }
        ensures fault { IfErr result (λ fault. fault ≡ Memory) }
    {
        let attrs = told.attributes(self.alloc)?;
        self.stack.add_attributes_to_root(sink, attrs)?;
        Ok(())
    }

    /// The body gets attributes that it lacks.
    #[inline(never)]
    pub(crate) fn add_attributes_to_body(
        &mut self,
        sink: &mut Sink,
        told: &NamedToken<'_>,
    ) -> Result<(), ParseFault>
        requires stands { Stands (Sink.forest sink.old) self.old }
        ensures ok { OnOk result (Performs (add_attributes_to_body (attributes_of (token_of told.now.content)))
            self.old self.new (Sink.forest sink.old) (Sink.forest sink.new)) }
        ensures fault { IfErr result (λ fault. fault ≡ Memory) }
    {
        let attrs = told.attributes(self.alloc)?;
        self.stack.add_attributes_to_body(sink, attrs)?;
        Ok(())
    }

    /// The body leaves its parent, and all but the root leave the stack.
    #[inline(never)]
    pub(crate) fn remove_body(&mut self, sink: &mut Sink)
        requires stands { Stands (Sink.forest sink.old) self.old }
        ensures { Performs remove_body self.old self.new (Sink.forest sink.old) (Sink.forest sink.new) }
    {
        self.stack.remove_body(sink);
    }

    /// The current node is popped, unless it is the root.
    pub(crate) fn pop_but_root(&mut self, sink: &mut Sink)
        requires stands { Stands (Sink.forest sink.old) self.old }
        ensures { Performs pop_but_root self.old self.new (Sink.forest sink.old) (Sink.forest sink.new) }
    {
        self.stack.pop_but_root(sink);
    }

    /// "Reconstruct the active formatting elements".
    #[inline(always)]
    pub(crate) fn reconstruct(&mut self, sink: &mut Sink) -> Result<(), ParseFault>
        requires stands { Stands (Sink.forest sink.old) self.old }
        ensures ok { OnOk result (Performs reconstruct_active_formatting_elements self.old self.new
            (Sink.forest sink.old) (Sink.forest sink.new)) }
        ensures fault { IfErr result (λ fault. fault ≡ Memory) }
    {
        self.stack
            .reconstruct_active_formatting_elements(sink, self.foster_parenting)?;
        Ok(())
    }

    /// Elements of a set are popped up to, with an error if it is not the current node.
    pub(crate) fn close_in(&mut self, sink: &mut Sink, set: TagSet)
        requires stands { Stands (Sink.forest sink.old) self.old }
        ensures { Performs (expect_to_close (is_in set)) self.old self.new (Sink.forest sink.old) (Sink.forest sink.new) }
    {
        self.stack.expect_to_close_in(sink, set);
    }

    /// The same, for a name.
    pub(crate) fn close_named(&mut self, sink: &mut Sink, class: ElementClass, name: &LocalName)
        requires class { IsClassOf Html name.now class }
        requires stands { Stands (Sink.forest sink.old) self.old }
        ensures { Performs (expect_to_close (is_named name.now)) self.old self.new (Sink.forest sink.old) (Sink.forest sink.new) }
    {
        self.stack.expect_to_close(sink, class, name);
    }

    /// "Close a p element", if one is in button scope.
    pub(crate) fn close_p(&mut self, sink: &mut Sink)
        requires stands { Stands (Sink.forest sink.old) self.old }
        ensures { Performs close_p_element_in_button_scope self.old self.new (Sink.forest sink.old) (Sink.forest sink.new) }
    {
        self.stack.close_p_element_in_button_scope(sink);
    }

    /// The item that a new one ends is closed.
    pub(crate) fn close_item(&mut self, sink: &mut Sink, items: TagSet)
        requires items { IsOfHtml items }
        requires stands { Stands (Sink.forest sink.old) self.old }
        ensures { Performs (close_item items) self.old self.new (Sink.forest sink.old) (Sink.forest sink.new) }
    {
        self.stack.close_item(sink, items);
    }

    /// "Any other end tag" in a body.
    #[inline(never)]
    pub(crate) fn any_other_end_tag(
        &mut self,
        sink: &mut Sink,
        class: ElementClass,
        name: &LocalName,
    )
        requires class { IsClassOf Html name.now class }
        requires stands { Stands (Sink.forest sink.old) self.old }
        ensures { Performs (process_end_tag_in_body name.now) self.old self.new (Sink.forest sink.old) (Sink.forest sink.new) }
    {
        self.stack.any_other_end_tag(sink, class, name);
    }

    /// An error, if something is open that may not be where the body ends.
    pub(crate) fn check_body_end(&mut self, sink: &mut Sink)
        requires stands { Stands (Sink.forest sink.old) self.old }
        ensures { Performs check_body_end self.old self.new (Sink.forest sink.old) (Sink.forest sink.new) }
    {
        self.stack.check_body_end(sink);
    }
}
