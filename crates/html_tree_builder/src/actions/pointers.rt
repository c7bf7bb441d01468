//! The pointers to the head and to a form (HTML Standard, section 13.2.4.4).
ghost use Rattle.std.specs.Prelude.{◌≡◌, OnOk, IfErr, IfOk, codes};
ghost use Rattle.markup.specs.declared.fault.ParseFault.TheVariants.{Memory};
ghost use Rattle.html_rules.specs.Actions.{for_tag, insert_form_void, push_head_elem, remove_form_elem, remove_head_elem};
ghost use Rattle.html_rules.specs.Actions.{set_form_elem, set_head_elem};
ghost use Rattle.html_rules.specs.State.{current_number};
ghost use Rattle.html_tree_builder.specs.States.{Changes, Performs, Stands};
ghost use Rattle.html_tree_builder.specs.Told.{IsTold, token_of};

use crate::construction::Construction;
use crate::told::{Content, NamedToken};
use html_modes::Implied;
use html_names::ElementName;
use html_stack::OpenElement;
use markup::{KnownNamespace, Namespace, ParseFault, TreeSink};

impl<Sink: TreeSink> Construction<Sink> {
    ghost use Rattle.html_rules.specs.Names.{Html};

    /// The current node; the document, where none is open.
    pub(crate) fn current_handle(&self, sink: &mut Sink) -> Sink::Handle
        ensures number { Sink.node result ≡ current_number self.now.stack.open_elems }
        ensures same { Sink.forest sink.new ≡ Sink.forest sink.old }
    {
        match self.stack.open_elems().last() {
            Some(element) => element.handle,
            None => sink.get_document(),
        }
    }

    /// The head element pointer names the current node.
    #[tactic(auto, unfolding(html_rules::specs::Actions::set_head_elem))]
    pub(crate) fn set_head_elem(&mut self, sink: &mut Sink)
        ensures { Performs set_head_elem self.old self.new (Sink.forest sink.old) (Sink.forest sink.new) }
    {
        let handle = self.current_handle(sink);
        self.head_elem = Some(handle);
    }

    /// The form element pointer names the current node.
    #[tactic(auto, unfolding(html_rules::specs::Actions::set_form_elem))]
    pub(crate) fn set_form_elem(&mut self, sink: &mut Sink)
        ensures { Performs set_form_elem self.old self.new (Sink.forest sink.old) (Sink.forest sink.new) }
    {
        let handle = self.current_handle(sink);
        self.form_elem = Some(handle);
    }

    /// The element of the head element pointer leaves the stack.
    #[tactic(auto, unfolding(html_rules::specs::Actions::remove_head_elem, html_rules::specs::Stack::remove_from_stack))]
    #[inline(never)]
    pub(crate) fn remove_head_elem(&mut self, sink: &mut Sink)
        requires stands { Stands (Sink.forest sink.old) self.old }
        ensures { Performs remove_head_elem self.old self.new (Sink.forest sink.old) (Sink.forest sink.new) }
    {
        if let Some(head) = self.head_elem {
            self.stack.remove_from_stack(sink, &head);
        }
    }

    /// The element of the form element pointer leaves the stack.
    #[tactic(auto, unfolding(html_rules::specs::Actions::remove_form_elem, html_rules::specs::Stack::remove_from_stack))]
    #[inline(never)]
    pub(crate) fn remove_form_elem(&mut self, sink: &mut Sink)
        requires stands { Stands (Sink.forest sink.old) self.old }
        ensures { Performs remove_form_elem self.old self.new (Sink.forest sink.old) (Sink.forest sink.new) }
    {
        if let Some(form) = self.form_elem {
            self.stack.remove_from_stack(sink, &form);
        }
    }

    /// An element is inserted for a tag and popped at once, and the form element pointer names it.
    #[tactic(auto, unfolding(html_rules::specs::Places::put_element))]
    #[inline(never)]
    pub(crate) fn insert_form_void(
        &mut self,
        sink: &mut Sink,
        told: &NamedToken<'_>,
    ) -> Result<(), ParseFault>
        requires told { IsTold told.now }
        requires stands { Stands (Sink.forest sink.old) self.old }
        ensures ok { OnOk result (Performs (for_tag insert_form_void (token_of told.now.content)) self.old self.new
            (Sink.forest sink.old) (Sink.forest sink.new)) }
        ensures fault { IfErr result (λ fault. fault ≡ Memory) }
    {
        let Content::Tag(tag) = told.content else {
            return Ok(());
        };
        let tag = tag.copy(self.alloc)?;
        let form = self.stack.insert_and_pop_element_for(
            sink,
            told.class,
            tag,
            self.foster_parenting,
            self.form_elem,
        )?;
        self.form_elem = Some(form);
        Ok(())
    }

    /// The name of a head.
    #[tactic(auto, unfolding(markup::specs::Namespaces::name_of, markup::specs::Names::html_namespace, html_rules::specs::Names::mathml_namespace, html_rules::specs::Names::svg_namespace))]
    fn head_name(&self) -> Result<ElementName, ParseFault>
        ensures ok { IfOk result (λ name. name ≡ record { namespace = Html; name = codes "head"; rules = self.now.stack.rules }) }
        ensures fault { IfErr result (λ fault. fault ≡ Memory) }
    {
        let name = Implied::Head.local_name(self.alloc)?;
        let namespace = Namespace::from_known(KnownNamespace::Html);
        ElementName::new(self.alloc, self.stack.rules(), &namespace, &name)
    }

    /// The element of the head element pointer is opened.
    #[tactic(auto, unfolding(html_rules::specs::Actions::push_head_elem))]
    #[inline(never)]
    pub(crate) fn push_head_elem(&mut self) -> Result<(), ParseFault>
        ensures ok { OnOk result (Changes push_head_elem self.old self.new) }
        ensures fault { IfErr result (λ fault. fault ≡ Memory) }
    {
        let Some(handle) = self.head_elem else {
            return Ok(());
        };
        let name = self.head_name()?;
        self.stack.push(OpenElement { handle, name })?;
        Ok(())
    }
}
