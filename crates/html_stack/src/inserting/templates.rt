//! The start tag of a template, which may become a shadow root (HTML Standard, section 13.2.6.4.4).
ghost use Rattle.std.specs.Prelude.{◌≡◌, ◌&&◌, ◌≤◌, ℕ, IfErr, IfSome, OnOk, not};
ghost use Rattle.std.specs.List.{list_any};
ghost use Rattle.markup.specs.Forest.{IsNode, node_count};
ghost use Rattle.markup.specs.TreeLaws.{with_errors};
ghost use Rattle.markup.specs.declared.fault.ParseFault.TheVariants.{Memory};
ghost use Rattle.html_names.specs.Classes.{IsClassOf};
ghost use Rattle.html_rules.specs.Conditions.{is_alone};
ghost use Rattle.html_rules.specs.Names.{Html};
ghost use Rattle.html_rules.specs.Places.{open_element};
ghost use Rattle.html_rules.specs.State.{State, adjusted_by, current_node};
ghost use Rattle.html_rules.specs.Templates.{attach_shadow_root, insert_template, intended_parent_at, number_of};
ghost use Rattle.html_rules.specs.Tokens.{is_shadow_mode};
ghost use Rattle.html_rules_laws.specs.Soundness.{AreOpened};
ghost use Rattle.html_stack.specs.Answering.{answers_of};
ghost use Rattle.html_stack.specs.Inserting.{asked_at, context_of};
ghost use Rattle.html_stack.specs.Stacks.{joined, opens_of, StandsIn};

use crate::entries::{InsertionPoint, OpenElement};
use crate::foreign::adjusted;
use crate::inserting::new_element::NewElement;
use crate::stack::Stack;
use html_names::ElementClass;
use html_tokens::Tag;
use markup::{Attribute, ParseFault, TreeSink};

/// Whether an attribute asks for a shadow root.
fn is_shadow_mode(attribute: &Attribute) -> bool
    ensures { result ≡ is_shadow_mode attribute.now }
{
    attribute.name.local.is("shadowrootmode")
        && (attribute.value.is("open") || attribute.value.is("closed"))
}

/// Whether one of the attributes does.
fn have_shadow_mode(attributes: &[Attribute]) -> bool
    ensures { result ≡ list_any is_shadow_mode attributes.now }
{
    attributes.iter().any(|attribute| is_shadow_mode(attribute))
}

/// Whether there is one element.
fn is_one<Handle>(elements: &[OpenElement<Handle>]) -> bool
    ensures { (node : Handle → ℕ) → result ≡ is_alone (opens_of node elements.now) }
{
    elements.len() == 1
}

/// The node by whose document a place is asked.
fn asked<Handle: Copy>(point: InsertionPoint<Handle>) -> Handle
    ensures { (node : Handle → ℕ) → node result ≡ asked_at node point }
{
    match point {
        InsertionPoint::LastChild(parent) => parent,
        InsertionPoint::BeforeSibling(sibling) => sibling,
        InsertionPoint::TableFosterParenting { element, .. } => element,
    }
}

impl<Sink: TreeSink> Stack<Sink> {
    /// Whether a template with these attributes is to become a shadow root, if its host takes one. The sink is asked where the attributes
    /// ask for a shadow root.
    fn may_be_shadow_root(&self, sink: &mut Sink, attributes: &[Attribute], foster: bool) -> bool
        requires { AreOpened (Sink.forest sink.old) self.now.open_elems }
        ensures answer { result ≡ (list_any is_shadow_mode attributes.now && Sink.allows_shadow_roots
            (with_errors 0 (Sink.forest sink.old))
            (intended_parent_at foster self.now.open_elems (current_node self.now.open_elems)) && not (is_alone self.now.open_elems)) }
        ensures same { Sink.forest sink.new ≡ Sink.forest sink.old }
    {
        if !have_shadow_mode(attributes) || is_one(self.open_elems()) {
            return false;
        }
        let point = self.current_place(sink, foster);
        sink.allow_declarative_shadow_roots(&asked(point))
    }

    /// The element whose shadow root a template becomes: the adjusted current node; the document, where nothing is open.
    fn shadow_host(
        &self,
        sink: &mut Sink,
        context: Option<&OpenElement<Sink::Handle>>,
    ) -> Sink::Handle
        requires opened { AreOpened (Sink.forest sink.old) self.now.open_elems }
        requires context { IfSome (context_of Sink.node context) (λ x. IsNode (Sink.forest sink.old) x.number) }
        ensures number { Sink.node result ≡ number_of (adjusted_by (context_of Sink.node context.entry) self.now.open_elems) }
        ensures is_node { IsNode (Sink.forest sink.new) (Sink.node result) }
        ensures same { Sink.forest sink.new ≡ Sink.forest sink.old }
    {
        match adjusted(self.open_elems(), context) {
            Some(node) => node.handle,
            None => sink.get_document(),
        }
    }

    /// Opens a template without putting it anywhere, and asks the sink to make it a shadow root of the host. If that is not done, it is
    /// popped, and a new one is inserted.
    fn attach_shadow_root(
        &mut self,
        sink: &mut Sink,
        class: ElementClass,
        tag: Tag,
        host: Sink::Handle,
        foster: bool,
        form: Option<Sink::Handle>,
    ) -> Result<(), ParseFault>
        requires class { IsClassOf Html tag.name class }
        requires standing { StandsIn (Sink.forest sink.old) self.old }
        requires host { IsNode (Sink.forest sink.old) (Sink.node host) }
        requires form { IfSome form (λ owner. IsNode (Sink.forest sink.old) (Sink.node owner)) }
        ensures ok { OnOk result ((s : State) → s.foster_parenting ≡ foster
            → s.answers ≡ answers_of Sink.integration_point Sink.allows_shadow_roots Sink.attaches_shadow
            → joined s self.new (Sink.forest sink.new) ≡ attach_shadow_root tag (Sink.node host)
            (open_element Html tag.name tag.attrs tag.had_duplicate_attributes (joined s self.old (Sink.forest sink.old)))) }
        ensures kept { StandsIn (Sink.forest sink.new) self.new }
        ensures grows { node_count (Sink.forest sink.old) ≤ node_count (Sink.forest sink.new) }
        ensures fault { IfErr result (λ fault. fault ≡ Memory) }
    {
        let copied = tag.copy(self.allocator())?;
        let element = NewElement::for_tag(class, copied);
        let template = self.open_element(sink, element)?;
        if sink.attach_declarative_shadow(&host, &template, tag.attrs.as_slice()) {
            return Ok(());
        }
        drop(self.pop(sink));
        self.insert_element_for(sink, class, tag, foster, form)?;
        Ok(())
    }

    /// Inserts the template that a start tag makes, or makes it the shadow root of the adjusted current node, where an attribute asks for
    /// that and the sink allows it and does it (HTML Standard, section 13.2.6.4.4). The context is that of a fragment; the tag's name comes
    /// with its class. On [`ParseFault::Memory`], the only fault, a template may have been made without being opened or put. The tag is
    /// copied where an attribute asks for a shadow root, and else nothing is.
    pub fn insert_template(
        &mut self,
        sink: &mut Sink,
        context: Option<&OpenElement<Sink::Handle>>,
        class: ElementClass,
        tag: Tag,
        foster: bool,
        form: Option<Sink::Handle>,
    ) -> Result<(), ParseFault>
        requires class { IsClassOf Html tag.name class }
        requires standing { StandsIn (Sink.forest sink.old) self.old }
        requires context { IfSome (context_of Sink.node context) (λ x. IsNode (Sink.forest sink.old) x.number) }
        requires form { IfSome form (λ owner. IsNode (Sink.forest sink.old) (Sink.node owner)) }
        ensures ok { OnOk result ((s : State) → s.foster_parenting ≡ foster → s.context_elem ≡ context_of Sink.node
            context.entry → s.answers ≡ answers_of Sink.integration_point Sink.allows_shadow_roots
            Sink.attaches_shadow → joined s self.new (Sink.forest sink.new) ≡ insert_template tag
            (joined s self.old (Sink.forest sink.old))) }
        ensures kept { StandsIn (Sink.forest sink.new) self.new }
        ensures grows { node_count (Sink.forest sink.old) ≤ node_count (Sink.forest sink.new) }
        ensures fault { IfErr result (λ fault. fault ≡ Memory) }
    {
        if self.may_be_shadow_root(sink, tag.attrs.as_slice(), foster) {
            let host = self.shadow_host(sink, context);
            return self.attach_shadow_root(sink, class, tag, host, foster, form);
        }
        self.insert_element_for(sink, class, tag, foster, form)?;
        Ok(())
    }
}
