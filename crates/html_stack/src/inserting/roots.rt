//! The root and the body (HTML Standard, sections 13.2.6.4.2 and 13.2.6.4.7), and elements that are opened without being put anywhere.
ghost use Rattle.std.specs.Prelude.{◌≡◌, ◌≤◌, ℕ, IfErr, IfSome, MatchOption, None, OnErr, OnOk, Some};
ghost use Rattle.markup.specs.Forest.{Forest, IsNode, node_count};
ghost use Rattle.markup.specs.declared.fault.ParseFault.TheVariants.{Memory};
ghost use Rattle.html_rules.specs.Names.{namespace_of};
ghost use Rattle.html_rules.specs.Places.{create_root, open_element};
ghost use Rattle.html_rules.specs.Stack.{add_attributes_to_body, add_attributes_to_root, body_elem, remove_body, remove_if};
ghost use Rattle.html_rules.specs.State.{State};
ghost use Rattle.html_rules_laws.specs.Soundness.{AreOpened};
ghost use Rattle.html_stack.specs.Inserting.{IsNew, MakesNext};
ghost use Rattle.html_stack.specs.Stacks.{joined, opens_of, Performs, StandsIn};

use crate::entries::{InsertionPoint, OpenElement};
use crate::inserting::new_element::NewElement;
use crate::stack::Stack;
use html_rules::TagSet;
use markup::{Attributes, LocalName, ParseFault, TreeSink};

/// The `body`, where it is the second element that was opened.
fn second_body<Handle: Copy>(elements: &[OpenElement<Handle>]) -> Option<Handle>
    ensures number { (node : Handle → ℕ) → MatchOption result (body_elem (opens_of node elements.now) ≡ None)
        (λ body. body_elem (opens_of node elements.now) ≡ Some (node body)) }
    ensures is_node { (node : Handle → ℕ) (f : Forest) → AreOpened f (opens_of node elements.now)
        → IfSome result (λ body. IsNode f (node body)) }
{
    if elements.len() < 2 {
        return None;
    }
    let second = &elements[1];
    if second.name.is_in(TagSet::Body) {
        Some(second.handle)
    } else {
        None
    }
}

impl<Sink: TreeSink> Stack<Sink> {
    /// The `body`, where it is the second element that was opened.
    pub fn body_elem(&self) -> Option<Sink::Handle>
        ensures number { MatchOption result (body_elem self.now.open_elems ≡ None)
            (λ body. body_elem self.now.open_elems ≡ Some (Sink.node body)) }
        ensures is_node { (f : Forest) → AreOpened f self.now.open_elems → IfSome result (λ body. IsNode f (Sink.node body)) }
    {
        second_body(self.open_elems())
    }

    /// Makes the root, an HTML `html` with these attributes, puts it last into the document and opens it (HTML Standard, section
    /// 13.2.6.4.2). On [`ParseFault::Memory`], the only fault, it may have been made, and put, without being opened.
    pub fn create_root(
        &mut self,
        sink: &mut Sink,
        attrs: Attributes,
    ) -> Result<Sink::Handle, ParseFault>
        requires { StandsIn (Sink.forest sink.old) self.old }
        ensures named { MakesNext Sink.node (Sink.forest sink.old) result }
        ensures ok { OnOk result (Performs (create_root attrs) self.old self.new (Sink.forest sink.old) (Sink.forest sink.new)) }
        ensures kept { StandsIn (Sink.forest sink.new) self.new }
        ensures grows { node_count (Sink.forest sink.old) ≤ node_count (Sink.forest sink.new) }
        ensures fault { IfErr result (λ fault. fault ≡ Memory) }
    {
        let name = LocalName::from_str(self.allocator(), "html")?;
        let root = NewElement::html(name, attrs);
        let document = sink.get_document();
        self.put_and_open(sink, root, InsertionPoint::LastChild(document), None)
    }

    /// Makes an element and opens it without putting it anywhere. On [`ParseFault::Memory`], the only fault, it may have been made without
    /// being opened.
    pub fn open_element(
        &mut self,
        sink: &mut Sink,
        element: NewElement,
    ) -> Result<Sink::Handle, ParseFault>
        requires class { IsNew element }
        requires standing { StandsIn (Sink.forest sink.old) self.old }
        ensures named { MakesNext Sink.node (Sink.forest sink.old) result }
        ensures ok { OnOk result (Performs (open_element (namespace_of element.namespace) element.name element.attrs
            element.had_duplicate_attributes) self.old self.new (Sink.forest sink.old) (Sink.forest sink.new)) }
        ensures kept { StandsIn (Sink.forest sink.new) self.new }
        ensures grows { node_count (Sink.forest sink.old) ≤ node_count (Sink.forest sink.new) }
        ensures fault { IfErr result (λ fault. fault ≡ Memory) }
    {
        let name = element.open_name(self.allocator(), self.rules())?;
        let handle = element.create(sink)?;
        self.push(OpenElement { handle, name })?;
        Ok(handle)
    }

    /// Gives the root those of the attributes that it lacks (HTML Standard, section 13.2.6.4.7, a start tag `html`). On
    /// [`ParseFault::Memory`], the only fault, the tree is as it was.
    pub fn add_attributes_to_root(
        &self,
        sink: &mut Sink,
        attrs: Attributes,
    ) -> Result<(), ParseFault>
        requires { StandsIn (Sink.forest sink.old) self.now }
        ensures ok { OnOk result ((s : State) → joined s self.now (Sink.forest sink.new) ≡ add_attributes_to_root
            attrs (joined s self.now (Sink.forest sink.old))) }
        ensures err { OnErr result (Sink.forest sink.new ≡ Sink.forest sink.old) }
        ensures kept { StandsIn (Sink.forest sink.new) self.now }
        ensures grows { node_count (Sink.forest sink.old) ≤ node_count (Sink.forest sink.new) }
        ensures fault { IfErr result (λ fault. fault ≡ Memory) }
    {
        let root = self.root_or_document(sink);
        sink.add_attrs_if_missing(&root, attrs)
    }

    /// Gives the `body`, where it is the second element that was opened, those of the attributes that it lacks (HTML Standard, section
    /// 13.2.6.4.7, a start tag `body`). On [`ParseFault::Memory`], the only fault, the tree is as it was.
    pub fn add_attributes_to_body(
        &self,
        sink: &mut Sink,
        attrs: Attributes,
    ) -> Result<(), ParseFault>
        requires { StandsIn (Sink.forest sink.old) self.now }
        ensures ok { OnOk result ((s : State) → joined s self.now (Sink.forest sink.new) ≡ add_attributes_to_body
            attrs (joined s self.now (Sink.forest sink.old))) }
        ensures err { OnErr result (Sink.forest sink.new ≡ Sink.forest sink.old) }
        ensures kept { StandsIn (Sink.forest sink.new) self.now }
        ensures grows { node_count (Sink.forest sink.old) ≤ node_count (Sink.forest sink.new) }
        ensures fault { IfErr result (λ fault. fault ≡ Memory) }
    {
        match self.body_elem() {
            Some(body) => sink.add_attrs_if_missing(&body, attrs),
            None => Ok(()),
        }
    }

    /// Takes the `body`, where it is the second element that was opened, out of its parent.
    fn take_body_out(&self, sink: &mut Sink)
        requires { AreOpened (Sink.forest sink.old) self.now.open_elems }
        ensures step { (s : State) → joined s self.now (Sink.forest sink.new) ≡ remove_if
            (body_elem self.now.open_elems) (joined s self.now (Sink.forest sink.old)) }
        ensures count { node_count (Sink.forest sink.new) ≡ node_count (Sink.forest sink.old) }
    {
        match self.body_elem() {
            Some(body) => sink.remove_from_parent(&body),
            None => {}
        }
    }

    /// Takes the `body`, where it is the second element that was opened, out of its parent, and all elements but the root off the stack
    /// (HTML Standard, section 13.2.6.4.7, a start tag `frameset`). The sink is not told of these.
    pub fn remove_body(&mut self, sink: &mut Sink)
        requires { StandsIn (Sink.forest sink.old) self.old }
        ensures step { Performs remove_body self.old self.new (Sink.forest sink.old) (Sink.forest sink.new) }
        ensures kept { StandsIn (Sink.forest sink.new) self.new }
        ensures count { node_count (Sink.forest sink.new) ≡ node_count (Sink.forest sink.old) }
    {
        self.take_body_out(sink);
        self.pop_until_current(TagSet::Html);
    }
}
