//! Elements of foreign content (HTML Standard, section 13.2.6.5).
ghost use Rattle.std.specs.Prelude.{◌≡◌, ◌≤◌, ℕ, IfErr, IfOk, IfSome, MatchOption, None, OnOk, Some};
ghost use Rattle.markup.specs.Forest.{IsNode, node_count};
ghost use Rattle.markup.specs.declared.fault.ParseFault.TheVariants.{Memory};
ghost use Rattle.html_rules.specs.ForeignContent.{enter_foreign, foreign_start};
ghost use Rattle.html_rules.specs.Names.{namespace_of};
ghost use Rattle.html_rules.specs.Renames.{adjust_attributes};
ghost use Rattle.html_rules.specs.State.{State, adjusted_by};
ghost use Rattle.html_stack.specs.Inserting.{IsFor, IsNew, context_of};
ghost use Rattle.html_stack.specs.Stacks.{joined, open_of, opens_of, PerformsWith, StandsIn};

use crate::entries::{OpenElement, PushFlag};
use crate::inserting::new_element::NewElement;
use crate::stack::Stack;
use html_names::{ElementClass, ElementNamespace, adjust_attributes, adjust_tag_name};
use html_tokens::Tag;
use markup::{Namespace, ParseFault, TreeSink};
use std::alloc::Global;

/// The adjusted current node: in a fragment in which the root alone is open, the context.
pub fn adjusted<'a, Handle>(
    elements: &'a [OpenElement<Handle>],
    context: Option<&'a OpenElement<Handle>>,
) -> Option<&'a OpenElement<Handle>>
    ensures { (node : Handle → ℕ) → MatchOption result
        (adjusted_by (context_of node context.entry) (opens_of node elements.now) ≡ None)
        (λ x. adjusted_by (context_of node context.entry) (opens_of node elements.now) ≡ Some (open_of node x.now)) }
{
    let count = elements.len();
    if count == 0 {
        return None;
    }
    match context {
        Some(context) if count == 1 => Some(context),
        _ => Some(&elements[count - 1]),
    }
}

/// The element of foreign content that a tag makes.
fn foreign_element(alloc: Global, namespace: Namespace, tag: Tag) -> Result<NewElement, ParseFault>
    ensures of { IfOk result (λ made. IsFor (namespace_of namespace) tag.name
        (adjust_attributes (namespace_of namespace) tag.attrs) tag.had_duplicate_attributes made) }
    ensures is { IfOk result (λ made. IsNew made) }
    ensures fault { IfErr result (λ fault. fault ≡ Memory) }
{
    let kind = ElementNamespace::of(&namespace);
    let class = ElementClass::named(&namespace, &tag.name);
    let attrs = adjust_attributes(alloc, kind, tag.attrs)?;
    Ok(NewElement {
        namespace,
        name: tag.name,
        class,
        attrs,
        had_duplicate_attributes: tag.had_duplicate_attributes,
        already_started: false,
    })
}

impl<Sink: TreeSink> Stack<Sink> {
    /// Inserts the element of a namespace that a tag makes, as `math` or `svg`, with its attributes adjusted; it is opened unless the tag
    /// closes itself (HTML Standard, sections 13.2.6.4.7 and 13.2.6.5). On [`ParseFault::Memory`], the only fault, it may have been made,
    /// and put, without being opened. Attributes are moved, not copied.
    pub fn enter_foreign(
        &mut self,
        sink: &mut Sink,
        namespace: Namespace,
        tag: Tag,
        foster: bool,
        form: Option<Sink::Handle>,
    ) -> Result<(), ParseFault>
        requires standing { StandsIn (Sink.forest sink.old) self.old }
        requires form { IfSome form (λ owner. IsNode (Sink.forest sink.old) (Sink.node owner)) }
        ensures ok { OnOk result (PerformsWith foster (enter_foreign (namespace_of namespace) tag) self.old self.new
            (Sink.forest sink.old) (Sink.forest sink.new)) }
        ensures kept { StandsIn (Sink.forest sink.new) self.new }
        ensures grows { node_count (Sink.forest sink.old) ≤ node_count (Sink.forest sink.new) }
        ensures fault { IfErr result (λ fault. fault ≡ Memory) }
    {
        let self_closing = tag.self_closing;
        let element = foreign_element(self.allocator(), namespace, tag)?;
        if self_closing {
            self.insert_element(sink, PushFlag::NoPush, element, foster, form)?;
        } else {
            self.insert_element(sink, PushFlag::Push, element, foster, form)?;
        }
        Ok(())
    }

    /// "Any other start tag" in foreign content (HTML Standard, section 13.2.6.5): the same, in the namespace of the adjusted current node,
    /// with the tag's name adjusted. The context is that of a fragment. Where nothing is open, nothing happens.
    pub fn foreign_start(
        &mut self,
        sink: &mut Sink,
        context: Option<&OpenElement<Sink::Handle>>,
        tag: Tag,
        foster: bool,
        form: Option<Sink::Handle>,
    ) -> Result<(), ParseFault>
        requires standing { StandsIn (Sink.forest sink.old) self.old }
        requires form { IfSome form (λ owner. IsNode (Sink.forest sink.old) (Sink.node owner)) }
        ensures ok { OnOk result ((s : State) → s.foster_parenting ≡ foster → s.context_elem ≡ context_of Sink.node
            context.entry → joined s self.new (Sink.forest sink.new) ≡ foreign_start tag (joined s self.old (Sink.forest sink.old))) }
        ensures kept { StandsIn (Sink.forest sink.new) self.new }
        ensures grows { node_count (Sink.forest sink.old) ≤ node_count (Sink.forest sink.new) }
        ensures fault { IfErr result (λ fault. fault ≡ Memory) }
    {
        let alloc = self.allocator();
        match adjusted(self.open_elems(), context) {
            None => Ok(()),
            Some(node) => {
                let namespace = node.name.namespace(alloc)?;
                let name = adjust_tag_name(alloc, node.name.kind(), tag.name)?;
                let tag = Tag {
                    kind: tag.kind,
                    name,
                    self_closing: tag.self_closing,
                    attrs: tag.attrs,
                    had_duplicate_attributes: tag.had_duplicate_attributes,
                };
                self.enter_foreign(sink, namespace, tag, foster, form)
            }
        }
    }
}
