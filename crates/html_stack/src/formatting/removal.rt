//! Elements that leave the stack or the list, wherever they stand in it.
ghost use Rattle.std.specs.Prelude.{◌≡◌, IfSome, Some};
ghost use Rattle.markup.specs.Forest.{data_of, element_name};
ghost use Rattle.html_rules.specs.Formatting.{with_room, without_entry};
ghost use Rattle.html_rules.specs.Names.{Html, element_name_of};
ghost use Rattle.html_rules.specs.Stack.{is_open, without_number};
ghost use Rattle.html_rules_laws.specs.Soundness.{AreOpened};
ghost use Rattle.html_stack.specs.Found.{older_entries};
ghost use Rattle.html_stack.specs.Noted.{IsNoted, named};
ghost use Rattle.html_stack.specs.Stacks.{opens_of};

use crate::depths::Depths;
use crate::entries::OpenElement;
use crate::formatting::{listing, positions};
use crate::stack::Stack;
use html_tokens::Tag;
use markup::{LocalName, TreeSink};

/// An element leaves the open elements, of which notes are kept; whether it was among them.
fn unstack<Sink: TreeSink>(
    sink: &Sink,
    elements: &mut Vec<OpenElement<Sink::Handle>>,
    depths: &mut Depths,
    node: &Sink::Handle,
    name: Option<&LocalName>,
) -> bool
    requires name { IfSome name (λ name. element_name (data_of (Sink.forest sink.now) (Sink.node node.now))
        ≡ Some (element_name_of Html name.now)) }
    requires opened { AreOpened (Sink.forest sink.now) (opens_of Sink.node elements.old.items) }
    requires noted { IsNoted (named elements.old.items) depths.old }
    ensures left { opens_of Sink.node elements.new.items ≡ without_number (Sink.node node.now) (opens_of Sink.node elements.old.items) }
    ensures found { result ≡ is_open (Sink.node node.now) (opens_of Sink.node elements.old.items) }
    ensures noted { IsNoted (named elements.new.items) depths.new }
{
    let alloc = *elements.allocator();
    match positions::on_stack(alloc, sink, elements.as_slice(), depths, node, name) {
        None => false,
        Some(i) => {
            depths.cut(i);
            drop(elements.remove(i));
            depths.follow(alloc, elements.as_slice());
            true
        }
    }
}

impl<Sink: TreeSink> Stack<Sink> {
    /// An element leaves the stack wherever it stands in it, and the sink is told; nothing happens where it is not open. The stack is gone
    /// through from the current node back up to the element.
    pub fn remove_from_stack(&mut self, sink: &mut Sink, element: &Sink::Handle)
        requires { AreOpened (Sink.forest sink.old) self.old.open_elems }
        ensures left { self.new ≡ record self.old { open_elems = without_number (Sink.node element.now) self.old.open_elems } }
        ensures same { Sink.forest sink.new ≡ Sink.forest sink.old }
    {
        self.remove_named(sink, element, None);
    }

    /// The same of a node that may be known to be an HTML element of a name, which is looked for from the last open one of that name on.
    pub(crate) fn remove_named(
        &mut self,
        sink: &mut Sink,
        element: &Sink::Handle,
        name: Option<&LocalName>,
    )
        requires name { IfSome name (λ name. element_name (data_of (Sink.forest sink.old) (Sink.node element.now))
            ≡ Some (element_name_of Html name.now)) }
        requires opened { AreOpened (Sink.forest sink.old) self.old.open_elems }
        ensures left { self.new ≡ record self.old { open_elems = without_number (Sink.node element.now) self.old.open_elems } }
        ensures same { Sink.forest sink.new ≡ Sink.forest sink.old }
    {
        if unstack(sink, &mut self.open_elems, &mut self.depths, element, name) {
            sink.pop(element);
        }
    }

    /// The newest entry leaves the list.
    #[inline(always)]
    pub(crate) fn drop_newest(&mut self)
        ensures { self.new ≡ record self.old { active_formatting = older_entries self.old.active_formatting } }
    {
        drop(self.active_formatting.pop());
    }

    /// An element leaves the list; nothing happens where it is not listed. The list is gone through from its end up to the element.
    pub(crate) fn unlist(&mut self, sink: &Sink, element: &Sink::Handle)
        ensures { self.new ≡ record self.old { active_formatting = without_entry (Sink.node element.now) self.old.active_formatting } }
    {
        listing::unlist(sink, &mut self.active_formatting, element);
    }

    /// Where three or more entries since the last marker are equal to a tag, up to the order of attributes, the earliest of them leaves
    /// (HTML Standard, section 13.2.4.3, "push onto the list of active formatting elements"). Time grows with the number of entries since
    /// the marker, and with the attributes of those that have the name.
    pub(crate) fn make_room(&mut self, tag: &Tag)
        ensures { self.new ≡ record self.old { active_formatting = with_room tag.now self.old.active_formatting } }
    {
        listing::make_room::<Sink>(&mut self.active_formatting, tag);
    }
}
