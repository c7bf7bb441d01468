//! What the sink is told of scripts that are cut off, and of options that end (HTML Standard, sections 13.2.6.4.7 and 13.2.6.4.8).
ghost use Rattle.std.specs.Prelude.{◌≡◌, ℕ, IfSome};
ghost use Rattle.markup.specs.Forest.{Forest, IsNode};
ghost use Rattle.html_names.specs.Classes.{IsClassOf};
ghost use Rattle.html_rules.specs.Names.{Html};
ghost use Rattle.html_rules.specs.Stack.{process_end_tag_in_body};
ghost use Rattle.html_rules_laws.specs.Soundness.{AreOpened};
ghost use Rattle.html_stack.specs.Stacks.{opens_of, Performs};

use crate::entries::OpenElement;
use crate::stack::Stack;
use html_names::ElementClass;
use html_rules::TagSet;
use markup::{LocalName, TreeSink};

/// The element that was opened last, where it is in a set.
fn last_in<Handle: Copy>(elements: &[OpenElement<Handle>], set: TagSet) -> Option<Handle>
    ensures { (node : Handle → ℕ) (f : Forest) → AreOpened f (opens_of node elements.now)
        → IfSome result (λ handle. IsNode f (node handle)) }
{
    let count = elements.len();
    if count == 0 {
        return None;
    }
    let element = &elements[count - 1];
    if element.name.is_in(set) {
        Some(element.handle)
    } else {
        None
    }
}

/// An open element, with how many were opened before it.
#[derive(Clone, Copy)]
struct Placed<Handle> {
    place: usize,
    handle: Handle,
}

/// The element of a set that was opened first.
fn first_in<Handle: Copy>(elements: &[OpenElement<Handle>], set: TagSet) -> Option<Placed<Handle>>
    ensures { (node : Handle → ℕ) (f : Forest) → AreOpened f (opens_of node elements.now)
        → IfSome result (λ placed. IsNode f (node placed.handle)) }
{
    let mut place = 0;
    while place < elements.len() {
        let element = &elements[place];
        if element.name.is_in(set) {
            return Some(Placed {
                place,
                handle: element.handle,
            });
        }
        place += 1;
    }
    None
}

impl<Sink: TreeSink> Stack<Sink> {
    /// Where the input ends within a script, the current node, the sink is told that the script has started, so that it is never run
    /// (HTML Standard, section 13.2.6.4.8).
    pub fn report_cut_off_script(&self, sink: &mut Sink)
        requires { AreOpened (Sink.forest sink.old) self.now.open_elems }
        ensures { Sink.forest sink.new ≡ Sink.forest sink.old }
    {
        if let Some(script) = last_in(self.open_elems(), TagSet::Script) {
            sink.mark_script_already_started(&script);
        }
    }

    /// The `option` that was opened first, where an end tag of this class is one of options.
    fn first_option(&self, class: ElementClass) -> Option<Placed<Sink::Handle>>
        ensures { (f : Forest) → AreOpened f self.now.open_elems → IfSome result (λ placed. IsNode f (Sink.node placed.handle)) }
    {
        if class.is_in(TagSet::Option) {
            first_in(self.open_elems(), TagSet::Option)
        } else {
            None
        }
    }

    /// Tells the sink of an option that is open no more.
    fn report_ended_option(&self, sink: &mut Sink, option: Option<Placed<Sink::Handle>>)
        requires { IfSome option (λ placed. IsNode (Sink.forest sink.old) (Sink.node placed.handle)) }
        ensures { Sink.forest sink.new ≡ Sink.forest sink.old }
    {
        if let Some(option) = option {
            if option.place >= self.open_elems().len() {
                sink.maybe_clone_an_option_into_selectedcontent(&option.handle);
            }
        }
    }

    /// An end tag that the body has no rules of its own for, or one of an option: [`Stack::process_end_tag_in_body`], and if the option
    /// that was opened first is then open no more, the sink is told (HTML Standard, section 13.2.6.4.7).
    pub fn any_other_end_tag(&mut self, sink: &mut Sink, class: ElementClass, name: &LocalName)
        requires name { IsClassOf Html name.now class }
        requires opened { AreOpened (Sink.forest sink.old) self.old.open_elems }
        ensures { Performs (process_end_tag_in_body name.now) self.old self.new (Sink.forest sink.old) (Sink.forest sink.new) }
    {
        let option = self.first_option(class);
        self.process_end_tag_in_body(sink, class, name);
        self.report_ended_option(sink, option);
    }
}
