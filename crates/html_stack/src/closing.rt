//! Elements that end tags close, and those that end with the body (HTML Standard, sections 13.2.6.3 and 13.2.6.4.7).
ghost use Rattle.std.specs.Prelude.{◌≡◌};
ghost use Rattle.html_names.specs.Classes.{IsClassOf};
ghost use Rattle.html_rules.specs.Names.{Html};
ghost use Rattle.html_rules.specs.Stack.{check_body_end, close_item, close_p_element, close_p_element_in_button_scope};
ghost use Rattle.html_rules.specs.Stack.{expect_to_close, pop_but_root, process_end_tag_in_body};
ghost use Rattle.html_rules.specs.State.{State, is_in, is_named};
ghost use Rattle.html_rules_laws.specs.Soundness.{AreOpened};
ghost use Rattle.html_stack.specs.Stacks.{joined, Performs};
ghost use Rattle.html_stack.specs.Wanted.{IsOfHtml, IsWanted, passes};

use crate::signs::Sign;
use crate::stack::Stack;
use crate::walks;
use crate::wanted::Wanted;
use html_names::ElementClass;
use html_rules::TagSet;
use markup::{LocalName, TreeSink};
use std::borrow::CowStr;

impl<Sink: TreeSink> Stack<Sink> {
    /// Pops up to a wanted element; an error, if that is not the current node.
    #[tactic(auto, unfolding(html_rules::specs::Stack::expect_to_close, html_rules::specs::Stack::pop_until, html_rules::specs::Stack::parse_error))]
    pub(crate) fn close_wanted(&mut self, sink: &mut Sink, wanted: Wanted<'_>)
        requires { IsWanted wanted }
        ensures { Performs (expect_to_close (passes wanted.entry)) self.old self.new (Sink.forest sink.old) (Sink.forest sink.new) }
    {
        if self.current_is(wanted) {
            self.drop_current();
        } else {
            sink.parse_error(CowStr::Borrowed("elements are open within the one that ends"));
            self.pop_until_wanted(wanted);
        }
    }

    /// Pops elements up to an HTML element of a name, which comes with its class; an error, if that is not the current node. The sink is
    /// told of the error alone.
    pub fn expect_to_close(&mut self, sink: &mut Sink, class: ElementClass, name: &LocalName)
        requires { IsClassOf Html name.now class }
        ensures { Performs (expect_to_close (is_named name.now)) self.old self.new (Sink.forest sink.old) (Sink.forest sink.new) }
    {
        self.close_wanted(sink, Wanted::Named(class, name));
    }

    /// The same, up to an element of a set.
    pub fn expect_to_close_in(&mut self, sink: &mut Sink, set: TagSet)
        ensures { Performs (expect_to_close (is_in set)) self.old self.new (Sink.forest sink.old) (Sink.forest sink.new) }
    {
        self.close_wanted(sink, Wanted::In(set));
    }

    /// Pops the current node, and tells the sink; the root, `html`, stays.
    #[tactic(auto, unfolding(html_rules::specs::Stack::pop_but_root))]
    pub fn pop_but_root(&mut self, sink: &mut Sink)
        requires { AreOpened (Sink.forest sink.old) self.old.open_elems }
        ensures { Performs pop_but_root self.old self.new (Sink.forest sink.old) (Sink.forest sink.new) }
    {
        if !self.current_is(Wanted::In(TagSet::Html)) {
            drop(self.pop(sink));
        }
    }

    /// Closes the item that a new one ends: the nearest `li`, or of `dd` and `dt`, if no special element other than `address`, `div` and
    /// `p` stands before it (HTML Standard, section 13.2.6.4.7, start tags `li`, `dd` and `dt`).
    #[tactic(auto, unfolding(html_rules::specs::Stack::close_item, html_rules::specs::Stack::generate_implied_end_except))]
    pub fn close_item(&mut self, sink: &mut Sink, items: TagSet)
        requires items { IsOfHtml items }
        requires opened { AreOpened (Sink.forest sink.old) self.old.open_elems }
        ensures { Performs (close_item items) self.old self.new (Sink.forest sink.old) (Sink.forest sink.new) }
    {
        if let Some(item) = walks::item(self.reached(Sign::In(items), Sign::BarsItems), items) {
            self.close_implied(sink, TagSet::CursoryImpliedEnd, Wanted::Known(item));
            self.close_wanted(sink, Wanted::Known(item));
        }
    }

    /// "Close a p element" (HTML Standard, section 13.2.6.4.7).
    #[tactic(auto, unfolding(html_rules::specs::Stack::close_p_element, html_rules::specs::Stack::generate_implied_end_except))]
    pub fn close_p_element(&mut self, sink: &mut Sink)
        requires { AreOpened (Sink.forest sink.old) self.old.open_elems }
        ensures { Performs close_p_element self.old self.new (Sink.forest sink.old) (Sink.forest sink.new) }
    {
        self.close_implied(sink, TagSet::CursoryImpliedEnd, Wanted::In(TagSet::P));
        self.close_wanted(sink, Wanted::In(TagSet::P));
    }

    /// The same, where a `p` is in button scope.
    #[tactic(auto, unfolding(html_rules::specs::Stack::close_p_element_in_button_scope))]
    pub fn close_p_element_in_button_scope(&mut self, sink: &mut Sink)
        requires { AreOpened (Sink.forest sink.old) self.old.open_elems }
        ensures { Performs close_p_element_in_button_scope self.old self.new (Sink.forest sink.old) (Sink.forest sink.new) }
    {
        if self.in_scope(TagSet::ButtonScope, TagSet::P) {
            self.close_p_element(sink);
        }
    }

    /// "Any other end tag" in the body (HTML Standard, section 13.2.6.4.7): elements are popped up to the HTML element of that name, if no
    /// special element stands before it, and else there is an error. The name comes with its class.
    #[tactic(auto, unfolding(html_rules::specs::Stack::process_end_tag_in_body, html_rules::specs::Stack::generate_implied_end_except, html_rules::specs::Stack::parse_error))]
    pub fn process_end_tag_in_body(
        &mut self,
        sink: &mut Sink,
        class: ElementClass,
        name: &LocalName,
    )
        requires name { IsClassOf Html name.now class }
        requires opened { AreOpened (Sink.forest sink.old) self.old.open_elems }
        ensures { Performs (process_end_tag_in_body name.now) self.old self.new (Sink.forest sink.old) (Sink.forest sink.new) }
    {
        if self.current_is(Wanted::Named(class, name)) {
            self.drop_current();
        } else if self.finds_generic(class, name) {
            self.close_implied(sink, TagSet::CursoryImpliedEnd, Wanted::Named(class, name));
            self.close_wanted(sink, Wanted::Named(class, name));
        } else {
            sink.parse_error(CowStr::Borrowed("an end tag without its element"));
        }
    }

    /// An error, if an element is open that may not be where the body ends (HTML Standard, section 13.2.6.4.7, an end tag `body`).
    #[tactic(auto, unfolding(html_rules::specs::Stack::check_body_end, html_rules::specs::Stack::parse_error))]
    pub fn check_body_end(&self, sink: &mut Sink)
        ensures { (s : State) → joined s self.now (Sink.forest sink.new) ≡ check_body_end (joined s self.now (Sink.forest sink.old)) }
    {
        if !self.all_end_with_body() {
            sink.parse_error(CowStr::Borrowed(
                "an element is open that does not end with the body",
            ));
        }
    }
}
