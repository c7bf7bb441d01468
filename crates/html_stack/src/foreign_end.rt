//! End tags in foreign content (HTML Standard, section 13.2.6.5).
ghost use Rattle.std.specs.Prelude.{◌≡◌, ◌||◌, ◌&&◌, ℕ, not, true};
ghost use Rattle.markup.specs.Forest.{Forest};
ghost use Rattle.html_rules.specs.ForeignContent.{close_foreign, foreign_end, foreign_end_from, is_as_in_mode};
ghost use Rattle.html_rules.specs.ForeignContent.{is_foreign_end_error, is_html_element};
ghost use Rattle.html_rules.specs.State.{State};
ghost use Rattle.html_stack.specs.ForeignEnds.{end_of, ends_at};
ghost use Rattle.html_rules.specs.Names.{is_html};
ghost use Rattle.html_stack.specs.Noted.{NoneFrom, named, named_any_case};
ghost use Rattle.html_stack.specs.Stacks.{joined, open_of, opens_of};

use crate::entries::OpenElement;
use crate::stack::Stack;
use markup::{LocalName, TreeSink};

/// What an end tag comes to.
#[derive(Clone, Copy)]
pub(crate) enum ForeignEnd {
    /// It is dropped.
    Dropped,
    /// The rules of the mode take it.
    AsInMode,
    /// It closes an element: so many stay, those that were opened first.
    Closed(usize),
}

/// Whether an element is HTML's, and not the current node.
fn is_further_html<Handle>(element: &OpenElement<Handle>, is_current: bool) -> bool
    ensures { (node : Handle → ℕ) → result ≡ (not is_current && is_html_element (open_of node element.now)) }
{
    !is_current && element.name.is_html()
}

/// What an end tag of a name comes to, by a walk from the current node back that ends before the root: an element of that name in any case
/// is closed, and at an HTML element that isn't the current node the rules of the mode take the tag. Of the others so many are looked at,
/// those that were opened first.
fn foreign_end<Handle>(
    elements: &[OpenElement<Handle>],
    reach: usize,
    name: &LocalName,
) -> ForeignEnd
    requires { NoneFrom (λ x. is_html x.namespace || named_any_case name.now x) (named elements.now) reach }
    ensures { (node : Handle → ℕ) → foreign_end_from true name.now (opens_of node elements.now) ≡ end_of node elements.now result }
{
    let mut is_current = true;
    let mut i = elements.len();
    while i > 1 {
        i -= 1;
        let element = &elements[i];
        if is_further_html(element, is_current) {
            return ForeignEnd::AsInMode;
        }
        if element.name.is_named_any_case(name) {
            return ForeignEnd::Closed(i);
        }
        is_current = false;
        i = i.min(reach);
    }
    ForeignEnd::Dropped
}

/// Whether the current node is not the root, and has another name.
fn is_end_error<Handle>(elements: &[OpenElement<Handle>], name: &LocalName) -> bool
    ensures { (node : Handle → ℕ) → result ≡ is_foreign_end_error name.now (opens_of node elements.now) }
{
    let count = elements.len();
    if count < 2 {
        return false;
    }
    !elements[count - 1].name.is_named_any_case(name)
}

impl<Sink: TreeSink> Stack<Sink> {
    /// What an end tag of a name comes to.
    fn foreign_end(&self, name: &LocalName) -> ForeignEnd
        ensures { foreign_end_from true name.now self.now.open_elems ≡ ends_at self.now.open_elems result }
    {
        let open = self.open_elems.as_slice();
        let alloc = self.allocator();
        let reach = self.depths.reach_foreign_end(alloc, open.len(), name);
        foreign_end(open, reach, name)
    }

    /// Whether the rules of the mode take an end tag of that name: from the current node back, an HTML element other than the current node
    /// is met before one of that name (in any case) and before the root. The time grows with the number of elements up to there.
    pub fn ends_in_html(&self, name: &LocalName) -> bool
        ensures { (s : State) → s.open_elems ≡ self.now.open_elems → result ≡ is_as_in_mode (foreign_end name.now s) }
    {
        match self.foreign_end(name) {
            ForeignEnd::AsInMode => true,
            ForeignEnd::Dropped => false,
            ForeignEnd::Closed(_) => false,
        }
    }

    /// Whether an end tag of that name is an error in foreign content: the current node has another name, in any case, and is not the root.
    pub fn is_foreign_end_error(&self, name: &LocalName) -> bool
        ensures { result ≡ is_foreign_end_error name.now self.now.open_elems }
    {
        is_end_error(self.open_elems(), name)
    }

    /// The elements leave that an end tag of that name closes, if it closes any: up to the first of that name in any case, from the current
    /// node back, before an HTML element that isn't the current node, and before the root. The sink is not told.
    pub fn close_foreign(&mut self, name: &LocalName)
        ensures { (s : State) (f : Forest) → joined s self.new f ≡ close_foreign name.now (joined s self.old f) }
    {
        match self.foreign_end(name) {
            ForeignEnd::Closed(left) => self.truncate(left),
            ForeignEnd::Dropped => {}
            ForeignEnd::AsInMode => {}
        }
    }
}
