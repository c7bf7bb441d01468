//! What open elements are asked together.
ghost use Rattle.std.specs.Prelude.{◌≡◌, ℕ, [], codes};
ghost use Rattle.std.specs.Str.{bytes_eq, chars};
ghost use Rattle.html_stack.specs.Stacks.{open_of};
ghost use Rattle.html_faithful.specs.Spots.{is_marked};
ghost use Rattle.html_faithful_judge.specs.Contexts.{bars_items, closes_with, context_of, is_form_or_link, is_item_or_bar, is_listed_a, is_usual, number_of, with_element};

use html_forest::NodeId;
use html_rules::TagSet;
use html_stack::OpenElement;

/// What open elements are asked together.
#[derive(Clone, Copy)]
pub struct Context {
    /// The form element pointer.
    pub form: Option<NodeId>,
    /// Whether a template is open.
    pub in_template: bool,
    /// Whether the list of active formatting elements has an `a` since the last marker.
    pub lists_a: bool,
    /// Whether an `a` is open since the last marked element.
    pub link_open: bool,
    /// Whether all may be open where the body ends.
    pub ends_with_body: bool,
    /// Whether a list item would be closed where another begins.
    pub closes_li: bool,
    /// Whether a `dd` or a `dt` would be.
    pub closes_dd: bool,
}

/// Whether a text is `a`.
fn is_a(text: &str) -> bool
    ensures { result ≡ bytes_eq (chars text.now) (codes "a") }
{
    text == "a"
}

/// Whether an element begins a list of formatting elements of its own (HTML Standard, section 13.2.4.3).
pub fn is_marked(element: &OpenElement<NodeId>) -> bool
    ensures { (node : ℕ → ℕ) → result ≡ is_marked (open_of node element.now) }
{
    element.name.is_in(TagSet::AppletMarqueeObject)
        || element.name.is_in(TagSet::TdTh)
        || element.name.is_in(TagSet::Caption)
        || element.name.is_in(TagSet::Template)
}

/// Whether an element is listed as an `a`.
fn is_listed_a(element: &OpenElement<NodeId>) -> bool
    ensures { (node : ℕ → ℕ) → result ≡ is_listed_a (open_of node element.now) }
{
    element.name.is_in(TagSet::FormattingEnd) && is_a(element.name.as_str())
}

/// Whether no item before an element would be closed: whether it is special, and is no `address`, `div` or `p`.
pub(crate) fn bars_items(element: &OpenElement<NodeId>) -> bool
    ensures { (node : ℕ → ℕ) → result ≡ bars_items (open_of node element.now) }
{
    element.name.is_in(TagSet::SpecialTag) && !element.name.is_in(TagSet::AddressDivP)
}

/// Whether an element changes which form or link is open.
fn is_form_or_link(element: &OpenElement<NodeId>) -> bool
    ensures { result ≡ is_form_or_link (open_of number_of element.now) }
{
    if element.name.is_in(TagSet::Form) {
        true
    } else if is_marked(element) {
        true
    } else {
        element.name.is_in(TagSet::A)
    }
}

/// Whether an element changes which items would be closed.
fn is_item_or_bar(element: &OpenElement<NodeId>) -> bool
    ensures { result ≡ is_item_or_bar (open_of number_of element.now) }
{
    if element.name.is_in(TagSet::Li) {
        true
    } else if element.name.is_in(TagSet::DdDt) {
        true
    } else {
        bars_items(element)
    }
}

/// Whether an element changes nothing of what open elements are asked, but for whether all may be open where the body ends.
pub(crate) fn is_usual(element: &OpenElement<NodeId>) -> bool
    ensures { result ≡ is_usual (open_of number_of element.now) }
{
    !is_form_or_link(element) && !is_item_or_bar(element)
}

/// Whether an item of a set would be closed with one more element open, where one would be before or not.
fn closes_with(element: &OpenElement<NodeId>, items: TagSet, below: bool) -> bool
    ensures { result ≡ closes_with items (open_of number_of element.now) below }
{
    if element.name.is_in(items) {
        true
    } else if bars_items(element) {
        false
    } else {
        below
    }
}

impl Context {
    /// What is asked where nothing is open.
    pub(crate) fn new() -> Context
        ensures { result ≡ context_of [] }
    {
        Context {
            form: None,
            in_template: false,
            lists_a: false,
            link_open: false,
            ends_with_body: true,
            closes_li: false,
            closes_dd: false,
        }
    }

    /// The form element pointer, with one more element open.
    fn form_with(self, element: &OpenElement<NodeId>) -> Option<NodeId>
        ensures { result ≡ (with_element (open_of number_of element.now) self).form }
    {
        if element.name.is_in(TagSet::Form) && !self.in_template {
            Some(element.handle)
        } else {
            self.form
        }
    }

    /// Whether an `a` is listed since the last marker, with one more element open.
    fn lists_a_with(self, element: &OpenElement<NodeId>) -> bool
        ensures { result ≡ (with_element (open_of number_of element.now) self).lists_a }
    {
        if is_marked(element) {
            false
        } else if is_listed_a(element) {
            true
        } else {
            self.lists_a
        }
    }

    /// Whether an `a` is open since the last marked element, with one more element open.
    fn link_open_with(self, element: &OpenElement<NodeId>) -> bool
        ensures { result ≡ (with_element (open_of number_of element.now) self).link_open }
    {
        if is_marked(element) {
            false
        } else if element.name.is_in(TagSet::A) {
            true
        } else {
            self.link_open
        }
    }

    /// The same, with one more element open.
    pub(crate) fn with(self, element: &OpenElement<NodeId>) -> Context
        ensures { result ≡ with_element (open_of number_of element.now) self }
    {
        Context {
            form: self.form_with(element),
            in_template: element.name.is_in(TagSet::Template) || self.in_template,
            lists_a: self.lists_a_with(element),
            link_open: self.link_open_with(element),
            ends_with_body: element.name.is_in(TagSet::BodyEnd) && self.ends_with_body,
            closes_li: closes_with(element, TagSet::Li, self.closes_li),
            closes_dd: closes_with(element, TagSet::DdDt, self.closes_dd),
        }
    }
}
