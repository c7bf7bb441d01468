//! What the open elements, the pointers and a token are asked (HTML Standard, section 13.2.6).
ghost use Rattle.std.specs.Prelude.{◌≡◌, is_some};
ghost use Rattle.html_rules.specs.Conditions.{context_is, form_in_scope, form_is_current, is_alone, is_nonempty, is_quirks};
ghost use Rattle.std.specs.Prelude.{IsTrue, ℕ};
ghost use Rattle.std.specs.Prelude.{codes, option_map};
ghost use Rattle.markup.specs.Plain.{is_plain};
ghost use Rattle.html_tokens.specs.TagEquality.{value_of};
ghost use Rattle.html_names.specs.Classes.{IsClassOf};
ghost use Rattle.markup.specs.Forest.{Forest};
ghost use Rattle.html_rules.specs.ForeignContent.{foreign_end, is_as_in_mode, is_font_attribute, is_foreign_end_error};
ghost use Rattle.html_rules.specs.Names.{Html};
ghost use Rattle.html_stack.specs.Stacks.{opens_of};
ghost use Rattle.html_rules.specs.Formatting.{last_named};
ghost use Rattle.html_rules.specs.Stack.{body_elem, has_open};
ghost use Rattle.html_rules.specs.State.{Answers, current_is, is_fragment_by, is_in, is_named};
ghost use Rattle.html_tree_builder.specs.States.{state_of};
ghost use Rattle.html_rules.specs.declared.tag_set.TagSet.TheVariants.{Template};
ghost use Rattle.html_rules.specs.Tokens.{has_font_attributes, is_hidden_value, is_type_hidden};
ghost use Rattle.html_tree_builder.specs.Told.{token_of};

use crate::construction::Construction;
use crate::told::{Content, NamedToken};
use crate::walks;
use html_names::{ElementClass, equals_any_case};
use html_rules::TagSet;
use html_stack::OpenElement;
use markup::{Attribute, LocalName, QuirksMode, Text, TreeSink};

/// Whether elements that are lent have a current node of a set.
fn last_is_in<Handle>(elements: &[OpenElement<Handle>], set: TagSet) -> bool
    ensures { (node : Handle → ℕ) → result ≡ current_is (is_in set) (opens_of node elements.now) }
{
    match elements.last() {
        Some(element) => element.name.is_in(set),
        None => false,
    }
}

/// Whether they have a current node that is the HTML element of a name, which comes with its class.
fn last_is_named<Handle>(
    elements: &[OpenElement<Handle>],
    class: ElementClass,
    name: &LocalName,
) -> bool
    requires { IsClassOf Html name.now class }
    ensures { (node : Handle → ℕ) → result ≡ current_is (is_named name.now) (opens_of node elements.now) }
{
    match elements.last() {
        Some(element) => element.name.is_named(class, name),
        None => false,
    }
}

/// Whether there is one element.
fn is_one<Handle>(elements: &[OpenElement<Handle>]) -> bool
    ensures { (node : Handle → ℕ) → result ≡ is_alone (opens_of node elements.now) }
{
    elements.len() == 1
}

/// Whether an attribute of `font` ends foreign content.
fn is_font_attribute(attribute: &Attribute) -> bool
    ensures { result ≡ is_font_attribute attribute.now }
{
    let local = &attribute.name.local;
    local.is("color") || local.is("face") || local.is("size")
}

/// The value of the first attribute with this local name, which is of ASCII alone.
pub(crate) fn value_of<'a>(attributes: &'a [Attribute], name: &str) -> Option<&'a Text>
    requires { IsTrue (is_plain name.now) }
    ensures { option_map (λ value. value.now) result ≡ value_of name.now attributes.now }
{
    match attributes.iter().find(|a| a.name.local.is(name)) {
        None => None,
        Some(attribute) => Some(&attribute.value),
    }
}

/// Whether a value is there, and is `hidden` in any case.
fn is_hidden(value: Option<&Text>) -> bool
    ensures { result ≡ is_hidden_value (option_map (λ value. value.now) value.entry) }
{
    match value {
        Some(value) => equals_any_case(value.as_str(), "hidden"),
        None => false,
    }
}

impl<Sink: TreeSink> Construction<Sink> {
    /// Whether a fragment is parsed.
    pub(crate) fn is_fragment(&self) -> bool
        ensures { result ≡ is_fragment_by self.now.context_elem }
    {
        match &self.context_elem {
            Some(_) => true,
            None => false,
        }
    }

    /// Whether a fragment is parsed whose context is in a set.
    pub(crate) fn context_is(&self, set: TagSet) -> bool
        ensures { result ≡ context_is set self.now.context_elem }
    {
        match &self.context_elem {
            Some(context) => context.name.is_in(set),
            None => false,
        }
    }

    /// Whether the document is in quirks mode.
    pub(crate) fn is_quirks(&self) -> bool
        ensures { result ≡ is_quirks self.now.quirks_mode }
    {
        self.quirks_mode == QuirksMode::Quirks
    }

    /// Whether the current node is in a set.
    pub(crate) fn current_is(&self, set: TagSet) -> bool
        ensures { result ≡ current_is (is_in set) self.now.stack.open_elems }
    {
        last_is_in(self.stack.open_elems(), set)
    }

    /// Whether the current node is the HTML element of a name, which comes with its class.
    pub(crate) fn current_is_named(&self, class: ElementClass, name: &LocalName) -> bool
        requires { IsClassOf Html name.now class }
        ensures { result ≡ current_is (is_named name.now) self.now.stack.open_elems }
    {
        last_is_named(self.stack.open_elems(), class, name)
    }

    /// Whether the root is the only open element.
    pub(crate) fn is_root_alone(&self) -> bool
        ensures { result ≡ is_alone self.now.stack.open_elems }
    {
        is_one(self.stack.open_elems())
    }

    /// Whether the second element that was opened is a body element.
    pub(crate) fn is_second_body(&self) -> bool
        ensures { result ≡ is_some (body_elem self.now.stack.open_elems) }
    {
        self.stack.body_elem().is_some()
    }

    /// Whether a template is open.
    pub(crate) fn has_open_template(&self) -> bool
        ensures { result ≡ has_open Template self.now.stack.open_elems }
    {
        self.stack.has_open(TagSet::Template)
    }

    /// Whether there is a template insertion mode.
    pub(crate) fn has_template_modes(&self) -> bool
        ensures { result ≡ is_nonempty self.now.stack.template_modes }
    {
        !self.stack.template_modes().is_empty()
    }

    /// Whether the form element pointer names an element.
    pub(crate) fn has_form_elem(&self) -> bool
        ensures { result ≡ is_some self.now.form_elem }
    {
        match &self.form_elem {
            Some(_) => true,
            None => false,
        }
    }

    /// Whether its element is in scope.
    pub(crate) fn is_form_in_scope(&self, sink: &Sink) -> bool
        ensures { result ≡ form_in_scope self.now.form_elem self.now.stack.open_elems }
    {
        match &self.form_elem {
            Some(form) => walks::is_node_in_scope(sink, self.stack.open_elems(), form),
            None => false,
        }
    }

    /// Whether the rules of the mode take an end tag of a name that stands in foreign content.
    pub(crate) fn ends_in_html(&self, name: &LocalName) -> bool
        ensures { (a : Answers) (f : Forest) → result ≡ is_as_in_mode (foreign_end name.now (state_of a self.now f)) }
    {
        self.stack.ends_in_html(name)
    }

    /// Whether such an end tag is an error.
    pub(crate) fn is_foreign_end_error(&self, name: &LocalName) -> bool
        ensures { result ≡ is_foreign_end_error name.now self.now.stack.open_elems }
    {
        self.stack.is_foreign_end_error(name)
    }

    /// Whether an `a` is listed since the last marker.
    pub(crate) fn lists_a(&self) -> bool
        ensures { result ≡ is_some (last_named (codes "a") self.now.stack.active_formatting) }
    {
        walks::lists_a(self.stack.active_formatting())
    }

    /// Whether the current node is the element of the form element pointer.
    pub(crate) fn is_form_current(&self, sink: &Sink) -> bool
        ensures { result ≡ form_is_current self.now.form_elem self.now.stack.open_elems }
    {
        match (self.form_elem, self.stack.open_elems().last()) {
            (Some(form), Some(element)) => sink.same_node(&element.handle, &form),
            _ => false,
        }
    }
}

impl NamedToken<'_> {
    /// Whether the attribute `type` is `hidden`, in any case.
    pub(crate) fn is_type_hidden(&self) -> bool
        ensures { result ≡ is_type_hidden (token_of self.now.content) }
    {
        match self.content {
            Content::Tag(tag) => is_hidden(value_of(tag.attrs.as_slice(), "type")),
            _ => false,
        }
    }

    /// Whether there is an attribute that ends foreign content at `font`.
    pub(crate) fn has_font_attributes(&self) -> bool
        ensures { result ≡ has_font_attributes (token_of self.now.content) }
    {
        match self.content {
            Content::Tag(tag) => tag.attrs.as_slice().iter().any(|a| is_font_attribute(a)),
            _ => false,
        }
    }
}
