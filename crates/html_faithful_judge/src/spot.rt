//! Where the next node stands, and what rows ask of it (HTML Standard, section 13.2.6).
ghost use Rattle.std.specs.Prelude.{◌≡◌, ℕ, [], IfErr, OnOk, is_some, codes, not};
ghost use Rattle.std.specs.List.{list_all};
ghost use Rattle.std.specs.Str.{bytes_eq, chars};
ghost use Rattle.html_rules.specs.Adoption.{is_number};
ghost use Rattle.html_rules.specs.Conditions.{form_in_scope, form_is_current, holds, is_alone, is_nonempty};
ghost use Rattle.html_rules.specs.ForeignContent.{foreign_end, is_as_in_mode, is_foreign, is_foreign_end_error, is_named_any_case};
ghost use Rattle.html_rules.specs.Formatting.{last_named};
ghost use Rattle.html_rules.specs.Names.{Html, namespace_of};
ghost use Rattle.html_rules.specs.Reset.{mode_of_open};
ghost use Rattle.html_rules.specs.Stack.{has_open, in_scope, item_name, without_current};
ghost use Rattle.html_rules.specs.State.{current_is, is_in, is_named};
ghost use Rattle.html_rules.specs.declared.tag_set.TagSet.TheVariants.{BodyEnd, DdDt, DefaultScope, Li, Template};
ghost use Rattle.html_modes.specs.Tables.{condition_of};
ghost use Rattle.html_names.specs.Classes.{IsClassOf};
ghost use Rattle.html_stack.specs.Stacks.{opens_of, open_of};
ghost use Rattle.html_faithful.specs.Listing.{link_open};
ghost use Rattle.html_faithful.specs.Spots.{entries_of, form_of, hollow, is_marked};
ghost use Rattle.html_faithful_judge.specs.Contexts.{context_of, number_of};
ghost use Rattle.html_faithful_judge.specs.Spots.{closed_in, is_foreign_in, is_html_at, opened_in, spot_of};
ghost use Rattle.markup.specs.declared.fault.ParseFault.TheVariants.{Memory};
ghost use Rattle.html_faithful_judge.specs.Tokens.{IsNamed, token_of};

use crate::context::{Context, bars_items};
use crate::inserting::html_namespace;
use crate::open::OpenElements;
use crate::tokens::{Content, NamedToken};
use html_forest::{Forest, NodeId};
use html_modes::Condition;
use html_names::{ElementClass, ElementName};
use html_rules::{InsertionMode, Rules, TagSet};
use html_stack::{OpenElement, Stack};
use html_tokens::TagKind;
use markup::{LocalName, Namespace, ParseFault, QuirksMode};
use std::alloc::Global;

/// Where the next node stands.
#[derive(Drop)]
pub struct Spot {
    /// The insertion mode.
    pub mode: InsertionMode,
    /// The mode that comes back after the text of an element.
    pub orig_mode: Option<InsertionMode>,
    /// What the node stands in, each numbered by how many it stands in, and the template insertion modes. Nothing is listed.
    pub stack: OpenElements,
    /// Whether there is a head element.
    pub has_head: bool,
    /// The frameset-ok flag.
    pub frameset_ok: bool,
    /// The quirks mode.
    pub quirks_mode: QuirksMode,
    /// Whether scripts run.
    pub scripting: bool,
}

/// Whether an item of a set would be closed: whether one is open, and no special element but `address`, `div` and `p` stands before it.
fn has_item(elements: &[OpenElement<NodeId>], items: TagSet) -> bool
    ensures { (node : ℕ → ℕ) → result ≡ is_some (item_name items (opens_of node elements.now)) }
{
    let mut i = elements.len();
    while i > 0 {
        i -= 1;
        let element = &elements[i];
        if element.name.is_in(items) {
            return true;
        }
        if bars_items(element) {
            return false;
        }
    }
    false
}

/// Whether an element of a number is in scope.
fn is_number_in_scope(elements: &[OpenElement<NodeId>], number: NodeId) -> bool
    ensures { result ≡ in_scope DefaultScope (is_number number) (opens_of number_of elements.now) }
{
    let mut i = elements.len();
    while i > 0 {
        i -= 1;
        let element = &elements[i];
        if element.handle == number {
            return true;
        }
        if element.name.is_in(TagSet::DefaultScope) {
            return false;
        }
    }
    false
}

/// Whether there is a current node of a set.
fn last_is_in(elements: &[OpenElement<NodeId>], set: TagSet) -> bool
    ensures { (node : ℕ → ℕ) → result ≡ current_is (is_in set) (opens_of node elements.now) }
{
    match elements.last() {
        Some(element) => element.name.is_in(set),
        None => false,
    }
}

/// Whether there is a current node that is not in a set.
fn last_is_not_in(elements: &[OpenElement<NodeId>], set: TagSet) -> bool
    ensures { (node : ℕ → ℕ) → result ≡ current_is (λ x. not (is_in set x)) (opens_of node elements.now) }
{
    match elements.last() {
        Some(element) => !element.name.is_in(set),
        None => false,
    }
}

/// Whether there is a current node that has a name in any case.
fn last_is_any_case(elements: &[OpenElement<NodeId>], name: &LocalName) -> bool
    ensures { (node : ℕ → ℕ) → result ≡ current_is (is_named_any_case name.now) (opens_of node elements.now) }
{
    match elements.last() {
        Some(element) => element.name.is_named_any_case(name),
        None => false,
    }
}

/// Whether there is a current node that is the HTML element of a name, which comes with its class.
fn last_is_named(elements: &[OpenElement<NodeId>], class: ElementClass, name: &LocalName) -> bool
    requires { IsClassOf Html name.now class }
    ensures { (node : ℕ → ℕ) → result ≡ current_is (is_named name.now) (opens_of node elements.now) }
{
    match elements.last() {
        Some(element) => element.name.is_named(class, name),
        None => false,
    }
}

/// Whether there is a current node of a number.
fn last_is_number(elements: &[OpenElement<NodeId>], number: NodeId) -> bool
    ensures { result ≡ current_is (is_number number) (opens_of number_of elements.now) }
{
    match elements.last() {
        Some(element) => element.handle == number,
        None => false,
    }
}

/// Whether there is one element.
fn is_one(elements: &[OpenElement<NodeId>]) -> bool
    ensures { (node : ℕ → ℕ) → result ≡ is_alone (opens_of node elements.now) }
{
    elements.len() == 1
}

/// Whether the rules of HTML take a token in an element of MathML or SVG (HTML Standard, section 13.2.6).
fn is_html_there(element: &ElementName, token: &NamedToken<'_>) -> bool
    requires { IsNamed token.now }
    ensures { (n : ℕ) → result ≡ is_html_at (record { number = n; namespace = element.now.namespace; name = element.now.name; rules = element.now.rules })
        (token_of token.now.content) }
{
    match token.content {
        Content::Comment(_) => false,
        Content::Character(_) => {
            element.is_in(TagSet::MathmlTextIntegrationPoint)
                || element.is_in(TagSet::SvgHtmlIntegrationPoint)
        }
        Content::Tag(tag) => {
            tag.kind == TagKind::StartTag
                && (element.is_in(TagSet::MathmlTextIntegrationPoint)
                    && !token.class.is_in(TagSet::MglyphMalignmark)
                    || element.is_in(TagSet::SvgHtmlIntegrationPoint)
                    || element.is_in(TagSet::AnnotationXml) && tag.name.is("svg"))
        }
    }
}

/// Whether the rules of foreign content hold for a token in an element.
fn is_foreign_in(element: &OpenElement<NodeId>, token: &NamedToken<'_>) -> bool
    requires { IsNamed token.now }
    ensures { (node : ℕ → ℕ) → result ≡ is_foreign_in (token_of token.now.content) (open_of node element.now) }
{
    !element.name.is_html() && !is_html_there(&element.name, token)
}

/// Whether the rules of foreign content hold for a token in the current node.
fn is_foreign_at(elements: &[OpenElement<NodeId>], token: &NamedToken<'_>) -> bool
    requires { IsNamed token.now }
    ensures { (node : ℕ → ℕ) → result ≡ current_is (is_foreign_in (token_of token.now.content)) (opens_of node elements.now) }
{
    let count = elements.len();
    if count == 0 {
        return false;
    }
    is_foreign_in(&elements[count - 1], token)
}

impl Spot {
    /// The open elements, the root first.
    fn elements(&self) -> &[OpenElement<NodeId>]
        ensures { opens_of number_of result.now ≡ self.now.stack.open_elems }
    {
        self.as_stack().open_elems()
    }

    /// The open elements and the template insertion modes.
    pub fn as_stack(&self) -> &Stack<Forest>
        ensures { result.now ≡ self.now.stack }
    {
        self.stack.as_stack()
    }

    /// What the open elements are asked together.
    pub(crate) fn context(&self) -> Context
        ensures form { result.form ≡ form_of self.now.stack.open_elems }
        ensures in_template { result.in_template ≡ has_open Template self.now.stack.open_elems }
        ensures lists_a { result.lists_a ≡ is_some (last_named (codes "a") (entries_of self.now.stack.open_elems)) }
        ensures link_open { result.link_open ≡ link_open self.now.stack.open_elems }
        ensures ends_with_body { result.ends_with_body ≡ list_all (is_in BodyEnd) self.now.stack.open_elems }
        ensures closes_li { result.closes_li ≡ is_some (item_name Li self.now.stack.open_elems) }
        ensures closes_dd { result.closes_dd ≡ is_some (item_name DdDt self.now.stack.open_elems) }
    {
        self.stack.context()
    }

    /// What the open elements but the current node are asked together.
    pub fn context_below(&self) -> Context
        ensures { result ≡ context_of (without_current self.now.stack.open_elems) }
    {
        self.stack.context_below()
    }

    /// Whether an item of a set would be closed.
    pub fn has_item(&self, items: TagSet) -> bool
        ensures { result ≡ is_some (item_name items self.now.stack.open_elems) }
    {
        match items {
            TagSet::Li => self.context().closes_li,
            TagSet::DdDt => self.context().closes_dd,
            _ => has_item(self.elements(), items),
        }
    }

    /// Whether an `a` is listed since the last marker.
    pub fn lists_a(&self) -> bool
        ensures { result ≡ is_some (last_named (codes "a") (entries_of self.now.stack.open_elems)) }
    {
        self.context().lists_a
    }

    /// Whether an `a` is open since the last marked element.
    pub fn link_open(&self) -> bool
        ensures { result ≡ link_open self.now.stack.open_elems }
    {
        self.context().link_open
    }

    /// Opens an element, whose class is handed in.
    #[inline(always)]
    pub fn open(
        &mut self,
        alloc: Global,
        class: ElementClass,
        namespace: &Namespace,
        name: &LocalName,
    ) -> Result<(), ParseFault>
        requires { IsClassOf (namespace_of namespace.now) name.now class }
        ensures ok { OnOk result (spot_of self.new ≡ opened_in (namespace_of namespace.now) name.now (spot_of self.old)) }
        ensures fault { IfErr result (λ fault. fault ≡ Memory) }
    {
        let element = ElementName::with_class(
            alloc,
            self.stack.as_stack().rules(),
            class,
            namespace,
            name,
        )?;
        let number = self.elements().len();
        self.stack.push(OpenElement {
            handle: NodeId::new(number),
            name: element,
        })
    }

    /// Opens an HTML element.
    #[inline(always)]
    pub fn open_html(&mut self, alloc: Global, name: &LocalName) -> Result<(), ParseFault>
        ensures ok { OnOk result (spot_of self.new ≡ opened_in Html name.now (spot_of self.old)) }
        ensures fault { IfErr result (λ fault. fault ≡ Memory) }
    {
        self.open(alloc, ElementClass::html(name), &html_namespace(), name)
    }

    /// Closes the current node, if an element is open.
    pub fn close_current(&mut self)
        ensures { spot_of self.new ≡ closed_in (spot_of self.old) }
    {
        self.stack.pop();
    }

    /// The insertion mode is that for which the open elements ask (HTML Standard, section 13.2.4.1).
    pub fn reset_mode(&mut self)
        ensures { spot_of self.new ≡ record (spot_of self.old) { mode = mode_of_open (hollow (spot_of self.old)) self.old.stack.open_elems } }
    {
        self.mode = self.as_stack().reset_insertion_mode(self.has_head, None);
    }

    /// Whether all open elements may be open where the body ends.
    pub fn ends_with_body(&self) -> bool
        ensures { result ≡ list_all (is_in BodyEnd) self.now.stack.open_elems }
    {
        self.context().ends_with_body
    }

    /// Whether the current node is in a set.
    pub fn current_is(&self, set: TagSet) -> bool
        ensures { result ≡ current_is (is_in set) self.now.stack.open_elems }
    {
        last_is_in(self.elements(), set)
    }

    /// Whether the current node is the HTML element of a name, which comes with its class.
    pub(crate) fn current_is_named(&self, class: ElementClass, name: &LocalName) -> bool
        requires { IsClassOf Html name.now class }
        ensures { result ≡ current_is (is_named name.now) self.now.stack.open_elems }
    {
        last_is_named(self.elements(), class, name)
    }

    /// Whether an element is open.
    pub fn is_any_open(&self) -> bool
        ensures { result ≡ is_nonempty self.now.stack.open_elems }
    {
        !self.elements().is_empty()
    }

    /// Whether there is a current node that is not in a set.
    pub(crate) fn current_is_not(&self, set: TagSet) -> bool
        ensures { result ≡ current_is (λ x. not (is_in set x)) self.now.stack.open_elems }
    {
        last_is_not_in(self.elements(), set)
    }

    /// Whether the current node has a name in any case.
    pub(crate) fn current_is_any_case(&self, name: &LocalName) -> bool
        ensures { result ≡ current_is (is_named_any_case name.now) self.now.stack.open_elems }
    {
        last_is_any_case(self.elements(), name)
    }

    /// Whether the root is the only open element.
    pub fn is_root_alone(&self) -> bool
        ensures { result ≡ is_alone self.now.stack.open_elems }
    {
        is_one(self.elements())
    }

    /// Whether the form element pointer names an element in scope.
    pub(crate) fn is_form_in_scope(&self) -> bool
        ensures { result ≡ form_in_scope (form_of self.now.stack.open_elems) self.now.stack.open_elems }
    {
        match self.context().form {
            Some(form) => is_number_in_scope(self.elements(), form),
            None => false,
        }
    }

    /// Whether the form element pointer names the current node.
    pub(crate) fn is_form_current(&self) -> bool
        ensures { result ≡ form_is_current (form_of self.now.stack.open_elems) self.now.stack.open_elems }
    {
        match self.context().form {
            Some(form) => last_is_number(self.elements(), form),
            None => false,
        }
    }

    /// Whether the rules of the mode take an end tag of a name that stands in foreign content.
    fn ends_in_html(&self, name: &LocalName) -> bool
        ensures { result ≡ is_as_in_mode (foreign_end name.now (hollow (spot_of self.now))) }
    {
        self.as_stack().ends_in_html(name)
    }

    /// Whether the rules of foreign content hold for a token.
    pub(crate) fn is_foreign(&self, token: &NamedToken<'_>) -> bool
        requires { IsNamed token.now }
        ensures { result ≡ is_foreign (hollow (spot_of self.now)) (token_of token.now.content) }
    {
        is_foreign_at(self.elements(), token)
    }

    /// Whether a condition holds for a token.
    pub(crate) fn holds(&self, condition: &Condition, token: &NamedToken<'_>) -> bool
        requires { IsNamed token.now }
        ensures { result ≡ holds (condition_of condition.now) (token_of token.now.content) (hollow (spot_of self.now)) }
    {
        match condition {
            Condition::Always => true,
            Condition::Not(other) => !self.holds(other, token),
            Condition::Both(one, other) => self.holds(one, token) && self.holds(other, token),
            Condition::ScriptingEnabled => self.scripting,
            Condition::IframeSrcdoc => false,
            Condition::ByStandard => self.stack.as_stack().rules() == Rules::Standard,
            Condition::InFragment => false,
            Condition::ContextIs(_) => false,
            Condition::InQuirksMode => self.quirks_mode == QuirksMode::Quirks,
            Condition::FramesetOk => self.frameset_ok,
            Condition::CurrentIs(set) => self.current_is(*set),
            Condition::CurrentIsToken => self.current_is_named(token.class, token.name),
            Condition::RootAlone => self.is_root_alone(),
            Condition::SecondIsBody => self.as_stack().body_elem().is_some(),
            Condition::TemplateOpen => self.as_stack().has_open(TagSet::Template),
            Condition::HasTemplateModes => !self.as_stack().template_modes().is_empty(),
            Condition::InScope(scope, set) => self.as_stack().in_scope(*scope, *set),
            Condition::TokenInScope(scope) => {
                self.as_stack()
                    .in_scope_named(*scope, token.class, token.name)
            }
            Condition::HasFormElem => self.context().form.is_some(),
            Condition::FormElemInScope => self.is_form_in_scope(),
            Condition::FormElemIsCurrent => self.is_form_current(),
            Condition::AListed => self.context().lists_a,
            Condition::TypeHidden => token.is_type_hidden(),
            Condition::FontAttributes => token.has_font_attributes(),
            Condition::EndsInHtml => self.ends_in_html(token.name),
            Condition::ForeignEndError => self.as_stack().is_foreign_end_error(token.name),
        }
    }
}
