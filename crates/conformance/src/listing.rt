//! A sink that builds a forest with its errors, and lists the calls that it gets beside those that build the tree.
ghost use Rattle.std.specs.Prelude.{◌≡◌, ◌≤◌, IfErr, IfOk, IsSome, OnErr, OnOk};
ghost use Rattle.std.specs.List.{list_any};
ghost use Rattle.markup.specs.declared.fault.ParseFault.TheVariants.{Memory};
ghost use Rattle.markup.specs.Forest.{empty_forest};
ghost use Rattle.conformance.specs.Shadows.{is_closed};

use html_forest::{Forest, NodeData, NodeId};
use html_pages::NotedForest;
use markup::{
    Attribute, Attributes, ElementFlags, LocalName, NodeOrText, ParseFault, QualName, QuirksMode,
    Text, TreeSink,
};
use std::alloc::{AllocError, Global};
use std::borrow::CowStr;

/// A call beside those that build the tree.
#[derive(Clone, Copy)]
enum Hook {
    /// The line of the next token, where it isn't that of the last one.
    Line(u64),
    /// An element left the stack of open elements.
    Pop(NodeId),
    /// The form owner of an element, and the node where the element is put.
    Owner(NodeId, NodeId, NodeId),
    /// A script has started.
    Started(NodeId),
    /// A template is to become the shadow root of a host.
    Shadow(NodeId, NodeId),
    /// An option ended.
    OptionEnded(NodeId),
    /// An element was created whose tag had an attribute twice.
    Duplicates(NodeId),
}

/// A forest with its errors, and those calls. A template whose mode is `closed` becomes a shadow root.
#[derive(Drop)]
pub struct Listing {
    /// The forest.
    pub noted: NotedForest,
    hooks: Vec<Hook>,
}

/// The name of an element.
fn name_of(tree: &Forest, id: NodeId) -> &str {
    match tree.node(id) {
        Some(NodeData::Element { name, .. }) => name.local.as_str(),
        _ => "none",
    }
}

/// A call in words.
fn words_of(alloc: Global, tree: &Forest, hook: Hook) -> Result<String, AllocError> {
    match hook {
        Hook::Line(line) => format!(in alloc; "line {line}"),
        Hook::Pop(node) => named(alloc, "pop", name_of(tree, node)),
        Hook::Owner(node, form, at) => owner(alloc, tree, node, form, at),
        Hook::Started(node) => named(alloc, "started", name_of(tree, node)),
        Hook::Shadow(host, node) => shadow(alloc, name_of(tree, node), name_of(tree, host)),
        Hook::OptionEnded(node) => named(alloc, "ended", name_of(tree, node)),
        Hook::Duplicates(node) => named(alloc, "duplicates of", name_of(tree, node)),
    }
}

/// What happened to an element, with its name.
fn named(alloc: Global, what: &str, name: &str) -> Result<String, AllocError> {
    format!(in alloc; "{what} {name}")
}

/// An element, its form owner, and where it is put.
fn owner(
    alloc: Global,
    tree: &Forest,
    node: NodeId,
    form: NodeId,
    at: NodeId,
) -> Result<String, AllocError> {
    let node = name_of(tree, node);
    let form = name_of(tree, form);
    let at = name_of(tree, at);
    format!(in alloc; "{node} of {form} at {at}")
}

/// A template and its host.
fn shadow(alloc: Global, template: &str, host: &str) -> Result<String, AllocError> {
    format!(in alloc; "{template} in {host}")
}

/// Whether an attribute asks for a closed shadow root.
fn is_closed(attribute: &Attribute) -> bool
    ensures { result ≡ is_closed attribute.now }
{
    attribute.value.is("closed")
}

/// Whether one of the attributes does.
fn are_closed(attributes: &[Attribute]) -> bool
    ensures { result ≡ list_any is_closed attributes.now }
{
    attributes.iter().any(|attribute| is_closed(attribute))
}

impl Listing {
    /// A document with nothing in it, and no call listed.
    pub fn new(alloc: Global) -> Result<Listing, ParseFault>
        ensures { IfOk result (λ made. made.noted.forest ≡ empty_forest) }
    {
        Ok(Listing {
            noted: NotedForest::new(alloc)?,
            hooks: Vec::new(alloc),
        })
    }

    /// Lists a call, where there is memory for it.
    fn list(&mut self, hook: Hook)
        ensures { self.new.noted ≡ self.old.noted }
    {
        let _ = self.hooks.push(hook);
    }

    /// The calls, in words.
    pub fn words(&self, alloc: Global) -> Result<Vec<String>, AllocError> {
        let mut words = Vec::new(alloc);
        for hook in &self.hooks {
            words.push(words_of(alloc, &self.noted.forest, *hook)?)?;
        }
        Ok(words)
    }
}

impl TreeSink for Listing {
    ghost use Rattle.std.specs.Prelude.{ℕ};
    ghost use Rattle.markup.specs.Forest.{IsNode, IsParent, MayPut, data_of, integration_point_of, node_count, parent_of};
    ghost use Rattle.markup.specs.Forest.{place_before, place_near, put_child};
    ghost use Rattle.markup.specs.Forest.Place.{Last};
    ghost use Rattle.html_forest.specs.declared.node.NodeId.{NodeId};

    type Handle = NodeId;

    type Output = Listing;

    ghost forest = { λ listing. listing.noted.forest };

    ghost node = { λ id. id };

    ghost finish_gives = { λ listing output. output ≡ listing };

    ghost integration_point = { λ forest n. integration_point_of (data_of forest n) };

    ghost attaches_shadow = { λ _ _ _ attributes. list_any is_closed attributes };

    fn finish(self) -> Listing {
        self
    }

    fn parse_error(&mut self, message: CowStr<'static>) {
        self.noted.parse_error(message);
    }

    fn get_document(&mut self) -> NodeId {
        self.noted.get_document()
    }

    fn elem_name(&self, target: &NodeId) -> &QualName {
        self.noted.elem_name(target)
    }

    fn get_template_contents(&self, target: &NodeId) -> NodeId {
        self.noted.get_template_contents(target)
    }

    fn same_node(&self, a: &NodeId, b: &NodeId) -> bool {
        self.noted.same_node(a, b)
    }

    fn create_element(
        &mut self,
        name: QualName,
        attributes: Attributes,
        flags: ElementFlags,
    ) -> Result<NodeId, ParseFault> {
        let duplicates = flags.had_duplicate_attributes;
        let made = self.noted.create_element(name, attributes, flags)?;
        if duplicates {
            self.list(Hook::Duplicates(made));
        }
        Ok(made)
    }

    fn create_html_element(
        &mut self,
        name: LocalName,
        attributes: Attributes,
        flags: ElementFlags,
    ) -> Result<NodeId, ParseFault> {
        let duplicates = flags.had_duplicate_attributes;
        let made = self.noted.create_html_element(name, attributes, flags)?;
        if duplicates {
            self.list(Hook::Duplicates(made));
        }
        Ok(made)
    }

    fn create_comment(&mut self, text: Text) -> Result<NodeId, ParseFault> {
        self.noted.create_comment(text)
    }

    fn create_pi(&mut self, target: Text, text: Text) -> Result<NodeId, ParseFault> {
        self.noted.create_pi(target, text)
    }

    fn append(&mut self, parent: &NodeId, child: NodeOrText<NodeId>) -> Result<(), ParseFault>
        requires parent { IsParent self.old.noted.forest parent.now }
        requires child { MayPut (λ (id : ℕ). id) self.old.noted.forest (Last parent.now) child }
        ensures ok { OnOk result (self.new.noted.forest ≡ put_child (λ (id : ℕ). id) self.old.noted.forest (Last parent.now) child) }
        ensures err { OnErr result (self.new.noted.forest ≡ self.old.noted.forest) }
        ensures fault { IfErr result (λ fault. fault ≡ Memory) }
        ensures grows { node_count self.old.noted.forest ≤ node_count self.new.noted.forest }
    {
        self.noted.append(parent, child)
    }

    fn append_before_sibling(
        &mut self,
        sibling: &NodeId,
        child: NodeOrText<NodeId>,
    ) -> Result<(), ParseFault>
        requires sibling { IsSome (parent_of self.old.noted.forest sibling.now) }
        requires child { MayPut (λ (id : ℕ). id) self.old.noted.forest
            (place_before sibling.now (parent_of self.old.noted.forest sibling.now)) child }
        ensures ok { OnOk result (self.new.noted.forest ≡ put_child (λ (id : ℕ). id) self.old.noted.forest
            (place_before sibling.now (parent_of self.old.noted.forest sibling.now)) child) }
        ensures err { OnErr result (self.new.noted.forest ≡ self.old.noted.forest) }
        ensures fault { IfErr result (λ fault. fault ≡ Memory) }
        ensures grows { node_count self.old.noted.forest ≤ node_count self.new.noted.forest }
    {
        self.noted.append_before_sibling(sibling, child)
    }

    fn append_based_on_parent_node(
        &mut self,
        element: &NodeId,
        previous: &NodeId,
        child: NodeOrText<NodeId>,
    ) -> Result<(), ParseFault>
        requires element { IsNode self.old.noted.forest element.now }
        requires previous { IsParent self.old.noted.forest previous.now }
        requires child { MayPut (λ (id : ℕ). id) self.old.noted.forest
            (place_near element.now previous.now (parent_of self.old.noted.forest element.now)) child }
        ensures ok { OnOk result (self.new.noted.forest ≡ put_child (λ (id : ℕ). id) self.old.noted.forest
            (place_near element.now previous.now (parent_of self.old.noted.forest element.now)) child) }
        ensures err { OnErr result (self.new.noted.forest ≡ self.old.noted.forest) }
        ensures fault { IfErr result (λ fault. fault ≡ Memory) }
        ensures grows { node_count self.old.noted.forest ≤ node_count self.new.noted.forest }
    {
        self.noted
            .append_based_on_parent_node(element, previous, child)
    }

    fn append_doctype_to_document(
        &mut self,
        name: Text,
        public_id: Text,
        system_id: Text,
    ) -> Result<(), ParseFault> {
        self.noted
            .append_doctype_to_document(name, public_id, system_id)
    }

    fn set_quirks_mode(&mut self, mode: QuirksMode) {
        self.noted.set_quirks_mode(mode);
    }

    fn add_attrs_if_missing(
        &mut self,
        target: &NodeId,
        attributes: Attributes,
    ) -> Result<(), ParseFault> {
        self.noted.add_attrs_if_missing(target, attributes)
    }

    fn remove_from_parent(&mut self, target: &NodeId) {
        self.noted.remove_from_parent(target);
    }

    fn reparent_children(&mut self, from: &NodeId, to: &NodeId) -> Result<(), ParseFault> {
        self.noted.reparent_children(from, to)
    }

    fn is_mathml_annotation_xml_integration_point(&self, target: &NodeId) -> bool {
        self.noted
            .is_mathml_annotation_xml_integration_point(target)
    }

    fn allow_declarative_shadow_roots(&self, intended_parent: &NodeId) -> bool {
        self.noted.allow_declarative_shadow_roots(intended_parent)
    }

    fn attach_declarative_shadow(
        &mut self,
        host: &NodeId,
        template: &NodeId,
        attributes: &[Attribute],
    ) -> bool {
        self.list(Hook::Shadow(*host, *template));
        are_closed(attributes)
    }

    fn mark_script_already_started(&mut self, script: &NodeId) {
        self.list(Hook::Started(*script));
    }

    fn pop(&mut self, element: &NodeId) {
        self.list(Hook::Pop(*element));
    }

    fn associate_with_form(
        &mut self,
        target: &NodeId,
        form: &NodeId,
        nodes: (&NodeId, Option<&NodeId>),
    ) {
        let (at, _) = nodes;
        self.list(Hook::Owner(*target, *form, *at));
    }

    fn set_current_line(&mut self, line: u64) {
        self.list(Hook::Line(line));
        self.noted.set_current_line(line);
    }

    fn maybe_clone_an_option_into_selectedcontent(&mut self, option: &NodeId) {
        self.list(Hook::OptionEnded(*option));
    }
}
