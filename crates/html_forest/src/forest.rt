//! A forest of nodes in a vector.
ghost use Rattle.std.specs.Prelude.{◌≡◌, ◌≤◌, ◌<◌, ◌^◌, ℕ, IsSome, IfSome, IfNone, IfOk, IfErr, OnOk, OnErr, None, Some, true};
ghost use Rattle.std.specs.Prelude.{false, codes, is_some, nat_lt};
ghost use Rattle.markup.specs.declared.fault.ParseFault.TheVariants.{Memory};
ghost use Rattle.html_forest.specs.Views.{contents_in, data_view, joined_if, place_view};

use crate::children::Children;
use crate::data::{add_attributes, join_text};
use crate::entry::Entry;
use crate::node::{Node, NodeData, NodeId, Place};
use crate::nodes::{add_node, link_between, links, move_children, unlink};
use crate::plain;
use crate::store::Store;
use markup::{
    Attribute, Attributes, ElementFlags, KnownNamespace, LocalName, Namespace, NodeOrText,
    ParseFault, QualName, QuirksMode, Text, TreeSink,
};
use std::alloc::Global;
use std::borrow::CowStr;
use std::marker::Model;

/// A forest: the document, and what was put under it or made beside it. A contract sees the data and the children of each node, the
/// quirks mode and the number of errors.
#[derive(Debug, Drop)]
pub struct Forest {
    alloc: Global,
    nodes: Vec<Node>,
    store: Store,
    quirks: QuirksMode,
    errors: u64,
}

impl Model for Forest {
    ghost use Rattle.markup.specs.Forest.{Forest};
    ghost use Rattle.html_forest.specs.Views.{IsHeld, entries_of, forest_view, links_of};

    ghost Value = { Forest };

    ghost view = { λ a. forest_view a.store a.nodes.items a.quirks a.errors };

    ghost invariant = { λ a. IsHeld (forest_view a.store a.nodes.items a.quirks a.errors) a.store
        (entries_of a.nodes.items) (links_of a.nodes.items) };
}

impl Forest {
    ghost use Rattle.markup.specs.Names.{html_name, is_html_name};
    ghost use Rattle.html_plain.specs.Grammar.{is_plain_forest};
    ghost use Rattle.markup.specs.Named.{HasContents, IsOrdinary};
    ghost use Rattle.markup.specs.Forest.NodeData.{Contents, Doctype, Element, Text as TextNode};
    ghost use Rattle.html_forest.specs.Links.{first_of, next_under, previous_under};
    ghost use Rattle.markup.specs.Forest.{IsForest, IsLoose, IsPlace, MayPut, children_of, contents_of, data_if, data_of};
    ghost use Rattle.markup.specs.Forest.{element_name, empty_forest, is_contents, last_of, node_count, parent_at, parent_of};
    ghost use Rattle.markup.specs.Forest.{place_before, place_near, previous_at, put, put_child, put_new, put_text, text_of};
    ghost use Rattle.markup.specs.Forest.{with_node};

    /// A document with nothing in it, in no quirks mode and with no error. It grows in the memory of `alloc`.
    pub fn new(alloc: Global) -> Result<Forest, ParseFault>
        ensures ok { IfOk result (λ made. made ≡ empty_forest) }
        ensures fault { IfErr result (λ fault. fault ≡ Memory) }
    {
        let mut nodes = Vec::new(alloc);
        nodes.reserve(1)?;
        let store = Store::new(alloc)?;
        add_node(&mut nodes, Entry::Document);
        Ok(Forest {
            alloc,
            nodes,
            store,
            quirks: QuirksMode::NoQuirks,
            errors: 0,
        })
    }

    /// The node of the whole document.
    pub fn document(&self) -> NodeId
        ensures { result ≡ 0 }
    {
        NodeId::new(0)
    }

    /// What a node is; nothing where the number names no node.
    #[inline(always)]
    pub fn node(&self, id: NodeId) -> Option<NodeData<'_>>
        ensures there { is_some result ≡ nat_lt id (node_count self.now) }
        ensures about { IfSome result (λ about. data_view about ≡ data_of self.now id) }
        ensures contents { IfSome result (λ about. contents_in about ≡ contents_of self.now id) }
    {
        match self.nodes.get(id.number()) {
            Some(node) => Some(self.store.data(&node.entry, id)),
            None => None,
        }
    }

    /// The node that has a node among its children.
    pub fn parent(&self, id: NodeId) -> Option<NodeId>
        ensures { result ≡ parent_of self.now id }
    {
        match self.nodes.get(id.number()) {
            Some(node) => node.links.parent.node(),
            None => None,
        }
    }

    /// The first of the children of a node.
    pub fn first_child(&self, id: NodeId) -> Option<NodeId>
        ensures { result ≡ first_of (children_of self.now id) }
    {
        match self.nodes.get(id.number()) {
            Some(node) => node.links.first.node(),
            None => None,
        }
    }

    /// The last of the children of a node.
    pub fn last_child(&self, id: NodeId) -> Option<NodeId>
        ensures { result ≡ last_of (children_of self.now id) }
    {
        match self.nodes.get(id.number()) {
            Some(node) => node.links.last.node(),
            None => None,
        }
    }

    /// The node just after a node, among the children of its parent.
    pub fn next_sibling(&self, id: NodeId) -> Option<NodeId>
        ensures { result ≡ next_under self.now id (parent_of self.now id) }
    {
        match self.nodes.get(id.number()) {
            Some(node) => node.links.next.node(),
            None => None,
        }
    }

    /// The node just before a node, among the children of its parent.
    pub fn previous_sibling(&self, id: NodeId) -> Option<NodeId>
        ensures { result ≡ previous_under self.now id (parent_of self.now id) }
    {
        match self.nodes.get(id.number()) {
            Some(node) => node.links.previous.node(),
            None => None,
        }
    }

    /// The children of a node in their order; none where the number names no node.
    pub fn children(&self, id: NodeId) -> Children<'_>
        ensures { result ≡ children_of self.now id }
    {
        match self.nodes.get(id.number()) {
            Some(node) => Children::new(&self.nodes, node.links.first.node()),
            None => Children::new(&self.nodes, None),
        }
    }

    /// The node of the contents of a template; nothing for other nodes.
    pub fn template_contents(&self, id: NodeId) -> Option<NodeId>
        ensures { result ≡ contents_of self.now id }
    {
        match self.nodes.get(id.number()) {
            Some(node) => {
                if node.entry.is_template() {
                    Some(NodeId::new(id.number() + 1))
                } else {
                    None
                }
            }
            None => None,
        }
    }

    /// Whether a node is the contents of a template.
    pub(crate) fn is_contents(&self, id: NodeId) -> bool
        ensures { result ≡ is_contents (data_of self.now id) }
    {
        match self.nodes.get(id.number()) {
            Some(node) => matches!(node.entry, Entry::Contents),
            None => false,
        }
    }

    /// The name of an element; nothing for other nodes.
    pub(crate) fn name(&self, id: NodeId) -> Option<&QualName>
        ensures named { IfSome result (λ name. element_name (data_of self.now id) ≡ Some name.now) }
        ensures unnamed { IfNone result (element_name (data_of self.now id) ≡ None) }
    {
        match self.nodes.get(id.number()) {
            Some(node) => match &node.entry {
                Entry::Element { name, .. } => Some(self.store.name(*name)),
                Entry::OwnElement { element, .. } => Some(&element.name),
                _ => None,
            },
            None => None,
        }
    }

    /// The quirks mode that was set last, or no quirks mode.
    pub fn quirks(&self) -> QuirksMode
        ensures { result ≡ self.now.quirks }
    {
        self.quirks
    }

    /// How many errors were told, at most `u64::MAX`.
    pub fn error_count(&self) -> u64
        ensures { result ≡ self.now.errors }
    {
        self.errors
    }

    /// What every forest keeps: it is a tree, and the contents of a template follow it; and its nodes can be counted. Does
    /// nothing: it is a law, for whoever walks one.
    pub fn keeps(&self)
        ensures is_forest { IsForest self.now }
        ensures contents { HasContents self.now }
        ensures count { node_count self.now < 2 ^ 64 }
    {
        let _count = self.nodes.len();
    }

    /// Whether the document is plain, so that its written text is read back as it is: the plain grammar has its tree. The walk
    /// is a loop that keeps what waits in memory, a few words for each level. Time grows with the number of nodes and
    /// characters.
    pub fn is_plain(&self) -> Result<bool, ParseFault>
        ensures ok { IfOk result (λ plain. plain ≡ is_plain_forest self.now) }
        ensures fault { IfErr result (λ fault. fault ≡ Memory) }
    {
        let _nodes = &self.nodes;
        plain::is_plain(self, self.alloc, NodeId::new(0))
    }

    /// Makes an element that is no template.
    fn create_ordinary(
        &mut self,
        name: QualName,
        attrs: Attributes,
        flags: ElementFlags,
    ) -> Result<NodeId, ParseFault>
        requires { IsOrdinary (Element name attrs flags.template flags.mathml_annotation_xml_integration_point) }
        ensures named { IfOk result (λ made. made ≡ node_count self.old) }
        ensures ok { OnOk result (self.new ≡ with_node self.old
            (Element name attrs flags.template flags.mathml_annotation_xml_integration_point)) }
        ensures err { OnErr result (self.new ≡ self.old) }
        ensures fault { IfErr result (λ fault. fault ≡ Memory) }
    {
        let made = NodeId::new(self.nodes.len());
        self.nodes.reserve(1)?;
        let entry = self.store.element(name, attrs, flags)?;
        add_node(&mut self.nodes, entry);
        Ok(made)
    }

    /// Makes an element of HTML that is no template.
    fn create_html(
        &mut self,
        name: LocalName,
        attrs: Attributes,
        flags: ElementFlags,
    ) -> Result<NodeId, ParseFault>
        requires { IsOrdinary (Element (html_name name) attrs flags.template flags.mathml_annotation_xml_integration_point) }
        ensures named { IfOk result (λ made. made ≡ node_count self.old) }
        ensures ok { OnOk result (self.new ≡ with_node self.old
            (Element (html_name name) attrs flags.template flags.mathml_annotation_xml_integration_point)) }
        ensures err { OnErr result (self.new ≡ self.old) }
        ensures fault { IfErr result (λ fault. fault ≡ Memory) }
    {
        let made = NodeId::new(self.nodes.len());
        self.nodes.reserve(1)?;
        let entry = self.store.html_element(name, attrs, flags)?;
        add_node(&mut self.nodes, entry);
        Ok(made)
    }

    /// Makes a text node.
    #[inline(always)]
    fn create_text(&mut self, text: Text) -> Result<NodeId, ParseFault>
        ensures named { IfOk result (λ made. made ≡ node_count self.old) }
        ensures ok { OnOk result (self.new ≡ with_node self.old (TextNode text)) }
        ensures err { OnErr result (self.new ≡ self.old) }
        ensures fault { IfErr result (λ fault. fault ≡ Memory) }
    {
        let made = NodeId::new(self.nodes.len());
        self.nodes.reserve(1)?;
        let entry = self.store.text(text)?;
        add_node(&mut self.nodes, entry);
        Ok(made)
    }

    /// Makes a doctype.
    fn create_doctype(
        &mut self,
        name: Text,
        public_id: Text,
        system_id: Text,
    ) -> Result<NodeId, ParseFault>
        ensures named { IfOk result (λ made. made ≡ node_count self.old) }
        ensures ok { OnOk result (self.new ≡ with_node self.old (Doctype name public_id system_id)) }
        ensures err { OnErr result (self.new ≡ self.old) }
        ensures fault { IfErr result (λ fault. fault ≡ Memory) }
    {
        let made = NodeId::new(self.nodes.len());
        self.nodes.reserve(1)?;
        let entry = self.store.doctype(name, public_id, system_id)?;
        add_node(&mut self.nodes, entry);
        Ok(made)
    }

    /// Makes a template, and the node of its contents.
    fn create_template(
        &mut self,
        name: QualName,
        attrs: Attributes,
        flags: ElementFlags,
    ) -> Result<NodeId, ParseFault>
        requires named { is_html_name (Some name) (codes "template") ≡ true }
        requires template { flags.template ≡ true }
        ensures named { IfOk result (λ made. made ≡ node_count self.old) }
        ensures ok { OnOk result (self.new ≡ with_node
            (with_node self.old (Element name attrs flags.template flags.mathml_annotation_xml_integration_point)) Contents) }
        ensures err { OnErr result (self.new ≡ self.old) }
        ensures fault { IfErr result (λ fault. fault ≡ Memory) }
    {
        let made = NodeId::new(self.nodes.len());
        self.nodes.reserve(2)?;
        let entry = self.store.element(name, attrs, flags)?;
        add_node(&mut self.nodes, entry);
        add_node(&mut self.nodes, Entry::Contents);
        Ok(made)
    }

    /// Just before a node that has a parent.
    fn place_before(&self, sibling: NodeId) -> Place
        ensures { place_view result ≡ place_before sibling (parent_of self.now sibling) }
    {
        match self.parent(sibling) {
            Some(parent) => Place::Before(parent, sibling),
            None => Place::Last(sibling),
        }
    }

    /// Just before an element that has a parent, else last in another node.
    fn place_near(&self, element: NodeId, previous: NodeId) -> Place
        ensures { place_view result ≡ place_near element previous (parent_of self.now element) }
    {
        match self.parent(element) {
            Some(parent) => Place::Before(parent, element),
            None => Place::Last(previous),
        }
    }

    /// The node just before a place.
    fn previous_at(&self, place: &Place) -> Option<NodeId>
        requires { IsPlace self.now (place_view place.now) }
        ensures { result ≡ previous_at self.now (place_view place.now) }
    {
        match place {
            Place::Last(parent) => links(&self.nodes, *parent).last.node(),
            Place::Before(_, sibling) => links(&self.nodes, *sibling).previous.node(),
        }
    }

    /// Puts a node that stands nowhere at a place.
    fn put(&mut self, place: &Place, child: NodeId)
        requires place { IsPlace self.old (place_view place.now) }
        requires child { IsLoose self.old (parent_at (place_view place.now)) child }
        ensures { self.new ≡ put self.old (place_view place.now) child }
    {
        let previous = self.previous_at(place);
        let (parent, next) = place.around();
        link_between(&mut self.nodes, parent, previous, next, child);
    }

    /// Makes a text node at a place.
    fn put_new_text(&mut self, place: &Place, text: Text) -> Result<(), ParseFault>
        requires { IsPlace self.old (place_view place.now) }
        ensures ok { OnOk result (self.new ≡ put_new self.old (place_view place.now) (TextNode text)) }
        ensures err { OnErr result (self.new ≡ self.old) }
        ensures fault { IfErr result (λ fault. fault ≡ Memory) }
    {
        let _nodes = &self.nodes;
        let made = self.create_text(text)?;
        self.put(place, made);
        Ok(())
    }

    /// Adds text at the end of the text just before a place, and says whether one stands there.
    fn join_text(&mut self, place: &Place, text: &Text) -> Result<bool, ParseFault>
        requires { IsPlace self.old (place_view place.now) }
        ensures joined { IfOk result
            (λ joined. joined ≡ is_some (text_of (data_if self.old (previous_at self.old (place_view place.now))))) }
        ensures ok { OnOk result (self.new ≡ joined_if self.old text.now
            (previous_at self.old (place_view place.now)) (text_of (data_if self.old (previous_at self.old (place_view place.now))))) }
        ensures err { OnErr result (self.new ≡ self.old) }
        ensures fault { IfErr result (λ fault. fault ≡ Memory) }
    {
        match self.previous_at(place) {
            Some(previous) => join_text(&mut self.nodes, &mut self.store, previous, text),
            None => Ok(false),
        }
    }

    /// Puts text at a place, where it joins the text just before.
    #[inline(never)]
    fn put_text(&mut self, place: &Place, text: Text) -> Result<(), ParseFault>
        requires { IsPlace self.old (place_view place.now) }
        ensures ok { OnOk result (self.new ≡ put_text self.old (place_view place.now) text) }
        ensures err { OnErr result (self.new ≡ self.old) }
        ensures fault { IfErr result (λ fault. fault ≡ Memory) }
    {
        if text.is_empty() {
            return Ok(());
        }
        if self.join_text(place, &text)? {
            return Ok(());
        }
        self.put_new_text(place, text)
    }

    /// Puts a node or text at a place.
    #[inline(always)]
    fn put_child(&mut self, place: &Place, child: NodeOrText<NodeId>) -> Result<(), ParseFault>
        requires place { IsPlace self.old (place_view place.now) }
        requires child { MayPut (λ (id : ℕ). id) self.old (place_view place.now) child }
        ensures ok { OnOk result (self.new ≡ put_child (λ (id : ℕ). id) self.old (place_view place.now) child) }
        ensures err { OnErr result (self.new ≡ self.old) }
        ensures fault { IfErr result (λ fault. fault ≡ Memory) }
        ensures grows { node_count self.old ≤ node_count self.new }
    {
        match child {
            NodeOrText::AppendNode(node) => {
                self.put(place, node);
                Ok(())
            }
            NodeOrText::AppendText(text) => self.put_text(place, text),
        }
    }
}

impl TreeSink for Forest {
    ghost use Rattle.std.specs.Prelude.{ℕ};
    ghost use Rattle.markup.specs.Forest.{IsNode, IsParent, MayPut, data_of, integration_point_of, node_count, parent_of};
    ghost use Rattle.markup.specs.Forest.{place_before, place_near, put_child};
    ghost use Rattle.markup.specs.Forest.Place.{Last};
    ghost use Rattle.html_forest.specs.declared.node.NodeId.{NodeId};

    type Handle = NodeId;

    type Output = Forest;

    ghost forest = { λ forest. forest };

    ghost node = { λ id. id };

    ghost finish_gives = { λ forest output. output ≡ forest };

    ghost integration_point = { λ forest n. integration_point_of (data_of forest n) };

    fn finish(self) -> Forest {
        self
    }

    fn parse_error(&mut self, _message: CowStr<'static>) {
        self.errors = self.errors.saturating_add(1);
    }

    fn get_document(&mut self) -> NodeId {
        let _nodes = &self.nodes;
        NodeId::new(0)
    }

    fn elem_name(&self, target: &NodeId) -> &QualName {
        match &self.nodes[target.number()].entry {
            Entry::Element { name, .. } => self.store.name(*name),
            Entry::OwnElement { element, .. } => &element.name,
            _ => unreachable!(),
        }
    }

    fn get_template_contents(&self, target: &NodeId) -> NodeId {
        let _nodes = &self.nodes;
        match self.template_contents(*target) {
            Some(contents) => contents,
            None => unreachable!(),
        }
    }

    fn same_node(&self, a: &NodeId, b: &NodeId) -> bool {
        a == b
    }

    fn create_element(
        &mut self,
        name: QualName,
        attributes: Attributes,
        flags: ElementFlags,
    ) -> Result<NodeId, ParseFault> {
        if flags.template {
            self.create_template(name, attributes, flags)
        } else {
            self.create_ordinary(name, attributes, flags)
        }
    }

    fn create_html_element(
        &mut self,
        name: LocalName,
        attributes: Attributes,
        flags: ElementFlags,
    ) -> Result<NodeId, ParseFault> {
        if flags.template {
            let html = Namespace::from_known(KnownNamespace::Html);
            self.create_template(QualName::new(None, html, name), attributes, flags)
        } else {
            self.create_html(name, attributes, flags)
        }
    }

    fn create_comment(&mut self, text: Text) -> Result<NodeId, ParseFault> {
        let made = NodeId::new(self.nodes.len());
        self.nodes.reserve(1)?;
        let entry = self.store.comment(text)?;
        add_node(&mut self.nodes, entry);
        Ok(made)
    }

    fn create_pi(&mut self, target: Text, text: Text) -> Result<NodeId, ParseFault> {
        let made = NodeId::new(self.nodes.len());
        self.nodes.reserve(1)?;
        let entry = self.store.instruction(target, text)?;
        add_node(&mut self.nodes, entry);
        Ok(made)
    }

    fn append(&mut self, parent: &NodeId, child: NodeOrText<NodeId>) -> Result<(), ParseFault>
        requires parent { IsParent self.old parent.now }
        requires child { MayPut (λ (id : ℕ). id) self.old (Last parent.now) child }
        ensures ok { OnOk result (self.new ≡ put_child (λ (id : ℕ). id) self.old (Last parent.now) child) }
        ensures err { OnErr result (self.new ≡ self.old) }
        ensures fault { IfErr result (λ fault. fault ≡ Memory) }
        ensures grows { node_count self.old ≤ node_count self.new }
    {
        self.put_child(&Place::Last(*parent), child)
    }

    fn append_before_sibling(
        &mut self,
        sibling: &NodeId,
        child: NodeOrText<NodeId>,
    ) -> Result<(), ParseFault>
        requires sibling { IsSome (parent_of self.old sibling.now) }
        requires child { MayPut (λ (id : ℕ). id) self.old (place_before sibling.now (parent_of self.old sibling.now)) child }
        ensures ok { OnOk result (self.new ≡ put_child (λ (id : ℕ). id) self.old
            (place_before sibling.now (parent_of self.old sibling.now)) child) }
        ensures err { OnErr result (self.new ≡ self.old) }
        ensures fault { IfErr result (λ fault. fault ≡ Memory) }
        ensures grows { node_count self.old ≤ node_count self.new }
    {
        let place = self.place_before(*sibling);
        self.put_child(&place, child)
    }

    fn append_based_on_parent_node(
        &mut self,
        element: &NodeId,
        previous: &NodeId,
        child: NodeOrText<NodeId>,
    ) -> Result<(), ParseFault>
        requires element { IsNode self.old element.now }
        requires previous { IsParent self.old previous.now }
        requires child { MayPut (λ (id : ℕ). id) self.old (place_near element.now previous.now (parent_of self.old element.now)) child }
        ensures ok { OnOk result (self.new ≡ put_child (λ (id : ℕ). id) self.old
            (place_near element.now previous.now (parent_of self.old element.now)) child) }
        ensures err { OnErr result (self.new ≡ self.old) }
        ensures fault { IfErr result (λ fault. fault ≡ Memory) }
        ensures grows { node_count self.old ≤ node_count self.new }
    {
        let place = self.place_near(*element, *previous);
        self.put_child(&place, child)
    }

    fn append_doctype_to_document(
        &mut self,
        name: Text,
        public_id: Text,
        system_id: Text,
    ) -> Result<(), ParseFault> {
        let document = self.get_document();
        let made = self.create_doctype(name, public_id, system_id)?;
        self.put(&Place::Last(document), made);
        Ok(())
    }

    fn set_quirks_mode(&mut self, mode: QuirksMode) {
        self.quirks = mode;
    }

    fn add_attrs_if_missing(
        &mut self,
        target: &NodeId,
        attributes: Attributes,
    ) -> Result<(), ParseFault> {
        add_attributes(&mut self.nodes, &self.store, *target, attributes)
    }

    fn remove_from_parent(&mut self, target: &NodeId) {
        if let Some(parent) = self.parent(*target) {
            unlink(&mut self.nodes, parent, *target);
        }
    }

    fn reparent_children(&mut self, from: &NodeId, to: &NodeId) -> Result<(), ParseFault> {
        if from.number() != to.number() {
            move_children(&mut self.nodes, *from, *to);
        }
        Ok(())
    }

    fn is_mathml_annotation_xml_integration_point(&self, target: &NodeId) -> bool {
        self.nodes[target.number()].entry.may_hold_html()
    }

    fn allow_declarative_shadow_roots(&self, _intended_parent: &NodeId) -> bool {
        true
    }

    fn attach_declarative_shadow(
        &mut self,
        _host: &NodeId,
        _template: &NodeId,
        _attributes: &[Attribute],
    ) -> bool {
        false
    }
}
