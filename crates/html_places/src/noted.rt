//! A forest that keeps the parse errors of its page, and where its nodes and they are in the text of the page.
ghost use Rattle.std.specs.Prelude.{◌≡◌, ◌==◌, ◌≤◌, IfErr, IfOk, IsSome, OnErr, OnOk, length, map, take, true};
ghost use Rattle.markup.specs.Forest.{empty_forest, node_count};
ghost use Rattle.markup.specs.declared.fault.ParseFault.TheVariants.{Memory};
ghost use Rattle.html_places.specs.Noted.{place_of};
ghost use Rattle.std.specs.Prelude.{slice_get};

use crate::place::Place;
use html_forest::{Forest, NodeId};
use markup::{
    Attribute, Attributes, ElementFlags, LocalName, NodeOrText, ParseFault, QualName, QuirksMode,
    Text, TreeSink,
};
use std::alloc::Global;
use std::borrow::CowStr;

/// A parse error of a page (HTML Standard, section 13.2.2).
#[derive(Debug, Drop)]
pub struct Noted {
    /// Where the tag, the comment, the reference or the text begins in which it was found.
    pub place: Place,
    /// The Standard's code of it where it has one, else words, which may change.
    pub message: CowStr<'static>,
}

/// A forest, the places of its nodes, and the parse errors that were reported to it. As a sink of trees it is the forest that it has.
///
/// A parser reports no places to a sink: an error gets the current line, and a node nothing. The calls that read a page put the places
/// in. Where there is no memory for an error, the list is shorter than the forest's count.
#[derive(Debug, Drop)]
pub struct NotedForest {
    /// The tree.
    pub forest: Forest,
    /// Where each node begins, by its number: an element at the tag that made it, or at what made the parser put it there.
    pub places: Vec<Place>,
    /// The errors, in the order in which they were reported.
    pub errors: Vec<Noted>,
    // How many errors were reported before the last text that was put into the tree.
    pub(crate) text_errors: usize,
    line: u64,
}

/// Puts places in where errors are.
fn put_places(errors: &mut [Noted], places: &[Place])
    requires enough { length errors.old ≤ length places.now }
    ensures places { map place_of errors.new ≡ take (length errors.old) places.now }
    ensures len { length errors.new ≡ length errors.old }
{
    for at in 0..errors.len() {
        errors[at].place = places[at];
    }
}

impl NotedForest {
    /// A document with nothing in it, and no error.
    pub fn new(alloc: Global) -> Result<NotedForest, ParseFault>
        ensures ok { IfOk result (λ made. made.forest ≡ empty_forest) }
        ensures fault { IfErr result (λ fault. fault ≡ Memory) }
    {
        Ok(NotedForest {
            forest: Forest::new(alloc)?,
            places: Vec::new(alloc),
            errors: Vec::new(alloc),
            text_errors: 0,
            line: 1,
        })
    }

    /// Notes that a node or a text is put into the tree.
    fn note_child(&mut self, child: &NodeOrText<NodeId>)
        ensures { self.new.forest ≡ self.old.forest }
    {
        if matches!(child, NodeOrText::AppendText(_)) {
            self.text_errors = self.errors.len();
        }
    }

    /// Where a node begins.
    pub fn place_of(&self, id: NodeId) -> Option<Place>
        ensures { result ≡ slice_get self.now.places.items id }
    {
        self.places.get(id.number()).copied()
    }

    /// Whether it has an error for each that its forest counts.
    pub fn is_complete(&self) -> bool
        ensures { result ≡ (length self.now.errors.items == self.now.forest.errors) }
    {
        self.errors.len() as u64 == self.forest.error_count()
    }

    /// Whether it has a place for each node.
    pub fn has_each_place(&self) -> bool
        ensures { result ≡ true → length self.now.places.items ≡ node_count self.now.forest }
    {
        let count = self.places.len();
        count > 0
            && self.forest.node(NodeId::new(count - 1)).is_some()
            && self.forest.node(NodeId::new(count)).is_none()
    }

    /// Puts in where the nodes and the errors are.
    pub(crate) fn put_places(&mut self, nodes: Vec<Place>, errors: &[Place])
        requires enough { length self.old.errors.items ≤ length errors.now }
        ensures forest { self.new.forest ≡ self.old.forest }
        ensures nodes { self.new.places.items ≡ nodes.items }
        ensures errors { map place_of self.new.errors.items ≡ take (length self.old.errors.items) errors.now }
        ensures len { length self.new.errors.items ≡ length self.old.errors.items }
    {
        put_places(self.errors.as_mut_slice(), errors);
        self.places = nodes;
    }
}

/// What notes parse errors beside a tree.
pub trait Noting {
    /// The tree and the errors.
    fn noted(&self) -> &NotedForest;
}

impl Noting for NotedForest {
    fn noted(&self) -> &NotedForest {
        self
    }
}

impl TreeSink for NotedForest {
    ghost use Rattle.std.specs.Prelude.{ℕ};
    ghost use Rattle.markup.specs.Forest.{IsNode, IsParent, MayPut, data_of, integration_point_of, node_count, parent_of};
    ghost use Rattle.markup.specs.Forest.{place_before, place_near, put_child};
    ghost use Rattle.markup.specs.Forest.Place.{Last};
    ghost use Rattle.html_forest.specs.declared.node.NodeId.{NodeId};

    type Handle = NodeId;

    type Output = NotedForest;

    ghost forest = { λ noted. noted.forest };

    ghost node = { λ id. id };

    ghost finish_gives = { λ noted output. output ≡ noted };

    ghost integration_point = { λ forest n. integration_point_of (data_of forest n) };

    fn finish(self) -> NotedForest {
        self
    }

    fn parse_error(&mut self, message: CowStr<'static>) {
        let noted = Noted {
            place: Place {
                line: self.line,
                column: 1,
            },
            message,
        };
        let _ = self.errors.push(noted);
        self.forest.parse_error(CowStr::Borrowed(""));
    }

    fn get_document(&mut self) -> NodeId {
        self.forest.get_document()
    }

    fn elem_name(&self, target: &NodeId) -> &QualName {
        self.forest.elem_name(target)
    }

    fn get_template_contents(&self, target: &NodeId) -> NodeId {
        self.forest.get_template_contents(target)
    }

    fn same_node(&self, a: &NodeId, b: &NodeId) -> bool {
        self.forest.same_node(a, b)
    }

    fn create_element(
        &mut self,
        name: QualName,
        attributes: Attributes,
        flags: ElementFlags,
    ) -> Result<NodeId, ParseFault> {
        self.forest.create_element(name, attributes, flags)
    }

    fn create_html_element(
        &mut self,
        name: LocalName,
        attributes: Attributes,
        flags: ElementFlags,
    ) -> Result<NodeId, ParseFault> {
        self.forest.create_html_element(name, attributes, flags)
    }

    fn create_comment(&mut self, text: Text) -> Result<NodeId, ParseFault> {
        self.forest.create_comment(text)
    }

    fn create_pi(&mut self, target: Text, text: Text) -> Result<NodeId, ParseFault> {
        self.forest.create_pi(target, text)
    }

    fn append(&mut self, parent: &NodeId, child: NodeOrText<NodeId>) -> Result<(), ParseFault>
        requires parent { IsParent self.old.forest parent.now }
        requires child { MayPut (λ (id : ℕ). id) self.old.forest (Last parent.now) child }
        ensures ok { OnOk result (self.new.forest ≡ put_child (λ (id : ℕ). id) self.old.forest (Last parent.now) child) }
        ensures err { OnErr result (self.new.forest ≡ self.old.forest) }
        ensures fault { IfErr result (λ fault. fault ≡ Memory) }
        ensures grows { node_count self.old.forest ≤ node_count self.new.forest }
    {
        self.note_child(&child);
        self.forest.append(parent, child)
    }

    fn append_before_sibling(
        &mut self,
        sibling: &NodeId,
        child: NodeOrText<NodeId>,
    ) -> Result<(), ParseFault>
        requires sibling { IsSome (parent_of self.old.forest sibling.now) }
        requires child { MayPut (λ (id : ℕ). id) self.old.forest (place_before sibling.now (parent_of self.old.forest sibling.now)) child }
        ensures ok { OnOk result (self.new.forest ≡ put_child (λ (id : ℕ). id) self.old.forest
            (place_before sibling.now (parent_of self.old.forest sibling.now)) child) }
        ensures err { OnErr result (self.new.forest ≡ self.old.forest) }
        ensures fault { IfErr result (λ fault. fault ≡ Memory) }
        ensures grows { node_count self.old.forest ≤ node_count self.new.forest }
    {
        self.note_child(&child);
        self.forest.append_before_sibling(sibling, child)
    }

    fn append_based_on_parent_node(
        &mut self,
        element: &NodeId,
        previous: &NodeId,
        child: NodeOrText<NodeId>,
    ) -> Result<(), ParseFault>
        requires element { IsNode self.old.forest element.now }
        requires previous { IsParent self.old.forest previous.now }
        requires child { MayPut (λ (id : ℕ). id) self.old.forest
            (place_near element.now previous.now (parent_of self.old.forest element.now)) child }
        ensures ok { OnOk result (self.new.forest ≡ put_child (λ (id : ℕ). id) self.old.forest
            (place_near element.now previous.now (parent_of self.old.forest element.now)) child) }
        ensures err { OnErr result (self.new.forest ≡ self.old.forest) }
        ensures fault { IfErr result (λ fault. fault ≡ Memory) }
        ensures grows { node_count self.old.forest ≤ node_count self.new.forest }
    {
        self.note_child(&child);
        self.forest
            .append_based_on_parent_node(element, previous, child)
    }

    fn append_doctype_to_document(
        &mut self,
        name: Text,
        public_id: Text,
        system_id: Text,
    ) -> Result<(), ParseFault> {
        self.forest
            .append_doctype_to_document(name, public_id, system_id)
    }

    fn set_quirks_mode(&mut self, mode: QuirksMode) {
        self.forest.set_quirks_mode(mode);
    }

    fn add_attrs_if_missing(
        &mut self,
        target: &NodeId,
        attributes: Attributes,
    ) -> Result<(), ParseFault> {
        self.forest.add_attrs_if_missing(target, attributes)
    }

    fn remove_from_parent(&mut self, target: &NodeId) {
        self.forest.remove_from_parent(target);
    }

    fn reparent_children(&mut self, from: &NodeId, to: &NodeId) -> Result<(), ParseFault> {
        self.forest.reparent_children(from, to)
    }

    fn is_mathml_annotation_xml_integration_point(&self, target: &NodeId) -> bool {
        self.forest
            .is_mathml_annotation_xml_integration_point(target)
    }

    fn allow_declarative_shadow_roots(&self, intended_parent: &NodeId) -> bool {
        self.forest.allow_declarative_shadow_roots(intended_parent)
    }

    fn attach_declarative_shadow(
        &mut self,
        host: &NodeId,
        template: &NodeId,
        attributes: &[Attribute],
    ) -> bool {
        self.forest
            .attach_declarative_shadow(host, template, attributes)
    }

    fn set_current_line(&mut self, line: u64) {
        self.line = line;
    }
}
