//! Where nodes are put (HTML Standard, section 13.2.6.1, "the appropriate place for inserting a node").
ghost use Rattle.std.specs.Prelude.{◌≡◌, ◌≤◌, IfErr, OnErr, OnOk, Some};
ghost use Rattle.markup.specs.Forest.{Forest, IsParent, MayPut, node_count, parent_at, put_child};
ghost use Rattle.markup.specs.Named.{IsTree};
ghost use Rattle.markup.specs.declared.fault.ParseFault.TheVariants.{Memory};
ghost use Rattle.html_rules.specs.Places.{foster_place, inside, place_for};
ghost use Rattle.html_rules.specs.Templates.{foster_intended_parent, intended_parent_at};
ghost use Rattle.html_rules.specs.Stack.{has_open, root_number};
ghost use Rattle.html_rules.specs.State.{current_node};
ghost use Rattle.html_rules_laws.specs.Soundness.{AreOpened, IsOpened};
ghost use Rattle.html_stack.specs.Inserting.{IsPoint, IsTarget, asked_at, place_at, target_of};
ghost use Rattle.html_stack.specs.Stacks.{open_of, opens_of};

use crate::entries::{InsertionPoint, OpenElement};
use crate::inserting::walks;
use crate::signs::Sign;
use crate::stack::Stack;
use html_rules::TagSet;
use markup::{NodeOrText, ParseFault, TreeSink};

/// Last in an element, or in the contents of a template.
#[inline(always)]
fn inside_point<Sink: TreeSink>(
    sink: &Sink,
    target: &OpenElement<Sink::Handle>,
) -> InsertionPoint<Sink::Handle>
    requires { IsOpened (Sink.forest sink.now) (open_of Sink.node target.now) }
    ensures place { (f : Forest) → place_at Sink.node f result ≡ inside (open_of Sink.node target.now) }
    ensures asked { asked_at Sink.node result ≡ parent_at (inside (open_of Sink.node target.now)) }
    ensures is_point { (f : Forest) → IsTree f → IsOpened f (open_of Sink.node target.now) → IsPoint Sink.node f result }
{
    if target.name.is_in(TagSet::Template) {
        InsertionPoint::LastChild(sink.get_template_contents(&target.handle))
    } else {
        InsertionPoint::LastChild(target.handle)
    }
}

/// Where foster parenting puts: in the nearest template, before the nearest table, or in the root.
#[inline(never)]
fn foster_point<Sink: TreeSink>(
    sink: &Sink,
    elements: &[OpenElement<Sink::Handle>],
    document: Sink::Handle,
) -> InsertionPoint<Sink::Handle>
    requires document { Sink.node document ≡ 0 }
    requires opened { AreOpened (Sink.forest sink.now) (opens_of Sink.node elements.now) }
    ensures place { (f : Forest) → place_at Sink.node f result ≡ foster_place f
        (root_number (opens_of Sink.node elements.now)) (opens_of Sink.node elements.now) }
    ensures asked { asked_at Sink.node result ≡ foster_intended_parent
        (root_number (opens_of Sink.node elements.now)) (opens_of Sink.node elements.now) }
    ensures is_point { (f : Forest) → IsTree f → AreOpened f (opens_of Sink.node elements.now) → IsPoint Sink.node f result }
{
    let mut i = elements.len();
    while i > 0 {
        i -= 1;
        let element = &elements[i];
        if element.name.is_in(TagSet::Template) {
            return InsertionPoint::LastChild(sink.get_template_contents(&element.handle));
        }
        if element.name.is_in(TagSet::Table) {
            return InsertionPoint::TableFosterParenting {
                element: element.handle,
                prev_element: walks::before(elements, i, document),
            };
        }
    }
    InsertionPoint::LastChild(walks::root_or(elements, document))
}

/// The place for a target.
#[inline(always)]
pub(crate) fn point_for<Sink: TreeSink>(
    sink: &Sink,
    elements: &[OpenElement<Sink::Handle>],
    document: Sink::Handle,
    foster: bool,
    target: &OpenElement<Sink::Handle>,
) -> InsertionPoint<Sink::Handle>
    requires document { Sink.node document ≡ 0 }
    requires opened { AreOpened (Sink.forest sink.now) (opens_of Sink.node elements.now) }
    requires target { IsOpened (Sink.forest sink.now) (open_of Sink.node target.now) }
    ensures place { (f : Forest) → place_at Sink.node f result ≡ place_for foster f
        (opens_of Sink.node elements.now) (Some (open_of Sink.node target.now)) }
    ensures asked { asked_at Sink.node result ≡ intended_parent_at foster (opens_of Sink.node elements.now)
        (Some (open_of Sink.node target.now)) }
    ensures is_point { (f : Forest) → IsTree f → AreOpened f (opens_of Sink.node elements.now)
        → IsOpened f (open_of Sink.node target.now) → IsPoint Sink.node f result }
{
    if foster && target.name.is_in(TagSet::FosterTarget) {
        foster_point(sink, elements, document)
    } else {
        inside_point(sink, target)
    }
}

/// The place for the current node.
#[inline(always)]
fn current_point<Sink: TreeSink>(
    sink: &Sink,
    elements: &[OpenElement<Sink::Handle>],
    document: Sink::Handle,
    foster: bool,
) -> InsertionPoint<Sink::Handle>
    requires document { Sink.node document ≡ 0 }
    requires opened { AreOpened (Sink.forest sink.now) (opens_of Sink.node elements.now) }
    ensures place { (f : Forest) → place_at Sink.node f result ≡ place_for foster f
        (opens_of Sink.node elements.now) (current_node (opens_of Sink.node elements.now)) }
    ensures asked { asked_at Sink.node result ≡ intended_parent_at foster (opens_of Sink.node elements.now)
        (current_node (opens_of Sink.node elements.now)) }
    ensures is_point { (f : Forest) → IsTree f → AreOpened f (opens_of Sink.node elements.now) → IsPoint Sink.node f result }
{
    let count = elements.len();
    if count == 0 {
        return InsertionPoint::LastChild(document);
    }
    point_for(sink, elements, document, foster, &elements[count - 1])
}

/// Puts a node or text at a place. On [`ParseFault::Memory`], the only fault, the tree is as it was.
#[inline(always)]
pub fn insert_at<Sink: TreeSink>(
    sink: &mut Sink,
    point: InsertionPoint<Sink::Handle>,
    child: NodeOrText<Sink::Handle>,
) -> Result<(), ParseFault>
    requires point { IsPoint Sink.node (Sink.forest sink.old) point }
    requires child { MayPut Sink.node (Sink.forest sink.old) (place_at Sink.node (Sink.forest sink.old) point) child }
    ensures ok { OnOk result (Sink.forest sink.new ≡ put_child Sink.node (Sink.forest sink.old)
        (place_at Sink.node (Sink.forest sink.old) point) child) }
    ensures err { OnErr result (Sink.forest sink.new ≡ Sink.forest sink.old) }
    ensures fault { IfErr result (λ fault. fault ≡ Memory) }
    ensures grows { node_count (Sink.forest sink.old) ≤ node_count (Sink.forest sink.new) }
{
    match point {
        InsertionPoint::LastChild(parent) => sink.append(&parent, child),
        InsertionPoint::BeforeSibling(sibling) => sink.append_before_sibling(&sibling, child),
        InsertionPoint::TableFosterParenting {
            element,
            prev_element,
        } => sink.append_based_on_parent_node(&element, &prev_element, child),
    }
}

impl<Sink: TreeSink> Stack<Sink> {
    /// Where a node is put: in the current node, or in another element that is given; with foster parenting, out of a table (HTML Standard,
    /// section 13.2.6.1, "the appropriate place for inserting a node"). Without foster parenting this costs the same however many elements
    /// are open, and else it goes back to the nearest table or template.
    pub fn appropriate_place_for_insertion(
        &self,
        sink: &mut Sink,
        foster: bool,
        override_target: Option<&OpenElement<Sink::Handle>>,
    ) -> InsertionPoint<Sink::Handle>
        requires opened { AreOpened (Sink.forest sink.old) self.now.open_elems }
        requires target { IsTarget Sink.node (Sink.forest sink.old) override_target }
        ensures place { (f : Forest) → place_at Sink.node f result ≡ place_for foster f self.now.open_elems
            (target_of Sink.node override_target.entry self.now.open_elems) }
        ensures is_point { (f : Forest) → IsTree f → AreOpened f self.now.open_elems
            → IsTarget Sink.node f override_target.entry → IsPoint Sink.node f result }
        ensures same { Sink.forest sink.new ≡ Sink.forest sink.old }
        ensures tree { IsTree (Sink.forest sink.new) }
    {
        let Some(target) = override_target else {
            return self.current_place(sink, foster);
        };
        let document = sink.get_document();
        point_for(sink, self.open_elems(), document, foster, target)
    }

    /// The root; the document, where nothing is open.
    pub(crate) fn root_or_document(&self, sink: &mut Sink) -> Sink::Handle
        ensures number { Sink.node result ≡ root_number self.now.open_elems }
        ensures is_parent { (f : Forest) → IsTree f → AreOpened f self.now.open_elems → IsParent f (Sink.node result) }
        ensures same { Sink.forest sink.new ≡ Sink.forest sink.old }
    {
        let document = sink.get_document();
        walks::root_or(self.open_elems(), document)
    }

    /// Where a node is put, in the current node.
    #[inline(always)]
    pub(crate) fn current_place(
        &self,
        sink: &mut Sink,
        foster: bool,
    ) -> InsertionPoint<Sink::Handle>
        requires { AreOpened (Sink.forest sink.old) self.now.open_elems }
        ensures place { (f : Forest) → place_at Sink.node f result ≡ place_for foster f self.now.open_elems
            (current_node self.now.open_elems) }
        ensures asked { asked_at Sink.node result ≡ intended_parent_at foster self.now.open_elems (current_node self.now.open_elems) }
        ensures is_point { (f : Forest) → IsTree f → AreOpened f self.now.open_elems → IsPoint Sink.node f result }
        ensures same { Sink.forest sink.new ≡ Sink.forest sink.old }
        ensures tree { IsTree (Sink.forest sink.new) }
    {
        let document = sink.get_document();
        current_point(sink, self.open_elems(), document, foster)
    }

    /// Whether an element of a set is open.
    pub fn has_open(&self, set: TagSet) -> bool
        ensures { result ≡ has_open set self.now.open_elems }
    {
        walks::has_open(self.reached(Sign::In(set), Sign::In(set)), set)
    }
}
