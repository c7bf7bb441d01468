//! Laws of trees, over any sink: what its calls keep, as contracts of functions that make one call. What the call does stands beside what
//! it keeps, in the words of [`TreeSink`].
ghost use Rattle.std.specs.Prelude.{◌≡◌, ◌≤◌, ℕ, IfErr, IfOk, IsSome, OnErr, OnOk, Some, true, codes};
ghost use Rattle.markup.specs.declared.fault.ParseFault.TheVariants.{Memory};
ghost use Rattle.markup.specs.Names.{is_html_name};
ghost use Rattle.markup.specs.Named.{IsTree};
ghost use Rattle.markup.specs.Forest.{Above, IsNode, IsParent, MayPut, above_of, add_attributes, add_error, children_of};
ghost use Rattle.markup.specs.Forest.{create_element, is_among, node_count, parent_of, place_before, place_near, put_child};
ghost use Rattle.markup.specs.Forest.{put_new, remove, reparent_children, set_quirks, with_node};
ghost use Rattle.markup.specs.Forest.NodeData.{Comment, Doctype, ProcessingInstruction};
ghost use Rattle.markup.specs.Forest.Place.{Last};
ghost use Rattle.markup.specs.TreeLaws.{AreErrorsApart, AreTextsJoined};

use crate::attributes::Attributes;
use crate::fault::ParseFault;
use crate::flags::ElementFlags;
use crate::names::QualName;
use crate::node_or_text::NodeOrText;
use crate::quirks::QuirksMode;
use crate::text::Text;
use crate::tree_sink::TreeSink;
use std::borrow::CowStr;

/// A handle names the node that it names.
pub fn same_node_is_reflexive<S: TreeSink>(sink: &S, a: &S::Handle) -> bool
    ensures { result ≡ true }
{
    sink.same_node(a, a)
}

/// Two handles name one node in whichever order they are asked about.
pub fn same_node_is_symmetric<S: TreeSink>(sink: &S, a: &S::Handle, b: &S::Handle) -> bool
    ensures { result ≡ true }
{
    sink.same_node(a, b) == sink.same_node(b, a)
}

/// Two handles that name the node of a third name one node.
pub fn same_node_is_transitive<S: TreeSink>(
    sink: &S,
    a: &S::Handle,
    b: &S::Handle,
    c: &S::Handle,
) -> bool
    ensures { result ≡ true }
{
    !(sink.same_node(a, b) && sink.same_node(b, c)) || sink.same_node(a, c)
}

/// What a sink has built is a tree: each node has at most one parent, and none stands above itself, where a template stands above its
/// contents.
pub fn document_of_tree<S: TreeSink>(sink: &mut S) -> S::Handle
    ensures document { S.node result ≡ 0 }
    ensures same { S.forest sink.new ≡ S.forest sink.old }
    ensures tree { IsTree (S.forest sink.new) }
    ensures one_parent { (p q n : ℕ) → is_among n (children_of (S.forest sink.new) p) ≡ true
        → is_among n (children_of (S.forest sink.new) q) ≡ true → p ≡ q }
    ensures no_cycle { (n m : ℕ) → above_of (S.forest sink.new) n ≡ Some m → Above (S.forest sink.new) n m → ⊥ }
{
    sink.get_document()
}

/// A parse error leaves a tree.
pub fn parse_error_keeps_tree<S: TreeSink>(sink: &mut S, message: CowStr<'static>)
    requires { IsTree (S.forest sink.old) }
    ensures told { S.forest sink.new ≡ add_error (S.forest sink.old) }
    ensures tree { IsTree (S.forest sink.new) }
{
    sink.parse_error(message);
}

/// A new element leaves a tree.
pub fn create_element_keeps_tree<S: TreeSink>(
    sink: &mut S,
    name: QualName,
    attributes: Attributes,
    flags: ElementFlags,
) -> Result<S::Handle, ParseFault>
    requires tree { IsTree (S.forest sink.old) }
    requires flags { flags.template ≡ is_html_name (Some name) (codes "template") }
    ensures named { IfOk result (λ made. S.node made ≡ node_count (S.forest sink.old)) }
    ensures ok { OnOk result (S.forest sink.new ≡ create_element (S.forest sink.old) name attributes flags) }
    ensures err { OnErr result (S.forest sink.new ≡ S.forest sink.old) }
    ensures fault { IfErr result (λ fault. fault ≡ Memory) }
    ensures tree { IsTree (S.forest sink.new) }
{
    sink.create_element(name, attributes, flags)
}

/// A new comment leaves a tree.
pub fn create_comment_keeps_tree<S: TreeSink>(
    sink: &mut S,
    text: Text,
) -> Result<S::Handle, ParseFault>
    requires { IsTree (S.forest sink.old) }
    ensures named { IfOk result (λ made. S.node made ≡ node_count (S.forest sink.old)) }
    ensures ok { OnOk result (S.forest sink.new ≡ with_node (S.forest sink.old) (Comment text)) }
    ensures err { OnErr result (S.forest sink.new ≡ S.forest sink.old) }
    ensures fault { IfErr result (λ fault. fault ≡ Memory) }
    ensures tree { IsTree (S.forest sink.new) }
{
    sink.create_comment(text)
}

/// A new processing instruction leaves a tree.
pub fn create_pi_keeps_tree<S: TreeSink>(
    sink: &mut S,
    target: Text,
    text: Text,
) -> Result<S::Handle, ParseFault>
    requires { IsTree (S.forest sink.old) }
    ensures named { IfOk result (λ made. S.node made ≡ node_count (S.forest sink.old)) }
    ensures ok { OnOk result (S.forest sink.new ≡ with_node (S.forest sink.old) (ProcessingInstruction target text)) }
    ensures err { OnErr result (S.forest sink.new ≡ S.forest sink.old) }
    ensures fault { IfErr result (λ fault. fault ≡ Memory) }
    ensures tree { IsTree (S.forest sink.new) }
{
    sink.create_pi(target, text)
}

/// A node or text put last into another node leaves a tree.
pub fn append_keeps_tree<S: TreeSink>(
    sink: &mut S,
    parent: &S::Handle,
    child: NodeOrText<S::Handle>,
) -> Result<(), ParseFault>
    requires tree { IsTree (S.forest sink.old) }
    requires parent { IsParent (S.forest sink.old) (S.node parent.now) }
    requires child { MayPut S.node (S.forest sink.old) (Last (S.node parent.now)) child }
    ensures ok { OnOk result (S.forest sink.new ≡ put_child S.node (S.forest sink.old) (Last (S.node parent.now)) child) }
    ensures err { OnErr result (S.forest sink.new ≡ S.forest sink.old) }
    ensures fault { IfErr result (λ fault. fault ≡ Memory) }
    ensures grows { node_count (S.forest sink.old) ≤ node_count (S.forest sink.new) }
    ensures tree { IsTree (S.forest sink.new) }
{
    sink.append(parent, child)
}

/// A node or text put before another node leaves a tree.
pub fn append_before_sibling_keeps_tree<S: TreeSink>(
    sink: &mut S,
    sibling: &S::Handle,
    child: NodeOrText<S::Handle>,
) -> Result<(), ParseFault>
    requires tree { IsTree (S.forest sink.old) }
    requires sibling { IsSome (parent_of (S.forest sink.old) (S.node sibling.now)) }
    requires child { MayPut S.node (S.forest sink.old)
        (place_before (S.node sibling.now) (parent_of (S.forest sink.old) (S.node sibling.now))) child }
    ensures ok { OnOk result (S.forest sink.new ≡ put_child S.node (S.forest sink.old)
        (place_before (S.node sibling.now) (parent_of (S.forest sink.old) (S.node sibling.now))) child) }
    ensures err { OnErr result (S.forest sink.new ≡ S.forest sink.old) }
    ensures fault { IfErr result (λ fault. fault ≡ Memory) }
    ensures grows { node_count (S.forest sink.old) ≤ node_count (S.forest sink.new) }
    ensures tree { IsTree (S.forest sink.new) }
{
    sink.append_before_sibling(sibling, child)
}

/// A node or text put before an element or into another node leaves a tree.
pub fn append_based_on_parent_node_keeps_tree<S: TreeSink>(
    sink: &mut S,
    element: &S::Handle,
    previous: &S::Handle,
    child: NodeOrText<S::Handle>,
) -> Result<(), ParseFault>
    requires tree { IsTree (S.forest sink.old) }
    requires element { IsNode (S.forest sink.old) (S.node element.now) }
    requires previous { IsParent (S.forest sink.old) (S.node previous.now) }
    requires child { MayPut S.node (S.forest sink.old)
        (place_near (S.node element.now) (S.node previous.now) (parent_of (S.forest sink.old) (S.node element.now))) child }
    ensures ok { OnOk result (S.forest sink.new ≡ put_child S.node (S.forest sink.old)
        (place_near (S.node element.now) (S.node previous.now) (parent_of (S.forest sink.old) (S.node element.now))) child) }
    ensures err { OnErr result (S.forest sink.new ≡ S.forest sink.old) }
    ensures fault { IfErr result (λ fault. fault ≡ Memory) }
    ensures grows { node_count (S.forest sink.old) ≤ node_count (S.forest sink.new) }
    ensures tree { IsTree (S.forest sink.new) }
{
    sink.append_based_on_parent_node(element, previous, child)
}

/// A doctype leaves a tree.
pub fn append_doctype_to_document_keeps_tree<S: TreeSink>(
    sink: &mut S,
    name: Text,
    public_id: Text,
    system_id: Text,
) -> Result<(), ParseFault>
    requires { IsTree (S.forest sink.old) }
    ensures ok { OnOk result (S.forest sink.new ≡ put_new (S.forest sink.old) (Last 0) (Doctype name public_id system_id)) }
    ensures err { OnErr result (S.forest sink.new ≡ S.forest sink.old) }
    ensures fault { IfErr result (λ fault. fault ≡ Memory) }
    ensures grows { node_count (S.forest sink.old) ≤ node_count (S.forest sink.new) }
    ensures tree { IsTree (S.forest sink.new) }
{
    sink.append_doctype_to_document(name, public_id, system_id)
}

/// Another quirks mode leaves a tree.
pub fn set_quirks_mode_keeps_tree<S: TreeSink>(sink: &mut S, mode: QuirksMode)
    requires { IsTree (S.forest sink.old) }
    ensures mode { S.forest sink.new ≡ set_quirks (S.forest sink.old) mode }
    ensures tree { IsTree (S.forest sink.new) }
{
    sink.set_quirks_mode(mode);
}

/// More attributes leave a tree.
pub fn add_attrs_if_missing_keeps_tree<S: TreeSink>(
    sink: &mut S,
    target: &S::Handle,
    attributes: Attributes,
) -> Result<(), ParseFault>
    requires tree { IsTree (S.forest sink.old) }
    requires target { IsNode (S.forest sink.old) (S.node target.now) }
    ensures ok { OnOk result (S.forest sink.new ≡ add_attributes (S.forest sink.old) (S.node target.now) attributes) }
    ensures err { OnErr result (S.forest sink.new ≡ S.forest sink.old) }
    ensures fault { IfErr result (λ fault. fault ≡ Memory) }
    ensures tree { IsTree (S.forest sink.new) }
{
    sink.add_attrs_if_missing(target, attributes)
}

/// A node that is taken out leaves a tree.
pub fn remove_from_parent_keeps_tree<S: TreeSink>(sink: &mut S, target: &S::Handle)
    requires tree { IsTree (S.forest sink.old) }
    requires target { IsNode (S.forest sink.old) (S.node target.now) }
    ensures removed { S.forest sink.new ≡ remove (S.forest sink.old) (S.node target.now) }
    ensures tree { IsTree (S.forest sink.new) }
{
    sink.remove_from_parent(target);
}

/// Children that move leave a tree.
pub fn reparent_children_keeps_tree<S: TreeSink>(
    sink: &mut S,
    from: &S::Handle,
    to: &S::Handle,
) -> Result<(), ParseFault>
    requires tree { IsTree (S.forest sink.old) }
    requires from { IsNode (S.forest sink.old) (S.node from.now) }
    requires to { IsParent (S.forest sink.old) (S.node to.now) }
    requires apart { (child : ℕ) → is_among child (children_of (S.forest sink.old) (S.node from.now)) ≡ true
        → Above (S.forest sink.old) child (S.node to.now) → ⊥ }
    ensures ok { OnOk result (S.forest sink.new ≡ reparent_children (S.forest sink.old) (S.node from.now) (S.node to.now)) }
    ensures err { OnErr result (S.forest sink.new ≡ S.forest sink.old) }
    ensures fault { IfErr result (λ fault. fault ≡ Memory) }
    ensures tree { IsTree (S.forest sink.new) }
{
    sink.reparent_children(from, to)
}

/// Two texts put at one place, one after the other, are as one.
pub fn texts_are_joined()
    ensures { AreTextsJoined }
{}

/// No change of a tree but that of a parse error looks at the number of errors, or moves it.
pub fn errors_stand_apart()
    ensures { AreErrorsApart }
{}
