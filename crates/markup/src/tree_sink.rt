//! The interface of who builds the tree.
ghost use Rattle.std.specs.Prelude.{◌≡◌, ◌+◌, ◌<◌, ◌≤◌, ℕ, Bool, IfOk, IfErr, OnOk, OnErr, IsSome, ◌==◌, Some, true, false, codes};
ghost use Rattle.markup.specs.declared.fault.ParseFault.TheVariants.{Memory};

use crate::attributes::{Attribute, Attributes};
use crate::fault::ParseFault;
use crate::flags::ElementFlags;
use crate::names::{LocalName, Namespace, QualName};
use crate::namespaces::KnownNamespace;
use crate::node_or_text::NodeOrText;
use crate::quirks::QuirksMode;
use crate::text::Text;
use std::borrow::CowStr;

/// Who builds the tree that a parser tells. Each call is a function of the tree so far: nodes are named by handles, and a contract sees
/// the number of the node that a handle names, counted in the order in which nodes were made, from the document, which is 0.
///
/// The only fault of a call is [`ParseFault::Memory`], and the tree is then as it was. What a refused call took by value is dropped.
pub trait TreeSink {
    ghost use Rattle.std.specs.Prelude.{List};
    ghost use Rattle.markup.specs.declared.attributes.Attribute.{Attribute};
    ghost use Rattle.markup.specs.Names.{html_name, is_html_name};
    ghost use Rattle.markup.specs.Named.{HasContents, is_named};
    ghost use Rattle.markup.specs.Forest.{Forest, IsForest, IsNode, IsParent, MayPut, add_attributes, add_error, children_of};
    ghost use Rattle.markup.specs.Forest.{create_element, data_of, element_name, is_among, Above, node_count, parent_of};
    ghost use Rattle.markup.specs.Forest.{place_before, place_near, put_child, put_new, remove, reparent_children, set_quirks};
    ghost use Rattle.markup.specs.Forest.{with_node};
    ghost use Rattle.markup.specs.Forest.NodeData.{Comment, Doctype, ProcessingInstruction};
    ghost use Rattle.markup.specs.Forest.Place.{Last};
    ghost use Rattle.markup.specs.TreeLaws.{with_errors};

    /// Names a node.
    type Handle: Copy;

    /// What is left at the end, as the tree.
    type Output;

    /// What has been built so far.
    ghost forest: { Self → Forest };

    /// The number of the node that a handle names.
    ghost node: { Self.Handle → ℕ };

    /// What the end makes of the sink.
    ghost finish_gives: { Self → Self.Output → Type 0 };

    /// At which elements of MathML, named `annotation-xml`, the sink says that HTML may stand in them. No such answer looks at the number
    /// of errors.
    ghost integration_point: { Forest → ℕ → Bool } = { λ f n. false };

    /// In which documents a `template` may become a shadow root.
    ghost allows_shadow_roots: { Forest → ℕ → Bool } = { λ f n. true };

    /// Whether a `template` with such attributes became the shadow root of a host.
    ghost attaches_shadow: { Forest → ℕ → ℕ → List Attribute → Bool } = { λ f host template attributes. false };

    /// Ends the building, and gives what was built.
    fn finish(self) -> Self::Output
        ensures { finish_gives self result };

    /// Notes a parse error, in words that may change.
    fn parse_error(&mut self, message: CowStr<'static>)
        ensures { forest self.new ≡ add_error (forest self.old) };

    /// The node of the whole document.
    fn get_document(&mut self) -> Self::Handle
        ensures document { node result ≡ 0 }
        ensures same { forest self.new ≡ forest self.old }
        ensures is_forest { IsForest (forest self.new) }
        ensures contents { HasContents (forest self.new) };

    /// The name of an element.
    fn elem_name(&self, target: &Self::Handle) -> &QualName
        requires { IsSome (element_name (data_of (forest self.now) (node target.now))) }
        ensures { element_name (data_of (forest self.now) (node target.now)) ≡ Some result.now };

    /// The node that has the contents of a template, which is HTML's `template`.
    fn get_template_contents(&self, target: &Self::Handle) -> Self::Handle
        requires { is_named (forest self.now) (node target.now) (codes "template") ≡ true }
        ensures { node result ≡ node target.now + 1 };

    /// Whether two handles name one node.
    fn same_node(&self, a: &Self::Handle, b: &Self::Handle) -> bool
        ensures { result ≡ (node a.now == node b.now) };

    /// A new element, which stands nowhere yet. HTML's `template`, and it alone, has the flag for it.
    fn create_element(
        &mut self,
        name: QualName,
        attributes: Attributes,
        flags: ElementFlags,
    ) -> Result<Self::Handle, ParseFault>
        requires { flags.template ≡ is_html_name (Some name) (codes "template") }
        ensures named { IfOk result (λ made. node made ≡ node_count (forest self.old)) }
        ensures ok { OnOk result (forest self.new ≡ create_element (forest self.old) name attributes flags) }
        ensures err { OnErr result (forest self.new ≡ forest self.old) }
        ensures fault { IfErr result (λ fault. fault ≡ Memory) };

    /// A new element of HTML, as [`TreeSink::create_element`] makes it, by its local name.
    fn create_html_element(
        &mut self,
        name: LocalName,
        attributes: Attributes,
        flags: ElementFlags,
    ) -> Result<Self::Handle, ParseFault>
        requires { flags.template ≡ is_html_name (Some (html_name name)) (codes "template") }
        ensures named { IfOk result (λ made. node made ≡ node_count (forest self.old)) }
        ensures ok { OnOk result (forest self.new ≡ create_element (forest self.old) (html_name name) attributes flags) }
        ensures err { OnErr result (forest self.new ≡ forest self.old) }
        ensures fault { IfErr result (λ fault. fault ≡ Memory) }
    {
        let html = Namespace::from_known(KnownNamespace::Html);
        self.create_element(QualName::new(None, html, name), attributes, flags)
    }

    /// A new comment, which stands nowhere yet.
    fn create_comment(&mut self, text: Text) -> Result<Self::Handle, ParseFault>
        ensures named { IfOk result (λ made. node made ≡ node_count (forest self.old)) }
        ensures ok { OnOk result (forest self.new ≡ with_node (forest self.old) (Comment text)) }
        ensures err { OnErr result (forest self.new ≡ forest self.old) }
        ensures fault { IfErr result (λ fault. fault ≡ Memory) };

    /// A new processing instruction, which stands nowhere yet.
    fn create_pi(&mut self, target: Text, text: Text) -> Result<Self::Handle, ParseFault>
        ensures named { IfOk result (λ made. node made ≡ node_count (forest self.old)) }
        ensures ok { OnOk result (forest self.new ≡ with_node (forest self.old) (ProcessingInstruction target text)) }
        ensures err { OnErr result (forest self.new ≡ forest self.old) }
        ensures fault { IfErr result (λ fault. fault ≡ Memory) };

    /// Puts a node or text last among the children of `parent`.
    fn append(
        &mut self,
        parent: &Self::Handle,
        child: NodeOrText<Self::Handle>,
    ) -> Result<(), ParseFault>
        requires parent { IsParent (forest self.old) (node parent.now) }
        requires child { MayPut node (forest self.old) (Last (node parent.now)) child }
        ensures ok { OnOk result (forest self.new ≡ put_child node (forest self.old) (Last (node parent.now)) child) }
        ensures err { OnErr result (forest self.new ≡ forest self.old) }
        ensures fault { IfErr result (λ fault. fault ≡ Memory) }
        ensures grows { node_count (forest self.old) ≤ node_count (forest self.new) };

    /// Puts a node or text just before `sibling`, which has a parent.
    fn append_before_sibling(
        &mut self,
        sibling: &Self::Handle,
        child: NodeOrText<Self::Handle>,
    ) -> Result<(), ParseFault>
        requires sibling { IsSome (parent_of (forest self.old) (node sibling.now)) }
        requires child { MayPut node (forest self.old)
            (place_before (node sibling.now) (parent_of (forest self.old) (node sibling.now))) child }
        ensures ok { OnOk result (forest self.new ≡ put_child node (forest self.old)
            (place_before (node sibling.now) (parent_of (forest self.old) (node sibling.now))) child) }
        ensures err { OnErr result (forest self.new ≡ forest self.old) }
        ensures fault { IfErr result (λ fault. fault ≡ Memory) }
        ensures grows { node_count (forest self.old) ≤ node_count (forest self.new) };

    /// Puts a node or text just before `element` where that has a parent, and else last among the children of `previous`.
    fn append_based_on_parent_node(
        &mut self,
        element: &Self::Handle,
        previous: &Self::Handle,
        child: NodeOrText<Self::Handle>,
    ) -> Result<(), ParseFault>
        requires element { IsNode (forest self.old) (node element.now) }
        requires previous { IsParent (forest self.old) (node previous.now) }
        requires child { MayPut node (forest self.old)
            (place_near (node element.now) (node previous.now) (parent_of (forest self.old) (node element.now))) child }
        ensures ok { OnOk result (forest self.new ≡ put_child node (forest self.old)
            (place_near (node element.now) (node previous.now) (parent_of (forest self.old) (node element.now))) child) }
        ensures err { OnErr result (forest self.new ≡ forest self.old) }
        ensures fault { IfErr result (λ fault. fault ≡ Memory) }
        ensures grows { node_count (forest self.old) ≤ node_count (forest self.new) };

    /// Puts a doctype last among the children of the document.
    fn append_doctype_to_document(
        &mut self,
        name: Text,
        public_id: Text,
        system_id: Text,
    ) -> Result<(), ParseFault>
        ensures ok { OnOk result (forest self.new ≡ put_new (forest self.old) (Last 0) (Doctype name public_id system_id)) }
        ensures err { OnErr result (forest self.new ≡ forest self.old) }
        ensures fault { IfErr result (λ fault. fault ≡ Memory) }
        ensures grows { node_count (forest self.old) ≤ node_count (forest self.new) };

    /// Sets the mode in which the document is to be laid out.
    fn set_quirks_mode(&mut self, mode: QuirksMode)
        ensures { forest self.new ≡ set_quirks (forest self.old) mode };

    /// Gives an element, in order, those of the attributes whose name it lacks. What is no element stays as it is.
    fn add_attrs_if_missing(
        &mut self,
        target: &Self::Handle,
        attributes: Attributes,
    ) -> Result<(), ParseFault>
        requires { IsNode (forest self.old) (node target.now) }
        ensures ok { OnOk result (forest self.new ≡ add_attributes (forest self.old) (node target.now) attributes) }
        ensures err { OnErr result (forest self.new ≡ forest self.old) }
        ensures fault { IfErr result (λ fault. fault ≡ Memory) };

    /// Takes a node out of its parent, if it has one.
    fn remove_from_parent(&mut self, target: &Self::Handle)
        requires { IsNode (forest self.old) (node target.now) }
        ensures { forest self.new ≡ remove (forest self.old) (node target.now) };

    /// Moves all children of `from`, in order, after those of `to`. No texts join.
    fn reparent_children(
        &mut self,
        from: &Self::Handle,
        to: &Self::Handle,
    ) -> Result<(), ParseFault>
        requires from { IsNode (forest self.old) (node from.now) }
        requires to { IsParent (forest self.old) (node to.now) }
        requires apart { (child : ℕ) → is_among child (children_of (forest self.old) (node from.now)) ≡ true
            → Above (forest self.old) child (node to.now) → ⊥ }
        ensures ok { OnOk result (forest self.new ≡ reparent_children (forest self.old) (node from.now) (node to.now)) }
        ensures err { OnErr result (forest self.new ≡ forest self.old) }
        ensures fault { IfErr result (λ fault. fault ≡ Memory) };

    /// Whether HTML may stand in an element, which is then MathML's `annotation-xml` (HTML Standard, section 13.2.6). Most sinks answer
    /// `false`.
    fn is_mathml_annotation_xml_integration_point(&self, target: &Self::Handle) -> bool
        requires { IsNode (forest self.now) (node target.now) }
        ensures { result ≡ integration_point (with_errors 0 (forest self.now)) (node target.now) };

    /// Whether a `template` may become a shadow root in the document of a node. Most sinks answer `true`.
    fn allow_declarative_shadow_roots(&self, intended_parent: &Self::Handle) -> bool
        requires { IsNode (forest self.now) (node intended_parent.now) }
        ensures { result ≡ allows_shadow_roots (with_errors 0 (forest self.now)) (node intended_parent.now) };

    /// Makes a `template` the shadow root of `host`, and says whether that was done. Sinks without shadow trees answer `false`.
    fn attach_declarative_shadow(
        &mut self,
        host: &Self::Handle,
        template: &Self::Handle,
        attributes: &[Attribute],
    ) -> bool
        requires host { IsNode (forest self.old) (node host.now) }
        requires template { IsNode (forest self.old) (node template.now) }
        ensures attached { result ≡ attaches_shadow (with_errors 0 (forest self.old)) (node host.now) (node template.now) attributes.now }
        ensures same { forest self.new ≡ forest self.old };

    /// Told of a script that must not run, as one in a fragment. It does nothing by default.
    fn mark_script_already_started(&mut self, _script: &Self::Handle)
        requires { IsNode (forest self.old) (node _script.now) }
        ensures { forest self.new ≡ forest self.old }
    {}

    /// Told of an element that left the stack of open elements. It does nothing by default.
    fn pop(&mut self, _element: &Self::Handle)
        requires { IsNode (forest self.old) (node _element.now) }
        ensures { forest self.new ≡ forest self.old }
    {}

    /// Told of a form's owner: of the element that belongs to `form`, and of the nodes that say where it was put. It does nothing by
    /// default.
    fn associate_with_form(
        &mut self,
        _target: &Self::Handle,
        _form: &Self::Handle,
        _nodes: (&Self::Handle, Option<&Self::Handle>),
    )
        requires target { IsNode (forest self.old) (node _target.now) }
        requires form { IsNode (forest self.old) (node _form.now) }
        ensures { forest self.new ≡ forest self.old }
    {}

    /// Told of the line of the token that comes next, counted from 1. It does nothing by default.
    fn set_current_line(&mut self, _line: u64)
        ensures { forest self.new ≡ forest self.old }
    {}

    /// Told of an `option` whose end was read, for a `select` that shows a copy of it. It does nothing by default.
    fn maybe_clone_an_option_into_selectedcontent(&mut self, _option: &Self::Handle)
        requires { IsNode (forest self.old) (node _option.now) }
        ensures { forest self.new ≡ forest self.old }
    {}
}
