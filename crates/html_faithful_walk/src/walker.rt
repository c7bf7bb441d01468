//! The walk over the nodes of a forest in the order in which they stand.
ghost use Rattle.std.specs.Prelude.{◌≡◌, ◌∷◌, ◌++◌, [], Bool, IfErr, IfOk, IfSome, None, OnOk, false, is_none, true};
ghost use Rattle.markup.specs.Forest.{children_of};
ghost use Rattle.markup.specs.Named.{IsTree};
ghost use Rattle.markup.specs.Trees.{Nothing};
ghost use Rattle.markup.specs.declared.fault.ParseFault.TheVariants.{Memory};
ghost use Rattle.html_forest.specs.Views.{attributes};
ghost use Rattle.html_faithful.specs.Walk.{first_spot, is_at_end, is_end_mode, is_faithful_forest};
ghost use Rattle.html_faithful_judge.specs.Spots.{spot_of};
ghost use Rattle.html_rules.specs.declared.rules.Rules.TheVariants.{Html5ever};
ghost use Rattle.markup.specs.declared.quirks.QuirksMode.TheVariants.{Quirks};
ghost use Rattle.html_faithful_walk.specs.First.{IsFirst, is_end};
ghost use Rattle.html_faithful_walk.specs.Firsts.{IsPast, IsTagTaken, IsUpward, point_of};
ghost use Rattle.html_faithful_walk.specs.Left.{IsAscent, IsElementTaken, IsTaken, descends, walk_of};
ghost use Rattle.html_faithful_walk.specs.Walking.{walk_at};

use crate::judge::Judge;
use crate::parents::Parent;
use crate::stand::{After, Inside, Stand};
use html_faithful_judge::made::Made;
use html_faithful_judge::open::OpenElements;
use html_faithful_judge::spot::Spot;
use html_forest::{AttributesRef, Children, Forest, NodeData, NodeId};
use html_rules::InsertionMode;
use markup::{ParseFault, QualName, QuirksMode};
use std::alloc::Global;
use std::mem;

/// Nodes that wait while those before them are walked.
#[derive(Drop)]
pub(crate) struct Level<'a> {
    /// What those before them stand in.
    pub node: NodeId,
    /// What comes just before them; none where they stand where those before them end.
    pub behind: Option<After<'a>>,
    /// The nodes.
    pub rest: Children<'a>,
}

/// The nodes that are left.
#[derive(Drop)]
pub(crate) struct Nodes<'a> {
    /// Those that come next.
    pub rest: Children<'a>,
    /// Those that come after them, the last first.
    pub waiting: Vec<Level<'a>>,
}

impl<'a> Nodes<'a> {
    /// What stands in a node, or in its contents, comes next, and the nodes that would have come wait.
    fn descend(
        &mut self,
        forest: &'a Forest,
        node: NodeId,
        inner: NodeId,
        behind: Option<After<'a>>,
    ) -> Result<(), ParseFault>
        ensures rest { OnOk result (self.new.rest ≡ children_of forest.now inner) }
        ensures waiting { OnOk result (self.new.waiting.items ≡ self.old.waiting.items ++ record {
          node = node;
          behind = behind.entry;
          rest = self.old.rest;
        } ∷ []) }
        ensures fault { IfErr result (λ fault. fault ≡ Memory) }
    {
        self.waiting.reserve(1)?;
        let rest = mem::replace(&mut self.rest, forest.children(inner));
        self.waiting.push_reserved(Level { node, behind, rest });
        Ok(())
    }
}

/// An element comes, and where its children are; answers whether its start tag is read as it is written.
fn take_element<'a>(
    judge: &mut Judge<'a>,
    nodes: &mut Nodes<'a>,
    forest: &'a Forest,
    alloc: Global,
    scripting: bool,
    node: NodeId,
    inner: NodeId,
    name: &'a QualName,
    attrs: AttributesRef<'_>,
    template: bool,
) -> Result<bool, ParseFault>
    ensures ok { IfOk result (λ goes_on. IsElementTaken scripting forest.now node inner name.now (attributes attrs.entry) template
        (walk_of judge.old nodes.old) (walk_of judge.new nodes.new) goes_on) }
    ensures tag { IfOk result (λ goes_on. IsTagTaken scripting forest.now node inner name.now (attributes attrs.entry) template
        (walk_of judge.old nodes.old) (walk_of judge.new nodes.new) goes_on) }
    ensures fault { IfErr result (λ fault. fault ≡ Memory) }
{
    match judge.element(alloc, scripting, name, attrs, template)? {
        Some(after) => {
            nodes.descend(forest, node, inner, Some(after))?;
            Ok(true)
        }
        None => Ok(false),
    }
}

/// The next node comes; answers whether it is read as it is written.
fn take<'a>(
    judge: &mut Judge<'a>,
    nodes: &mut Nodes<'a>,
    forest: &'a Forest,
    alloc: Global,
    scripting: bool,
    id: NodeId,
) -> Result<bool, ParseFault>
    requires tree { IsTree forest.now }
    ensures ok { IfOk result (λ goes_on. IsTaken scripting forest.now id (walk_of judge.old nodes.old)
        (walk_of judge.new nodes.new) goes_on) }
    ensures past { IfOk result (λ goes_on. IsPast scripting forest.now id (walk_of judge.old nodes.old)
        (walk_of judge.new nodes.new) goes_on) }
    ensures fault { IfErr result (λ fault. fault ≡ Memory) }
{
    match forest.node(id) {
        Some(NodeData::Text(text)) => judge.text(alloc, text),
        Some(NodeData::Comment(text)) => judge.comment(alloc, text),
        Some(
            NodeData::Doctype {
                name,
                public_id,
                system_id,
            },
        ) => Ok(judge.doctype(name, public_id, system_id)),
        Some(
            NodeData::Element {
                name,
                attrs,
                template_contents: None,
                ..
            },
        ) => take_element(
            judge, nodes, forest, alloc, scripting, id, id, name, attrs, false,
        ),
        Some(
            NodeData::Element {
                name,
                attrs,
                template_contents: Some(contents),
                ..
            },
        ) => take_element(
            judge, nodes, forest, alloc, scripting, id, contents, name, attrs, true,
        ),
        Some(NodeData::ProcessingInstruction { .. }) => Ok(false),
        Some(NodeData::Document) => take_children(nodes, forest, id),
        Some(NodeData::Contents) => take_children(nodes, forest, id),
        None => take_children(nodes, forest, id),
    }
}

/// What stands in a node comes in its place.
fn take_children<'a>(
    nodes: &mut Nodes<'a>,
    forest: &'a Forest,
    id: NodeId,
) -> Result<bool, ParseFault>
    ensures ok { IfOk result (λ goes_on. (goes_on ≡ true) × descends forest.now id id None nodes.old.rest nodes.old.waiting.items
        nodes.new.rest nodes.new.waiting.items) }
    ensures fault { IfErr result (λ fault. fault ≡ Memory) }
{
    nodes.descend(forest, id, id, None)?;
    Ok(true)
}

/// The nodes that wait come next; answers whether those that came may end, and their element ends as it is written.
fn go_on<'a>(
    judge: &mut Judge<'a>,
    nodes: &mut Nodes<'a>,
    alloc: Global,
    level: Level<'a>,
) -> Result<bool, ParseFault>
    ensures ok { IfOk result (λ goes_on. IsAscent level.entry.behind (walk_of judge.old nodes.old) (walk_of judge.new nodes.new) goes_on) }
    ensures up { IfOk result (λ goes_on. IsUpward level.entry.behind (point_of judge.old.stand (spot_of judge.old.made.spot))
        (point_of judge.new.stand (spot_of judge.new.made.spot)) goes_on) }
    ensures rest { nodes.new.rest ≡ level.entry.rest }
    ensures waiting { nodes.new.waiting ≡ nodes.old.waiting }
    ensures fault { IfErr result (λ fault. fault ≡ Memory) }
{
    let Level { behind, rest, .. } = level;
    nodes.rest = rest;
    match behind {
        Some(after) => judge.leave(alloc, after),
        None => Ok(true),
    }
}

/// Whether a document may end in a mode.
fn is_end_mode(mode: InsertionMode) -> bool
    ensures { result ≡ is_end_mode mode }
{
    matches!(
        mode,
        InsertionMode::AfterAfterBody | InsertionMode::AfterAfterFrameset
    )
}

/// Whether a document may end here.
fn ends(judge: &Judge<'_>, alloc: Global) -> Result<bool, ParseFault>
    ensures ok { IfOk result (λ ends. (scripting : Bool)
        → is_at_end (walk_at scripting judge.now.stand Nothing (spot_of judge.now.made.spot)) ≡ ends) }
    ensures point { IfOk result (λ ends. is_end (point_of judge.now.stand (spot_of judge.now.made.spot)) ≡ ends) }
    ensures fault { IfErr result (λ fault. fault ≡ Memory) }
{
    Ok(judge.may_end(alloc)? && is_end_mode(judge.made.spot.mode))
}

/// The document, where it may not end here.
fn unended(judge: &Judge<'_>, alloc: Global, document: NodeId) -> Result<Option<NodeId>, ParseFault>
    ensures ok { IfOk result (λ node. (scripting : Bool)
        → is_at_end (walk_at scripting judge.now.stand Nothing (spot_of judge.now.made.spot)) ≡ is_none node) }
    ensures point { IfOk result (λ node. IfSome node (λ n. (n ≡ document)
        × (is_end (point_of judge.now.stand (spot_of judge.now.made.spot)) ≡ false))) }
    ensures fault { IfErr result (λ fault. fault ≡ Memory) }
{
    if ends(judge, alloc)? {
        Ok(None)
    } else {
        Ok(Some(document))
    }
}

/// The spot where the root stands, if no doctype is before it.
fn first_spot(alloc: Global, scripting: bool) -> Spot
    ensures { spot_of result ≡ first_spot Html5ever scripting Quirks }
{
    Spot {
        mode: InsertionMode::BeforeHtml,
        orig_mode: None,
        stack: OpenElements::new(alloc),
        has_head: false,
        frameset_ok: true,
        quirks_mode: QuirksMode::Quirks,
        scripting,
    }
}

/// The first node that is not read as it is written, where scripts run or do not: the first of whose start something else is read, or of
/// whose end; the document, where it may not end there.
pub(crate) fn first_unfaithful(
    alloc: Global,
    forest: &Forest,
    scripting: bool,
    document: NodeId,
) -> Result<Option<NodeId>, ParseFault>
    requires tree { IsTree forest.now }
    requires document { document ≡ 0 }
    ensures ok { IfOk result (λ node. is_none node ≡ is_faithful_forest scripting forest.now) }
    ensures first { IfOk result (λ node. IfSome node (λ n. IsFirst scripting forest.now n)) }
    ensures fault { IfErr result (λ fault. fault ≡ Memory) }
{
    let mut judge = Judge {
        made: Made::nothing_yet(first_spot(alloc, scripting)),
        stand: Stand {
            parent: Parent::Document,
            after_text: false,
            drops: false,
            inside: Inside::Start,
        },
    };
    let mut nodes = Nodes {
        rest: forest.children(document),
        waiting: Vec::new(alloc),
    };
    loop {
        match nodes.rest.next() {
            Some(id) => {
                if !take(&mut judge, &mut nodes, forest, alloc, scripting, id)? {
                    return Ok(Some(id));
                }
            }
            None => match nodes.waiting.pop() {
                Some(level) => {
                    let node = level.node;
                    if !go_on(&mut judge, &mut nodes, alloc, level)? {
                        return Ok(Some(node));
                    }
                }
                None => return unended(&judge, alloc, document),
            },
        }
    }
}
