//! The walk of what is in an element.
ghost use Rattle.std.specs.Prelude.{◌≡◌, IfErr, IfOk, OnOk, option_map};
ghost use Rattle.std.specs.Str.{chars};
ghost use Rattle.std.specs.String.{string_bytes};
ghost use Rattle.markup.specs.Forest.{IsForest, data_of, holds_children, text_of};
ghost use Rattle.markup.specs.Named.{HasContents};
ghost use Rattle.markup.specs.Trees.{inner_of};
ghost use Rattle.markup.specs.declared.fault.ParseFault.TheVariants.{Memory};
ghost use Rattle.html_inner_text.specs.InnerText as spec;
ghost use Rattle.html_inner_text.specs.Items as items;
ghost use Rattle.html_inner_text.specs.Items.{edge_if};
ghost use Rattle.html_inner_text.specs.InnerText.{IsInnerText};
ghost use Rattle.html_inner_text.specs.Walk.{IsEntered, IsLeft, IsTaken};

use crate::kinds::{Kind, kind_of};
use crate::siblings::{cell_follows, row_follows};
use crate::styles::{Style, inherited, inside};
use crate::writer::{Edge, Writer};
use html_forest::{Children, Forest, NodeData, NodeId};
use html_nodes::text_content;
use markup::{ParseFault, Text};
use std::alloc::Global;
use std::mem;

/// Nodes that come next in an element, with the style that they inherit.
#[derive(Drop)]
pub(crate) struct Level<'a> {
    pub style: Style,
    // The edge of the element that comes after them.
    pub closing: Edge,
    pub rest: Children<'a>,
}

/// A walk over the nodes in an element.
#[derive(Drop)]
pub(crate) struct Walk<'a> {
    pub writer: Writer,
    pub style: Style,
    pub closing: Edge,
    pub rest: Children<'a>,
    // What comes after that, the last first.
    pub around: Vec<Level<'a>>,
}

fn opening(kind: Kind) -> Edge
    ensures { result ≡ items.opening kind }
{
    match kind {
        Kind::Inline => Edge::Nothing,
        Kind::NotRendered => Edge::Nothing,
        Kind::Replaced => Edge::Atomic,
        Kind::InlineBlock => Edge::BoxStart,
        Kind::LineBreak => Edge::Nothing,
        Kind::Block => Edge::Required(1),
        Kind::Paragraph => Edge::Required(2),
        Kind::Cell => Edge::Required(0),
        Kind::Row => Edge::Required(0),
        Kind::TablePart => Edge::Required(0),
    }
}

fn end_of_cell(forest: &Forest, id: NodeId) -> Edge
    ensures { result ≡ items.end_of_cell forest.now id }
{
    if cell_follows(forest, id) {
        Edge::LineEnd('\t')
    } else {
        Edge::Required(0)
    }
}

fn end_of_row(forest: &Forest, id: NodeId) -> Edge
    ensures { result ≡ items.end_of_row forest.now id }
{
    if row_follows(forest, id) {
        Edge::LineEnd('\n')
    } else {
        Edge::Required(0)
    }
}

fn closing(forest: &Forest, id: NodeId, kind: Kind) -> Edge
    ensures { result ≡ items.closing forest.now id kind }
{
    match kind {
        Kind::Inline => Edge::Nothing,
        Kind::NotRendered => Edge::Nothing,
        Kind::Replaced => Edge::Nothing,
        Kind::InlineBlock => Edge::BoxEnd,
        Kind::LineBreak => Edge::LineEnd('\n'),
        Kind::Block => Edge::Required(1),
        Kind::Paragraph => Edge::Required(2),
        Kind::Cell => end_of_cell(forest, id),
        Kind::Row => end_of_row(forest, id),
        Kind::TablePart => Edge::Required(0),
    }
}

fn opens(style: Style, kind: Kind) -> Edge
    ensures { result ≡ edge_if style.rendered (items.opening kind) }
{
    if style.rendered {
        opening(kind)
    } else {
        Edge::Nothing
    }
}

fn closes(forest: &Forest, style: Style, id: NodeId, kind: Kind) -> Edge
    ensures { result ≡ edge_if style.rendered (items.closing forest.now id kind) }
{
    if style.rendered {
        closing(forest, id, kind)
    } else {
        Edge::Nothing
    }
}

/// The children of a node, or of its contents if it is a template.
fn nodes_in(forest: &Forest, id: NodeId) -> Children<'_>
    ensures { result ≡ inner_of forest.now id }
{
    match forest.template_contents(id) {
        Some(contents) => forest.children(contents),
        None => forest.children(id),
    }
}

/// Whether other nodes may be in a node.
fn holds_children(forest: &Forest, id: NodeId) -> bool
    ensures { result ≡ holds_children (data_of forest.now id) }
{
    match forest.node(id) {
        Some(NodeData::Text(_)) => false,
        Some(NodeData::Comment(_)) => false,
        Some(NodeData::ProcessingInstruction { .. }) => false,
        Some(NodeData::Doctype { .. }) => false,
        Some(NodeData::Element { .. }) => true,
        Some(NodeData::Document) => true,
        Some(NodeData::Contents) => true,
        None => true,
    }
}

/// The text of a text node.
fn text_of(forest: &Forest, id: NodeId) -> Option<&str>
    ensures { option_map (λ text. chars text.now) result ≡ text_of (data_of forest.now id) }
{
    match forest.node(id) {
        Some(NodeData::Text(text)) => Some(text.as_str()),
        _ => None,
    }
}

impl<'a> Walk<'a> {
    // Writes the opening edge of a node, and goes on with what is in it.
    fn enter(&mut self, forest: &'a Forest, id: NodeId) -> Result<(), ParseFault>
        ensures ok { OnOk result (IsEntered forest.now id self.old self.new) }
        ensures fault { IfErr result (λ fault. fault ≡ Memory) }
    {
        let kind = kind_of(forest, id);
        let style = inside(forest, self.style, id);
        let closing = closes(forest, self.style, id, kind);
        self.writer.write_edge(opens(self.style, kind))?;
        self.around.reserve(1)?;
        let rest = mem::replace(&mut self.rest, nodes_in(forest, id));
        self.around.push_reserved(Level {
            style: self.style,
            closing: self.closing,
            rest,
        });
        self.style = style;
        self.closing = closing;
        Ok(())
    }

    // Writes the closing edge of the element in which no node is left, and goes on after it.
    fn leave(&mut self, level: Level<'a>) -> Result<(), ParseFault>
        ensures ok { OnOk result (IsLeft level.entry self.old self.new) }
        ensures fault { IfErr result (λ fault. fault ≡ Memory) }
    {
        self.writer.write_edge(self.closing)?;
        let Level {
            style,
            closing,
            rest,
        } = level;
        self.style = style;
        self.closing = closing;
        self.rest = rest;
        Ok(())
    }

    // Writes what a node has before what is in it, and goes on with that.
    fn take(&mut self, forest: &'a Forest, id: NodeId) -> Result<(), ParseFault>
        requires is_forest { IsForest forest.now }
        requires contents { HasContents forest.now }
        ensures ok { OnOk result (IsTaken forest.now id self.old self.new) }
        ensures fault { IfErr result (λ fault. fault ≡ Memory) }
    {
        if holds_children(forest, id) {
            return self.enter(forest, id);
        }
        self.writer.write_text(self.style, text_of(forest, id))
    }

    // The text that was written.
    fn finish(self) -> Text
        ensures { result ≡ self.entry.writer.text }
    {
        let Walk { writer, .. } = self;
        let Writer { text, .. } = writer;
        text
    }
}

/// The text of what is in a node that inherits that style.
fn rendered_text(
    alloc: Global,
    forest: &Forest,
    id: NodeId,
    style: Style,
) -> Result<Text, ParseFault>
    ensures ok { IfOk result (λ text. text ≡ spec.rendered_text forest.now style id) }
    ensures fault { IfErr result (λ fault. fault ≡ Memory) }
{
    forest.keeps();
    let mut walk = Walk {
        writer: Writer::new(alloc),
        style: inside(forest, style, id),
        closing: Edge::Nothing,
        rest: nodes_in(forest, id),
        around: Vec::new(alloc),
    };
    loop {
        match walk.rest.next() {
            Some(child) => walk.take(forest, child)?,
            None => match walk.around.pop() {
                Some(level) => walk.leave(level)?,
                None => return Ok(walk.finish()),
            },
        }
    }
}

fn is_rendered(kind: Kind) -> bool
    ensures { result ≡ spec.is_rendered kind }
{
    !matches!(kind, Kind::NotRendered)
}

/// The text of an element as it is rendered: `innerText` (HTML Standard, section 3.2.7, "get the text steps"), with the `display` and the
/// `white-space` of the Standard's style sheet alone, as if scripts ran. An element that isn't rendered, or that is in one, has all text in
/// it, as [`text_content`] gives it. Takes the memory of the text, and a few words for each level of the tree; time grows with the number
/// of nodes and characters.
pub fn inner_text(alloc: Global, forest: &Forest, id: NodeId) -> Result<String, ParseFault>
    ensures ok { IfOk result (λ text. IsInnerText forest.now id (chars (string_bytes text))) }
    ensures fault { IfErr result (λ fault. fault ≡ Memory) }
{
    let style = inherited(forest, id);
    if style.rendered && is_rendered(kind_of(forest, id)) {
        let text = rendered_text(alloc, forest, id, style)?;
        text.into_string()
    } else {
        text_content(alloc, forest, id)
    }
}
