//! Why a node is not read as it is written, as far as it shows that itself.
ghost use Rattle.std.specs.Prelude.{◌≡◌, ◌&&◌, ℕ, Bool, IfErr, IfOk, List, is_none, option_map, true};
ghost use Rattle.std.specs.Str.{chars};
ghost use Rattle.markup.specs.Forest.{Forest};
ghost use Rattle.html_faithful.specs.Walk.{begins_with_line_feed};
ghost use Rattle.markup.specs.Forest.NodeData.{Comment, Doctype, Element, Text};
ghost use Rattle.markup.specs.declared.fault.ParseFault.TheVariants.{Memory};
ghost use Rattle.html_forest.specs.Views.{attributes, characters};
ghost use Rattle.html_faithful_walk.specs.Reasons.{before_of, drops_first, ends_elsewhere, holds_of, is_reason, is_text_at};
ghost use Rattle.html_faithful_walk.specs.Reasons.{name_around, raw_kind};

use crate::judge;
use crate::names::{is_html, is_raw};
use crate::texts::begins_with_line_feed;
use html_faithful_judge::{
    emitted_attributes, is_comment_text, is_kept, is_nonempty, is_raw_text, is_tag_name,
};
use html_forest::{AttributesRef, Forest, NodeData, NodeId, TextRef};
use html_tokens::states::RawKind;
use markup::{LocalName, ParseFault, QualName};
use std::alloc::Global;
use std::fmt;

/// Why a node is not read as it is written (HTML Standard, sections 13.2 and 13.3).
#[derive(Clone, Copy, Debug, PartialEq, Eq)]
pub enum Unfaithful {
    /// A processing instruction is read as a comment.
    Instruction,
    /// A doctype has another name than `html`.
    Doctype,
    /// The name of an element is read as another.
    Name,
    /// An attribute of an element is read with another name or value, or is dropped.
    Attributes,
    /// A comment is read with another text.
    Comment,
    /// A text is empty.
    EmptyText,
    /// A text has U+0000 or U+000D.
    Characters,
    /// A line feed comes first in an element that drops one.
    LineFeed,
    /// A text follows another, so that both are read as one.
    BesideText,
    /// A text ends elsewhere than its element, whose text is not escaped.
    RawText,
    /// The node does not show it: something else is read where it stands, or of its tags there.
    Place,
}

impl fmt::Display for Unfaithful {
    fn fmt<W: fmt::Write>(&self, f: &mut fmt::Formatter<W>) -> fmt::Result {
        f.write_str(words(*self))
    }
}

fn words(why: Unfaithful) -> &'static str {
    match why {
        Unfaithful::Instruction => "a processing instruction is read as a comment",
        Unfaithful::Doctype => "the doctype has another name than html",
        Unfaithful::Name => "the name is not read as it is written",
        Unfaithful::Attributes => "an attribute is not read as it is written",
        Unfaithful::Comment => "the comment is not read as it is written",
        Unfaithful::EmptyText => "the text is empty",
        Unfaithful::Characters => "the text has U+0000 or U+000D",
        Unfaithful::LineFeed => "a line feed comes first",
        Unfaithful::BesideText => "the text follows another text",
        Unfaithful::RawText => "the text does not end where its element ends",
        Unfaithful::Place => "something else is read here",
    }
}

/// The name of the element that a node is in.
fn parent_name(forest: &Forest, id: NodeId) -> Option<&QualName>
    ensures { option_map (λ name. name.now) result ≡ name_around forest.now id }
{
    match forest.node(forest.parent(id)?) {
        Some(NodeData::Element { name, .. }) => Some(name),
        _ => None,
    }
}

/// Whether a line feed is dropped that comes first in an element of a name (HTML Standard, section 13.2.6.4.7).
fn drops_first(name: Option<&QualName>) -> bool
    ensures { result ≡ drops_first (option_map (λ name. name.now) name.entry) }
{
    match name {
        Some(name) => {
            is_html(name)
                && (name.local.is("pre") || (name.local.is("listing") || name.local.is("textarea")))
        }
        None => false,
    }
}

/// The kind of the text of an element whose text is not escaped.
fn raw_kind(name: &LocalName) -> RawKind
    ensures { result ≡ raw_kind name.now }
{
    if name.is("script") {
        RawKind::ScriptData
    } else {
        RawKind::Rawtext
    }
}

/// Whether a text that is not escaped ends elsewhere than the element that it is in.
fn ends_elsewhere(
    alloc: Global,
    scripting: bool,
    text: &str,
    name: Option<&QualName>,
) -> Result<bool, ParseFault>
    ensures ok { IfOk result (λ ends. ends ≡ ends_elsewhere scripting (chars text.now) (option_map (λ name. name.now) name.entry)) }
    ensures fault { IfErr result (λ fault. fault ≡ Memory) }
{
    let Some(name) = name else {
        return Ok(false);
    };
    if !(is_html(name) && is_raw(scripting, &name.local)) {
        return Ok(false);
    }
    Ok(!is_raw_text(alloc, raw_kind(&name.local), name.local.as_str(), text)?)
}

/// Whether a text stands just before a node.
fn is_after_text(forest: &Forest, id: NodeId) -> bool
    ensures { result ≡ is_text_at forest.now (before_of forest.now id) }
{
    match forest.previous_sibling(id) {
        Some(before) => matches!(forest.node(before), Some(NodeData::Text(_))),
        None => false,
    }
}

/// Whether a line feed that comes first in a text is dropped.
fn is_line_feed_dropped(forest: &Forest, id: NodeId, text: &str) -> bool
    ensures { result ≡ (begins_with_line_feed (chars text.now)
        && (is_none (before_of forest.now id) && drops_first (name_around forest.now id))) }
{
    begins_with_line_feed(text)
        && (forest.previous_sibling(id).is_none() && drops_first(parent_name(forest, id)))
}

/// Why a text is not, by its characters or by what it is in and follows.
fn why_text(
    alloc: Global,
    forest: &Forest,
    scripting: bool,
    id: NodeId,
    text: &str,
) -> Result<Unfaithful, ParseFault>
    ensures ok { IfOk result (λ why. holds_of scripting forest.now id (Text (chars text.now)) why ≡ true) }
    ensures fault { IfErr result (λ fault. fault ≡ Memory) }
{
    if !is_nonempty(text) {
        return Ok(Unfaithful::EmptyText);
    }
    if !is_kept(text) {
        return Ok(Unfaithful::Characters);
    }
    if is_line_feed_dropped(forest, id, text) {
        return Ok(Unfaithful::LineFeed);
    }
    if is_after_text(forest, id) {
        return Ok(Unfaithful::BesideText);
    }
    if ends_elsewhere(alloc, scripting, text, parent_name(forest, id))? {
        return Ok(Unfaithful::RawText);
    }
    Ok(Unfaithful::Place)
}

/// Why a comment is not.
fn why_comment(alloc: Global, text: TextRef<'_>) -> Result<Unfaithful, ParseFault>
    ensures ok { IfOk result (λ why. (scripting : Bool) (f : Forest) (n : ℕ)
        → holds_of scripting f n (Comment (characters text.entry)) why ≡ true) }
    ensures fault { IfErr result (λ fault. fault ≡ Memory) }
{
    if is_comment_text(alloc, text.as_str())? {
        Ok(Unfaithful::Place)
    } else {
        Ok(Unfaithful::Comment)
    }
}

/// Why an element is not, by its name and its attributes.
fn why_element(
    alloc: Global,
    name: &QualName,
    attrs: AttributesRef<'_>,
) -> Result<Unfaithful, ParseFault>
    ensures ok { IfOk result (λ why. (scripting template integration_point : Bool) (f : Forest) (n : ℕ)
        → holds_of scripting f n (Element name.now (attributes attrs.entry) template integration_point) why ≡ true) }
    ensures fault { IfErr result (λ fault. fault ≡ Memory) }
{
    let lowered = LocalName::from_str_lowered(alloc, name.local.as_str())?;
    if !is_tag_name(lowered.as_str()) {
        return Ok(Unfaithful::Name);
    }
    match emitted_attributes(alloc, attrs.as_slice())? {
        Some(_) => Ok(Unfaithful::Place),
        None => Ok(Unfaithful::Attributes),
    }
}

/// Why a doctype is not.
fn why_doctype(name: &str) -> Unfaithful
    ensures { (scripting : Bool) (f : Forest) (n : ℕ) (public_id system_id : List ℕ)
        → holds_of scripting f n (Doctype (chars name.now) public_id system_id) result ≡ true }
{
    if judge::is_html(name) {
        Unfaithful::Place
    } else {
        Unfaithful::Doctype
    }
}

/// Why a node that is not read as it is written is not, where scripts run or do not: what it shows of that itself, by its own name or text,
/// or by what it stands in and after; [`Unfaithful::Place`] where it shows nothing.
///
/// Errors: [`ParseFault::Memory`].
pub fn why_unfaithful(
    alloc: Global,
    forest: &Forest,
    scripting: bool,
    id: NodeId,
) -> Result<Unfaithful, ParseFault>
    ensures ok { IfOk result (λ why. is_reason scripting forest.now id why ≡ true) }
    ensures fault { IfErr result (λ fault. fault ≡ Memory) }
{
    match forest.node(id) {
        Some(NodeData::Text(text)) => why_text(alloc, forest, scripting, id, text.as_str()),
        Some(NodeData::Comment(text)) => why_comment(alloc, text),
        Some(NodeData::Doctype { name, .. }) => Ok(why_doctype(name.as_str())),
        Some(NodeData::Element { name, attrs, .. }) => why_element(alloc, name, attrs),
        Some(NodeData::ProcessingInstruction { .. }) => Ok(Unfaithful::Instruction),
        Some(NodeData::Document) => Ok(Unfaithful::Place),
        Some(NodeData::Contents) => Ok(Unfaithful::Place),
        None => Ok(Unfaithful::Place),
    }
}
