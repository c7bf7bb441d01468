//! The tags of common elements where they stand in a body, in a cell, in the parts of a table or in the head, without a look at the rows
//! (HTML Standard, sections 13.2.6.4.4, 13.2.6.4.7 to 13.2.6.4.9, and 13.2.6.4.13 to 13.2.6.4.15).
ghost use Rattle.std.specs.Prelude.{◌≡◌, ◌&&◌, IfErr, IfOk, IsTrue, OnOk, None, Some, cond, false, is_none, option_map, true};
ghost use Rattle.std.specs.List.{list_all};
ghost use Rattle.markup.specs.Attributes.{are_distinct, has_local_name};
ghost use Rattle.markup.specs.declared.fault.ParseFault.TheVariants.{Memory};
ghost use Rattle.markup.specs.Trees.{is_html};
ghost use Rattle.html_rules.specs.Actions.{or_mode};
ghost use Rattle.html_rules.specs.State.{current_is, is_named};
ghost use Rattle.html_faithful.specs.Walk.{finished, started};
ghost use Rattle.html_faithful_judge.specs.Mades.{made_as};
ghost use Rattle.html_faithful_judge.specs.Spots.{spot_of};
ghost use Rattle.html_faithful_walk.specs.Common.{are_free, are_read_so, before_kids, closes_none, drops_line_feed, is_bare, is_closed_by};
ghost use Rattle.html_faithful_walk.specs.Common.{ends_in, entered, is_emitted, is_flow, is_free, is_head, is_outside, is_plain_type};
ghost use Rattle.html_faithful_walk.specs.Common.{has_head_in, is_body_ended, is_outside_select, is_root_ended, is_settled};
ghost use Rattle.html_faithful_walk.specs.Common.{is_read_so, is_text_kind, keeps_frameset_ok, may_open};
ghost use Rattle.html_faithful_walk.specs.Common.{mode_after, mode_in, opened_as, raw_in};
ghost use Rattle.html_faithful_walk.specs.Common.{spot_after, stands_in};

use crate::kinds::{Kind, has_end, is_free_name, is_void_kind, kind_of};
use crate::names::is_html;
use crate::texts::is_in_html;
use html_faithful_judge::made::Made;
use html_faithful_judge::spot::Spot;
use html_faithful_judge::{is_attribute_name, is_kept};
use html_names::equals_any_case;
use html_rules::{InsertionMode, TagSet};
use html_tokens::states::RawKind;
use markup::{Attribute, KnownNamespace, LocalName, ParseFault, QualName};
use std::alloc::Global;

/// As many attributes are compared with one another; where more stand in a tag, the rows are asked.
pub(crate) const FEW: usize = 16;

/// Whether the name of an attribute is in no namespace.
#[tactic(auto, unfolding(markup::specs::Namespaces::name_of))]
pub(crate) fn is_bare(name: &QualName) -> bool
    ensures { result ≡ is_bare name.now }
{
    name.prefix.is_none() && name.ns.is_known(KnownNamespace::NoNamespace)
}

/// Whether an attribute is emitted with the name and the value that are written.
fn is_emitted(attribute: &Attribute) -> bool
    ensures { result ≡ is_emitted attribute.now }
{
    if is_free_name(&attribute.name.local) {
        return is_kept(attribute.value.as_str());
    }
    is_attribute_name(attribute.name.local.as_str()) && is_kept(attribute.value.as_str())
}

/// Whether an attribute is in no namespace, and is read with the name and the value that it has.
fn is_read_so(attribute: &Attribute) -> bool
    ensures { result ≡ is_read_so attribute.now }
{
    is_bare(&attribute.name) && is_emitted(attribute)
}

/// Whether an attribute is `type`, and is not `hidden`.
fn is_plain_type(attribute: &Attribute) -> bool
    ensures { result ≡ is_plain_type attribute.now }
{
    attribute.name.local.is("type") && !equals_any_case(attribute.value.as_str(), "hidden")
}

/// Whether no rule looks at an attribute that is read so, wherever it stands.
fn is_free(attribute: &Attribute) -> bool
    ensures { result ≡ is_free attribute.now }
{
    is_read_so(attribute) && (is_free_name(&attribute.name.local) || is_plain_type(attribute))
}

/// Whether one of some attributes has a local name.
fn has_local_name(attributes: &[Attribute], name: &LocalName) -> bool
    ensures { result ≡ has_local_name name.now attributes.now }
{
    attributes.iter().any(|other| *name == other.name.local)
}

/// Whether each of some attributes is read as it is.
fn are_all_read_so(attributes: &[Attribute]) -> bool
    ensures { result ≡ list_all is_read_so attributes.now }
{
    attributes.iter().all(|attribute| is_read_so(attribute))
}

/// Whether no local name comes twice.
pub(crate) fn are_distinct(attributes: &[Attribute]) -> bool
    ensures { result ≡ are_distinct attributes.now }
{
    match attributes.split_first() {
        None => true,
        Some((first, rest)) => !has_local_name(rest, &first.name.local) && are_distinct(rest),
    }
}

/// Whether some attributes, of which there are few, are read with the names and the values that they have, and no name comes twice.
pub(crate) fn are_read_so(attributes: &[Attribute]) -> bool
    ensures { IsTrue result → are_read_so attributes.now ≡ true }
{
    let count = attributes.len();
    if count < 2 {
        return are_all_read_so(attributes);
    }
    if count > FEW {
        return false;
    }
    are_all_read_so(attributes) && are_distinct(attributes)
}

/// Whether each of some attributes is free.
fn are_all_free(attributes: &[Attribute]) -> bool
    ensures { result ≡ list_all is_free attributes.now }
{
    attributes.iter().all(|attribute| is_free(attribute))
}

/// Whether some attributes, of which there are few, are read with the names and the values that they have, no name comes twice, and no rule
/// looks at them.
pub(crate) fn are_free(attributes: &[Attribute]) -> bool
    ensures { IsTrue result → are_free attributes.now ≡ true }
{
    if attributes.len() > FEW {
        return false;
    }
    are_all_free(attributes) && are_distinct(attributes)
}

/// Whether nodes stand as in a body: there, or in a cell.
pub(crate) fn is_flow(mode: InsertionMode) -> bool
    ensures { result ≡ is_flow mode }
{
    matches!(mode, InsertionMode::InBody | InsertionMode::InCell)
}

/// Whether nodes stand as in the head, or as in a body.
fn is_head(mode: InsertionMode) -> bool
    ensures { result ≡ is_head mode }
{
    match mode {
        InsertionMode::InHead => true,
        _ => is_flow(mode),
    }
}

/// Whether a start tag of a kind may only put its element in a mode.
fn stands_in(kind: Kind, mode: InsertionMode) -> bool
    ensures { result ≡ stands_in kind mode }
{
    match kind {
        Kind::Head => matches!(mode, InsertionMode::BeforeHead),
        Kind::Body => matches!(mode, InsertionMode::AfterHead),
        Kind::Metadata => is_head(mode),
        Kind::Title => is_head(mode),
        Kind::Style => is_head(mode),
        Kind::Script => is_head(mode),
        Kind::Section => matches!(mode, InsertionMode::InTable),
        Kind::Row => matches!(mode, InsertionMode::InTableBody),
        Kind::Cell => matches!(mode, InsertionMode::InRow),
        _ => is_flow(mode),
    }
}

/// Whether an end tag of a kind may only close its element in a mode.
fn ends_in(kind: Kind, mode: InsertionMode) -> bool
    ensures { result ≡ ends_in kind mode }
{
    match kind {
        Kind::Head => matches!(mode, InsertionMode::InHead),
        Kind::Table => matches!(mode, InsertionMode::InTable),
        Kind::Title => matches!(mode, InsertionMode::Text),
        Kind::Style => matches!(mode, InsertionMode::Text),
        Kind::Script => matches!(mode, InsertionMode::Text),
        Kind::Section => matches!(mode, InsertionMode::InTableBody),
        Kind::Row => matches!(mode, InsertionMode::InRow),
        Kind::Cell => matches!(mode, InsertionMode::InCell),
        _ => is_flow(mode),
    }
}

/// Whether no paragraph is open in button scope.
fn is_outside(spot: &Spot) -> bool
    ensures { result ≡ is_outside spot.now.stack.open_elems }
{
    !spot.as_stack().in_scope(TagSet::ButtonScope, TagSet::P)
}

/// Whether no `select` is open in scope.
fn is_outside_select(spot: &Spot) -> bool
    ensures { result ≡ is_outside_select spot.now.stack.open_elems }
{
    !spot
        .as_stack()
        .in_scope(TagSet::DefaultScope, TagSet::Select)
}

/// Whether an element of a kind that is put in the open elements closes none of them.
fn closes_none(spot: &Spot, kind: Kind) -> bool
    ensures { result ≡ closes_none kind spot.now.stack.open_elems }
{
    match kind {
        Kind::Usual => false,
        Kind::Staying => false,
        Kind::Void => false,
        Kind::Raw => false,
        Kind::RawWithScripts => false,
        Kind::Svg => false,
        Kind::Phrase => true,
        Kind::Formatting => true,
        Kind::VoidPhrase => true,
        Kind::VoidBlock => is_outside(spot) && is_outside_select(spot),
        Kind::Input => is_outside_select(spot),
        Kind::Head => true,
        Kind::Body => true,
        Kind::Metadata => true,
        Kind::Title => true,
        Kind::Style => true,
        Kind::Script => true,
        Kind::Button => !spot
            .as_stack()
            .in_scope(TagSet::DefaultScope, TagSet::Button),
        Kind::Table => is_outside(spot),
        Kind::Section => spot.current_is(TagSet::TableScope),
        Kind::Row => spot.current_is(TagSet::TableBodyContext),
        Kind::Cell => spot.current_is(TagSet::TableRowContext),
        Kind::Link => !spot.lists_a() && !spot.link_open(),
        Kind::Block => is_outside(spot),
        Kind::Preformatted => is_outside(spot),
        Kind::Heading => is_outside(spot) && !spot.current_is(TagSet::HeadingTag),
        Kind::Item => is_outside(spot) && !spot.has_item(TagSet::Li),
        Kind::Description => is_outside(spot) && !spot.has_item(TagSet::DdDt),
    }
}

/// Whether a flag says what a start tag of a kind does, since its attributes are not looked at.
fn is_settled(spot: &Spot, kind: Kind) -> bool
    ensures { result ≡ is_settled kind (spot_of spot.now) }
{
    match kind {
        Kind::Input => !spot.frameset_ok,
        _ => true,
    }
}

/// Whether an element of a kind is only put here by its start tag.
fn may_open(spot: &Spot, kind: Kind) -> bool
    ensures { result ≡ may_open kind (spot_of spot.now) }
{
    (stands_in(kind, spot.mode) && is_settled(spot, kind))
        && (is_in_html(spot) && closes_none(spot, kind))
}

/// Whether a line feed that comes first in an element of a kind is dropped.
fn drops_line_feed(kind: Kind) -> bool
    ensures { result ≡ drops_line_feed kind }
{
    matches!(kind, Kind::Preformatted)
}

/// Whether no flag changes where an element of a kind is put.
fn keeps_frameset_ok(kind: Kind) -> bool
    ensures { result ≡ keeps_frameset_ok kind }
{
    !matches!(
        kind,
        Kind::Preformatted
            | Kind::Item
            | Kind::Description
            | Kind::VoidPhrase
            | Kind::VoidBlock
            | Kind::Body
            | Kind::Button
            | Kind::Table
    )
}

/// The mode in an element of a kind, by the mode where it stands.
fn mode_in(kind: Kind, mode: InsertionMode) -> InsertionMode
    ensures { result ≡ mode_in kind mode }
{
    match kind {
        Kind::Table => InsertionMode::InTable,
        Kind::Section => InsertionMode::InTableBody,
        Kind::Row => InsertionMode::InRow,
        Kind::Cell => InsertionMode::InCell,
        Kind::Head => InsertionMode::InHead,
        Kind::Body => InsertionMode::InBody,
        Kind::Title => InsertionMode::Text,
        Kind::Style => InsertionMode::Text,
        Kind::Script => InsertionMode::Text,
        _ => mode,
    }
}

/// Whether an element of a kind has text alone, in a mode of its own.
fn is_text_kind(kind: Kind) -> bool
    ensures { result ≡ is_text_kind kind }
{
    matches!(kind, Kind::Title | Kind::Style | Kind::Script)
}

/// The mode that comes back after the text of an element.
fn mode_back(spot: &Spot) -> InsertionMode
    ensures { result ≡ or_mode spot.now.orig_mode spot.now.mode }
{
    match spot.orig_mode {
        Some(mode) => mode,
        None => spot.mode,
    }
}

/// The mode is that after the end of an element of a kind, which was the current node.
fn leave(spot: &mut Spot, kind: Kind)
    ensures { spot_of spot.new ≡ record (spot_of spot.old) { mode = mode_after kind (spot_of spot.old) } }
{
    match kind {
        Kind::Head => spot.mode = InsertionMode::AfterHead,
        Kind::Table => spot.reset_mode(),
        Kind::Section => spot.mode = InsertionMode::InTable,
        Kind::Row => spot.mode = InsertionMode::InTableBody,
        Kind::Cell => spot.mode = InsertionMode::InRow,
        Kind::Title => spot.mode = mode_back(spot),
        Kind::Style => spot.mode = mode_back(spot),
        Kind::Script => spot.mode = mode_back(spot),
        _ => {}
    }
}

/// The kind of the raw text of an element of a kind.
fn raw_in(kind: Kind) -> Option<RawKind>
    ensures { result ≡ raw_in kind }
{
    match kind {
        Kind::Title => Some(RawKind::Rcdata),
        Kind::Style => Some(RawKind::Rawtext),
        Kind::Script => Some(RawKind::ScriptData),
        _ => None,
    }
}

/// Whether there is a head element, once one of a kind is opened.
fn has_head_in(kind: Kind, has: bool) -> bool
    ensures { result ≡ has_head_in kind has }
{
    matches!(kind, Kind::Head) || has
}

/// The modes where an element of a kind is opened.
fn enter(spot: &mut Spot, kind: Kind)
    ensures { spot_of spot.new ≡ entered kind (spot_of spot.old) }
{
    if is_text_kind(kind) {
        spot.orig_mode = Some(spot.mode);
    }
    spot.mode = mode_in(kind, spot.mode);
    spot.has_head = has_head_in(kind, spot.has_head);
}

/// The current node, an element of a kind, is closed.
fn close(spot: &mut Spot, kind: Kind)
    ensures { spot_of spot.new ≡ spot_after kind (spot_of spot.old) }
{
    spot.close_current();
    leave(spot, kind);
    if is_text_kind(kind) {
        spot.orig_mode = None;
    }
}

/// An element of a kind and a name is put, and opened, unless it is void.
fn open(made: &mut Made, alloc: Global, kind: Kind, name: &LocalName) -> Result<(), ParseFault>
    ensures ok { OnOk result (before_kids (made_as made.new) ≡ opened_as kind name.now (spot_of made.old.spot)) }
    ensures fault { IfErr result (λ fault. fault ≡ Memory) }
{
    made.restart();
    made.raw = raw_in(kind);
    made.drops_line_feed = drops_line_feed(kind);
    enter(&mut made.spot, kind);
    if !keeps_frameset_ok(kind) {
        made.spot.frameset_ok = false;
    }
    if is_void_kind(kind) {
        return Ok(());
    }
    made.spot.open_html(alloc, name)
}

/// Whether an element is HTML's, and its name has no prefix.
fn is_plain_html(name: &QualName) -> bool
    ensures { result ≡ (is_html name.now && is_none name.now.prefix) }
{
    is_html(name) && name.prefix.is_none()
}

/// The start tag of an element comes that is no template; answers whether it is common, and its tag only puts it.
pub(crate) fn start_common(
    made: &mut Made,
    alloc: Global,
    name: &QualName,
    attributes: &[Attribute],
) -> Result<bool, ParseFault>
    ensures ok { IfOk result (λ put. IsTrue put
        → option_map before_kids (started name.now attributes.now false (spot_of made.old.spot)) ≡ Some (before_kids (made_as made.new))) }
    ensures other { IfOk result (λ put. put ≡ false → made.new ≡ made.old) }
    ensures fault { IfErr result (λ fault. fault ≡ Memory) }
{
    if !is_plain_html(name) {
        return Ok(false);
    }
    let kind = kind_of(&name.local);
    if !may_open(&made.spot, kind) {
        return Ok(false);
    }
    if !are_read_so(attributes) {
        return Ok(false);
    }
    open(made, alloc, kind, &name.local)?;
    Ok(true)
}

/// Whether the current node is the HTML element of a known name.
fn is_current(spot: &Spot, name: &LocalName) -> bool
    ensures { IsTrue result → current_is (is_named name.now) spot.now.stack.open_elems ≡ true }
{
    match (spot.as_stack().open_elems().last(), name.known()) {
        (Some(element), Some(known)) => element.name.is_known(known),
        _ => false,
    }
}

/// Whether an element of a kind and a name is the current node, which its end tag only closes.
fn is_closed(spot: &Spot, kind: Kind, name: &LocalName) -> bool
    ensures { IsTrue result → is_closed_by kind name.now (spot_of spot.now) ≡ true }
{
    has_end(kind) && (ends_in(kind, spot.mode) && is_current(spot, name))
}

/// The end tag of an element comes; answers whether it is common, and its tag only closes it.
pub(crate) fn finish_common(made: &mut Made, name: &QualName) -> bool
    ensures ok { IsTrue result → finished name.now (spot_of made.old.spot) ≡ Some (spot_of made.new.spot) }
    ensures other { result ≡ false → made.new ≡ made.old }
{
    if !is_plain_html(name) {
        return false;
    }
    let kind = kind_of(&name.local);
    if !is_closed(&made.spot, kind, &name.local) {
        return false;
    }
    close(&mut made.spot, kind);
    true
}

/// Whether the body ends here where its end tag comes.
fn ends_body(spot: &Spot) -> bool
    ensures { IsTrue result → is_body_ended (spot_of spot.now) ≡ true }
{
    matches!(spot.mode, InsertionMode::InBody)
        && (spot.current_is(TagSet::Body) && spot.ends_with_body())
}

/// Whether the document ends here where the end tag of `html` comes.
fn ends_root(spot: &Spot) -> bool
    ensures { result ≡ is_root_ended (spot_of spot.now) }
{
    matches!(spot.mode, InsertionMode::AfterBody) && is_in_html(spot)
}

/// The end tag of an element comes; answers whether it is that of the body, and only says that it ends.
fn finish_body(made: &mut Made, name: &QualName) -> bool
    ensures ok { IsTrue result → finished name.now (spot_of made.old.spot) ≡ Some (spot_of made.new.spot) }
    ensures other { result ≡ false → made.new ≡ made.old }
{
    if !is_plain_html(name) {
        return false;
    }
    if !name.local.is("body") {
        return false;
    }
    if !ends_body(&made.spot) {
        return false;
    }
    made.spot.mode = InsertionMode::AfterBody;
    true
}

/// The end tag of an element comes; answers whether it is that of the root, and only says that it ends.
fn finish_root(made: &mut Made, name: &QualName) -> bool
    ensures ok { IsTrue result → finished name.now (spot_of made.old.spot) ≡ Some (spot_of made.new.spot) }
    ensures other { result ≡ false → made.new ≡ made.old }
{
    if !is_plain_html(name) {
        return false;
    }
    if !name.local.is("html") {
        return false;
    }
    if !ends_root(&made.spot) {
        return false;
    }
    made.spot.mode = InsertionMode::AfterAfterBody;
    true
}

/// The end tag of an element comes; answers whether it is that of the body or of the root, which stay open, and only says that they end.
pub(crate) fn finish_staying(made: &mut Made, name: &QualName) -> bool
    ensures ok { IsTrue result → finished name.now (spot_of made.old.spot) ≡ Some (spot_of made.new.spot) }
    ensures other { result ≡ false → made.new ≡ made.old }
{
    if finish_body(made, name) {
        return true;
    }
    finish_root(made, name)
}
