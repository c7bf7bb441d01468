//! The start and the end of an element, as the rules take its tags.
ghost use Rattle.std.specs.Prelude.{◌≡◌, ◌&&◌, IfErr, IfOk, option_map};
ghost use Rattle.markup.specs.declared.fault.ParseFault.TheVariants.{Memory};
ghost use Rattle.html_faithful.specs.Harmless.{provided};
ghost use Rattle.html_tokens.specs.declared.token.Token.TheVariants.{TagToken};
ghost use Rattle.html_faithful.specs.Checks.{is_kept_so};
ghost use Rattle.html_faithful.specs.Spots.{Spot as HarmlessSpot};
ghost use Rattle.html_faithful.specs.Walk.{finished, is_rcdata, is_written_so, started};
ghost use Rattle.html_faithful_judge.specs.Mades.{made_as};
ghost use Rattle.html_faithful_judge.specs.Spots.{spot_of};
ghost use Rattle.html_faithful_walk.specs.Checks.{closing_of};
ghost use Rattle.html_faithful_walk.specs.Common.{before_kids};
ghost use Rattle.html_faithful_judge.specs.Tokens.{IsNamed, token_of};
ghost use Rattle.html_faithful_walk.specs.Steps.{ends_as, is_started, spot_if, started_by};

use crate::checks::{Closing, is_kept_closed, is_kept_open, what_closes};
use crate::common::{are_free, finish_common, finish_staying, start_common};
use crate::names::{is_html, is_raw, is_void, stays_open};
use crate::svg::{finish_svg, start_root, start_svg};
use crate::tags::{end_tag, is_made, written_tag};
use html_faithful_judge::made::Made;
use html_faithful_judge::tokens::{Content, NamedToken};
use html_names::ElementClass;
use html_tokens::Tag;
use html_tokens::states::RawKind;
use markup::{Attribute, ParseFault, QualName};
use std::alloc::Global;

/// A tag as a token.
fn token(tag: &Tag) -> NamedToken<'_>
    ensures content { token_of result.content ≡ TagToken tag.now }
    ensures named { IsNamed result }
{
    NamedToken {
        content: Content::Tag(tag),
        name: &tag.name,
        class: ElementClass::html(&tag.name),
    }
}

/// The start tag of an element comes; answers whether it puts just this element, and the list and the pointer stay those of the path. What
/// was put is not kept.
pub(crate) fn start(
    made: &mut Made,
    alloc: Global,
    name: &QualName,
    attributes: &[Attribute],
    template: bool,
) -> Result<bool, ParseFault>
    ensures ok { IfOk result (λ goes_on. option_map before_kids (started name.now attributes.now template (spot_of made.old.spot))
        ≡ provided goes_on (before_kids (made_as made.new))) }
    ensures fault { IfErr result (λ fault. fault ≡ Memory) }
{
    if template {
        return start_by_rows(made, alloc, name, attributes, template);
    }
    if start_common(made, alloc, name, attributes)? {
        return Ok(true);
    }
    if start_svg(made, alloc, name, attributes)? {
        return Ok(true);
    }
    if start_root(made, alloc, name, attributes)? {
        return Ok(true);
    }
    start_by_rows(made, alloc, name, attributes, template)
}

/// The same, by the rows that it takes: those of the tag without its attributes, where no rule looks at these.
fn start_by_rows(
    made: &mut Made,
    alloc: Global,
    name: &QualName,
    attributes: &[Attribute],
    template: bool,
) -> Result<bool, ParseFault>
    ensures ok { IfOk result (λ goes_on. option_map before_kids (started name.now attributes.now template (spot_of made.old.spot))
        ≡ provided goes_on (before_kids (made_as made.new))) }
    ensures fault { IfErr result (λ fault. fault ≡ Memory) }
{
    if are_free(attributes) {
        return start_with(made, alloc, name, &[], template);
    }
    start_with(made, alloc, name, attributes, template)
}

/// The same, with what was put.
fn start_with(
    made: &mut Made,
    alloc: Global,
    name: &QualName,
    attributes: &[Attribute],
    template: bool,
) -> Result<bool, ParseFault>
    ensures ok { IfOk result (λ goes_on. started name.now attributes.now template (spot_of made.old.spot)
        ≡ provided goes_on (made_as made.new)) }
    ensures fault { IfErr result (λ fault. fault ≡ Memory) }
{
    match written_tag(alloc, name, attributes, template)? {
        Some(tag) => start_by(made, alloc, name, attributes, &tag),
        None => Ok(false),
    }
}

/// The same, by the tag as it is read.
fn start_by(
    made: &mut Made,
    alloc: Global,
    name: &QualName,
    attributes: &[Attribute],
    tag: &Tag,
) -> Result<bool, ParseFault>
    ensures ok { IfOk result (λ goes_on. started_by name.now attributes.now tag.now (spot_of made.old.spot)
        ≡ provided goes_on (made_as made.new)) }
    ensures fault { IfErr result (λ fault. fault ≡ Memory) }
{
    if !made.take(alloc, &token(tag))? {
        return Ok(false);
    }
    Ok(is_started(made, name, attributes, tag))
}

/// Whether just this element was put for its start tag, and the list and the pointer stay those of the path.
fn is_started(made: &Made, name: &QualName, attributes: &[Attribute], tag: &Tag) -> bool
    ensures { (p : HarmlessSpot) → result ≡ is_started name.now attributes.now tag.now p (made_as made.now) }
{
    if !(is_made(name, attributes, !is_void(name), &made.put) && !made.closed) {
        return false;
    }
    is_kept_open(made, &tag.name)
}

/// Whether an end tag puts nothing, and closes the current node, unless that stays open.
fn ends(made: &Made, name: &QualName) -> bool
    ensures { result ≡ ends_as name.now (made_as made.now) }
{
    made.put.is_none()
        && !made.drops_line_feed
        && made.raw.is_none()
        && made.closed != stays_open(name)
}

/// Whether the list and the pointer stay those of the path where an end tag came that puts nothing.
fn is_kept(made: &Made, closing: Closing, tag: &Tag) -> bool
    ensures { (p : HarmlessSpot) → closing ≡ closing_of p.path → result ≡ is_kept_so tag.now.name p (made_as made.now) }
{
    if made.closed {
        is_kept_closed(made, closing)
    } else {
        is_kept_open(made, &tag.name)
    }
}

/// Whether an end tag closed just this element, of which this was known, or nothing where that stays open.
fn is_finished(made: &Made, name: &QualName, closing: Closing, tag: &Tag) -> bool
    ensures { (p : HarmlessSpot) → closing ≡ closing_of p.path
        → result ≡ (ends_as name.now (made_as made.now) && is_kept_so tag.now.name p (made_as made.now)) }
{
    if !ends(made, name) {
        return false;
    }
    is_kept(made, closing, tag)
}

/// The end tag of an element comes; answers whether it closes just this element, or nothing where that stays open.
pub(crate) fn finish(made: &mut Made, alloc: Global, name: &QualName) -> Result<bool, ParseFault>
    ensures ok { IfOk result (λ goes_on. finished name.now (spot_of made.old.spot) ≡ spot_if goes_on (spot_of made.new.spot)) }
    ensures fault { IfErr result (λ fault. fault ≡ Memory) }
{
    if finish_common(made, name) {
        return Ok(true);
    }
    if finish_svg(made, name) {
        return Ok(true);
    }
    if finish_staying(made, name) {
        return Ok(true);
    }
    finish_by_rows(made, alloc, name)
}

/// The same, by the rows that it takes.
fn finish_by_rows(made: &mut Made, alloc: Global, name: &QualName) -> Result<bool, ParseFault>
    ensures ok { IfOk result (λ goes_on. finished name.now (spot_of made.old.spot) ≡ spot_if goes_on (spot_of made.new.spot)) }
    ensures fault { IfErr result (λ fault. fault ≡ Memory) }
{
    let tag = end_tag(alloc, name)?;
    let closing = what_closes(&made.spot);
    if !made.take(alloc, &token(&tag))? {
        return Ok(false);
    }
    Ok(is_finished(made, name, closing, &tag))
}

/// Whether text of a kind is escaped where it is written.
fn is_rcdata(kind: RawKind) -> bool
    ensures { result ≡ is_rcdata kind }
{
    match kind {
        RawKind::Rcdata => true,
        _ => false,
    }
}

/// Whether the text of an element is written as it is read: as it is, or escaped.
pub(crate) fn is_written_so(scripting: bool, name: &QualName, raw: Option<RawKind>) -> bool
    ensures { result ≡ is_written_so scripting name.now raw }
{
    match raw {
        None => !(is_html(name) && is_raw(scripting, &name.local)),
        Some(kind) => is_html(name) && is_rcdata(kind) != is_raw(scripting, &name.local),
    }
}
