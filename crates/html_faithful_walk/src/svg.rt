//! The tags of SVG's elements where they stand in SVG, and of `svg` where it stands in HTML, without a look at the rows (HTML Standard,
//! sections 13.2.6.4.7 and 13.2.6.5).
ghost use Rattle.std.specs.Prelude.{◌≡◌, ◌&&◌, IfErr, IfOk, IsTrue, OnOk, Some, false, option_map, true};
ghost use Rattle.std.specs.List.{list_all};
ghost use Rattle.markup.specs.declared.fault.ParseFault.TheVariants.{Memory};
ghost use Rattle.html_rules.specs.ForeignContent.{is_html_element};
ghost use Rattle.html_rules.specs.State.{current_is};
ghost use Rattle.html_faithful.specs.Walk.{finished, started};
ghost use Rattle.html_faithful_judge.specs.Mades.{made_as};
ghost use Rattle.html_faithful_judge.specs.Spots.{spot_of};
ghost use Rattle.html_faithful_walk.specs.Common.{before_kids, is_bare, is_flow};
ghost use Rattle.html_faithful_walk.specs.Kinds.{is_told_back};
ghost use Rattle.html_faithful_walk.specs.Svg.{are_svg_read, is_current_svg, is_empty, is_svg, is_svg_element, is_svg_read, is_xmlns};
ghost use Rattle.html_faithful_walk.specs.Svg.{opened_svg, takes_svg};

use crate::checks::is_named;
use crate::common::{FEW, are_distinct, is_bare, is_flow};
use crate::kinds::{is_svg_kind, is_told_back, kind_of};
use crate::texts::is_in_html;
use html_faithful_judge::made::Made;
use html_faithful_judge::spot::Spot;
use html_faithful_judge::{is_kept, is_nonempty};
use html_names::{ElementClass, ElementNamespace};
use html_rules::TagSet;
use markup::{Attribute, KnownNamespace, LocalName, ParseFault, QualName};
use std::alloc::Global;

/// Whether the prefix of a name is there, and is empty.
fn has_empty_prefix(name: &QualName) -> bool
    ensures { result ≡ is_empty name.now.prefix }
{
    match &name.prefix {
        Some(prefix) => !is_nonempty(prefix.as_str()),
        None => false,
    }
}

/// Whether an attribute is `xmlns` in its namespace.
#[tactic(auto, unfolding(markup::specs::Namespaces::name_of, html_rules::specs::Renames::xmlns_namespace))]
fn is_xmlns(name: &QualName) -> bool
    ensures { result ≡ is_xmlns name.now }
{
    has_empty_prefix(name) && (name.ns.is_known(KnownNamespace::Xmlns) && name.local.is("xmlns"))
}

/// Whether an attribute of SVG is in no namespace, and has its name again, once it is read in lower case.
fn is_told_back_bare(name: &QualName) -> bool
    ensures { result ≡ (is_bare name.now && is_told_back name.now.local) }
{
    is_bare(name) && is_told_back(&name.local)
}

/// Whether an attribute of SVG is read with the name and the value that it has.
fn is_svg_read(attribute: &Attribute) -> bool
    ensures { result ≡ is_svg_read attribute.now }
{
    (is_told_back_bare(&attribute.name) || is_xmlns(&attribute.name))
        && is_kept(attribute.value.as_str())
}

/// Whether each of some attributes of SVG is.
fn are_all_svg_read(attributes: &[Attribute]) -> bool
    ensures { result ≡ list_all is_svg_read attributes.now }
{
    attributes.iter().all(|attribute| is_svg_read(attribute))
}

/// Whether some attributes of SVG, of which there are few, are read with the names and the values that they have, and no name comes twice.
fn are_svg_read(attributes: &[Attribute]) -> bool
    ensures { IsTrue result → are_svg_read attributes.now ≡ true }
{
    if attributes.len() > FEW {
        return false;
    }
    are_all_svg_read(attributes) && are_distinct(attributes)
}

/// Whether an element is SVG's.
#[tactic(auto, unfolding(markup::specs::Namespaces::name_of, html_rules::specs::Names::svg_namespace))]
fn is_svg(name: &QualName) -> bool
    ensures { result ≡ is_svg name.now }
{
    name.prefix.is_none() && name.ns.is_known(KnownNamespace::Svg)
}

/// Whether the current node is SVG's, and no HTML may stand in it.
pub(crate) fn takes_svg(spot: &Spot) -> bool
    ensures { result ≡ takes_svg spot.now.stack.open_elems }
{
    match spot.as_stack().open_elems().last() {
        Some(element) => {
            element.name.kind() == ElementNamespace::Svg
                && !element.name.is_in(TagSet::SvgHtmlIntegrationPoint)
        }
        None => false,
    }
}

/// An element of SVG is put, and opened.
fn open(made: &mut Made, alloc: Global, name: &QualName) -> Result<(), ParseFault>
    ensures ok { OnOk result (before_kids (made_as made.new) ≡ opened_svg name.now (spot_of made.old.spot)) }
    ensures fault { IfErr result (λ fault. fault ≡ Memory) }
{
    made.restart();
    let class = ElementClass::named(&name.ns, &name.local);
    made.spot.open(alloc, class, &name.ns, &name.local)
}

/// The start tag of an element comes that is no template; answers whether it is SVG's, and its tag only puts it.
pub(crate) fn start_svg(
    made: &mut Made,
    alloc: Global,
    name: &QualName,
    attributes: &[Attribute],
) -> Result<bool, ParseFault>
    ensures ok { IfOk result (λ put. IsTrue put
        → option_map before_kids (started name.now attributes.now false (spot_of made.old.spot)) ≡ Some (before_kids (made_as made.new))) }
    ensures other { IfOk result (λ put. put ≡ false → made.new ≡ made.old) }
    ensures fault { IfErr result (λ fault. fault ≡ Memory) }
{
    if !is_svg(name) {
        return Ok(false);
    }
    let kind = kind_of(&name.local);
    if !is_svg_kind(kind) {
        return Ok(false);
    }
    if !takes_svg(&made.spot) {
        return Ok(false);
    }
    if !are_svg_read(attributes) {
        return Ok(false);
    }
    open(made, alloc, name)?;
    Ok(true)
}

/// Whether `svg` may be opened here, in HTML: in a body or in a cell.
fn takes_root(spot: &Spot) -> bool
    ensures { result ≡ (is_flow spot.now.mode && current_is is_html_element spot.now.stack.open_elems) }
{
    is_flow(spot.mode) && is_in_html(spot)
}

/// The start tag of an element comes that is no template; answers whether it is `svg`, and its tag only puts it where HTML stands.
pub(crate) fn start_root(
    made: &mut Made,
    alloc: Global,
    name: &QualName,
    attributes: &[Attribute],
) -> Result<bool, ParseFault>
    ensures ok { IfOk result (λ put. IsTrue put
        → option_map before_kids (started name.now attributes.now false (spot_of made.old.spot)) ≡ Some (before_kids (made_as made.new))) }
    ensures other { IfOk result (λ put. put ≡ false → made.new ≡ made.old) }
    ensures fault { IfErr result (λ fault. fault ≡ Memory) }
{
    if !is_svg(name) {
        return Ok(false);
    }
    if !name.local.is("svg") {
        return Ok(false);
    }
    if !takes_root(&made.spot) {
        return Ok(false);
    }
    if !are_svg_read(attributes) {
        return Ok(false);
    }
    open(made, alloc, name)?;
    Ok(true)
}

/// Whether the current node is SVG's.
fn is_in_svg(spot: &Spot) -> bool
    ensures { result ≡ current_is is_svg_element spot.now.stack.open_elems }
{
    match spot.as_stack().open_elems().last() {
        Some(element) => element.name.kind() == ElementNamespace::Svg,
        None => false,
    }
}

/// Whether the current node is the SVG element of a name, and does not stand alone.
fn is_current(spot: &Spot, name: &LocalName) -> bool
    ensures { result ≡ is_current_svg name.now spot.now.stack.open_elems }
{
    !spot.is_root_alone() && (is_in_svg(spot) && is_named(spot, name))
}

/// The end tag of an element comes; answers whether it is SVG's, and its tag only closes it.
pub(crate) fn finish_svg(made: &mut Made, name: &QualName) -> bool
    ensures ok { IsTrue result → finished name.now (spot_of made.old.spot) ≡ Some (spot_of made.new.spot) }
    ensures other { result ≡ false → made.new ≡ made.old }
{
    if !is_svg(name) {
        return false;
    }
    let kind = kind_of(&name.local);
    if !is_svg_kind(kind) {
        return false;
    }
    if !is_current(&made.spot, &name.local) {
        return false;
    }
    made.spot.close_current();
    true
}
