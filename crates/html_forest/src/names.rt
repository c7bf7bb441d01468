//! Where a name is in a list of names. Names that came lately are found by a hash of their letters, four for each value of it, so that
//! few names are twice in the list; that none is is not said.
ghost use Rattle.std.specs.Prelude.{◌≡◌, ◌≤◌, IfSome, true};
ghost use Rattle.markup.specs.Names.{html_name};
ghost use Rattle.html_forest.specs.Entries.{IsNameAt};

use markup::{KnownNamespace, LocalName, QualName};
use std::alloc::{AllocError, Global};

// How many values the hash has, and how many names are kept for each.
const VALUES: usize = 256;

const WAYS: usize = 4;

// How many known names there are: the name of an HTML element has a place for it alone.
const HTML: usize = 626;

/// No names.
pub(crate) fn none(alloc: Global) -> Result<Vec<u32>, AllocError> {
    let mut recent = Vec::new(alloc);
    recent.resize(VALUES * WAYS + HTML, 0)?;
    Ok(recent)
}

/// Where the places of names with the hash of a name begin.
pub(crate) fn slot(name: &QualName) -> usize
    ensures { result ≤ 1020 }
{
    if let Some(known) = name.local.known() {
        return known.place as usize % VALUES * WAYS;
    }
    let mut hash: usize = 0;
    for byte in name.local.as_str().as_bytes() {
        hash = hash.wrapping_mul(31).wrapping_add(*byte as usize);
    }
    hash % VALUES * WAYS
}

/// The place of a name, if it came lately.
pub(crate) fn find(
    names: &Vec<QualName>,
    recent: &Vec<u32>,
    name: &QualName,
    slot: usize,
) -> Option<u32>
    requires { slot ≤ 1020 }
    ensures { IfSome result (λ place. IsNameAt names.now.items place name.now) }
{
    for way in 0..WAYS {
        if let Some(place) = recent.get(slot + way) {
            if is_at(names, *place, name) {
                return Some(*place);
            }
        }
    }
    None
}

/// Whether a name is at a place.
fn is_at(names: &Vec<QualName>, place: u32, name: &QualName) -> bool
    ensures { result ≡ true → IsNameAt names.now.items place name.now }
{
    match names.get(place as usize) {
        Some(known) => *known == *name,
        None => false,
    }
}

/// Notes the place of a name.
pub(crate) fn note(recent: &mut Vec<u32>, slot: usize, place: u32)
    requires { slot ≤ 1020 }
{
    if let Some(kept) = recent.get_mut(slot + place as usize % WAYS) {
        *kept = place;
    }
}

/// Where the place of the name of an HTML element is noted, if it is a known name.
pub(crate) fn html_slot(name: &LocalName) -> Option<usize> {
    match name.known() {
        Some(known) => Some(VALUES * WAYS + known.place as usize),
        None => None,
    }
}

/// The place of the name of an HTML element, if it is noted.
pub(crate) fn find_html(
    names: &Vec<QualName>,
    recent: &Vec<u32>,
    name: &LocalName,
    slot: usize,
) -> Option<u32>
    ensures { IfSome result (λ place. IsNameAt names.now.items place (html_name name.now)) }
{
    let place = *recent.get(slot)?;
    if is_html_at(names, place, name) {
        Some(place)
    } else {
        None
    }
}

/// Whether the name of an HTML element is at a place.
#[tactic(auto, unfolding(markup::specs::Names::html_namespace, markup::specs::Namespaces::name_of))]
fn is_html_at(names: &Vec<QualName>, place: u32, name: &LocalName) -> bool
    ensures { result ≡ true → IsNameAt names.now.items place (html_name name.now) }
{
    match names.get(place as usize) {
        Some(known) => known.prefix.is_none()
            && known.ns.is_known(KnownNamespace::Html)
            && known.local == *name,
        None => false,
    }
}

/// Notes the place of the name of an HTML element.
pub(crate) fn note_html(recent: &mut Vec<u32>, slot: usize, place: u32) {
    if let Some(kept) = recent.get_mut(slot) {
        *kept = place;
    }
}
