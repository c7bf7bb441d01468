//! The places of rows in the order of their names.
ghost use Rattle.std.specs.Prelude.{◌≡◌, ◌<◌, ◌↔◌, true, length, map, min, All, IfOk, IsTrue};
ghost use Rattle.std.specs.Option.{option_map_or};
ghost use Rattle.html_references.specs.Order.{IsArranged, IsFirstRepeat, IsRepeat, is_good};

use crate::references::{ReferenceRow, order};
use std::alloc::{AllocError, Global};

// The places that stand beside names.
fn places_of(alloc: Global, names: &[(&[u8], usize)]) -> Result<Vec<usize>, AllocError>
    ensures { IfOk result (λ places. places.items ≡ map (λ named. named.1) names.now) }
{
    names.iter().map(|named| named.1).collect(alloc)
}

// The places of rows by their names, and those of equal names in their order.
pub fn arranged(alloc: Global, rows: &[ReferenceRow]) -> Result<Vec<usize>, AllocError>
    requires { All (λ row. is_good row ≡ true) rows.now }
    ensures { IfOk result (λ order. IsArranged rows.now order.items) }
{
    let mut names = Vec::with_capacity(alloc, rows.len())?;
    for (place, row) in rows.iter().enumerate() {
        names.push((order::name_bytes(row), place))?;
    }
    names.sort_unstable();
    places_of(alloc, &names)
}

// Whether the names at an index of the order and just after it are the same.
fn is_repeated(rows: &[ReferenceRow], order: &[usize], index: usize) -> bool
    requires good { All (λ row. is_good row ≡ true) rows.now }
    requires arranged { IsArranged rows.now order.now }
    requires within { index < length order.now }
    ensures { IsTrue result ↔ IsRepeat rows.now order.now index }
{
    index + 1 < order.len()
        && order::name_bytes(&rows[order[index]]) == order::name_bytes(&rows[order[index + 1]])
}

// A place, or an earlier one.
fn sooner(first: Option<usize>, place: usize) -> usize
    ensures { result ≡ option_map_or (λ known. min known place) first place }
{
    match first {
        Some(known) => known.min(place),
        None => place,
    }
}

// The place of the first row that has the name of an earlier one.
pub fn first_repeat(rows: &[ReferenceRow], order: &[usize]) -> Option<usize>
    requires good { All (λ row. is_good row ≡ true) rows.now }
    requires arranged { IsArranged rows.now order.now }
    ensures { IsFirstRepeat rows.now order.now result }
{
    let mut first = None;
    for index in 0..order.len() {
        if is_repeated(rows, order, index) {
            first = Some(sooner(first, order[index + 1]));
        }
    }
    first
}
