//! Looking names up in a table whose rows are ordered.
ghost use Rattle.std.specs.Prelude.{◌≡◌, ◌<◌, ◌≤◌, ℕ, false, length, IsTrue, IfOk, IfErr, IfSome, IfNone, slice_get};
ghost use Rattle.std.specs.Option.{option_and_then};
ghost use Rattle.html_references.specs.References.{goes_on, is_front, is_named, is_reference_name, longest};
ghost use Rattle.html_references.specs.Order.{IsBefore, IsOrder, IsOrdered, IsPlaceOf, name_at, ordered_name};

use crate::references::ReferenceRow;
use crate::references::hints::Hints;
use std::cmp::Ordering;

// The bytes of a row's name, which are its characters.
pub fn name_bytes(row: &ReferenceRow) -> &[u8]
    requires { IsTrue (is_reference_name row.now.name) }
    ensures { result.now ≡ row.now.name }
{
    row.name.as_str().as_bytes()
}

// The bytes of the name at an index of the order.
fn ordered_bytes<'a>(rows: &'a [ReferenceRow], order: &[usize], index: usize) -> &'a [u8]
    requires ordered { IsOrdered rows.now order.now }
    requires within { index < length order.now }
    ensures { result.now ≡ ordered_name rows.now order.now index }
{
    name_bytes(&rows[order[index]])
}

// The index in the order where a name stands, or else where it would.
pub fn search(rows: &[ReferenceRow], order: &[usize], name: &[u8]) -> Result<usize, usize>
    requires { IsOrdered rows.now order.now }
    ensures found { IfOk result (λ index. (index < length order.now) × (ordered_name rows.now order.now index ≡ name.now)) }
    ensures absent { IfErr result (λ index. IsPlaceOf rows.now order.now name.now index) }
{
    let mut low = 0;
    let mut high = order.len();
    while low < high {
        let middle = low + (high - low) / 2;
        match ordered_bytes(rows, order, middle).cmp(name) {
            Ordering::Less => low = middle + 1,
            Ordering::Equal => return Ok(middle),
            Ordering::Greater => high = middle,
        }
    }
    Err(low)
}

// The index of the first name that stands after a text.
fn first_after(rows: &[ReferenceRow], order: &[usize], text: &[u8]) -> usize
    requires { IsOrdered rows.now order.now }
    ensures behind { (index : ℕ) → result ≤ index → index < length order.now → IsBefore text.now (ordered_name rows.now order.now index) }
    ensures first { (index : ℕ) → index < length order.now → IsBefore text.now (ordered_name rows.now order.now index) → result ≤ index }
{
    match search(rows, order, text) {
        Ok(index) => index + 1,
        Err(index) => index,
    }
}

// Whether some name goes on after what is held, by the index of the first name that stands after it.
fn goes_on_at(rows: &[ReferenceRow], order: &[usize], index: usize, held: &[u8]) -> bool
    requires order { IsOrder rows.now order.now }
    requires behind { (i : ℕ) → index ≤ i → i < length order.now → IsBefore held.now (ordered_name rows.now order.now i) }
    requires first { (i : ℕ) → i < length order.now → IsBefore held.now (ordered_name rows.now order.now i) → index ≤ i }
    ensures { result ≡ goes_on rows.now held.now }
{
    index < order.len() && ordered_bytes(rows, order, index).starts_with(held)
}

// Whether some name goes on after what is held.
pub fn goes_on(rows: &[ReferenceRow], order: &[usize], held: &[u8]) -> bool
    requires { IsOrder rows.now order.now }
    ensures { result ≡ goes_on rows.now held.now }
{
    let index = first_after(rows, order, held);
    goes_on_at(rows, order, index, held)
}

// The place of the row of a name.
fn find(rows: &[ReferenceRow], order: &[usize], name: &[u8]) -> Option<usize>
    requires { IsOrder rows.now order.now }
    ensures found { IfSome result (λ place. (place < length rows.now) × (name_at rows.now place ≡ name.now)) }
    ensures absent { IfNone result (is_named rows.now name.now ≡ false) }
{
    match search(rows, order, name) {
        Ok(index) => Some(order[index]),
        Err(_) => None,
    }
}

// The place of the row of a name, if the hints have it.
fn hinted(rows: &[ReferenceRow], order: &[usize], hints: &Hints, name: &[u8]) -> Option<usize>
    requires { IsOrder rows.now order.now }
    ensures { IfSome result (λ place. (place < length rows.now) × (name_at rows.now place ≡ name.now)) }
{
    let _order = order;
    let place = hints.place_of(name);
    if place < rows.len() && name_bytes(&rows[place]) == name {
        return Some(place);
    }
    None
}

// The place of the row of a name, by the hints or else by a search.
pub fn find_hinted(
    rows: &[ReferenceRow],
    order: &[usize],
    hints: &Hints,
    name: &[u8],
) -> Option<usize>
    requires { IsOrder rows.now order.now }
    ensures found { IfSome result (λ place. (place < length rows.now) × (name_at rows.now place ≡ name.now)) }
    ensures absent { IfNone result (is_named rows.now name.now ≡ false) }
{
    match hinted(rows, order, hints, name) {
        Some(place) => Some(place),
        None => find(rows, order, name),
    }
}

// Whether some name begins with a text, by a search.
fn is_searched_front(rows: &[ReferenceRow], order: &[usize], text: &[u8]) -> bool
    requires { IsOrder rows.now order.now }
    ensures { result ≡ is_front rows.now text.now }
{
    match search(rows, order, text) {
        Ok(_) => true,
        Err(index) => goes_on_at(rows, order, index, text),
    }
}

// Whether some name begins with a text.
pub fn is_front(rows: &[ReferenceRow], order: &[usize], hints: &Hints, text: &[u8]) -> bool
    requires { IsOrder rows.now order.now }
    ensures { result ≡ is_front rows.now text.now }
{
    match hinted(rows, order, hints, text) {
        Some(_) => true,
        None => is_searched_front(rows, order, text),
    }
}

// The place of the row with the longest name that a text begins with, one character more at a time.
fn longest_front(rows: &[ReferenceRow], order: &[usize], text: &[u8]) -> Option<usize>
    requires { IsOrder rows.now order.now }
    ensures within { IfSome result (λ place. place < length rows.now) }
    ensures longest { option_and_then (slice_get rows.now) result ≡ longest rows.now text.now }
{
    let mut longest = None;
    let mut end = 0;
    while end < text.len() && goes_on(rows, order, &text[..end]) {
        end += 1;
        longest = find(rows, order, &text[..end]).or(longest);
    }
    longest
}

// The place of the row with the longest name that a text begins with, be it all of the text.
pub fn longest(rows: &[ReferenceRow], order: &[usize], hints: &Hints, text: &[u8]) -> Option<usize>
    requires { IsOrder rows.now order.now }
    ensures within { IfSome result (λ place. place < length rows.now) }
    ensures longest { option_and_then (slice_get rows.now) result ≡ longest rows.now text.now }
{
    match find_hinted(rows, order, hints, text) {
        Some(place) => Some(place),
        None => longest_front(rows, order, text),
    }
}
