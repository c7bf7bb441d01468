//! Checking the rows of a table, each by itself.
ghost use Rattle.std.specs.Prelude.{◌≡◌, ◌<◌, ◌≤◌, false, true, length, take, slice_index_or, All};
ghost use Rattle.std.specs.Char.{is_ascii_alphanumeric};
ghost use Rattle.std.specs.List.{list_all};
ghost use Rattle.html_references.specs.References.{has_values, is_reference_name, is_reference_value, stem};
ghost use Rattle.html_references.specs.Order.{is_good, own_fault};
ghost use Rattle.html_tokens.specs.declared.table.ReferenceRow.{ReferenceRow};

use crate::references::{ReferenceRow, TableFault};

// A name without the `;` at its end.
fn stem(name: &[u8]) -> &[u8]
    ensures { result.now ≡ stem name.now }
{
    name.strip_suffix(b";").unwrap_or(name)
}

fn is_alphanumeric(text: &[u8]) -> bool
    ensures { result ≡ list_all is_ascii_alphanumeric text.now }
{
    text.iter().all(|byte| byte.is_ascii_alphanumeric())
}

// Whether bytes are a name: letters and digits, one at least, and `;` or nothing after them.
fn is_name(name: &[u8]) -> bool
    ensures { result ≡ is_reference_name name.now }
{
    let stem = stem(name);
    !stem.is_empty() && is_alphanumeric(stem)
}

// Whether a value is the number of a character that may be stood for.
fn is_value(value: u32) -> bool
    ensures { result ≡ is_reference_value value }
{
    value != 0 && char::from_u32(value).is_some()
}

// Whether the values of a row are.
fn are_values(row: &ReferenceRow) -> bool
    ensures { result ≡ has_values row.now }
{
    is_value(row.first) && row.second.is_none_or(is_value)
}

// Whether the name of a row is one.
fn is_named_well(row: &ReferenceRow) -> bool
    ensures { result ≡ is_reference_name row.now.name }
{
    is_name(row.name.as_str().as_bytes())
}

// Whether a row has a good name and good values.
fn is_good(row: &ReferenceRow) -> bool
    ensures { result ≡ is_good row.now }
{
    is_named_well(row) && are_values(row)
}

// How many rows stand before the first that has a bad name or a bad value.
pub fn good_front(rows: &[ReferenceRow]) -> usize
    ensures within { result ≤ length rows.now }
    ensures good { All (λ row. is_good row ≡ true) (take result rows.now) }
    ensures bad { (d : ReferenceRow) → result < length rows.now → is_good (slice_index_or rows.now result d) ≡ false }
{
    for (place, row) in rows.iter().enumerate() {
        if !is_good(row) {
            return place;
        }
    }
    rows.len()
}

// What is wrong with a row of this number that has a bad name or a bad value.
pub fn own_fault(row: &ReferenceRow, number: u64) -> TableFault
    requires { is_good row.now ≡ false }
    ensures { result ≡ own_fault number row.now }
{
    if is_named_well(row) {
        TableFault::BadValue(number)
    } else {
        TableFault::BadName(number)
    }
}
