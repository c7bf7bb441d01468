//! What a reference that was held stands for (HTML Standard, sections 13.2.5.72 to 13.2.5.80).
ghost use Rattle.std.specs.Prelude.{◌≡◌, ◌≤◌, ◌&&◌, not, ◌∷◌, [], ◌++◌, IfErr, IfOk, IfSome, IsTrue, OnOk, length, true};
ghost use Rattle.std.specs.Option.{option_map};
ghost use Rattle.std.specs.List.{list_all};
ghost use Rattle.std.specs.Str.{chars};
ghost use Rattle.html_tokens.specs.Reference.{goes_on_at};
ghost use Rattle.html_references.specs.References.{IsCheckedTable, has_values, is_front, is_reference_name, is_reference_value, longest};
ghost use Rattle.markup.specs.declared.fault.ParseFault.TheVariants.{Memory};
ghost use Rattle.html_tokenizer_parts.specs.CharRefs;
ghost use Rattle.html_tokens.specs.Table.{values};

use crate::held_reference::HeldReference;
use crate::numbers::{self, Found, ReferenceFaults};
use html_references::References;
use html_tokens::table::ReferenceRow;
use markup::{ParseFault, Text};
use std::alloc::Global;

/// Whether letters, digits, `#` and `;` are written with this character.
fn is_held(c: char) -> bool
    ensures { result ≡ CharRefs.is_held c }
{
    c.is_ascii_alphanumeric() || c == ';' || c == '#'
}

/// Whether some name begins with a text and then this character. After `;` none goes on.
fn name_goes_on(
    alloc: Global,
    table: &References,
    held: &HeldReference,
    c: char,
) -> Result<bool, ParseFault>
    ensures is { IfOk result (λ goes_on. goes_on ≡ is_front table.now (held.now ++ c ∷ [])) }
    ensures fault { IfErr result (λ fault. fault ≡ Memory) }
{
    let _rows = table.rows();
    let text = held.as_str();
    if text.as_bytes().ends_with(b";") {
        return Ok(false);
    }
    let mut longer = Text::from_str(alloc, text)?;
    longer.push(c)?;
    Ok(table.is_front(longer.as_str()))
}

/// Whether a reference of which this is held may go on by this character, to one that some text after both makes.
pub fn may_go_on(
    alloc: Global,
    table: &References,
    held: &HeldReference,
    c: char,
) -> Result<bool, ParseFault>
    requires { CharRefs.is_held_front table.now held.now ≡ true }
    ensures is { IfOk result (λ goes_on. goes_on ≡ CharRefs.may_go_on table.now held.now c) }
    ensures table { IsCheckedTable table.now }
    ensures held { list_all CharRefs.is_held held.now ≡ true }
    ensures fault { IfErr result (λ fault. fault ≡ Memory) }
{
    let _rows = table.rows();
    let text = held.as_str();
    if !is_held(c) {
        return Ok(false);
    }
    match text.as_bytes().first() {
        None if c == '#' => Ok(true),
        Some(b'#') => Ok(numbers::goes_on(&text.as_bytes()[1..], c)),
        _ => name_goes_on(alloc, table, held, c),
    }
}

/// Whether a name goes on by a character: `=`, a letter or a digit.
pub fn goes_on_at(c: char) -> bool
    ensures { result ≡ goes_on_at (c ∷ []) }
{
    c == '=' || c.is_ascii_alphanumeric()
}

/// The same at the front of what is held after a name, by whether it follows where nothing is held.
fn goes_on_before(text: &[u8], follows: bool) -> bool
    ensures { result ≡ CharRefs.goes_on_before text.now follows }
{
    match text.first() {
        None => follows,
        Some(byte) => *byte == b'=' || byte.is_ascii_alphanumeric(),
    }
}

/// Whether a name in an attribute's value is text there, by what is held after it.
fn is_text(in_value: bool, name: &str, behind: &[u8], follows: bool) -> bool
    ensures { result ≡ (in_value && CharRefs.is_text_before name.now behind.now follows) }
{
    in_value && !name.as_bytes().ends_with(b";") && goes_on_before(behind, follows)
}

/// A row's name, whose characters are its bytes.
fn name_of(row: &ReferenceRow) -> &str
    requires { IsTrue (is_reference_name row.now.name) }
    ensures { result.now ≡ row.now.name }
{
    row.name.as_str()
}

/// The character of a table's value.
fn character(value: u32) -> char
    requires { IsTrue (is_reference_value value) }
    ensures { result ≡ value }
{
    char::from_u32(value).unwrap_or('\u{FFFD}')
}

/// The reference that a row's name is.
fn row_found(row: &ReferenceRow) -> Found
    requires name { IsTrue (is_reference_name row.now.name) }
    requires values { IsTrue (has_values row.now) }
    ensures { CharRefs.reference_of result ≡ record { chars = values row.now; len = length row.now.name } }
{
    let second = match row.second {
        None => None,
        Some(value) => Some(character(value)),
    };
    Found {
        first: character(row.first),
        second,
        len: name_of(row).len(),
    }
}

/// The reference that a text is, if it is a name of the table.
pub fn whole(table: &References, name: &str) -> Option<Found>
    ensures { IfSome result (CharRefs.IsWhole table.now (chars name.now)) }
{
    let _rows = table.rows();
    let row = table.named(name)?;
    Some(row_found(row))
}

/// What was decided of a reference that was held.
#[derive(Clone, Copy)]
pub struct Decision {
    /// The reference, or none where `&` is text.
    pub found: Option<Found>,
    /// Its errors.
    pub faults: ReferenceFaults,
}

/// What has no error.
const NO_FAULTS: ReferenceFaults = ReferenceFaults {
    lacks_semicolon: false,
    fault: None,
};

/// The errors of a name of the table, if it has one: it has no `;`.
fn name_faults(name: &str) -> ReferenceFaults
    ensures { CharRefs.has_fault result ≡ not (CharRefs.ends_in_semicolon name.now) }
{
    ReferenceFaults {
        lacks_semicolon: !name.as_bytes().ends_with(b";"),
        fault: None,
    }
}

/// A named reference, by what was held and whether `=`, a letter or a digit follows.
fn named(table: &References, in_value: bool, text: &str, follows: bool) -> Decision
    requires { chars text.now ≡ text.now }
    ensures found { option_map CharRefs.reference_of result.found ≡ CharRefs.named_before in_value
        (longest table.now text.now) text.now follows }
    ensures fault { CharRefs.has_fault result.faults ≡ CharRefs.is_faulty_named in_value (longest table.now text.now) text.now follows }
{
    let _rows = table.rows();
    let Some(row) = table.longest(text) else {
        return Decision {
            found: None,
            faults: NO_FAULTS,
        };
    };
    let found = row_found(row);
    if is_text(
        in_value,
        name_of(row),
        &text.as_bytes()[found.len..],
        follows,
    ) {
        return Decision {
            found: None,
            faults: NO_FAULTS,
        };
    }
    Decision {
        found: Some(found),
        faults: name_faults(name_of(row)),
    }
}

/// The reference that was held, by whether `=`, a letter or a digit follows.
fn find(table: &References, in_value: bool, held: &HeldReference, follows: bool) -> Decision
    ensures found { option_map CharRefs.reference_of result.found ≡ CharRefs.decided in_value table.now held.now follows }
    ensures fault { CharRefs.has_fault result.faults ≡ CharRefs.is_faulty in_value table.now held.now follows }
{
    let text = held.as_str();
    match text.as_bytes().first() {
        None => Decision {
            found: None,
            faults: NO_FAULTS,
        },
        Some(b'#') => Decision {
            found: numbers::numeric(&text.as_bytes()[1..]),
            faults: numbers::numeric_faults(&text.as_bytes()[1..]),
        },
        Some(_) => named(table, in_value, text, follows),
    }
}

/// The same, which takes no more than what is held.
pub fn decided(table: &References, in_value: bool, held: &HeldReference, follows: bool) -> Decision
    ensures is { option_map CharRefs.reference_of result.found ≡ CharRefs.decided in_value table.now held.now follows }
    ensures fault { CharRefs.has_fault result.faults ≡ CharRefs.is_faulty in_value table.now held.now follows }
    ensures within { IfSome result.found (λ found. found.len ≤ length held.now) }
{
    find(table, in_value, held, follows)
}

/// Whether what was held is a name that no `;` ended, or the character after `&` begins one, and no name of the table stands
/// there.
pub fn is_unknown(table: &References, held: &HeldReference, c: char) -> bool
    ensures { result ≡ CharRefs.is_unknown table.now held.now c }
{
    let text = held.as_str();
    match text.as_bytes().first() {
        None => c.is_ascii_alphanumeric(),
        Some(b'#') => false,
        Some(_) => !text.as_bytes().ends_with(b";") && table.longest(text).is_none(),
    }
}

/// Adds the characters of a reference to a text.
pub fn push_found(text: &mut Text, found: Found) -> Result<(), ParseFault>
    ensures ok { OnOk result (text.new ≡ text.old ++ (CharRefs.reference_of found).chars) }
    ensures fault { IfErr result (λ fault. fault ≡ Memory) }
{
    text.push(found.first)?;
    match found.second {
        Some(second) => text.push(second),
        None => Ok(()),
    }
}

/// Adds what `&` and the characters that were held stand for to a text.
pub fn push_resolved(
    text: &mut Text,
    found: Option<Found>,
    held: &HeldReference,
) -> Result<(), ParseFault>
    requires { IfSome found (λ f. f.len ≤ length held.now) }
    ensures ok { OnOk result (text.new ≡ text.old ++ CharRefs.resolved_by (option_map CharRefs.reference_of found) held.now) }
    ensures fault { IfErr result (λ fault. fault ≡ Memory) }
{
    let Some(found) = found else {
        text.push('&')?;
        return text.push_str(held.as_str());
    };
    push_found(text, found)?;
    text.push_str(held.behind(found.len))
}
