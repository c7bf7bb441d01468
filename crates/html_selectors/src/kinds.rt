//! Numbers for the names of elements, so that names are compared once and not pair by pair.
ghost use Rattle.std.specs.Prelude.{◌≡◌, ◌≤◌, ◌<◌, ◌+◌, ◌^◌, ℕ, Option, IfErr, IfOk, OnOk, Some, cond, unwrap_or};
ghost use Rattle.std.specs.BTreeMap.{get};
ghost use Rattle.markup.specs.Forest.{node_count};
ghost use Rattle.markup.specs.declared.fault.ParseFault.TheVariants.{Memory};
ghost use Rattle.html_selectors.specs.Kinds as kinds;
ghost use Rattle.html_selectors.specs.Kinds.{AreKinds, AreNotes, IsNoted, IsNumbered, Key, key_cmp, name_at, same_key};

use crate::page_index::Index;
use html_forest::NodeId;
use html_nodes::element_name;
use markup::{KnownNamespace, LocalName, Namespace, ParseFault, QualName};
use std::alloc::Global;
use std::collections::BTreeMap;

// As many places of known names have notes; there are fewer known names.
const NOTED: usize = 1024;

// What is compared of a name.
fn key_of(alloc: Global, name: &QualName) -> Result<(LocalName, Namespace), ParseFault>
    ensures ok { IfOk result (λ key. key ≡ kinds.key_of name.now) }
    ensures fault { IfErr result (λ fault. fault ≡ Memory) }
{
    Ok((name.local.copy(alloc)?, name.ns.copy(alloc)?))
}

// The number of a key; `next`, where it has none yet.
fn number_of(
    table: &mut BTreeMap<(LocalName, Namespace), usize>,
    key: (LocalName, Namespace),
    next: usize,
) -> Result<usize, ParseFault>
    ensures number { IfOk result (λ number. number ≡ unwrap_or (get key_cmp table.old key) next) }
    ensures table { IfOk result (λ number. (q : Key) → get key_cmp table.new q
        ≡ cond (same_key key q) (Some number) (get key_cmp table.old q)) }
    ensures fault { IfErr result (λ fault. fault ≡ Memory) }
{
    if let Some(number) = table.get(&key) {
        return Ok(*number);
    }
    table.insert(key, next)?;
    Ok(next)
}

// The number that was noted for a name of HTML; 0 where none was.
fn noted(notes: &[usize], name: &QualName) -> usize
    ensures { (look : Key → Option ℕ) → AreNotes notes.now look → IsNoted result (look (kinds.key_of name.now)) }
{
    match name.local.known() {
        Some(known) => {
            if name.ns.is_known(KnownNamespace::Html) {
                match notes.get(usize::from(known.place)) {
                    Some(number) => *number,
                    None => 0,
                }
            } else {
                0
            }
        }
        None => 0,
    }
}

// Notes the number of a name, where it is a known one of HTML.
fn note(notes: &mut Vec<usize>, name: &QualName, number: usize)
    ensures { (look : Key → Option ℕ) → AreNotes notes.old.items look → look (kinds.key_of name.now) ≡ Some number
        → AreNotes notes.new.items look }
{
    if let Some(known) = name.local.known() {
        if name.ns.is_known(KnownNamespace::Html) {
            let place = usize::from(known.place);
            if place < notes.len() {
                notes[place] = number;
            }
        }
    }
}

// The number of the name of an element.
fn number_name(
    index: &Index<'_>,
    name: &QualName,
    next: usize,
    table: &mut BTreeMap<(LocalName, Namespace), usize>,
    notes: &mut Vec<usize>,
) -> Result<usize, ParseFault>
    requires { AreNotes notes.old.items (get key_cmp table.old) }
    ensures number { IfOk result (λ number. number ≡ unwrap_or (get key_cmp table.old (kinds.key_of name.now)) next) }
    ensures table { IfOk result (λ number. (q : Key) → get key_cmp table.new q
        ≡ cond (same_key (kinds.key_of name.now) q) (Some number) (get key_cmp table.old q)) }
    ensures notes { OnOk result (AreNotes notes.new.items (get key_cmp table.new)) }
    ensures fault { IfErr result (λ fault. fault ≡ Memory) }
{
    let before = noted(notes.as_slice(), name);
    if before > 0 {
        return Ok(before);
    }
    let key = key_of(index.alloc, name)?;
    let number = number_of(table, key, next)?;
    note(notes, name, number);
    Ok(number)
}

// The number of the name of a node; 0 where it is no element.
fn kind_of(
    index: &Index<'_>,
    id: NodeId,
    table: &mut BTreeMap<(LocalName, Namespace), usize>,
    notes: &mut Vec<usize>,
) -> Result<usize, ParseFault>
    requires number { id + 1 < 2 ^ 64 }
    requires notes { AreNotes notes.old.items (get key_cmp table.old) }
    ensures ok { IfOk result (λ kind. IsNumbered (name_at index.now.forest.now id) id kind
        (get key_cmp table.old) (get key_cmp table.new)) }
    ensures notes { OnOk result (AreNotes notes.new.items (get key_cmp table.new)) }
    ensures fault { IfErr result (λ fault. fault ≡ Memory) }
{
    match element_name(index.forest, id) {
        Some(name) => number_name(index, name, id.number() + 1, table, notes),
        None => Ok(0),
    }
}

// No numbers.
fn no_numbers(alloc: Global, size: usize) -> Result<Vec<usize>, ParseFault>
    ensures none { IfOk result (λ numbers. (k : ℕ) → kinds.kind_at numbers.items k ≡ 0) }
    ensures fault { IfErr result (λ fault. fault ≡ Memory) }
{
    Ok(vec![in alloc; 0; size]?)
}

// No number noted.
fn no_notes(alloc: Global) -> Result<Vec<usize>, ParseFault>
    ensures ok { IfOk result (λ notes. (look : Key → Option ℕ) → AreNotes notes.items look) }
    ensures fault { IfErr result (λ fault. fault ≡ Memory) }
{
    let notes = no_numbers(alloc, NOTED)?;
    Ok(notes)
}

/// For each node the number of its name: one more than the number of the first element of that name, and 0 where it is no element.
pub(crate) fn number_names(index: &Index<'_>) -> Result<Vec<usize>, ParseFault>
    ensures kinds { IfOk result (λ kinds. AreKinds index.now.forest.now kinds.items) }
    ensures small { IfOk result (λ numbers. (n : ℕ) → kinds.kind_at numbers.items n ≤ node_count index.now.forest.now) }
    ensures fault { IfErr result (λ fault. fault ≡ Memory) }
{
    index.forest.keeps();
    let mut table = BTreeMap::new(index.alloc);
    let mut notes = no_notes(index.alloc)?;
    let mut kinds = Vec::new(index.alloc);
    kinds.reserve(index.count)?;
    for number in 0..index.count {
        let kind = kind_of(index, NodeId::new(number), &mut table, &mut notes)?;
        kinds.push(kind)?;
    }
    Ok(kinds)
}
