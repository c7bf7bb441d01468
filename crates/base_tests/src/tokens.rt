//! Worked values of tokens, each public call on the way.

mod sinks;
pub(crate) mod tags;

use html_tokens::states::State;
use html_tokens::{Doctype, ReferenceRow, TableFault, TokenizerOpts};
use markup::{ParseFault, Text};
use std::alloc::Global;

#[test]
fn options_are_defaulted(rt: HostRuntime) {
    let options = TokenizerOpts::default();
    assert!(rt; !options.exact_errors && options.discard_bom);
    assert!(rt; options.initial_state == None && options.last_start_tag_name.is_none());
}

// Whether these are the options below.
fn are_of_plaintext(options: &TokenizerOpts) -> bool {
    let is_title = match &options.last_start_tag_name {
        Some(name) => name.as_str() == "title",
        None => false,
    };
    is_title
        && options.exact_errors
        && !options.discard_bom
        && options.initial_state == Some(State::Plaintext)
}

fn is_copied(alloc: Global, options: &TokenizerOpts) -> bool {
    let Ok(copied) = options.copy(alloc) else {
        return false;
    };
    are_of_plaintext(&copied)
}

fn are_options_copied(alloc: Global) -> bool {
    let Ok(title) = Text::from_str(alloc, "title") else {
        return false;
    };
    let options = TokenizerOpts {
        exact_errors: true,
        discard_bom: false,
        initial_state: Some(State::Plaintext),
        last_start_tag_name: Some(title),
    };
    is_copied(alloc, &options)
}

// Whether the copy of a doctype equals it, and another doctype does not.
fn is_doctype_copied(alloc: Global, doctype: &Doctype, other: &Doctype) -> bool {
    let Ok(copied) = doctype.copy(alloc) else {
        return false;
    };
    copied == *doctype && copied != *other
}

fn legacy(alloc: Global) -> Result<Doctype, ParseFault> {
    let name = Text::from_str(alloc, "html")?;
    let system_id = Text::from_str(alloc, "about:legacy-compat")?;
    Ok(Doctype {
        name: Some(name),
        public_id: None,
        system_id: Some(system_id),
        force_quirks: true,
    })
}

fn are_doctypes_copied(alloc: Global) -> bool {
    let Ok(doctype) = legacy(alloc) else {
        return false;
    };
    are_both_copied(alloc, &doctype, &Doctype::default())
}

fn are_both_copied(alloc: Global, doctype: &Doctype, empty: &Doctype) -> bool {
    is_doctype_copied(alloc, doctype, empty) && is_doctype_copied(alloc, empty, doctype)
}

fn not_equal_tilde(alloc: Global) -> Result<ReferenceRow, TableFault> {
    let name = String::from_str(alloc, "NotEqualTilde;")?;
    Ok(ReferenceRow::new(name, 0x2242, Some(0x338)))
}

fn is_not_equal_tilde(row: &ReferenceRow) -> bool {
    row.name.as_str() == "NotEqualTilde;" && row.first == 0x2242 && row.second == Some(0x338)
}

fn copies_row(alloc: Global, row: &ReferenceRow) -> bool {
    match row.copy(alloc) {
        Ok(copied) => is_not_equal_tilde(&copied),
        Err(_) => false,
    }
}

fn is_row_copied(alloc: Global) -> bool {
    match not_equal_tilde(alloc) {
        Ok(row) => copies_row(alloc, &row),
        Err(_) => false,
    }
}

#[test]
fn options_doctypes_and_rows_are_copied(rt: HostRuntime) {
    assert!(rt; are_options_copied(rt.alloc()));
    assert!(rt; are_doctypes_copied(rt.alloc()));
    assert!(rt; is_row_copied(rt.alloc()));
}
