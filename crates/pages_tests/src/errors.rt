//! The parse errors of pages.

use figpliers::{NotedForest, References, noted_document};
use std::test::Fail;

#[test]
fn errors_without_a_code_are_told_by_words(rt: HostRuntime) -> Result<(), Fail> {
    let alloc = rt.alloc();
    let page = String::from_str(alloc, "\n<p>a\n</b>")?;
    let noted = noted_document(alloc, References::five(alloc)?, page)?;
    assert!(rt; noted.errors.len() == 2);
    for (noted, (line, word)) in noted.errors.iter().zip([
        (2, "missing doctype"),
        (3, "an end tag without its element"),
    ]) {
        assert!(rt; noted.place.line == line && noted.message.as_str().contains(word));
    }
    let empty = NotedForest::new(alloc)?;
    assert!(rt; empty.errors.is_empty() && empty.forest.error_count() == 0);
    Ok(())
}
