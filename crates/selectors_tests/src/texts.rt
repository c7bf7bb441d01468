//! Long texts of selectors. Short ones are rows of `conformance`.
use html_forest::Forest;
use html_selector_text::{Selector, parse, to_text};
use html_selectors::select_all;
use std::alloc::Global;
use std::test::Fail;

// Why a text is no selector, in words.
fn fault_of(alloc: Global, text: &str) -> Result<String, Fail> {
    match Selector::parse(alloc, text) {
        Ok(_) => Ok(String::new(alloc)),
        Err(error) => Ok(format!(in alloc; "{error}")?),
    }
}

#[test]
fn an_empty_document_has_no_elements(rt: HostRuntime) -> Result<(), Fail> {
    let alloc = rt.alloc();
    let forest = Forest::new(alloc)?;
    let selector = Selector::parse(alloc, "*")?;
    let found = select_all(alloc, &forest, forest.document(), &selector)?;
    assert!(rt; found.is_empty());
    Ok(())
}

// A text that is repeated, between two others.
fn repeated(
    alloc: Global,
    before: &str,
    text: &str,
    count: usize,
    after: &str,
) -> Result<String, Fail> {
    let mut whole = String::from_str(alloc, before)?;
    for _ in 0..count {
        whole.push_str(text)?;
    }
    whole.push_str(after)?;
    Ok(whole)
}

// Long texts: what is repeated how often between two texts, and the words of the error.
const LONG: [(&str, &str, usize, &str, &str); 15] = [
    ("", ".a", 4096, "", ""),
    (
        "",
        ".a",
        4096,
        " a",
        "at character 8193: there are more than 4,096 parts",
    ),
    ("", "a ", 4095, "a", ""),
    ("", "a,", 4095, "a", ""),
    ("", "[svg|b = 'c' i]/**/", 4096, "", ""),
    (
        "",
        "[a]",
        4097,
        "",
        "at character 12288: there are more than 4,096 parts",
    ),
    ("", "svg|*:nth-child(even of *|a) > ", 1365, "a", ""),
    (
        "",
        "svg|*:nth-child(even of *|a) > ",
        1365,
        "#a.a",
        "at character 42318: there are more than 4,096 parts",
    ),
    (":has(", "a ", 4094, "a)", ""),
    ("", ":not(a)", 2048, "", ""),
    (":is(", "!, ", 10000, "a)", ""),
    // Each is written as 32 parts.
    (":not(", ":disabled", 127, ")", ""),
    (
        ":not(",
        ":disabled",
        128,
        ")",
        "at character 0: the selectors, written out, have more than 4,096 parts",
    ),
    ("", ":is(", 32, "a", ""),
    (
        "",
        ":is(",
        33,
        "a",
        "at character 132: more than 32 parentheses stand in one another",
    ),
];

#[test]
fn long_texts_take_no_stack(rt: HostRuntime) -> Result<(), Fail> {
    let alloc = rt.alloc();
    for (before, text, count, after, wanted) in LONG {
        let whole = repeated(alloc, before, text, count, after)?;
        let fault = fault_of(alloc, whole.as_str())?;
        assert!(rt; fault.as_str() == wanted, "{before}{text}: {fault}");
    }
    Ok(())
}

// The text that is displayed of the selectors that a text is.
fn written(alloc: Global, text: &str) -> Result<String, Fail> {
    let selector = Selector::parse(alloc, text)?;
    Ok(format!(in alloc; "{selector}")?)
}

#[test]
fn long_selectors_are_written_and_read_back(rt: HostRuntime) -> Result<(), Fail> {
    let alloc = rt.alloc();
    for (before, text, count, after, wanted) in LONG {
        if wanted.is_empty() {
            let whole = repeated(alloc, before, text, count, after)?;
            let once = written(alloc, whole.as_str())?;
            assert!(rt; !once.is_empty());
            let twice = written(alloc, once.as_str())?;
            assert!(rt; once == twice, "{before}{text}");
        }
    }
    Ok(())
}

#[test]
fn a_selector_has_a_text_and_a_tree(rt: HostRuntime) -> Result<(), Fail> {
    let alloc = rt.alloc();
    let selector = Selector::parse(alloc, "a>b")?;
    assert!(rt; selector.as_str() == "a > b");
    let padded = format!(in alloc; "{selector:>7}")?;
    assert!(rt; padded.as_str() == "  a > b");
    let text = to_text(alloc, &selector)?;
    assert!(rt; text.as_str() == "a > b");
    let text = to_text(alloc, &selector.into_selectors())?;
    assert!(rt; text.as_str() == "a > b");
    let text = to_text(alloc, &parse(alloc, "a>b")?)?;
    assert!(rt; text.as_str() == "a > b");
    Ok(())
}
