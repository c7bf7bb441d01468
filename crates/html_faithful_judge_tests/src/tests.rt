//! What is read as it is written.
use html_faithful_judge::{
    emitted_attributes, is_attribute_name, is_comment_text, is_kept, is_raw_text, is_tag_name,
};
use html_tokens::states::RawKind;
use markup::{Attribute, LocalName, Namespace, ParseFault, QualName, Text};
use std::alloc::Global;

const TAG_NAMES: &[(&str, bool)] = &[
    ("p", true),
    ("h1", true),
    ("x-\u{e9}", true),
    ("p<", true),
    ("", false),
    ("P", false),
    ("1h", false),
    ("a b", false),
    ("a/", false),
    ("a>", false),
    ("a\0", false),
];

const ATTRIBUTE_NAMES: &[(&str, bool)] = &[
    ("href", true),
    ("1", true),
    ("xlink:href", true),
    ("\u{e9}", true),
    ("", false),
    ("Href", false),
    ("a=b", false),
    ("a\"", false),
    ("<", false),
    ("a b", false),
];

const TEXTS: &[(&str, bool)] = &[
    ("", true),
    ("a\nb", true),
    ("a\0", false),
    ("a\r\nb", false),
];

const COMMENTS: &[(&str, bool)] = &[
    ("", true),
    (" a ", true),
    ("a--b", true),
    ("a-", true),
    ("a--!", true),
    ("<!--", true),
    ("-", true),
    (">", false),
    ("->", false),
    ("->a", false),
    ("a-->b", false),
    ("a--!>b", false),
    ("a\r", false),
];

const RAW_TEXTS: &[(RawKind, &str, &str, bool)] = &[
    (RawKind::Rcdata, "title", "</title>", true),
    (RawKind::Rcdata, "x-y", "a", false),
    (RawKind::Rawtext, "style", "a</b>", true),
    (RawKind::Rawtext, "style", "a</styles>", true),
    (RawKind::Rawtext, "style", "a</STYLE>", false),
    (RawKind::Rawtext, "style", "a</style ", false),
    (RawKind::ScriptData, "script", "a</b>", true),
    (RawKind::ScriptData, "script", "a</script ", false),
    (
        RawKind::ScriptData,
        "script",
        "<!--<script></script>-->",
        true,
    ),
    (RawKind::ScriptData, "script", "<!--<script>", false),
    (RawKind::ScriptData, "style", "a", false),
];

fn are_names_judged() -> bool {
    TAG_NAMES.iter().all(|row| is_tag_name(row.0) == row.1)
        && ATTRIBUTE_NAMES
            .iter()
            .all(|row| is_attribute_name(row.0) == row.1)
        && TEXTS.iter().all(|row| is_kept(row.0) == row.1)
}

fn are_comments_judged(alloc: Global) -> Result<bool, ParseFault> {
    for (text, kept) in COMMENTS {
        if is_comment_text(alloc, *text)? != *kept {
            return Ok(false);
        }
    }
    Ok(true)
}

fn are_raw_texts_judged(alloc: Global) -> Result<bool, ParseFault> {
    for (kind, name, text, kept) in RAW_TEXTS {
        if is_raw_text(alloc, *kind, *name, *text)? != *kept {
            return Ok(false);
        }
    }
    Ok(true)
}

fn attribute(
    alloc: Global,
    namespace: &str,
    name: &str,
    value: &str,
) -> Result<Attribute, ParseFault> {
    Ok(Attribute {
        name: QualName::new(
            None,
            Namespace::new(String::from_str(alloc, namespace)?),
            LocalName::from_str(alloc, name)?,
        ),
        value: Text::from_str(alloc, value)?,
    })
}

// The name of the last of two attributes as it is emitted; none where they are not emitted as they are written.
fn emitted(
    alloc: Global,
    first: (&str, &str, &str),
    second: (&str, &str, &str),
) -> Result<Option<LocalName>, ParseFault> {
    let attributes = [
        attribute(alloc, first.0, first.1, first.2)?,
        attribute(alloc, second.0, second.1, second.2)?,
    ];
    match emitted_attributes(alloc, &attributes)? {
        Some(emitted) => match emitted.as_slice().last() {
            Some(last) => Ok(Some(last.name.local.copy(alloc)?)),
            None => Ok(None),
        },
        None => Ok(None),
    }
}

fn is_emitted_as(found: Result<Option<LocalName>, ParseFault>, name: &str) -> bool {
    match found {
        Ok(Some(found)) => found.as_str() == name,
        _ => false,
    }
}

fn is_not_emitted(found: Result<Option<LocalName>, ParseFault>) -> bool {
    match found {
        Ok(None) => true,
        _ => false,
    }
}

#[test]
fn names_are_judged(rt: HostRuntime) {
    assert!(rt; are_names_judged());
}

#[test]
fn comments_are_judged(rt: HostRuntime) {
    assert!(rt; are_comments_judged(rt.alloc()) == Ok(true));
}

#[test]
fn raw_texts_are_judged(rt: HostRuntime) {
    assert!(rt; are_raw_texts_judged(rt.alloc()) == Ok(true));
}

#[test]
fn attributes_are_emitted(rt: HostRuntime) {
    let alloc = rt.alloc();
    assert!(rt; is_emitted_as(emitted(alloc, ("", "a", "1"), ("", "b", "2")), "b"));
    assert!(rt;
        is_emitted_as(
            emitted(
                alloc,
                ("", "a", "1"),
                ("http://www.w3.org/1999/xlink", "href", "2")
            ),
            "xlink:href"
        )
    );
    assert!(rt;
        is_emitted_as(
            emitted(alloc, ("", "a", "1"), ("", "viewBox", "2")),
            "viewbox"
        )
    );
    assert!(rt; is_not_emitted(emitted(alloc, ("", "a", "1"), ("", "a", "2"))));
    assert!(rt; is_not_emitted(emitted(alloc, ("", "a", "1"), ("", "b", "\r"))));
    assert!(rt; is_not_emitted(emitted(alloc, ("", "a=b", "1"), ("", "b", "2"))));
}
