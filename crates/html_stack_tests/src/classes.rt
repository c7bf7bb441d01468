//! In which sets elements are.

use crate::stack::name_of;
use html_names::{ElementClass, ElementNamespace, equals_any_case, is_in};
use html_rules::TagSet;
use markup::{KnownNamespace, LocalName, ParseFault};
use std::alloc::Global;

fn is_of_set(
    alloc: Global,
    namespace: ElementNamespace,
    name: &str,
    set: TagSet,
) -> Result<bool, ParseFault> {
    let name = LocalName::from_str(alloc, name)?;
    Ok(ElementClass::of(namespace, &name).is_in(set))
}

#[test]
fn elements_are_in_their_sets(rt: HostRuntime) {
    let rows: &[(ElementNamespace, &str, TagSet, bool)] = &[
        (ElementNamespace::Html, "table", TagSet::DefaultScope, true),
        (ElementNamespace::Html, "p", TagSet::DefaultScope, false),
        (ElementNamespace::Html, "button", TagSet::ButtonScope, true),
        (ElementNamespace::Html, "ul", TagSet::ListItemScope, true),
        (ElementNamespace::Html, "isindex", TagSet::SpecialTag, true),
        (ElementNamespace::Html, "desc", TagSet::DefaultScope, false),
        (ElementNamespace::Html, "my-tag", TagSet::SpecialTag, false),
        (ElementNamespace::Html, "xmp", TagSet::Xmp, true),
        (ElementNamespace::MathMl, "mi", TagSet::DefaultScope, true),
        (ElementNamespace::MathMl, "mi", TagSet::TableScope, false),
        (
            ElementNamespace::MathMl,
            "annotation-xml",
            TagSet::AnnotationXml,
            true,
        ),
        (
            ElementNamespace::MathMl,
            "table",
            TagSet::DefaultScope,
            false,
        ),
        (
            ElementNamespace::Svg,
            "foreignObject",
            TagSet::ButtonScope,
            true,
        ),
        (
            ElementNamespace::Svg,
            "foreignobject",
            TagSet::ButtonScope,
            false,
        ),
        (
            ElementNamespace::Svg,
            "title",
            TagSet::SvgHtmlIntegrationPoint,
            true,
        ),
        (ElementNamespace::Svg, "title", TagSet::Title, false),
        (
            ElementNamespace::Other,
            "table",
            TagSet::DefaultScope,
            false,
        ),
    ];
    for (namespace, name, set, want) in rows {
        assert!(rt; is_of_set(rt.alloc(), *namespace, name, *set) == Ok(*want));
    }
}

// Whether the name of a tag, and its class, are in a set; both say the same.
fn is_tag_in(alloc: Global, name: &str, set: TagSet) -> Result<Option<bool>, ParseFault> {
    let name = LocalName::from_str(alloc, name)?;
    let found = is_in(&name, set);
    if ElementClass::html(&name).is_in(set) == found {
        Ok(Some(found))
    } else {
        Ok(None)
    }
}

#[test]
fn tags_are_in_their_sets(rt: HostRuntime) {
    let rows: &[(&str, TagSet, bool)] = &[
        ("h6", TagSet::HeadingTag, true),
        ("h7", TagSet::HeadingTag, false),
        ("nobr", TagSet::FormattingTag, false),
        ("nobr", TagSet::FormattingEnd, true),
        ("a", TagSet::A, true),
        ("summary", TagSet::Block, true),
    ];
    for (name, set, want) in rows {
        assert!(rt; is_tag_in(rt.alloc(), name, *set) == Ok(Some(*want)));
    }
}

#[test]
fn texts_are_compared_in_any_case(rt: HostRuntime) {
    let rows: &[(&str, bool)] = &[
        ("Content-TYPE", true),
        ("content-type", true),
        ("content-typ", false),
        ("content-types", false),
        ("çontent-typ", false),
        ("", false),
    ];
    for (text, want) in rows {
        assert!(rt; equals_any_case(text, "content-type") == *want);
    }
}

// Whether an element of SVG has another name but for the case of letters of ASCII.
fn is_named_so(alloc: Global, name: &str, other: &str) -> Result<bool, ParseFault> {
    let element = name_of(alloc, KnownNamespace::Svg, name)?;
    let other = LocalName::from_str(alloc, other)?;
    Ok(element.is_named_any_case(&other))
}

#[test]
fn names_are_compared_in_any_case(rt: HostRuntime) {
    let rows: &[(&str, &str, bool)] = &[
        ("foreignObject", "FOREIGNobject", true),
        ("foreignObject", "foreignobject", true),
        ("foreignObject", "foreignobjects", false),
        ("my-Tag", "MY-tAG", true),
        ("my-tag", "my-tab", false),
        // The sign of kelvin, and letters beyond ASCII, have no other case here.
        ("\u{212A}", "k", false),
        ("my-\u{C9}", "MY-\u{C9}", true),
        ("my-\u{C9}", "my-\u{E9}", false),
        ("", "", true),
    ];
    for (name, other, want) in rows {
        assert!(rt; is_named_so(rt.alloc(), name, other) == Ok(*want));
    }
}
