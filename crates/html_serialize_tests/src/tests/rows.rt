//! Worked rows, and writers that fail.
use super::calls::{Call, Outcome, PLAIN, Way, make, make_each, options, started, written_by};
use devices::MemWriter;
use html_serialize::{HtmlSerializer, SerializeOpts};
use markup::{ParseFault, SerializeFault, Serializer, TraversalScope, namespaces};
use std::alloc::Global;

// One call of each kind.
const EACH: [Call<'static>; 8] = [
    Call::Doctype("html"),
    Call::Start(
        "p",
        &[("", "x", "\"<&\u{A0}"), (namespaces::XLINK, "href", "u")],
    ),
    Call::Text("a<b > \u{A0}\u{B0}&"),
    Call::Comment("c<"),
    Call::Instruction("t", "d"),
    Call::Start("br", &[]),
    Call::End("br"),
    Call::End("p"),
];

const EACH_TEXT: &str =
    "<!DOCTYPE html><p x=\"&quot;&lt;&amp;&nbsp;\" xlink:href=\"u\">a&lt;b &gt; &nbsp;\u{B0}&amp;<!--c<--><?t d><br></p>";

// A way, calls, what the last one answers, and what is written.
type RowOfCalls = (
    Way<'static>,
    &'static [Call<'static>],
    Result<(), SerializeFault>,
    &'static str,
);

const CREATES: Way<'static> = Way {
    creates: true,
    ..PLAIN
};

const NO_SCRIPTS: Way<'static> = Way {
    scripting: false,
    ..PLAIN
};

const UNDER_STYLE: Way<'static> = Way {
    under: Some("style"),
    ..PLAIN
};

const ROWS: &[RowOfCalls] = &[
    (PLAIN, &[], Ok(()), ""),
    (PLAIN, &EACH, Ok(()), EACH_TEXT),
    (
        PLAIN,
        &[Call::End("p"), Call::Text("a")],
        Err(SerializeFault::NoParent),
        "</p>",
    ),
    (
        PLAIN,
        &[Call::End("p"), Call::Start("a", &[])],
        Err(SerializeFault::NoParent),
        "</p>",
    ),
    (
        PLAIN,
        &[Call::End("p"), Call::End("p")],
        Err(SerializeFault::NoElemInfo),
        "</p>",
    ),
    (
        CREATES,
        &[
            Call::End("p"),
            Call::Text("a"),
            Call::End("p"),
            Call::End("p"),
        ],
        Ok(()),
        "</p>a</p></p>",
    ),
    (
        CREATES,
        &[Call::End("p"), Call::Start("b", &[])],
        Ok(()),
        "</p><b>",
    ),
    (
        PLAIN,
        &[Call::Start("br", &[]), Call::Text("x"), Call::End("br")],
        Ok(()),
        "<br>x",
    ),
    (
        PLAIN,
        &[
            Call::Start("br", &[]),
            Call::Start("b", &[]),
            Call::Comment("x"),
            Call::End("b"),
        ],
        Ok(()),
        "<br><!--x-->",
    ),
    (
        PLAIN,
        &[
            Call::Start(
                "a",
                &[("", "x", "a\"<>&\u{A0}"), (namespaces::XLINK, "href", "u")],
            ),
            Call::Text("\""),
        ],
        Ok(()),
        "<a x=\"a&quot;&lt;&gt;&amp;&nbsp;\" xlink:href=\"u\">\"",
    ),
    (
        PLAIN,
        &[Call::Start(
            "a",
            &[
                (namespaces::XML, "lang", "de"),
                (namespaces::XMLNS, "xmlns", "u"),
                (namespaces::XMLNS, "xlink", "u"),
                ("v", "w", ""),
            ],
        )],
        Ok(()),
        "<a xml:lang=\"de\" xmlns=\"u\" xmlns:xlink=\"u\" unknown_namespace:w=\"\">",
    ),
    (
        PLAIN,
        &[Call::Start("script", &[]), Call::Text("a<b")],
        Ok(()),
        "<script>a<b",
    ),
    (
        PLAIN,
        &[Call::Start("noscript", &[]), Call::Text("<")],
        Ok(()),
        "<noscript><",
    ),
    (
        NO_SCRIPTS,
        &[Call::Start("noscript", &[]), Call::Text("<")],
        Ok(()),
        "<noscript>&lt;",
    ),
    (
        UNDER_STYLE,
        &[Call::Text("<"), Call::Start("b", &[]), Call::Text("<")],
        Ok(()),
        "<<b>&lt;",
    ),
];

// Whether the calls of a row are answered and written as it says.
fn is_written(alloc: Global, row: &RowOfCalls) -> Result<bool, ParseFault> {
    let found = written_by(alloc, &row.0, row.1)?;
    Ok(found.answer == row.2 && found.written.as_slice() == row.3.as_bytes())
}

#[test]
fn rows(rt: HostRuntime) {
    for row in ROWS {
        assert!(rt; is_written(rt.alloc(), row) == Ok(true), "{}", row.3);
    }
}

// Whether the calls are answered, and all of a text is written.
fn is_whole(found: &Outcome, text: &str) -> bool {
    found.answer.is_ok() && found.written.as_slice() == text.as_bytes()
}

// Whether what was written is a beginning of a text.
fn begins(found: &Outcome, text: &str) -> bool {
    text.as_bytes().starts_with(found.written.as_slice())
}

// Whether a call is refused, and not all of a text is written.
fn is_cut_off(found: &Outcome, text: &str) -> bool {
    found.answer.is_err() && found.written.len() < text.len() && begins(found, text)
}

// Whether each call of a serializer whose writer failed is refused.
fn stays_failed<S: Serializer>(alloc: Global, serializer: &mut S) -> Result<bool, ParseFault> {
    for call in &EACH {
        if make(alloc, serializer, *call)? != Err(SerializeFault::Failed) {
            return Ok(false);
        }
    }
    Ok(true)
}

// Whether a write fails, and after it each call is refused and writes nothing.
fn is_broken(
    alloc: Global,
    serializer: &mut HtmlSerializer<MemWriter>,
) -> Result<bool, ParseFault> {
    if make_each(alloc, serializer, &EACH)? != Err(SerializeFault::Write) {
        return Ok(false);
    }
    let count = serializer.writer.written().len();
    Ok(stays_failed(alloc, serializer)? && serializer.writer.written().len() == count)
}

fn breaks(alloc: Global, way: &Way<'_>) -> Result<bool, ParseFault> {
    let mut serializer = started(alloc, way)?;
    is_broken(alloc, &mut serializer)
}

// Whether the whole text is written; or a write fails after a beginning of it, and each later call is refused.
fn ends_well(alloc: Global, way: &Way<'_>) -> Result<bool, ParseFault> {
    let found = written_by(alloc, way, &EACH)?;
    if is_cut_off(&found, EACH_TEXT) {
        breaks(alloc, way)
    } else {
        Ok(is_whole(&found, EACH_TEXT))
    }
}

#[test]
fn writers_that_fail(rt: HostRuntime) {
    for zero in [false, true] {
        for k in 1..=40u64 {
            let way = Way {
                fail_at: Some(k),
                zero,
                ..PLAIN
            };
            assert!(rt; ends_well(rt.alloc(), &way) == Ok(true), "{k}");
        }
    }
}

const A_BYTE_A_CALL: RowOfCalls = (Way { piece: 1, ..PLAIN }, &EACH, Ok(()), EACH_TEXT);

#[test]
fn a_byte_a_call(rt: HostRuntime) {
    assert!(rt; is_written(rt.alloc(), &A_BYTE_A_CALL) == Ok(true));
}

// Trees whose walks take memory: one call of each kind, nested elements, and elements that are missing.
const NESTED: [Call<'static>; 12] = [
    Call::Start("div", &[]),
    Call::Start("ul", &[("", "class", "a")]),
    Call::Start("li", &[]),
    Call::Start("p", &[]),
    Call::Start("b", &[]),
    Call::Start("i", &[]),
    Call::Text("<"),
    Call::End("i"),
    Call::End("b"),
    Call::End("p"),
    Call::End("li"),
    Call::End("ul"),
];

const TREES: &[(Way<'static>, &'static [Call<'static>], &'static str)] = &[
    (PLAIN, &EACH, EACH_TEXT),
    (
        PLAIN,
        &NESTED,
        "<div><ul class=\"a\"><li><p><b><i>&lt;</i></b></p></li></ul>",
    ),
    (
        CREATES,
        &[
            Call::End("p"),
            Call::Text("a"),
            Call::End("p"),
            Call::Start("b", &[]),
        ],
        "</p>a</p><b>",
    ),
];

// Whether a beginning of a text is written, and the whole of it unless memory is refused.
fn begins_at_least(
    alloc: Global,
    way: &Way<'_>,
    calls: &[Call<'_>],
    text: &str,
) -> Result<bool, ParseFault> {
    let found = written_by(alloc, way, calls)?;
    Ok(
        is_whole(&found, text)
            || (found.answer == Err(SerializeFault::Memory) && begins(&found, text)),
    )
}

#[test]
fn memory_that_is_refused(rt: HostRuntime) {
    for &(way, calls, text) in TREES {
        assert!(rt;
            begins_at_least(rt.alloc(), &way, calls, text) != Ok(false),
            "{text}"
        );
    }
}

// Whether the copy of a scope equals it.
fn is_scope_copied(alloc: Global, scope: &TraversalScope) -> Result<bool, ParseFault> {
    let copied = scope.copy(alloc)?;
    Ok(copied == *scope)
}

// Whether the copy of options equals them.
fn is_copied(alloc: Global, opts: &SerializeOpts) -> Result<bool, ParseFault> {
    let copied = opts.copy(alloc)?;
    Ok(
        copied.traversal_scope == opts.traversal_scope
            && copied.scripting_enabled == opts.scripting_enabled
            && copied.create_missing_parent == opts.create_missing_parent,
    )
}

fn are_options_copied(alloc: Global, way: &Way<'_>) -> Result<bool, ParseFault> {
    let opts = options(alloc, way)?;
    is_copied(alloc, &opts)
}

fn are_defaults_copied(alloc: Global) -> Result<bool, ParseFault> {
    let copied = SerializeOpts::default().copy(alloc)?;
    Ok(matches!(
        copied,
        SerializeOpts {
            scripting_enabled: true,
            traversal_scope: TraversalScope::ChildrenOnly(None),
            create_missing_parent: false,
        }
    ))
}

#[test]
fn copies(rt: HostRuntime) {
    let under_style = Way {
        under: Some("style"),
        creates: true,
        ..PLAIN
    };
    assert!(rt; are_options_copied(rt.alloc(), &under_style) == Ok(true));
    assert!(rt; are_defaults_copied(rt.alloc()) == Ok(true));
    assert!(rt; is_scope_copied(rt.alloc(), &TraversalScope::IncludeNode) == Ok(true));
}
