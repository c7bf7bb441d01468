//! Pages whose documents are faithful, and pages whose documents are not.
use html_faithful_walk::{Unfaithful, first_unfaithful, is_faithful, why_unfaithful};
use html_forest::{Forest, NodeData, NodeId};
use html_pages::document;
use html_tokenizer::References;
use markup::{
    Attributes, ElementFlags, KnownNamespace, LocalName, Namespace, ParseFault, QualName, Text,
    TreeSink, is_html_name,
};
use std::alloc::Global;

/// Pages, and whether what is written of their documents is read as just them.
const PAGES: &[(&str, bool)] = &[
    ("", true),
    ("<!DOCTYPE html>", true),
    (
        "<!DOCTYPE html><html lang=en><head><meta charset=utf-8><title>a</title><link href=b><body>",
        true,
    ),
    (
        "<!--a--><!DOCTYPE html><!--b--><html><!--c--><head><!--d--></head> <!--e--><body></body><!--f--></html><!--g-->",
        true,
    ),
    (
        "<!DOCTYPE html><script>a<b</script><style>c>d</style><noscript><p></noscript>",
        true,
    ),
    (
        "<!DOCTYPE html><section><p>a<span>b</span><img src=c></p></section>",
        true,
    ),
    (
        "<!DOCTYPE html><a href=1><div>a</div></a><x-y a:b @c>d</x-y><strong><small>e",
        true,
    ),
    (
        "<!DOCTYPE html><dl><dt>a<dd>b<dl><dt></dl></dl><pre>a\nb</pre><hr><textarea>a&lt;b</textarea>",
        true,
    ),
    (
        "<!DOCTYPE html><table class=a><caption>b</caption><colgroup><col></colgroup><thead><tr><th>c</thead> <tbody></table>",
        true,
    ),
    (
        "<!DOCTYPE html><form><input><select><option>a</select><button>b</button></form>",
        true,
    ),
    (
        "<!DOCTYPE html><svg viewBox=0><linearGradient/><foreignObject><p>a</foreignObject></svg><math><mi>x</math>",
        true,
    ),
    (
        "<!DOCTYPE html><template><tr><td>a</template><iframe>a</iframe><object><param></object>",
        true,
    ),
    ("<!DOCTYPE html><frameset><frame></frameset>", true),
    ("<!--a--><p></p><table></table><!--<!--b-->", true),
    ("<p><button><p>", true),
    ("<a><table><td><a>", true),
    ("<table>a<tr>", true),
    ("<nobr></nobr><nobr>", true),
    ("<pre>\na", true),
    ("<!DOCTYPE a>", false),
    ("<pre>\n\na", false),
    ("<textarea>\n\n", false),
    ("<a><div><table><a>", false),
    ("<plaintext>a", false),
    ("<script><!--<script></script>", true),
    ("<script><!--<script>", false),
    ("<form><div></form><form>", false),
    ("a&#13;", false),
    ("<p a\"=b>", false),
    ("<svg><p/>", true),
];

/// The document of a text, if there is memory.
fn page_of(alloc: Global, text: &str) -> Option<Forest> {
    let Ok(five) = References::five(alloc) else {
        return None;
    };
    let Ok(text) = String::from_str(alloc, text) else {
        return None;
    };
    match document(alloc, five, text) {
        Ok(forest) => Some(forest),
        Err(_) => None,
    }
}

fn is_judged(alloc: Global, text: &str, faithful: bool) -> bool {
    match page_of(alloc, text) {
        Some(forest) => is_faithful(alloc, &forest, true) == Ok(faithful),
        None => false,
    }
}

#[test]
fn pages_are_judged(rt: HostRuntime) {
    for (text, faithful) in PAGES {
        if !is_judged(rt.alloc(), *text, *faithful) {
            assert!(rt; false, "{text}");
        }
    }
}

/// Pages, the text of the first node that is not read as it is written, and what is wrong with it.
const REASONS: &[(&str, &str, Unfaithful)] = &[
    ("<!DOCTYPE a>", "", Unfaithful::Doctype),
    (
        "<pre>a</pre><pre>\n\nb</pre>\n\nc",
        "\nb",
        Unfaithful::LineFeed,
    ),
    ("<textarea>\n\n", "\n", Unfaithful::LineFeed),
    ("<p>a</p>b&#13;", "b\r", Unfaithful::Characters),
    ("<p a\"=b>", "p", Unfaithful::Attributes),
    (
        "<script>a</script><script><!--<script>",
        "<!--<script>",
        Unfaithful::RawText,
    ),
    ("<a><div><table><a>", "a", Unfaithful::Place),
    ("<p>a<plaintext>b", "plaintext", Unfaithful::Place),
    ("<form><div></form><form>", "form", Unfaithful::Place),
];

/// The text of a node, or its name.
fn words<'a>(about: &NodeData<'a>) -> &'a str {
    match about {
        NodeData::Text(text) => text.as_str(),
        NodeData::Element { name, .. } => name.local.as_str(),
        _ => "",
    }
}

fn has_words(forest: &Forest, id: NodeId, wanted: &str) -> bool {
    match forest.node(id) {
        Some(about) => words(&about) == wanted,
        None => false,
    }
}

fn has_reason(
    alloc: Global,
    forest: &Forest,
    wanted: &str,
    why: Unfaithful,
) -> Result<bool, ParseFault> {
    match first_unfaithful(alloc, forest, true)? {
        Some(id) => {
            Ok(has_words(forest, id, wanted) && why_unfaithful(alloc, forest, true, id)? == why)
        }
        None => Ok(false),
    }
}

fn is_reason(alloc: Global, text: &str, wanted: &str, why: Unfaithful) -> bool {
    match page_of(alloc, text) {
        Some(forest) => has_reason(alloc, &forest, wanted, why) == Ok(true),
        None => false,
    }
}

#[test]
fn reasons_are_found(rt: HostRuntime) {
    for (text, wanted, why) in REASONS {
        if !is_reason(rt.alloc(), *text, *wanted, *why) {
            assert!(rt; false, "{text}");
        }
    }
}

fn why_comment(alloc: Global, text: &str) -> Result<Unfaithful, ParseFault> {
    let mut forest = Forest::new(alloc)?;
    let made = forest.create_comment(Text::from_str(alloc, text)?)?;
    why_unfaithful(alloc, &forest, true, made)
}

fn why_instruction(alloc: Global) -> Result<Unfaithful, ParseFault> {
    let mut forest = Forest::new(alloc)?;
    let made = forest.create_pi(Text::from_str(alloc, "a")?, Text::from_str(alloc, "b")?)?;
    why_unfaithful(alloc, &forest, true, made)
}

fn why_element(alloc: Global, name: &str) -> Result<Unfaithful, ParseFault> {
    let mut forest = Forest::new(alloc)?;
    let name = QualName::new(
        None,
        Namespace::from_known(KnownNamespace::Svg),
        LocalName::from_str(alloc, name)?,
    );
    let flags = ElementFlags {
        template: is_html_name(&name, "template"),
        ..ElementFlags::default()
    };
    let made = forest.create_element(name, Attributes::new(alloc), flags)?;
    why_unfaithful(alloc, &forest, true, made)
}

// What no page gives.
#[test]
fn reasons_of_other_trees_are_found(rt: HostRuntime) {
    let alloc = rt.alloc();
    assert!(rt; why_comment(alloc, "a-->b") == Ok(Unfaithful::Comment));
    assert!(rt; why_comment(alloc, "a") == Ok(Unfaithful::Place));
    assert!(rt; why_instruction(alloc) == Ok(Unfaithful::Instruction));
    assert!(rt; why_element(alloc, "a b") == Ok(Unfaithful::Name));
    assert!(rt; why_element(alloc, "viewBox") == Ok(Unfaithful::Place));
}

fn is_written(alloc: Global, why: Unfaithful, words: &str) -> bool {
    let mut text = String::new(alloc);
    match write!(text, "{why}") {
        Ok(()) => text.as_str() == words,
        Err(_) => false,
    }
}

#[test]
fn reasons_are_written(rt: HostRuntime) {
    assert!(rt; is_written(rt.alloc(), Unfaithful::LineFeed, "a line feed comes first"));
}
