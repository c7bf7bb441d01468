//! Pages with their Markdown.

use html_forest::{Forest, NodeId};
use html_markdown::markdown;
use html_nodes::{Query, fits, nodes_below};
use html_pages::document;
use html_tokenizer::References;
use std::alloc::Global;
use std::test::Fail;

/// Blocks.
const BLOCKS: &[(&str, &str)] = &[
    ("", ""),
    (" \n ", ""),
    ("a", "a\n"),
    ("<p>a</p><p>b", "a\n\nb\n"),
    ("<div>a<p>b</p> c </div>", "a\n\nb\n\nc\n"),
    (
        "<h1>a <b>b</b></h1>c<h6>#d#</h6><h2> </h2>",
        "# a **b**\n\nc\n\n###### \\#d\\#\n",
    ),
    ("<h2>a<br>b<div>c</div></h2>", "## a b c\n"),
    ("a<hr>b", "a\n\n***\n\nb\n"),
    ("a<br>b<br><br>c<br>", "a\\\nb\n\nc\n"),
    ("<br>a <br> b", "a\\\nb\n"),
    ("<blockquote>a<p>b</blockquote>", "> a\n>\n> b\n"),
    (
        "<blockquote>a</blockquote><blockquote>b</blockquote>",
        "> a\n\n> b\n",
    ),
    (
        "<blockquote>a<blockquote>b<br>c</blockquote>d</blockquote>",
        "> a\n>\n> > b\\\n> > c\n>\n> d\n",
    ),
    ("<blockquote> </blockquote>a", "a\n"),
    ("<pre>a\n\n  b *</pre>", "```\na\n\n  b *\n```\n"),
    ("<pre><code>a\n</code></pre>", "```\na\n```\n"),
    ("<pre>\n\n```a\n````</pre>", "`````\n\n```a\n````\n`````\n"),
    ("<pre>a<br>b<div>c</div>d</pre>", "```\na\nb\nc\nd\n```\n"),
    ("<pre> \n </pre>a", "a\n"),
    (
        "<blockquote><pre>a\n\nb</pre></blockquote>",
        "> ```\n> a\n>\n> b\n> ```\n",
    ),
    ("<dl><dt>a<dd>b</dl>", "a\n\nb\n"),
    // What is not rendered.
    (
        "<title>a</title><script>b</script><style>c</style><p hidden>d</p><template>e</template>f",
        "f\n",
    ),
    (
        "<noscript>a</noscript><dialog>b</dialog><video>c</video>",
        "",
    ),
];

/// Lists.
const LISTS: &[(&str, &str)] = &[
    ("<ul><li>a<li>b</ul>", "- a\n- b\n"),
    ("<ul><li>a<li><li> <li>b</ul>", "- a\n- b\n"),
    ("<ul><li><p>a<p>b<li>c</ul>", "- a\n\n  b\n\n- c\n"),
    (
        "<ul><li>a<ul><li>b<li>c</ul><li>d</ul>",
        "- a\n  - b\n  - c\n- d\n",
    ),
    ("<ul><li><ul><li>a</ul><li>b</ul>", "- - a\n- b\n"),
    ("<ul><li>a</ul><ul><li>b</ul>", "- a\n\n+ b\n"),
    ("<ul><li>a</ul>b<ul><li>c</ul>", "- a\n\nb\n\n- c\n"),
    ("<ol><li>a<li>b</ol>", "1. a\n2. b\n"),
    ("<ol start=9><li>a<li>b<p>c</ol>", "9. a\n10. b\n\n    c\n"),
    ("<ol><li value=3>a<li>b</ol>", "3. a\n4. b\n"),
    ("<ol start=-1><li>a</ol>", "1. a\n"),
    ("<ol><li>a</ol><ol><li>b</ol>", "1. a\n\n1) b\n"),
    ("<ul><li>a<ol start=2><li>b</ol></ul>", "- a\n\n  2. b\n"),
    ("<ul><li>a<ol><li>b</ol></ul>", "- a\n  1. b\n"),
    (
        "<ul><li><pre>a</pre><li><hr></ul>",
        "- ```\n  a\n  ```\n- ***\n",
    ),
    (
        "<ul><li><h1>a</h1><li><blockquote>b</blockquote></ul>",
        "- # a\n- > b\n",
    ),
    (
        "<blockquote><ul><li>a<p>b</ul></blockquote>",
        "> - a\n>\n>   b\n",
    ),
    ("<li>a", "a\n"),
];

/// Texts in lines.
const LINES: &[(&str, &str)] = &[
    ("<b>a</b><i> b </i>c", "**a** *b* c\n"),
    ("a<b> b </b>c", "a **b** c\n"),
    ("a<b>b</b>c<i>d</i>e", "a**b**c*d*e\n"),
    ("<b><i>a</i></b>", "**_a_**\n"),
    ("<b><i>a</i>b</b>c", "**_a_&#98;**&#99;\n"),
    ("<i>a</i><b>b</b>c", "*a*__b__&#99;\n"),
    ("<i>a</i><i>b</i>", "*ab*\n"),
    ("a<b>(b)</b>c", "&#97;**(b)**&#99;\n"),
    ("<b> </b><i></i>a", "a\n"),
    ("<b><p>a</p><p>b</p></b>", "**a**\n\n**b**\n"),
    ("<code>a*</code> <kbd>b</kbd>", "`a*` `b`\n"),
    ("<code>`</code><code>a``b</code>", "``` `a``b ```\n"),
    ("<code>a <b>b</b></code>", "`a` **`b`**\n"),
    ("<a href=u>a</a>", "[a](u)\n"),
    (
        "<a href='a b(c)'>x <b>y</b></a>",
        "[x **y**](a%20b\\(c\\))\n",
    ),
    ("<a href='?a=1&amp;amp;b'>x</a>", "[x](?a=1&amp;amp;b)\n"),
    ("<a href=''>x</a><a>y</a>", "[x]()y\n"),
    ("<a href=u><p>a</p>b</a>", "[a](u)\n\n[b](u)\n"),
    ("<a href=u> </a>a", "a\n"),
    ("!<a href=u>a</a>", "\\![a](u)\n"),
    ("<img src=u alt='a [b]&#10;c'>", "![a \\[b\\] c](u)\n"),
    ("a <img src=u> b<img>", "a ![](u) b\n"),
    ("<a href=u><img src=v></a>", "[![](v)](u)\n"),
    ("a&nbsp;b", "a&nbsp;b\n"),
    ("<b>&#x2003;a</b>", "**&#8195;a**\n"),
];

/// Texts that would be read as markup.
const ESCAPES: &[(&str, &str)] = &[
    (
        "*a* _b_ `c` [d](e) &lt;f> &amp;amp; g\\ ~h~ i|j",
        "\\*a\\* \\_b\\_ \\`c\\` \\[d\\](e) \\<f> \\&amp; g\\\\ \\~h\\~ i\\|j\n",
    ),
    ("# a", "\\# a\n"),
    ("a # b", "a # b\n"),
    ("> a", "\\> a\n"),
    ("- a", "\\- a\n"),
    ("-1", "-1\n"),
    ("--- a", "\\--- a\n"),
    ("+ a", "\\+ a\n"),
    ("+1", "+1\n"),
    ("12. a", "12\\. a\n"),
    ("12) a", "12\\) a\n"),
    ("3.14", "3.14\n"),
    ("1234567890. a", "1234567890. a\n"),
    ("a<br>===", "a\\\n\\===\n"),
    ("a<br>:-:", "a\\\n\\:-:\n"),
    ("a<br>1. b", "a\\\n1\\. b\n"),
    ("<b>1. b</b>", "**1. b**\n"),
];

/// Tables.
const TABLES: &[(&str, &str)] = &[
    (
        "<table><tr><th>a<th>b<tr><td>c<td>d</table>",
        "| a | b |\n| --- | --- |\n| c | d |\n",
    ),
    (
        "<table><thead><tr><td>a<tbody><tr><td>b<td>c</table>",
        "| a |  |\n| --- | --- |\n| b | c |\n",
    ),
    (
        "<table><tr><td>a<td>b</table>",
        "|  |  |\n| --- | --- |\n| a | b |\n",
    ),
    (
        "<table><caption>t</caption><tr><th>a|b<td><code>c|d</code><a href='e|f'>g</a></table>h",
        "t\n\n|  |  |\n| --- | --- |\n| a\\|b | `c\\|d`[g](e\\|f) |\n\nh\n",
    ),
    (
        "<table><tr><th><p>a</p><td>b<br>c</table>",
        "|  |  |\n| --- | --- |\n| a | b c |\n",
    ),
    ("<table><tr><td><p>a<p>b<td>c</table>", "a\n\nb\n\nc\n"),
    ("<table><tr><td><ul><li>a</ul></table>", "- a\n"),
    (
        "<table><tr><td><table><tr><th>a</table><td>b</table>",
        "| a |\n| --- |\n\nb\n",
    ),
    ("<table></table>a", "a\n"),
    (
        "<ul><li><table><tr><th>a<tr><td>b</table></ul>",
        "- | a |\n  | --- |\n  | b |\n",
    ),
];

/// Elements with the id `it`.
const ELEMENTS: &[(&str, &str)] = &[
    ("a<h2 id=it>b</h2>c", "## b\n"),
    ("a<ul id=it><li>b</ul>c", "- b\n"),
    ("<table><tr><td>a<td id=it><p>b</table>", "b\n"),
    ("a<p hidden id=it>b</p>c", ""),
    ("a<b id=it>b</b>c", "**b**\n"),
];

/// The document of a text, if there is memory.
fn page_of(alloc: Global, text: &str) -> Option<Forest> {
    let Ok(five) = References::five(alloc) else {
        return None;
    };
    let Ok(text) = String::from_str(alloc, text) else {
        return None;
    };
    match document(alloc, five, text) {
        Ok(forest) => Some(forest),
        Err(_) => None,
    }
}

/// The first row whose Markdown is another one.
fn first_wrong(alloc: Global, rows: &[(&str, &str)]) -> Option<usize> {
    for (place, (page, wanted)) in rows.iter().enumerate() {
        let Some(forest) = page_of(alloc, page) else {
            return Some(place);
        };
        let Ok(text) = markdown(alloc, &forest, element_of(&forest)) else {
            return Some(place);
        };
        if text.as_str() != *wanted {
            return Some(place);
        }
    }
    None
}

/// The element with the id `it`, or the document.
fn element_of(forest: &Forest) -> NodeId {
    let query = Query {
        name: None,
        id: Some("it"),
        class: None,
    };
    for id in nodes_below(forest, forest.document()) {
        if fits(forest, id, &query) {
            return id;
        }
    }
    forest.document()
}

#[test]
fn blocks_are_written(rt: HostRuntime) -> Result<(), Fail> {
    assert_eq!(rt; first_wrong(rt.alloc(), BLOCKS), None);
    Ok(())
}

#[test]
fn lists_are_written(rt: HostRuntime) -> Result<(), Fail> {
    assert_eq!(rt; first_wrong(rt.alloc(), LISTS), None);
    Ok(())
}

#[test]
fn lines_are_written(rt: HostRuntime) -> Result<(), Fail> {
    assert_eq!(rt; first_wrong(rt.alloc(), LINES), None);
    Ok(())
}

#[test]
fn markup_in_texts_is_escaped(rt: HostRuntime) -> Result<(), Fail> {
    assert_eq!(rt; first_wrong(rt.alloc(), ESCAPES), None);
    Ok(())
}

#[test]
fn tables_are_written(rt: HostRuntime) -> Result<(), Fail> {
    assert_eq!(rt; first_wrong(rt.alloc(), TABLES), None);
    Ok(())
}

#[test]
fn elements_are_written(rt: HostRuntime) -> Result<(), Fail> {
    assert_eq!(rt; first_wrong(rt.alloc(), ELEMENTS), None);
    Ok(())
}
