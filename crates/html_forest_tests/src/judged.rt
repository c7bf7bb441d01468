//! Whether documents are plain.
use crate::steps::{Step, name, take, take_each, text};
use html_forest::{Forest, NodeId};
use markup::{
    Attribute, Attributes, ElementFlags, ParseFault, Text, TreeSink, is_html_name, namespaces,
};
use std::alloc::Global;

const FRAME: &[Step<'static>] = &[
    Step::Element("html"),
    Step::Element("head"),
    Step::Element("body"),
    Step::Append(2, 3),
    Step::Append(2, 4),
    Step::Append(0, 2),
];

fn put_frame(alloc: Global, forest: &mut Forest) -> Result<(), ParseFault> {
    let name = text(alloc, "html")?;
    forest.append_doctype_to_document(name, Text::empty(alloc), Text::empty(alloc))?;
    take_each(alloc, forest, FRAME)
}

fn put_page(alloc: Global, forest: &mut Forest, steps: &[Step]) -> Result<(), ParseFault> {
    put_frame(alloc, forest)?;
    take_each(alloc, forest, steps)
}

/// A document of a doctype, which is node 1, `html`, `head` and `body`, which are 2, 3 and 4, and then what the steps make.
fn page(alloc: Global, steps: &[Step]) -> Result<Forest, ParseFault> {
    let mut forest = Forest::new(alloc)?;
    put_page(alloc, &mut forest, steps)?;
    Ok(forest)
}

const ITEM: &[Step<'static>] = &[
    Step::Element("ul"),
    Step::Element("li"),
    Step::Append(4, 5),
    Step::Append(5, 6),
    Step::AppendText(5, " \n"),
    Step::AppendText(6, "a<b>"),
];

const WORDS_IN_A_LIST: &[Step<'static>] = &[
    Step::Element("ul"),
    Step::Append(4, 5),
    Step::AppendText(5, "a"),
];

const LINK_IN_BOLD_IN_LINK: &[Step<'static>] = &[
    Step::Element("a"),
    Step::Element("b"),
    Step::Element("a"),
    Step::Append(4, 5),
    Step::Append(5, 6),
    Step::Append(6, 7),
];

const COMMENT_BETWEEN_TEXTS: &[Step<'static>] = &[
    Step::AppendText(4, "a"),
    Step::Comment(" "),
    Step::Append(4, 5),
    Step::AppendText(4, "b"),
];

const COMMENT_IN_A_PARAGRAPH: &[Step<'static>] = &[
    Step::Element("p"),
    Step::Append(4, 5),
    Step::Comment("a"),
    Step::Append(5, 6),
];

const COMMENT_IN_A_LIST: &[Step<'static>] = &[
    Step::Element("ul"),
    Step::Append(4, 5),
    Step::Comment("a"),
    Step::Append(5, 6),
];

const TITLE: &[Step<'static>] = &[
    Step::Element("title"),
    Step::AppendText(5, "a"),
    Step::AppendText(3, " "),
    Step::Append(3, 5),
];

const TWO_TITLES: &[Step<'static>] = &[
    Step::Element("title"),
    Step::Element("title"),
    Step::Append(3, 5),
    Step::Append(3, 6),
];

const ATTRIBUTES: &[Step<'static>] = &[
    Step::Attribute(4, "id", "a\"b"),
    Step::Attribute(4, "data-1", ""),
];

// What steps make of a page, and whether it is plain then.
const ROWS: &[(&str, &[Step<'static>], bool)] = &[
    ("nothing", &[], true),
    ("item", ITEM, true),
    ("words in a list", WORDS_IN_A_LIST, false),
    ("carriage return", &[Step::AppendText(4, "a\rb")], false),
    ("link in bold in link", LINK_IN_BOLD_IN_LINK, false),
    ("title", TITLE, true),
    ("two titles", TWO_TITLES, false),
    ("behind the root", &[Step::AppendText(0, " ")], false),
    ("comment", &[Step::Comment("a"), Step::Append(4, 5)], true),
    (
        "empty comment",
        &[Step::Comment(""), Step::Append(4, 5)],
        true,
    ),
    ("comment between texts", COMMENT_BETWEEN_TEXTS, true),
    (
        "hyphen in a comment",
        &[Step::Comment("a-b"), Step::Append(4, 5)],
        false,
    ),
    (
        "carriage return in a comment",
        &[Step::Comment("\r"), Step::Append(4, 5)],
        false,
    ),
    (
        "comment in the head",
        &[Step::Comment("a"), Step::Append(3, 5)],
        false,
    ),
    (
        "comment in the document",
        &[Step::Comment("a"), Step::Append(0, 5)],
        false,
    ),
    ("comment in a paragraph", COMMENT_IN_A_PARAGRAPH, false),
    ("comment in a list", COMMENT_IN_A_LIST, false),
    (
        "template",
        &[Step::Element("template"), Step::Append(4, 5)],
        false,
    ),
    ("attributes", ATTRIBUTES, true),
    ("odd attribute", &[Step::Attribute(4, "ID", "a")], false),
];

fn is_page_plain(alloc: Global, steps: &[Step]) -> Result<bool, ParseFault> {
    let forest = page(alloc, steps)?;
    forest.is_plain()
}

fn is_empty_plain(alloc: Global) -> Result<bool, ParseFault> {
    let forest = Forest::new(alloc)?;
    forest.is_plain()
}

#[test]
fn rows(rt: HostRuntime) {
    for &(what, steps, plain) in ROWS {
        assert!(rt; is_page_plain(rt.alloc(), steps) == Ok(plain), "{what}");
    }
    assert!(rt; is_empty_plain(rt.alloc()) == Ok(false));
}

fn push_each(alloc: Global, attributes: &mut Attributes, names: &[&str]) -> Result<(), ParseFault> {
    for local in names {
        let name = name(alloc, namespaces::NONE, local)?;
        attributes.push(Attribute {
            name,
            value: Text::empty(alloc),
        })?;
    }
    Ok(())
}

fn named(alloc: Global, names: &[&str]) -> Result<Attributes, ParseFault> {
    let mut attributes = Attributes::new(alloc);
    push_each(alloc, &mut attributes, names)?;
    Ok(attributes)
}

fn create(
    alloc: Global,
    forest: &mut Forest,
    attributes: Attributes,
) -> Result<NodeId, ParseFault> {
    let name = name(alloc, namespaces::HTML, "p")?;
    let flags = ElementFlags {
        template: is_html_name(&name, "template"),
        mathml_annotation_xml_integration_point: false,
        had_duplicate_attributes: false,
    };
    forest.create_element(name, attributes, flags)
}

// Puts an element with attributes of these names into the body of a page.
fn put_element(alloc: Global, forest: &mut Forest, names: &[&str]) -> Result<(), ParseFault> {
    let attributes = named(alloc, names)?;
    let _made = create(alloc, forest, attributes)?;
    let _taken = take(alloc, forest, Step::Append(4, 5))?;
    Ok(())
}

fn is_element_plain(alloc: Global, names: &[&str]) -> Result<bool, ParseFault> {
    let mut forest = page(alloc, &[])?;
    put_element(alloc, &mut forest, names)?;
    forest.is_plain()
}

const MANY: &[&str] = &[
    "a", "b", "c", "d", "e", "f", "g", "h", "i", "j", "k", "l", "m", "n", "o", "p", "q", "r",
];

const MANY_TWICE: &[&str] = &[
    "a", "b", "c", "d", "e", "f", "g", "h", "i", "j", "k", "l", "m", "n", "o", "p", "q", "a",
];

#[test]
fn repeated_attributes(rt: HostRuntime) {
    let alloc = rt.alloc();
    assert!(rt; is_element_plain(alloc, MANY) == Ok(true));
    assert!(rt; is_element_plain(alloc, MANY_TWICE) == Ok(false));
    assert!(rt; is_element_plain(alloc, &["a", "b"]) == Ok(true));
    assert!(rt; is_element_plain(alloc, &["a", "b", "a"]) == Ok(false));
}

// Puts so many elements into the body, each in the next.
fn nest(alloc: Global, forest: &mut Forest, count: usize) -> Result<(), ParseFault> {
    let mut last = 5;
    for number in 6..count.saturating_add(6) {
        let _made = take(alloc, forest, Step::Element("div"))?;
        let _put = take(alloc, forest, Step::Append(number, number - 1))?;
        last = number;
    }
    let _put = take(alloc, forest, Step::Append(4, last))?;
    Ok(())
}

// Whether a page of so many nested elements is plain, the innermost with an attribute of this name.
fn is_nest_plain(alloc: Global, local: &str, count: usize) -> Result<bool, ParseFault> {
    let inner = [Step::Element("div"), Step::Attribute(5, local, "a")];
    let mut forest = page(alloc, &inner)?;
    nest(alloc, &mut forest, count)?;
    forest.is_plain()
}

#[test]
fn nested_elements(rt: HostRuntime) {
    assert!(rt; is_nest_plain(rt.alloc(), "id", 100_000) == Ok(true));
    assert!(rt; is_nest_plain(rt.alloc(), "ID", 100_000) == Ok(false));
}
