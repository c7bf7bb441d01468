//! Each example once, on one page.
use examples::documents::normal;
use examples::links::links;
use examples::nodes::{count_children, title};
use examples::outlines::outline;
use examples::selecting::{first_text, links_elsewhere};
use examples::tags::tags;
use examples::templates::{Filling, Value, fill};
use examples::texts::text;
use examples::tokens::tokens;
use examples::trees::tree;
use figpliers::{
    Forest, MemWriter, NodeId, QuirksMode, References, Report, Selector, Token, attribute_of,
    first_unfaithful, is_html, nodes_below, standard, text_content,
};
use std::alloc::Global;
use std::test::Fail;

const PAGE: &str =
    "<!DOCTYPE html><title>A caf&eacute;</title><style>p {}</style><h1>One <b>and</b></h1><p>See <a href=\"/two?a=1&amp;b\">two</a> or <a href=three>three</a>, <a>none</a>.<h2>End</h2>";

const NORMAL: &str =
    "<!DOCTYPE html><html><head><title>A café</title><style>p {}</style></head><body><h1>One <b>and</b></h1><p>See <a href=\"/two?a=1&amp;b\">two</a> or <a href=\"three\">three</a>, <a>none</a>.</p><h2>End</h2></body></html>";

/// The page, as the examples take it.
fn page(alloc: Global) -> Result<String, Fail> {
    Ok(String::from_str(alloc, PAGE)?)
}

/// The Standard's table.
fn table(alloc: Global) -> Result<References, Fail> {
    Ok(standard(alloc)?)
}

#[test]
fn a_page_has_its_normal_text(rt: HostRuntime) -> Result<(), Fail> {
    let alloc = rt.alloc();
    let mut writer = MemWriter::new(alloc, 4096, usize::MAX, None, false)?;
    let answer = normal(alloc, page(alloc)?.into_bytes(), &mut writer);
    let report = Report {
        plain: false,
        quirks: QuirksMode::NoQuirks,
        errors: 0,
    };
    assert!(rt; answer == Ok(report));
    assert!(rt; writer.written() == NORMAL.as_bytes());
    Ok(())
}

#[test]
fn a_page_is_looked_through(rt: HostRuntime) -> Result<(), Fail> {
    let alloc = rt.alloc();
    let found = links(alloc, table(alloc)?, page(alloc)?)?;
    for (link, want) in found.iter().zip(["/two?a=1&b", "three"]) {
        assert!(rt; link.as_str() == want);
    }
    assert!(rt; found.len() == 2);
    let headings = outline(alloc, table(alloc)?, page(alloc)?)?;
    for (heading, want) in headings.iter().zip([(1_u8, "One and"), (2, "End")]) {
        assert!(rt; (heading.level, heading.text.as_str()) == want);
    }
    assert!(rt; headings.len() == 2);
    let shown = text(alloc, table(alloc)?, page(alloc)?)?;
    assert!(rt; shown.as_str() == "A caféOne andSee two or three, none.End");
    Ok(())
}

#[test]
fn elements_are_selected(rt: HostRuntime) -> Result<(), Fail> {
    let alloc = rt.alloc();
    let page = "<p><a href=//x>one</a> <a href=/y>two</a><a href=https://z>thr<i>ee</i></a>";
    let forest = tree(alloc, table(alloc)?, String::from_str(alloc, page)?)?;
    let texts = links_elsewhere(alloc, &forest)?;
    for (text, want) in texts.iter().zip(["one", "three"]) {
        assert!(rt; text.as_str() == want);
    }
    assert!(rt; texts.len() == 2);
    Ok(())
}

#[test]
fn a_selector_is_asked_of_pages(rt: HostRuntime) -> Result<(), Fail> {
    let alloc = rt.alloc();
    let selector = Selector::parse(alloc, "h2, h1 > b")?;
    let page = tree(alloc, table(alloc)?, page(alloc)?)?;
    let empty = tree(alloc, table(alloc)?, String::new(alloc))?;
    assert!(rt; first_text(alloc, &page, &selector)?.is_some_and(|text| text.as_str() == "and"));
    assert!(rt; first_text(alloc, &empty, &selector)?.is_none());
    Ok(())
}

/// The body of a page.
fn body(forest: &Forest) -> Option<NodeId> {
    nodes_below(forest, forest.document()).find(|id| is_html(forest, *id, "body"))
}

#[test]
fn nodes_are_walked(rt: HostRuntime) -> Result<(), Fail> {
    let alloc = rt.alloc();
    let forest = tree(alloc, table(alloc)?, page(alloc)?)?;
    let Some(title) = title(alloc, &forest)? else {
        return Err(Fail::from("no title"));
    };
    assert!(rt; title.as_str() == "A café");
    let Some(body) = body(&forest) else {
        return Err(Fail::from("no body"));
    };
    assert!(rt; count_children(&forest, body, "h2") == 1);
    assert!(rt; count_children(&forest, body, "a") == 0);
    Ok(())
}

#[test]
fn tokens_are_listed_and_tags_counted(rt: HostRuntime) -> Result<(), Fail> {
    let alloc = rt.alloc();
    let listed = tokens(alloc, table(alloc)?, page(alloc)?)?;
    let tag_count = listed
        .told
        .iter()
        .filter(|told| matches!(told.token, Token::TagToken(_)))
        .count();
    assert!(rt; tag_count == 17 && listed.has_ended);
    assert!(rt; tags(alloc, table(alloc)?, page(alloc)?)? == 17);
    Ok(())
}

/// A page template, with holes in texts, among blocks and in an attribute.
const TEMPLATE: &str =
    "<!DOCTYPE html><title>{{title}}</title><body><h1>Hello {{name}}!</h1>{{items}}<p>See <a href=\"/?q={{query}}\">more</a>.</p>";

const FILLED: &str =
    "<!DOCTYPE html><html><head><title>&lt;/title&gt;&lt;script&gt;</title></head><body><h1>Hello &lt;b&gt;&amp;amp;{{title}}!</h1><ul><li>&lt;/ul&gt;</li><li></li></ul><p>See <a href=\"/?q=&quot;&gt;&lt;p&gt;\">more</a>.</p></body></html>";

const FILLINGS: [Filling<'_>; 4] = [
    Filling {
        name: "title",
        value: Value::Text("</title><script>"),
    },
    Filling {
        name: "name",
        value: Value::Text("<b>&amp;{{title}}"),
    },
    Filling {
        name: "items",
        value: Value::List(&["</ul>", ""]),
    },
    Filling {
        name: "query",
        value: Value::Text("\"><p>"),
    },
];

/// The first node below another that is an element of HTML of this name.
fn first(forest: &Forest, name: &str) -> Option<NodeId> {
    nodes_below(forest, forest.document()).find(|id| is_html(forest, *id, name))
}

// Whatever is put into the holes of a template that was judged once, what is written is read as just that page.
#[test]
fn templates_are_filled(rt: HostRuntime) -> Result<(), Fail> {
    let alloc = rt.alloc();
    let template = tree(alloc, table(alloc)?, String::from_str(alloc, TEMPLATE)?)?;
    assert!(rt; first_unfaithful(alloc, &template, true)?.is_none());
    let filled = fill(alloc, &template, &FILLINGS)?;
    assert!(rt; filled.fits && filled.bytes.as_slice() == FILLED.as_bytes());
    let page = tree(alloc, table(alloc)?, String::from_str(alloc, FILLED)?)?;
    for (name, want) in [
        ("title", "</title><script>"),
        ("h1", "Hello <b>&amp;{{title}}!"),
        ("li", "</ul>"),
    ] {
        match first(&page, name) {
            Some(id) => assert!(rt; text_content(alloc, &page, id)?.as_str() == want),
            None => assert!(rt; false, "{name}"),
        }
    }
    let Some(link) = first(&page, "a") else {
        return Err(Fail::from("no link"));
    };
    assert!(rt; attribute_of(&page, link, "href") == Some("/?q=\"><p>"));
    let mut writer = MemWriter::new(alloc, 4096, usize::MAX, None, false)?;
    let answer = normal(alloc, filled.bytes, &mut writer);
    assert!(rt; answer.is_ok() && writer.written() == FILLED.as_bytes());
    Ok(())
}

/// Whether a value may be put into a script, and comes back in the page's normal text.
fn script_fits(alloc: Global, value: &str) -> Result<(bool, bool), Fail> {
    let page = "<!DOCTYPE html><script>var x=\"{{x}}\"</script>";
    let template = tree(alloc, table(alloc)?, String::from_str(alloc, page)?)?;
    let fillings = [Filling {
        name: "x",
        value: Value::Text(value),
    }];
    let filled = fill(alloc, &template, &fillings)?;
    let mut writer = MemWriter::new(alloc, 4096, usize::MAX, None, false)?;
    let fits = filled.fits;
    let written = filled.bytes.clone()?;
    let answer = normal(alloc, filled.bytes, &mut writer);
    Ok((
        fits,
        answer.is_ok() && writer.written() == written.as_slice(),
    ))
}

// Nothing is escaped in a script: a value that ends it does not come back, and the filling says so.
#[test]
fn scripts_are_not_escaped(rt: HostRuntime) -> Result<(), Fail> {
    let alloc = rt.alloc();
    assert!(rt; script_fits(alloc, "<b>")? == (true, true));
    assert!(rt; script_fits(alloc, "</script>")? == (false, false));
    assert!(rt; script_fits(alloc, "<!--<script>")? == (false, false));
    Ok(())
}
