//! Nodes of a page: which stand below one, and what they are named, have and say.

use figpliers::{
    Forest, NodeId, NormalFault, ParseFault, References, SelectorError, are_told_alike,
    attribute_of, attributes_of, document, element_name, has_class, is_html, nodes_below, select,
    text_content,
};
use std::alloc::Global;
use std::test::Fail;

const PAGE: &str =
    "<!DOCTYPE html><title>T</title><body id=body class='x y'><p id=one class=x>1 <b id=bold class=X>2</b><!-- 3 --></p><svg id=image><a id=drawn xlink:href=q href=r>4</a></svg><template id=kept><p id=inner class=x>5</p></template><p id=two class=' y\tx '>6</p><a id=link href='/u?a=1&amp;b' class=''>7</a><script>8</script>";

/// Selectors, and the ids of the elements that they select.
const SELECTORS: &[(&str, &str)] = &[
    ("p", "one two "),
    ("P", "one two "),
    ("a", "drawn link "),
    ("svg|a", "drawn "),
    ("#bold", "bold "),
    (".x", "body one two "),
    (".y", "body two "),
    (".X", "bold "),
    (".x.y", "body two "),
    ("p.y", "two "),
    ("p#one.x", "one "),
    ("p#one.y", ""),
    ("body > :not(p)", "image kept link - "),
    ("p:has(> b) ~ a", "link "),
    ("a:nth-of-type(1)", "drawn link "),
    ("*", "- - - body one bold image drawn kept two link - "),
];

/// Ids of elements, and the text in each.
const TEXTS: &[(&str, &str)] = &[
    ("body", "1 24678"),
    ("one", "1 2"),
    ("bold", "2"),
    ("image", "4"),
    ("kept", ""),
];

/// The document of a text.
fn page_of(alloc: Global, text: &str) -> Result<Forest, NormalFault> {
    let five = References::five(alloc);
    let Ok(five) = five else {
        return Err(NormalFault::Memory);
    };
    document(alloc, five, String::from_str(alloc, text)?)
}

/// The ids of the elements that are selected, each with a space after it.
fn ids_of(alloc: Global, forest: &Forest, selector: &str) -> Result<String, SelectorError> {
    let mut ids = String::new(alloc);
    for id in select(alloc, forest, forest.document(), selector)? {
        ids.push_str(attribute_of(forest, id, "id").unwrap_or("-"))?;
        ids.push_str(" ")?;
    }
    Ok(ids)
}

/// The first selector that selects others.
fn first_wrong_selector(alloc: Global, forest: &Forest) -> Option<usize> {
    for (place, (selector, wanted)) in SELECTORS.iter().enumerate() {
        let Ok(ids) = ids_of(alloc, forest, selector) else {
            return Some(place);
        };
        if ids.as_str() != *wanted {
            return Some(place);
        }
    }
    None
}

/// The first element of this id.
fn named(alloc: Global, forest: &Forest, id: &str) -> Option<NodeId> {
    for node in nodes_below(forest, forest.document()) {
        if attribute_of(forest, node, "id") == Some(id) {
            return Some(node);
        }
    }
    None
}

/// The first element that has another text.
fn first_wrong_text(alloc: Global, forest: &Forest) -> Option<usize> {
    for (place, (id, wanted)) in TEXTS.iter().enumerate() {
        let Some(node) = named(alloc, forest, id) else {
            return Some(place);
        };
        let Ok(text) = text_content(alloc, forest, node) else {
            return Some(place);
        };
        if text.as_str() != *wanted {
            return Some(place);
        }
    }
    None
}

#[test]
fn elements_are_found(rt: HostRuntime) -> Result<(), Fail> {
    let forest = page_of(rt.alloc(), PAGE)?;
    assert_eq!(rt; first_wrong_selector(rt.alloc(), &forest), None);
    assert_eq!(rt; first_wrong_text(rt.alloc(), &forest), None);
    Ok(())
}

/// The names of the elements below a node, each with a space after it, and a dash for another node.
fn names_below(alloc: Global, forest: &Forest, top: NodeId) -> Result<String, ParseFault> {
    let mut names = String::new(alloc);
    for id in nodes_below(forest, top) {
        match element_name(forest, id) {
            Some(name) => names.push_str(name.local.as_str())?,
            None => names.push_str("-")?,
        }
        names.push_str(" ")?;
    }
    Ok(names)
}

#[test]
fn nodes_are_walked_in_their_order(rt: HostRuntime) -> Result<(), Fail> {
    let alloc = rt.alloc();
    let forest = page_of(alloc, PAGE)?;
    let names = names_below(alloc, &forest, forest.document())?;
    assert!(rt;
        names.as_str() == "- html head title - body p - b - - svg a - template p - a - script - "
    );
    let Some(kept) = named(alloc, &forest, "kept") else {
        return Err(Fail::from(NormalFault::Refused));
    };
    assert!(rt; nodes_below(&forest, kept).next().is_none());
    let Some(contents) = forest.template_contents(kept) else {
        return Err(Fail::from(NormalFault::Refused));
    };
    assert!(rt; names_below(alloc, &forest, contents)?.as_str() == "p - ");
    Ok(())
}

#[test]
fn elements_have_attributes(rt: HostRuntime) -> Result<(), Fail> {
    let alloc = rt.alloc();
    let forest = page_of(alloc, PAGE)?;
    let (Some(link), Some(drawn), Some(two)) = (
        named(alloc, &forest, "link"),
        named(alloc, &forest, "drawn"),
        named(alloc, &forest, "two"),
    ) else {
        return Err(Fail::from(NormalFault::Refused));
    };
    assert!(rt; attribute_of(&forest, link, "href") == Some("/u?a=1&b"));
    assert!(rt; attribute_of(&forest, link, "HREF").is_none());
    assert!(rt; attributes_of(&forest, link).len() == 3);
    assert!(rt; attribute_of(&forest, drawn, "href") == Some("r"));
    assert!(rt; is_html(&forest, link, "a") && !is_html(&forest, drawn, "a"));
    assert!(rt; has_class(&forest, two, "x") && !has_class(&forest, two, "X"));
    assert!(rt; !has_class(&forest, forest.document(), "x"));
    Ok(())
}

#[test]
fn trees_are_compared(rt: HostRuntime) -> Result<(), Fail> {
    let alloc = rt.alloc();
    let first = page_of(alloc, "<!DOCTYPE html><p id=a>1<p>2<!-- 3 -->")?;
    let same = page_of(
        alloc,
        "<!DOCTYPE html PUBLIC x><p ID='a'>1</p><p>2<!-- 3 --></p>",
    )?;
    let other = page_of(alloc, "<!DOCTYPE html><p id=a>1<p>2<!-- 4 -->")?;
    let (top, same_top, other_top) = (first.document(), same.document(), other.document());
    assert!(rt; are_told_alike(alloc, &first, top, &same, same_top) == Ok(true));
    assert!(rt; are_told_alike(alloc, &first, top, &other, other_top) == Ok(false));
    Ok(())
}
