//! An index of a forest answers, memory being there.
use html_forest::{Forest, NodeId};
use html_selector_text::Selector;
use html_selectors::{Index, select_first};
use markup::{
    Attributes, ElementFlags, LocalName, Namespace, ParseFault, QualName, TreeSink, is_html_name,
    namespaces,
};
use std::alloc::Global;
use std::test::Fail;

// Makes an element of HTML, which stands under nothing.
fn element(alloc: Global, forest: &mut Forest, local: &str) -> Result<NodeId, ParseFault> {
    let name = QualName::new(
        None,
        Namespace::new(String::from_str(alloc, namespaces::HTML)?),
        LocalName::new(String::from_str(alloc, local)?),
    );
    let flags = ElementFlags {
        template: is_html_name(&name, "template"),
        ..ElementFlags::default()
    };
    forest.create_element(name, Attributes::new(alloc), flags)
}

#[test]
fn an_index_answers(rt: HostRuntime) -> Result<(), Fail> {
    let alloc = rt.alloc();
    let mut forest = Forest::new(alloc)?;
    let made = element(alloc, &mut forest, "p")?;
    let selector = Selector::parse(
        alloc,
        "a, p:first-child:nth-of-type(1):not(:has(*), * *, * ~ *)",
    )?;
    let index = Index::new(alloc, &forest)?;
    assert!(rt; index.matches(made, &selector)?);
    assert!(rt; index.closest(made, &selector)? == Some(made));
    let found = index.select_all(forest.document(), &selector)?;
    assert!(rt; found.is_empty());
    assert!(rt; index.select_first(forest.document(), &selector)?.is_none());
    assert!(rt; select_first(alloc, &forest, forest.document(), &selector)?.is_none());
    Ok(())
}
