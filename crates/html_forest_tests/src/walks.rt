//! What a serializer is told of a node.
use crate::steps::{Step, built, take};
use html_forest::{Forest, ForestNode, NodeId};
use markup::{
    Attribute, ParseFault, QualName, Serialize, SerializeFault, Serializer, TraversalScope,
};
use std::alloc::Global;

// Lists what it is told.
#[derive(Drop)]
struct Lister {
    text: String,
}

impl Serializer for Lister {
    ghost use Rattle.std.specs.Prelude.{Ok};

    ghost State = { Unit {0} };

    ghost view = { λ _. tt };

    ghost step = { λ s _. Ok s };

    ghost refuses = { λ _ _ _ _. Unit {0} };

    fn start_elem(&mut self, name: &QualName, attrs: &[Attribute]) -> Result<(), SerializeFault> {
        self.text.push_str("<")?;
        self.text.push_str(name.local.as_str())?;
        for attribute in attrs {
            self.text.push_str(" ")?;
            self.text.push_str(attribute.value.as_str())?;
        }
        self.text.push_str(">")?;
        Ok(())
    }

    fn end_elem(&mut self, name: &QualName) -> Result<(), SerializeFault> {
        self.text.push_str("</")?;
        self.text.push_str(name.local.as_str())?;
        self.text.push_str(">")?;
        Ok(())
    }

    fn write_text(&mut self, text: &str) -> Result<(), SerializeFault> {
        self.text.push_str(text)?;
        Ok(())
    }

    fn write_comment(&mut self, text: &str) -> Result<(), SerializeFault> {
        self.text.push_str("--")?;
        self.text.push_str(text)?;
        Ok(())
    }

    fn write_doctype(&mut self, name: &str) -> Result<(), SerializeFault> {
        self.text.push_str("!")?;
        self.text.push_str(name)?;
        Ok(())
    }

    fn write_processing_instruction(
        &mut self,
        target: &str,
        data: &str,
    ) -> Result<(), SerializeFault> {
        self.text.push_str("?")?;
        self.text.push_str(target)?;
        self.text.push_str(data)?;
        Ok(())
    }
}

fn listed(
    alloc: Global,
    forest: &Forest,
    number: usize,
    scope: TraversalScope,
) -> Result<Lister, SerializeFault> {
    let mut lister = Lister {
        text: String::new(alloc),
    };
    let node = ForestNode {
        forest,
        id: NodeId::new(number),
    };
    node.serialize(alloc, &mut lister, scope)?;
    Ok(lister)
}

const PAGE: &[Step<'static>] = &[
    Step::Doctype("html"),
    Step::Element("p"),
    Step::Append(0, 2),
    Step::Attribute(2, "x", "1"),
    Step::AppendText(2, "a"),
    Step::Comment("c"),
    Step::Append(2, 4),
    Step::Instruction("t", "d"),
    Step::Append(2, 5),
    Step::Element("template"),
    Step::Append(2, 6),
    Step::AppendText(6, "out"),
    Step::AppendText(7, "in"),
];

const WHOLE: &str = "!html<p 1>a--c?td<template>in</template></p>";

// A node of the page, and what a serializer is told of it with itself, and of what stands in it.
const ROWS: &[(usize, &str, &str)] = &[
    (0, WHOLE, WHOLE),
    (1, "!html", ""),
    (
        2,
        "<p 1>a--c?td<template>in</template></p>",
        "a--c?td<template>in</template>",
    ),
    (3, "a", ""),
    (4, "--c", ""),
    (5, "?td", ""),
    (6, "<template>in</template>", "in"),
    (7, "in", "in"),
    (8, "out", ""),
    (10, "", ""),
];

fn is_listed(
    alloc: Global,
    forest: &Forest,
    number: usize,
    scope: TraversalScope,
    want: &str,
) -> Result<bool, SerializeFault> {
    let shown = listed(alloc, forest, number, scope)?;
    Ok(shown.text.as_str() == want)
}

// Whether a serializer is told this of a node of the page.
fn is_walked(
    alloc: Global,
    number: usize,
    node: &str,
    children: &str,
) -> Result<bool, SerializeFault> {
    let Ok(forest) = built(alloc, PAGE) else {
        return Err(SerializeFault::Memory);
    };
    if is_listed(alloc, &forest, number, TraversalScope::IncludeNode, node) == Ok(true) {
        let scope = TraversalScope::ChildrenOnly(None);
        is_listed(alloc, &forest, number, scope, children)
    } else {
        Ok(false)
    }
}

#[test]
fn walks(rt: HostRuntime) {
    for &(number, node, children) in ROWS {
        assert!(rt;
            is_walked(rt.alloc(), number, node, children) == Ok(true),
            "{number}"
        );
    }
}

fn nest(alloc: Global, forest: &mut Forest, depth: usize) -> Result<(), ParseFault> {
    for number in 1..=depth {
        let _made = take(alloc, forest, Step::Element("b"))?;
        if number > 1 {
            let _put = take(alloc, forest, Step::Append(number, number - 1))?;
        }
    }
    let _put = take(alloc, forest, Step::Append(0, depth))?;
    Ok(())
}

// How many characters a serializer is told of so many elements, each in the next.
fn nested_length(alloc: Global, depth: usize) -> Result<usize, SerializeFault> {
    let Ok(mut forest) = Forest::new(alloc) else {
        return Err(SerializeFault::Memory);
    };
    if nest(alloc, &mut forest, depth).is_err() {
        return Err(SerializeFault::Memory);
    }
    let shown = listed(alloc, &forest, 0, TraversalScope::IncludeNode)?;
    Ok(shown.text.len())
}

#[test]
fn a_deep_tree(rt: HostRuntime) {
    assert!(rt; nested_length(rt.alloc(), 100_000) == Ok(700_000));
}
