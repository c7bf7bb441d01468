//! What stands where memory is refused.

use crate::rows::children;
use crate::steps::{Step, take};
use html_forest::{Forest, NodeId};
use markup::ParseFault;
use std::alloc::Global;

// The children of the first nodes.
fn picture(alloc: Global, forest: &Forest) -> Result<String, ParseFault> {
    let mut out = String::new(alloc);
    for number in 0..5usize {
        out.push_str(children(alloc, forest, NodeId::new(number))?.as_str())?;
        out.push_str(";")?;
    }
    Ok(out)
}

// Whether the forest is as a picture shows it.
fn is_as_before(alloc: Global, forest: &Forest, before: &str) -> Result<bool, ParseFault> {
    let after = picture(alloc, forest)?;
    Ok(after.as_str() == before)
}

// Whether a step is taken, or refused memory and the forest is as it was.
fn is_taken_or_unchanged(
    alloc: Global,
    forest: &mut Forest,
    step: Step,
) -> Result<bool, ParseFault> {
    let before = picture(alloc, forest)?;
    match take(alloc, forest, step) {
        Ok(_) => Ok(true),
        Err(_) => Ok(is_as_before(alloc, forest, before.as_str()) == Ok(true)),
    }
}

const STEPS: &[Step<'static>] = &[
    Step::Element("p"),
    Step::Append(0, 1),
    Step::AppendText(1, "a"),
    Step::AppendText(1, "b"),
    Step::Element("br"),
    Step::Append(1, 3),
    Step::BeforeText(3, "c"),
    Step::Element("template"),
    Step::Reparent(1, 4),
    Step::Comment("d"),
    Step::Instruction("e", "f"),
    Step::Doctype("html"),
    Step::Attribute(1, "g", "h"),
];

fn are_taken(alloc: Global, forest: &mut Forest) -> Result<bool, ParseFault> {
    for step in STEPS {
        if !is_taken_or_unchanged(alloc, forest, *step)? {
            return Ok(false);
        }
    }
    Ok(true)
}

fn is_built(alloc: Global) -> Result<bool, ParseFault> {
    let mut forest = Forest::new(alloc)?;
    are_taken(alloc, &mut forest)
}

// With ample memory all steps are taken; a step that is refused memory leaves the forest as it was.
#[test]
fn refused_memory_changes_nothing(rt: HostRuntime) {
    assert!(rt; !matches!(is_built(rt.alloc()), Ok(false)));
}
