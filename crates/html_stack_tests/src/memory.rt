//! Want of memory: what was begun is a forest then, and what is open serves on.
ghost use Rattle.html_rules_laws.specs.Soundness.{IsStanding};

use crate::adoption::{COPIED, ENDED_BY_A, ENDING, FOSTERED, MISNESTED, Row, Step, take};
use crate::inserting::{Call, ROWS, is_written, make, started};
use html_forest::{Forest, NodeId};
use html_stack::Stack;
use markup::{ParseFault, TreeSink};
use std::alloc::Global;
use std::process::Abort;

/// More nodes than the document of any row has.
const NODES: usize = 1_000;

/// Adds the nodes below one to those that wait, where each names it as its parent.
fn add_below(forest: &Forest, node: NodeId, waiting: &mut Vec<NodeId>) -> Result<bool, ParseFault> {
    for child in forest.children(node) {
        if forest.parent(child) != Some(node) {
            return Ok(false);
        }
        waiting.push(child)?;
    }
    if let Some(contents) = forest.template_contents(node) {
        waiting.push(contents)?;
    }
    Ok(true)
}

/// Takes node by node of those that wait.
fn take_waiting(forest: &Forest, waiting: &mut Vec<NodeId>) -> Result<bool, ParseFault> {
    for _node in 0..NODES {
        match waiting.pop() {
            Some(node) => {
                if !add_below(forest, node, waiting)? {
                    return Ok(false);
                }
            }
            None => return Ok(true),
        }
    }
    Ok(false)
}

/// Whether each node below one names as its parent the node that has it among its children.
fn are_linked(alloc: Global, forest: &Forest, top: NodeId) -> Result<bool, ParseFault> {
    let mut waiting = Vec::new(alloc);
    waiting.push(top)?;
    take_waiting(forest, &mut waiting)
}

/// Sees that a call was done, or that memory was wanting, and says which.
fn was_refused(rt: &impl Abort, answer: Result<(), ParseFault>) -> bool {
    match answer {
        Ok(()) => false,
        Err(fault) => {
            assert!(rt; fault == ParseFault::Memory);
            true
        }
    }
}

/// Sees that a test holds, where memory was not wanting for it.
fn assert_if_told(rt: &impl Abort, answer: Result<bool, ParseFault>) {
    match answer {
        Ok(holds) => assert!(rt; holds),
        Err(fault) => assert!(rt; fault == ParseFault::Memory),
    }
}

/// Takes all steps, those too that come after one which was refused memory. Says whether one was.
fn take_all(
    rt: &impl Abort,
    alloc: Global,
    forest: &mut Forest,
    stack: &mut Stack<Forest>,
    steps: &[Step<'_>],
) -> bool
    requires { IsStanding forest.old stack.old.open_elems stack.old.active_formatting }
    ensures { IsStanding forest.new stack.new.open_elems stack.new.active_formatting }
{
    let mut refused = false;
    for step in steps {
        let answer = take(alloc, forest, stack, *step);
        refused = was_refused(rt, answer) || refused;
    }
    refused
}

/// The same with calls.
fn make_all(
    rt: &impl Abort,
    alloc: Global,
    forest: &mut Forest,
    stack: &mut Stack<Forest>,
    calls: &[Call<'_>],
) -> bool
    requires { IsStanding forest.old stack.old.open_elems stack.old.active_formatting }
{
    let mut refused = false;
    for call in calls {
        let answer = make(alloc, forest, stack, *call);
        refused = was_refused(rt, answer) || refused;
    }
    refused
}

/// Sees that a forest is one, and is this document unless something of it was refused.
fn assert_forest(
    rt: &impl Abort,
    alloc: Global,
    forest: &mut Forest,
    refused: bool,
    document: &str,
) {
    let top = forest.get_document();
    assert_if_told(rt, are_linked(alloc, forest, top));
    let written = is_written(alloc, forest, document);
    if !refused {
        assert_if_told(rt, written);
    }
}

/// Sees what the steps of a row lead to in a body.
fn assert_row(rt: &impl Abort, alloc: Global, row: &Row<'_>) {
    let Ok((mut forest, mut stack)) = started(alloc) else {
        return;
    };
    let body = [Step::Element("body")];
    let refused = take_all(rt, alloc, &mut forest, &mut stack, &body);
    let refused = take_all(rt, alloc, &mut forest, &mut stack, row.0) || refused;
    assert_forest(rt, alloc, &mut forest, refused, row.1);
}

/// Sees what calls lead to after the root.
fn assert_made(rt: &impl Abort, alloc: Global, calls: &[Call<'_>], document: &str) {
    let Ok((mut forest, mut stack)) = started(alloc) else {
        return;
    };
    let refused = make_all(rt, alloc, &mut forest, &mut stack, calls);
    assert_forest(rt, alloc, &mut forest, refused, document);
}

#[test]
fn adoption_may_want_memory(rt: HostRuntime) {
    for rows in [MISNESTED, COPIED, ENDING, FOSTERED, ENDED_BY_A] {
        for row in rows {
            assert_row(&rt, rt.alloc(), row);
        }
    }
}

#[test]
fn insertions_may_want_memory(rt: HostRuntime) {
    for (calls, document) in ROWS {
        assert_made(&rt, rt.alloc(), calls, document);
    }
}
