//! What most sinks do nothing with, and templates.
ghost use Rattle.std.specs.Prelude.{◌≡◌};
ghost use Rattle.markup.specs.Forest.{IsNode};

use crate::steps::{Step, built};
use html_forest::{Forest, NodeData, NodeId};
use markup::{ParseFault, TreeSink, is_html_name};
use std::alloc::Global;

// Tells any sink all that it may be told of a node, and asks what it may be asked.
fn told<S: TreeSink>(sink: &mut S, node: &S::Handle) -> (bool, bool, bool)
    requires { IsNode (S.forest sink.old) (S.node node.now) }
    ensures { S.forest sink.new ≡ S.forest sink.old }
{
    sink.mark_script_already_started(node);
    sink.pop(node);
    sink.set_current_line(2);
    sink.maybe_clone_an_option_into_selectedcontent(node);
    let html_inside = sink.is_mathml_annotation_xml_integration_point(node);
    let roots = sink.allow_declarative_shadow_roots(node);
    let attached = sink.attach_declarative_shadow(node, node, &[]);
    (html_inside, roots, attached)
}

// Whether a paragraph's hooks answer what they do by default, and change nothing.
fn are_by_default(forest: &mut Forest) -> bool {
    let id = NodeId::new(1);
    if forest.node(id).is_none() {
        return false;
    }
    let (html_inside, roots, attached) = told(forest, &id);
    forest.associate_with_form(&id, &id, (&id, None));
    !html_inside && roots && !attached && forest.error_count() == 0
}

fn are_hooks_by_default(alloc: Global) -> Result<bool, ParseFault> {
    let mut forest = built(alloc, &[Step::Element("p")])?;
    Ok(are_by_default(&mut forest))
}

#[test]
fn hooks(rt: HostRuntime) {
    assert!(rt; are_hooks_by_default(rt.alloc()) == Ok(true));
}

// Whether node 1 is a template, and both answers to where its contents are agree.
fn has_contents(forest: &Forest) -> bool {
    let id = NodeId::new(1);
    if let Some(NodeData::Element { .. }) = forest.node(id) {
        if is_html_name(forest.elem_name(&id), "template") {
            let contents = forest.get_template_contents(&id);
            return forest.template_contents(id) == Some(contents);
        }
    }
    false
}

fn has_template_contents(alloc: Global) -> Result<bool, ParseFault> {
    let forest = built(alloc, &[Step::Element("template")])?;
    Ok(has_contents(&forest))
}

#[test]
fn contents_of_a_template(rt: HostRuntime) {
    assert!(rt; has_template_contents(rt.alloc()) == Ok(true));
}
