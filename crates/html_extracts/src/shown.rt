//! The text that a tree shows.
ghost use Rattle.std.specs.Prelude.{◌≡◌, IfErr, IfOk, filter};
ghost use Rattle.std.specs.Str.{chars};
ghost use Rattle.std.specs.String.{string_bytes};
ghost use Rattle.html_nodes.specs.Below.{below};
ghost use Rattle.html_nodes.specs.Looks.{texts_of};
ghost use Rattle.markup.specs.declared.fault.ParseFault.TheVariants.{Memory};
ghost use Rattle.html_extracts.specs.Shown as spec;

use html_forest::{Forest, NodeId};
use html_nodes::{element_name, nodes_below, push_text};
use markup::{ParseFault, Text};
use std::alloc::Global;

// Whether the text in an element of this name is none that is shown.
fn hides(local: &str) -> bool
    ensures { result ≡ spec.hides local.now }
{
    local == "script"
        || local == "style"
        || local == "noscript"
        || local == "noframes"
        || local == "noembed"
        || local == "iframe"
}

/// Whether what a text says in a node's children is shown: a node that is no `script` and no `style`, whose text is a program or a style
/// sheet, and no `noscript`, `noframes`, `noembed` or `iframe`, whose text is markup for those who lack something.
pub fn is_shown(forest: &Forest, id: NodeId) -> bool
    ensures { result ≡ spec.is_shown forest.now id }
{
    let Some(parent) = forest.parent(id) else {
        return true;
    };
    match element_name(forest, parent) {
        Some(name) => !hides(name.local.as_str()),
        None => true,
    }
}

/// The texts below a node that are shown, joined in their order, without a break between them. What stands in a template is not below
/// it. Of a text its parent alone is asked, so that of `<svg><style><g>x` the `x` is shown; `html_inner_text` leaves out all that is in an
/// element that is not rendered. Takes the memory of the text.
pub fn shown_text(alloc: Global, forest: &Forest, top: NodeId) -> Result<String, ParseFault>
    ensures ok { IfOk result (λ text. chars (string_bytes text) ≡ texts_of forest.now
        (filter (spec.is_shown forest.now) (below forest.now top))) }
    ensures fault { IfErr result (λ fault. fault ≡ Memory) }
{
    let mut text = Text::empty(alloc);
    for id in nodes_below(forest, top) {
        if is_shown(forest, id) {
            push_text(forest, id, &mut text)?;
        }
    }
    text.into_string()
}
