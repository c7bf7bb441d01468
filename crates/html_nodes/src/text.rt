//! The text of what stands in a node.
ghost use Rattle.std.specs.Prelude.{◌≡◌, ◌∷◌, ◌++◌, IfErr, IfOk, OnOk};
ghost use Rattle.std.specs.Str.{chars};
ghost use Rattle.std.specs.String.{string_bytes};
ghost use Rattle.markup.specs.declared.fault.ParseFault.TheVariants.{Memory};
ghost use Rattle.html_nodes.specs.Below.{below};
ghost use Rattle.html_nodes.specs.Looks.{text_in, texts_of};

use crate::walk::nodes_below;
use html_forest::{Forest, NodeData, NodeId};
use markup::{ParseFault, Text};
use std::alloc::Global;

/// Adds the text of a node to a text, if the node is one.
pub fn push_text(forest: &Forest, id: NodeId, text: &mut Text) -> Result<(), ParseFault>
    ensures ok { OnOk result (text.new ≡ text.old ++ text_in forest.now id) }
    ensures fault { IfErr result (λ fault. fault ≡ Memory) }
{
    match forest.node(id) {
        Some(NodeData::Text(more)) => text.push_str(more.as_str()),
        _ => Ok(()),
    }
}

/// The text of a node: that of the node itself, if it is a text, and of each text below it, joined in their order (DOM Standard, section
/// 4.4, `textContent`). Comments have none, and scripts and style sheets have theirs. Takes the memory of the text.
pub fn text_content(alloc: Global, forest: &Forest, id: NodeId) -> Result<String, ParseFault>
    ensures ok { IfOk result (λ text. chars (string_bytes text) ≡ texts_of forest.now (id ∷ below forest.now id)) }
    ensures fault { IfErr result (λ fault. fault ≡ Memory) }
{
    let mut text = Text::empty(alloc);
    push_text(forest, id, &mut text)?;
    for node in nodes_below(forest, id) {
        push_text(forest, node, &mut text)?;
    }
    text.into_string()
}
