//! The elements below a node that have what is asked for.
ghost use Rattle.std.specs.Prelude.{◌≡◌, IfErr, IfOk, codes, filter};
ghost use Rattle.markup.specs.declared.fault.ParseFault.TheVariants.{Memory};
ghost use Rattle.html_nodes.specs.Below.{below};
ghost use Rattle.html_nodes.specs.Looks as looks;
ghost use Rattle.html_nodes.specs.Looks.{attribute_of, has_word, is_value, meets};

use crate::element::{attribute_of, element_name, has_class, is_html, is_spelled};
use crate::walk::nodes_below;
use html_forest::{Forest, NodeId};
use markup::ParseFault;
use std::alloc::Global;

/// What is asked for: each part that is there must be met.
#[derive(Clone, Copy)]
pub struct Query<'a> {
    /// An element of HTML with this local name.
    pub name: Option<&'a str>,
    /// An element with this `id`.
    pub id: Option<&'a str>,
    /// An element of this class.
    pub class: Option<&'a str>,
}

fn has_name(forest: &Forest, id: NodeId, wanted: Option<&str>) -> bool
    ensures { result ≡ meets wanted.entry (looks.is_html forest.now id) }
{
    match wanted {
        Some(local) => is_html(forest, id, local),
        None => true,
    }
}

fn has_id(forest: &Forest, id: NodeId, wanted: Option<&str>) -> bool
    ensures { result ≡ meets wanted.entry (is_value (attribute_of forest.now id (codes "id"))) }
{
    match wanted {
        Some(wanted) => match attribute_of(forest, id, "id") {
            Some(value) => is_spelled(value, wanted),
            None => false,
        },
        None => true,
    }
}

fn is_of_class(forest: &Forest, id: NodeId, wanted: Option<&str>) -> bool
    ensures { result ≡ meets wanted.entry (has_word (attribute_of forest.now id (codes "class"))) }
{
    match wanted {
        Some(class) => has_class(forest, id, class),
        None => true,
    }
}

/// Whether a node is an element that has all that is asked for.
pub fn fits(forest: &Forest, id: NodeId, query: &Query<'_>) -> bool
    ensures { result ≡ looks.fits forest.now query.now id }
{
    element_name(forest, id).is_some()
        && has_name(forest, id, query.name)
        && has_id(forest, id, query.id)
        && is_of_class(forest, id, query.class)
}

/// The elements below a node that have all that is asked for, in tree order.
pub fn select(
    alloc: Global,
    forest: &Forest,
    top: NodeId,
    query: &Query<'_>,
) -> Result<Vec<NodeId>, ParseFault>
    ensures ok { IfOk result (λ found. found.items ≡ filter (looks.fits forest.now query.now) (below forest.now top)) }
    ensures fault { IfErr result (λ fault. fault ≡ Memory) }
{
    let mut found = Vec::new(alloc);
    for id in nodes_below(forest, top) {
        if fits(forest, id, query) {
            found.push(id)?;
        }
    }
    Ok(found)
}
