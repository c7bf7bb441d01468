//! Names of contexts, and the root of a fragment.
use html_forest::{Forest, NodeId};
use markup::{KnownNamespace, LocalName, Namespace, ParseFault, QualName};
use std::alloc::Global;

/// The name of an element of HTML.
pub(crate) fn html_name(alloc: Global, local: &str) -> Result<QualName, ParseFault> {
    let html = Namespace::from_known(KnownNamespace::Html);
    Ok(QualName::new(None, html, LocalName::from_str(alloc, local)?))
}

/// The first node that stands in the document, which is the root of a fragment, or else the document.
pub(crate) fn root_of(forest: &Forest) -> NodeId {
    match forest.first_child(forest.document()) {
        Some(root) => root,
        None => forest.document(),
    }
}
