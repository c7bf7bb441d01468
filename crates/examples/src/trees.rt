//! The tree of a page, and a walk of it.

use figpliers::{
    Forest, ForestNode, ParseFault, ParseOpts, References, Serialize, SerializeFault, Serializer,
    TraversalScope, TreeSink, parse_document,
};
use std::alloc::Global;

pub fn tree(alloc: Global, table: References, page: String) -> Result<Forest, ParseFault> {
    let forest = Forest::new(alloc)?;
    parse_document(alloc, forest, ParseOpts::default(), table)?.one(page)
}

/// Tells all of a page: where elements begin and end, and what stands in them.
pub fn tell<S: Serializer>(
    alloc: Global,
    table: References,
    page: String,
    listener: &mut S,
) -> Result<(), SerializeFault> {
    let Ok(mut forest) = tree(alloc, table, page) else {
        return Err(SerializeFault::Memory);
    };
    let id = forest.get_document();
    let forest = &forest;
    ForestNode { forest, id }.serialize(alloc, listener, TraversalScope::IncludeNode)
}
