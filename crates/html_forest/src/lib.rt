//! A forest of nodes in memory, which a parser builds through the interface of trees.
//!
//! Tests: `html_forest_tests`.
#![tactic(auto)]

mod children;
mod data;
mod entry;
mod forest;
mod link;
mod names;
mod node;
mod nodes;
mod plain;
mod store;
mod walk;

pub use children::Children;
pub use forest::Forest;
pub use node::{AttributesRef, NodeData, NodeId, TextRef};
pub use walk::ForestNode;
