//! What is put into a tree.

use crate::text::Text;

/// What is put at a place of the tree: a node that stands nowhere yet, or text.
#[derive(Debug, Drop)]
pub enum NodeOrText<Handle> {
    /// A node.
    AppendNode(Handle),
    /// Text, which joins the text just before the place.
    AppendText(Text),
}
