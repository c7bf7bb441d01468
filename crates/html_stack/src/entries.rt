//! What the stack and the list are made of.
ghost use Rattle.std.specs.Prelude.{◌≡◌, ◌<◌, Some, length, slice_get};

use html_names::ElementName;
use html_tokens::Tag;

/// An open element: its node, with its namespace and its name.
#[derive(Drop)]
pub struct OpenElement<Handle> {
    /// The node.
    pub handle: Handle,
    /// The namespace and the name that it was opened with.
    pub name: ElementName,
}

/// An entry of the list of active formatting elements.
#[derive(Drop)]
pub enum FormatEntry<Handle> {
    /// An HTML element, with the tag that it was made for.
    Element(Handle, Tag),
    /// A marker.
    Marker,
}

/// Where a node is put (HTML Standard, section 13.2.6.1).
#[derive(Clone, Copy, Debug)]
pub enum InsertionPoint<Handle> {
    /// Last among the children of a node.
    LastChild(Handle),
    /// Just before a node, which has a parent.
    BeforeSibling(Handle),
    /// Before a table where it has a parent, and else last in the element that was opened just before it.
    TableFosterParenting {
        /// The table.
        element: Handle,
        /// The element that was opened just before the table.
        prev_element: Handle,
    },
}

/// Whether an element that is inserted is opened.
#[derive(Clone, Copy, Debug, PartialEq, Eq)]
pub enum PushFlag {
    /// It is opened.
    Push,
    /// It is not.
    NoPush,
}

/// The root, of elements that are lent with the root first.
pub fn html_elem<Element>(open_elems: &[Element]) -> &Element
    requires { 0 < length open_elems.now }
    ensures { slice_get open_elems.now 0 ≡ Some result.now }
{
    &open_elems[0]
}
