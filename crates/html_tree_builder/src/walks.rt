//! Walks from the current node, and from the newest entry of the list, back.
ghost use Rattle.std.specs.Prelude.{◌≡◌, ℕ, is_some, codes};
ghost use Rattle.html_rules.specs.Adoption.{is_number};
ghost use Rattle.html_rules.specs.Formatting.{last_named};
ghost use Rattle.html_rules.specs.Stack.{in_scope};
ghost use Rattle.html_rules.specs.declared.tag_set.TagSet.TheVariants.{DefaultScope};
ghost use Rattle.html_stack.specs.Stacks.{entries_of, opens_of};

use html_rules::TagSet;
use html_stack::{FormatEntry, OpenElement};
use markup::TreeSink;

/// Whether a node is open and in scope.
pub(crate) fn is_node_in_scope<Sink: TreeSink>(
    sink: &Sink,
    elements: &[OpenElement<Sink::Handle>],
    node: &Sink::Handle,
) -> bool
    ensures { result ≡ in_scope DefaultScope (is_number (Sink.node node.now)) (opens_of Sink.node elements.now) }
{
    let mut i = elements.len();
    while i > 0 {
        i -= 1;
        let element = &elements[i];
        if sink.same_node(&element.handle, node) {
            return true;
        }
        if element.name.is_in(TagSet::DefaultScope) {
            return false;
        }
    }
    false
}

/// Whether an `a` is listed since the last marker.
pub(crate) fn lists_a<Handle>(entries: &[FormatEntry<Handle>]) -> bool
    ensures { (node : Handle → ℕ) → result ≡ is_some (last_named (codes "a") (entries_of node entries.now)) }
{
    let mut i = entries.len();
    while i > 0 {
        i -= 1;
        match &entries[i] {
            FormatEntry::Marker => return false,
            FormatEntry::Element(_, tag) => {
                if tag.name.is("a") {
                    return true;
                }
            }
        }
    }
    false
}
