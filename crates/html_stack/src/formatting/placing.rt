//! Where the adoption agency puts the last node of its walk (HTML Standard, section 13.2.6.4.7).
ghost use Rattle.std.specs.Prelude.{◌≡◌, ◌≤◌, length, take, IfErr, OnErr, OnOk};
ghost use Rattle.markup.specs.Forest.{Forest, IsLoose, IsNode, node_count, parent_at, put, remove};
ghost use Rattle.markup.specs.Named.{IsTree};
ghost use Rattle.markup.specs.declared.fault.ParseFault.TheVariants.{Memory};
ghost use Rattle.html_rules.specs.Places.{place_for};
ghost use Rattle.html_rules.specs.State.{current_node};
ghost use Rattle.html_rules_laws.specs.Soundness.{AreOpened};
ghost use Rattle.html_stack.specs.Inserting.{IsPoint, place_at};
ghost use Rattle.html_stack.specs.Stacks.{opens_of};

use crate::entries::{InsertionPoint, OpenElement};
use crate::inserting::places::{insert_at, point_for};
use markup::{NodeOrText, ParseFault, TreeSink};

/// The place for the element that was opened just before one of these; in the document, where there is none.
pub(crate) fn place_before<Sink: TreeSink>(
    sink: &mut Sink,
    elements: &[OpenElement<Sink::Handle>],
    from: usize,
    foster: bool,
) -> InsertionPoint<Sink::Handle>
    requires within { from ≤ length elements.now }
    requires opened { AreOpened (Sink.forest sink.old) (opens_of Sink.node elements.now) }
    ensures place { (f : Forest) → place_at Sink.node f result ≡ place_for foster f
        (opens_of Sink.node elements.now) (current_node (opens_of Sink.node (take from elements.now))) }
    ensures is_point { (f : Forest) → IsTree f → AreOpened f (opens_of Sink.node elements.now) → IsPoint Sink.node f result }
    ensures same { Sink.forest sink.new ≡ Sink.forest sink.old }
{
    let document = sink.get_document();
    if from == 0 {
        return InsertionPoint::LastChild(document);
    }
    point_for(sink, elements, document, foster, &elements[from - 1])
}

/// A node leaves its parent and is put at a place.
pub(crate) fn put_last<Sink: TreeSink>(
    sink: &mut Sink,
    point: InsertionPoint<Sink::Handle>,
    last: Sink::Handle,
) -> Result<(), ParseFault>
    requires node { IsNode (Sink.forest sink.old) (Sink.node last) }
    requires point { IsPoint Sink.node (remove (Sink.forest sink.old) (Sink.node last)) point }
    requires loose { IsLoose (remove (Sink.forest sink.old) (Sink.node last))
        (parent_at (place_at Sink.node (remove (Sink.forest sink.old) (Sink.node last)) point)) (Sink.node last) }
    ensures ok { OnOk result (Sink.forest sink.new ≡ put (remove (Sink.forest sink.old) (Sink.node last))
        (place_at Sink.node (remove (Sink.forest sink.old) (Sink.node last)) point) (Sink.node last)) }
    ensures err { OnErr result (Sink.forest sink.new ≡ remove (Sink.forest sink.old) (Sink.node last)) }
    ensures grows { node_count (Sink.forest sink.old) ≤ node_count (Sink.forest sink.new) }
    ensures fault { IfErr result (λ fault. fault ≡ Memory) }
{
    sink.remove_from_parent(&last);
    insert_at(sink, point, NodeOrText::AppendNode(last))
}
