//! Writing what a policy keeps of a tree.
ghost use Rattle.std.specs.Prelude.{◌≡◌, [], None, true, false, IfOk};
ghost use Rattle.html_clean.specs.Calls.{filtered};
ghost use Rattle.html_clean.specs.Counts.{all_counted, nothing_counted, with_counts};
ghost use Rattle.html_clean.specs.Written.{WritesClean};
ghost use Rattle.html_serialize.specs.Puts.{told_by};
ghost use Rattle.html_serialize.specs.Serializing.{Serializes};
ghost use Rattle.markup.specs.Calls.{Walks, calls_of};
ghost use Rattle.markup.specs.Trees.{Trees};
ghost use Rattle.markup.specs.declared.serializer.TraversalScope.TheVariants.{ChildrenOnly};

use crate::counts::Cleaned;
use crate::filter::Filter;
use crate::policy::Policy;
use devices::Target;
use html_serialize::{HtmlSerializer, SerializeOpts};
use markup::{Serialize, SerializeFault, Serializer, TraversalScope};
use std::alloc::Global;

/// An answer, with what was counted.
fn with_counts(
    answer: Result<(), SerializeFault>,
    counts: Cleaned,
) -> Result<Cleaned, SerializeFault>
    ensures { result ≡ with_counts counts answer }
{
    match answer {
        Ok(()) => Ok(counts),
        Err(fault) => Err(fault),
    }
}

/// Tells a serializer what a policy keeps of a node, or of what stands in it, and counts what it doesn't.
pub fn serialize_clean<S: Serializer, T: Serialize>(
    alloc: Global,
    serializer: &mut S,
    node: &T,
    scope: TraversalScope,
    policy: &Policy,
) -> Result<Cleaned, SerializeFault>
    ensures walks { Walks S.step S.refuses (S.view serializer.old)
        (filtered policy.now [] true (T.calls node.now scope)) result (S.view serializer.new) }
    ensures counts { IfOk result (λ counts. counts ≡ all_counted policy.now [] nothing_counted (T.calls node.now scope)) }
    ensures same_references { S.references serializer.new ≡ S.references serializer.old }
{
    let mut filter = Filter::new(alloc, policy, serializer);
    let answer = node.serialize(alloc, &mut filter, scope);
    let counts = filter.counts();
    filter.end();
    with_counts(answer, counts)
}

/// A writer after a walk, with the walk's answer.
#[derive(Drop)]
struct Walked<Wr> {
    writer: Wr,
    answer: Result<Cleaned, SerializeFault>,
}

/// Writes what a policy keeps of what stands in a node, and gives the writer back.
fn walk<Wr: Target + Drop, T: Serialize>(
    alloc: Global,
    writer: Wr,
    node: &T,
    policy: &Policy,
) -> Walked<Wr>
    ensures serializes { Serializes true false (ChildrenOnly None)
        (filtered policy.now [] true (T.calls node.now (ChildrenOnly None))) (told_by Wr.written Wr.failures writer)
        result.answer (told_by Wr.written Wr.failures result.writer) }
    ensures counts { IfOk result.answer (λ counts. counts ≡ all_counted policy.now [] nothing_counted
        (T.calls node.now (ChildrenOnly None))) }
    ensures same_references { Wr.references result.writer ≡ Wr.references writer }
{
    match HtmlSerializer::new_or_back(alloc, writer, SerializeOpts::default()) {
        Err(writer) => Walked {
            writer,
            answer: Err(SerializeFault::Memory),
        },
        Ok(made) => {
            let mut serializer = made;
            let answer = serialize_clean(
                alloc,
                &mut serializer,
                node,
                TraversalScope::ChildrenOnly(None),
                policy,
            );
            let HtmlSerializer { writer, .. } = serializer;
            Walked { writer, answer }
        }
    }
}

/// Writes what a policy keeps of what stands in a node (HTML Standard, section 13.3), and counts what it doesn't.
pub fn write_clean<W: Target, T: Serialize>(
    alloc: Global,
    writer: &mut W,
    node: &T,
    policy: &Policy,
) -> Result<Cleaned, SerializeFault>
    ensures text { (trees : Trees) → T.calls node.now (ChildrenOnly None) ≡ calls_of trees
        → WritesClean policy.now trees (told_by W.written W.failures writer.old) result (told_by W.written W.failures writer.new) }
    ensures same_references { W.references writer.new ≡ W.references writer.old }
{
    walk(alloc, writer, node, policy).answer
}
