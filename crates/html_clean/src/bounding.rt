//! Writing what a policy keeps of a tree, unless it is too much.
ghost use Rattle.std.specs.Prelude.{◌≡◌, [], None, true, length, nat_lt, IfErr, IfOk};
ghost use Rattle.html_clean.specs.Bounds as measures;
ghost use Rattle.html_clean.specs.Bounds.{WritesWithin, all_measured, beyond_measure, bytes_of, nothing_measured};
ghost use Rattle.html_clean.specs.Calls.{filtered};
ghost use Rattle.html_clean.specs.Counts.{counts_of};
ghost use Rattle.html_serialize.specs.Puts.{Puts, told_by};
ghost use Rattle.markup.specs.Calls.{calls_of};
ghost use Rattle.markup.specs.Trees.{Trees};
ghost use Rattle.markup.specs.declared.serializer.TraversalScope.TheVariants.{ChildrenOnly};

use crate::counts::Cleaned;
use crate::policy::Policy;
use crate::write::{serialize_clean, write_clean};
use devices::{Target, VecWriter, write_whole};
use markup::{Attribute, QualName, Serialize, SerializeFault, Serializer, TraversalScope};
use std::alloc::Global;
use thiserror::Error;

/// How much may be left of a document. A bound of `u64::MAX` is none.
#[derive(Clone, Copy, Debug, PartialEq, Eq)]
pub struct Bounds {
    /// The most elements that stand in one another; of `<p><b>x</b></p>` it is two.
    pub depth: u64,
    /// The most elements.
    pub elements: u64,
    /// The most bytes of text that is written.
    pub bytes: u64,
}

/// A bound that was passed.
#[derive(Clone, Copy, Debug, PartialEq, Eq, Error)]
pub enum Bound {
    /// [`Bounds::depth`]
    #[error("elements stand too deep in one another")]
    Depth,
    /// [`Bounds::elements`]
    #[error("too many elements")]
    Elements,
    /// [`Bounds::bytes`]
    #[error("too much text")]
    Bytes,
}

/// Why nothing was written, or not all.
#[derive(Clone, Copy, Debug, PartialEq, Eq, Error)]
pub enum BoundedFault {
    /// It is too much. Nothing was written.
    #[error("{0}")]
    Beyond(Bound),
    /// No memory was left. Nothing was written.
    #[error("no memory was left")]
    Memory,
    /// The writer failed. A beginning was written.
    #[error("the writer failed")]
    Write,
}

/// The measure of the elements that were emitted; each number stops at `u64::MAX`.
#[derive(Clone, Copy, Drop)]
pub(crate) struct Measurer {
    /// How many have begun and not ended.
    pub begun: u64,
    /// How many did so at most.
    pub depth: u64,
    /// How many have begun.
    pub elements: u64,
}

impl Measurer {
    /// The same, after the start of an element.
    fn started(&self) -> Measurer
        ensures { result ≡ measures.started self.now }
    {
        let begun = self.begun.saturating_add(1);
        Measurer {
            begun,
            depth: self.depth.max(begun),
            elements: self.elements.saturating_add(1),
        }
    }

    /// The same, after the end of an element.
    fn ended(&self) -> Measurer
        ensures { result ≡ measures.ended self.now }
    {
        Measurer {
            begun: self.begun.saturating_sub(1),
            ..*self
        }
    }
}

impl Serializer for Measurer {
    ghost use Rattle.html_clean.specs.Bounds.{measuring, never_refuses};
    ghost use Rattle.html_clean.specs.declared.bounding.Measurer.{Measurer};

    ghost State = { Measurer };

    ghost view = { λ m. m };

    ghost step = { measuring };

    ghost refuses = { never_refuses };

    fn start_elem(&mut self, _name: &QualName, _attrs: &[Attribute]) -> Result<(), SerializeFault> {
        *self = self.started();
        Ok(())
    }

    fn end_elem(&mut self, _name: &QualName) -> Result<(), SerializeFault> {
        *self = self.ended();
        Ok(())
    }

    fn write_text(&mut self, _text: &str) -> Result<(), SerializeFault> {
        Ok(())
    }

    fn write_comment(&mut self, _text: &str) -> Result<(), SerializeFault> {
        Ok(())
    }

    fn write_doctype(&mut self, _name: &str) -> Result<(), SerializeFault> {
        Ok(())
    }

    fn write_processing_instruction(
        &mut self,
        _target: &str,
        _contents: &str,
    ) -> Result<(), SerializeFault> {
        Ok(())
    }
}

/// The elements of what is left of a node's contents, measured.
fn measure<T: Serialize>(
    alloc: Global,
    node: &T,
    policy: &Policy,
) -> Result<Measurer, SerializeFault>
    ensures ok { IfOk result (λ m. m ≡ all_measured nothing_measured (filtered policy.now [] true (T.calls node.now (ChildrenOnly None)))) }
{
    let mut measurer = Measurer {
        begun: 0,
        depth: 0,
        elements: 0,
    };
    let scope = TraversalScope::ChildrenOnly(None);
    match serialize_clean(alloc, &mut measurer, node, scope, policy) {
        Ok(_) => Ok(measurer),
        Err(fault) => Err(fault),
    }
}

/// The bound that elements pass.
fn beyond_measure(bounds: &Bounds, measure: &Measurer) -> Option<Bound>
    ensures { result ≡ beyond_measure bounds.now measure.now }
{
    if bounds.depth < measure.depth {
        Some(Bound::Depth)
    } else if bounds.elements < measure.elements {
        Some(Bound::Elements)
    } else {
        None
    }
}

/// Whether there are more bytes than a bound says.
fn is_too_long(most: u64, bytes: &[u8]) -> bool
    ensures { result ≡ nat_lt most (length bytes.now) }
{
    most < bytes.len() as u64
}

/// What is left of a node's contents, in memory, and what was taken away, counted.
#[derive(Drop)]
struct InMemory {
    writer: VecWriter,
    counts: Cleaned,
}

/// What is left of a node's contents.
fn cleaned_in_memory<T: Serialize>(
    alloc: Global,
    node: &T,
    policy: &Policy,
) -> Result<InMemory, BoundedFault>
    ensures bytes { IfOk result (λ b. (trees : Trees) → T.calls node.now (ChildrenOnly None) ≡ calls_of trees
        → b.writer.written ≡ bytes_of policy.now trees) }
    ensures counts { IfOk result (λ b. (trees : Trees) → T.calls node.now (ChildrenOnly None) ≡ calls_of trees
        → b.counts ≡ counts_of policy.now trees) }
    ensures fault { IfErr result (λ fault. fault ≡ BoundedFault.Memory) }
{
    let mut writer = VecWriter::new(alloc);
    match write_clean(alloc, &mut writer, node, policy) {
        Ok(counts) => Ok(InMemory { writer, counts }),
        Err(_) => Err(BoundedFault::Memory),
    }
}

/// Writes all of the bytes.
fn put<W: Target>(writer: &mut W, bytes: &[u8]) -> Result<(), SerializeFault>
    ensures puts { Puts (told_by W.written W.failures writer.old) bytes.now result (told_by W.written W.failures writer.new) }
    ensures same_references { W.references writer.new ≡ W.references writer.old }
{
    match write_whole(writer, bytes) {
        Ok(()) => Ok(()),
        Err(_) => Err(SerializeFault::Write),
    }
}

/// Writes what a policy keeps of what stands in a node, as [`write_clean`](crate::write_clean) does, unless it passes a bound: then
/// nothing is written. All of it is in memory before the first write.
///
/// Errors: [`BoundedFault::Beyond`] with the first bound that is passed, of the depth, the number of elements and the bytes; out of
/// memory; a write that failed.
pub fn write_clean_within<W: Target, T: Serialize>(
    alloc: Global,
    writer: &mut W,
    node: &T,
    policy: &Policy,
    bounds: &Bounds,
) -> Result<Cleaned, BoundedFault>
    ensures text { (trees : Trees) → T.calls node.now (ChildrenOnly None) ≡ calls_of trees
        → WritesWithin bounds.now policy.now trees (told_by W.written W.failures writer.old) result
        (told_by W.written W.failures writer.new) }
    ensures same_references { W.references writer.new ≡ W.references writer.old }
{
    let Ok(measure) = measure(alloc, node, policy) else {
        return Err(BoundedFault::Memory);
    };
    match beyond_measure(bounds, &measure) {
        Some(bound) => return Err(BoundedFault::Beyond(bound)),
        None => {}
    }
    let left = cleaned_in_memory(alloc, node, policy)?;
    let bytes = left.writer.written();
    if is_too_long(bounds.bytes, bytes) {
        return Err(BoundedFault::Beyond(Bound::Bytes));
    }
    match put(writer, bytes) {
        Ok(()) => Ok(left.counts),
        Err(_) => Err(BoundedFault::Write),
    }
}
