//! From bytes to bytes, unless too much is kept.
ghost use Rattle.std.specs.Prelude.{◌≡◌, ℕ, List, Some, IfOk, IfErr};
ghost use Rattle.devices.specs.Devices.{count_after};
ghost use Rattle.html_normal.specs.Normal.{CountsReads, is_write_fault};
ghost use Rattle.html_clean_document.specs.Clean.{IsCleanedWithin, IsDocumentOf, IsFailedWithin, IsFragmentOf, within_fault_of, div_name};
ghost use Rattle.html_clean_document.specs.Clean.{of_devices};
ghost use Rattle.html_clean_document.specs.declared.bounded.WithinFault.TheVariants.{Other};

use crate::whole::{div, root};
use devices::{Source, Target};
use html_clean::{Bound, BoundedFault, Bounds, Cleaned, Policy, write_clean_within};
use html_forest::ForestNode;
use html_normal::{Exact, NormalFault, References, read_document, read_fragment};
use markup::{QualName, TreeSink};
use std::alloc::Global;
use thiserror::Error;

/// Why a text was not cleaned within bounds, or not to its end.
#[derive(Clone, Copy, Debug, PartialEq, Eq, Error)]
pub enum WithinFault {
    /// Too much is kept: this is the first bound that is passed. Nothing was written.
    #[error("{0}")]
    Beyond(Bound),
    /// As those of [`clean`](crate::clean); but after `Memory` nothing was written.
    #[error("{0}")]
    Other(NormalFault),
}

impl From<NormalFault> for WithinFault {
    ghost from_gives = { λ fault made. made ≡ Other fault };

    fn from(fault: NormalFault) -> WithinFault {
        WithinFault::Other(fault)
    }
}

impl From<BoundedFault> for WithinFault {
    ghost from_gives = { λ fault made. made ≡ within_fault_of fault };

    fn from(fault: BoundedFault) -> WithinFault {
        match fault {
            BoundedFault::Beyond(bound) => WithinFault::Beyond(bound),
            BoundedFault::Memory => WithinFault::Other(NormalFault::Memory),
            BoundedFault::Write => WithinFault::Other(NormalFault::Write),
        }
    }
}

/// As [`clean`](crate::clean), unless too much is kept: elements that stand too deep in one another, too many of them, or too many
/// bytes. Then nothing is written. All that is written is in memory before the first write.
pub fn clean_within<R: Source, W: Target>(
    alloc: Global,
    reader: &mut R,
    writer: &mut W,
    references: References,
    exact: Exact,
    policy: &Policy,
    bounds: &Bounds,
) -> Result<Cleaned, WithinFault>
    ensures ok { IfOk result (λ counts. (whole : List ℕ) → R.left reader.old ≡ Some whole
        → IsCleanedWithin (IsDocumentOf references) policy.now bounds.now whole (R.left reader.new) (W.written writer.old)
        (W.written writer.new) counts) }
    ensures err { IfErr result (IsFailedWithin (IsDocumentOf references) policy.now bounds.now (R.left reader.old)
        (R.left reader.new) (W.written writer.old) (W.written writer.new)) }
    ensures read_failures { CountsReads (of_devices result) (R.left reader.old) (R.left reader.new)
        (R.failures reader.old) (R.failures reader.new) }
    ensures write_failures { W.failures writer.new ≡ count_after (is_write_fault (of_devices result)) (W.failures writer.old) }
    ensures same_reader { R.references reader.new ≡ R.references reader.old }
    ensures same_writer { W.references writer.new ≡ W.references writer.old }
{
    let mut forest = read_document(alloc, reader, references, exact)?;
    let id = forest.get_document();
    let node = ForestNode {
        forest: &forest,
        id,
    };
    Ok(write_clean_within(alloc, writer, &node, policy, bounds)?)
}

/// As [`clean_fragment_in`](crate::clean_fragment_in), unless too much is kept. Faults are as those of [`clean_within`].
pub fn clean_fragment_in_within<R: Source, W: Target>(
    alloc: Global,
    reader: &mut R,
    writer: &mut W,
    references: References,
    exact: Exact,
    context: QualName,
    policy: &Policy,
    bounds: &Bounds,
) -> Result<Cleaned, WithinFault>
    ensures ok { IfOk result (λ counts. (whole : List ℕ) → R.left reader.old ≡ Some whole
        → IsCleanedWithin (IsFragmentOf references context) policy.now bounds.now whole (R.left reader.new) (W.written writer.old)
        (W.written writer.new) counts) }
    ensures err { IfErr result (IsFailedWithin (IsFragmentOf references context) policy.now bounds.now (R.left reader.old)
        (R.left reader.new) (W.written writer.old) (W.written writer.new)) }
    ensures read_failures { CountsReads (of_devices result) (R.left reader.old) (R.left reader.new)
        (R.failures reader.old) (R.failures reader.new) }
    ensures write_failures { W.failures writer.new ≡ count_after (is_write_fault (of_devices result)) (W.failures writer.old) }
    ensures same_reader { R.references reader.new ≡ R.references reader.old }
    ensures same_writer { W.references writer.new ≡ W.references writer.old }
{
    let mut forest = read_fragment(alloc, reader, references, exact, context)?;
    let document = forest.get_document();
    let node = ForestNode {
        forest: &forest,
        id: root(&forest, document),
    };
    Ok(write_clean_within(alloc, writer, &node, policy, bounds)?)
}

/// As [`clean_fragment_in_within`], in a `div`.
pub fn clean_fragment_within<R: Source, W: Target>(
    alloc: Global,
    reader: &mut R,
    writer: &mut W,
    references: References,
    exact: Exact,
    policy: &Policy,
    bounds: &Bounds,
) -> Result<Cleaned, WithinFault>
    ensures ok { IfOk result (λ counts. (whole : List ℕ) → R.left reader.old ≡ Some whole
        → IsCleanedWithin (IsFragmentOf references div_name) policy.now bounds.now whole (R.left reader.new) (W.written writer.old)
        (W.written writer.new) counts) }
    ensures err { IfErr result (IsFailedWithin (IsFragmentOf references div_name) policy.now bounds.now (R.left reader.old)
        (R.left reader.new) (W.written writer.old) (W.written writer.new)) }
    ensures read_failures { CountsReads (of_devices result) (R.left reader.old) (R.left reader.new)
        (R.failures reader.old) (R.failures reader.new) }
    ensures write_failures { W.failures writer.new ≡ count_after (is_write_fault (of_devices result)) (W.failures writer.old) }
    ensures same_reader { R.references reader.new ≡ R.references reader.old }
    ensures same_writer { W.references writer.new ≡ W.references writer.old }
{
    let Ok(context) = div(alloc) else {
        return Err(WithinFault::Other(NormalFault::Memory));
    };
    clean_fragment_in_within(
        alloc, reader, writer, references, exact, context, policy, bounds,
    )
}
