//! From bytes to bytes.
ghost use Rattle.std.specs.Prelude.{◌≡◌, ℕ, List, Some, IfOk, IfErr};
ghost use Rattle.devices.specs.Devices.{count_after};
ghost use Rattle.html_normal.specs.Normal.{CountsReads, is_write_fault};
ghost use Rattle.html_clean_document.specs.Clean.{IsCleaned, IsDocumentOf, IsFailed, IsFragmentOf, div_name, root_of};

use devices::{Source, Target};
use html_clean::{Cleaned, Policy, write_clean};
use html_forest::{Forest, ForestNode, NodeId};
use html_normal::{Exact, NormalFault, References, read_document, read_fragment};
use markup::{KnownNamespace, LocalName, Namespace, ParseFault, QualName, TreeSink};
use std::alloc::Global;

/// Reads an HTML document to its end, writes what a policy keeps of it, and counts what it doesn't.
///
/// Nothing is written before the input has ended. After `Write`, or `Memory` while writing, a beginning was written; after any
/// other fault nothing.
pub fn clean<R: Source, W: Target>(
    alloc: Global,
    reader: &mut R,
    writer: &mut W,
    references: References,
    exact: Exact,
    policy: &Policy,
) -> Result<Cleaned, NormalFault>
    ensures ok { IfOk result (λ counts. (whole : List ℕ) → R.left reader.old ≡ Some whole
        → IsCleaned (IsDocumentOf references) policy.now whole (R.left reader.new) (W.written writer.old) (W.written writer.new) counts) }
    ensures err { IfErr result (IsFailed (IsDocumentOf references) policy.now (R.left reader.old)
        (R.left reader.new) (W.written writer.old) (W.written writer.new)) }
    ensures read_failures { CountsReads result (R.left reader.old) (R.left reader.new) (R.failures reader.old) (R.failures reader.new) }
    ensures write_failures { W.failures writer.new ≡ count_after (is_write_fault result) (W.failures writer.old) }
    ensures same_reader { R.references reader.new ≡ R.references reader.old }
    ensures same_writer { W.references writer.new ≡ W.references writer.old }
{
    let mut forest = read_document(alloc, reader, references, exact)?;
    let id = forest.get_document();
    let node = ForestNode {
        forest: &forest,
        id,
    };
    Ok(write_clean(alloc, writer, &node, policy)?)
}

/// The root of a fragment: the first child of its document.
pub(crate) fn root(forest: &Forest, document: NodeId) -> NodeId
    requires first { document ≡ 0 }
    ensures { result ≡ root_of forest.now }
{
    match forest.first_child(document) {
        Some(root) => root,
        None => document,
    }
}

/// Reads a fragment of HTML to its end, as it stands in a new element of a name (HTML Standard, section 13.4), writes what a policy
/// keeps of it, and counts what it doesn't. Faults are as those of [`clean`].
pub fn clean_fragment_in<R: Source, W: Target>(
    alloc: Global,
    reader: &mut R,
    writer: &mut W,
    references: References,
    exact: Exact,
    context: QualName,
    policy: &Policy,
) -> Result<Cleaned, NormalFault>
    ensures ok { IfOk result (λ counts. (whole : List ℕ) → R.left reader.old ≡ Some whole
        → IsCleaned (IsFragmentOf references context) policy.now whole (R.left reader.new) (W.written writer.old)
        (W.written writer.new) counts) }
    ensures err { IfErr result (IsFailed (IsFragmentOf references context) policy.now (R.left reader.old)
        (R.left reader.new) (W.written writer.old) (W.written writer.new)) }
    ensures read_failures { CountsReads result (R.left reader.old) (R.left reader.new) (R.failures reader.old) (R.failures reader.new) }
    ensures write_failures { W.failures writer.new ≡ count_after (is_write_fault result) (W.failures writer.old) }
    ensures same_reader { R.references reader.new ≡ R.references reader.old }
    ensures same_writer { W.references writer.new ≡ W.references writer.old }
{
    let mut forest = read_fragment(alloc, reader, references, exact, context)?;
    let document = forest.get_document();
    let node = ForestNode {
        forest: &forest,
        id: root(&forest, document),
    };
    Ok(write_clean(alloc, writer, &node, policy)?)
}

/// The name of HTML's `div`.
pub(crate) fn div(alloc: Global) -> Result<QualName, ParseFault>
    ensures ok { IfOk result (λ name. name ≡ div_name) }
{
    let local = LocalName::from_str(alloc, "div")?;
    Ok(QualName::new(None, Namespace::from_known(KnownNamespace::Html), local))
}

/// As [`clean_fragment_in`], in a `div`.
pub fn clean_fragment<R: Source, W: Target>(
    alloc: Global,
    reader: &mut R,
    writer: &mut W,
    references: References,
    exact: Exact,
    policy: &Policy,
) -> Result<Cleaned, NormalFault>
    ensures ok { IfOk result (λ counts. (whole : List ℕ) → R.left reader.old ≡ Some whole
        → IsCleaned (IsFragmentOf references div_name) policy.now whole (R.left reader.new) (W.written writer.old)
        (W.written writer.new) counts) }
    ensures err { IfErr result (IsFailed (IsFragmentOf references div_name) policy.now (R.left reader.old)
        (R.left reader.new) (W.written writer.old) (W.written writer.new)) }
    ensures read_failures { CountsReads result (R.left reader.old) (R.left reader.new) (R.failures reader.old) (R.failures reader.new) }
    ensures write_failures { W.failures writer.new ≡ count_after (is_write_fault result) (W.failures writer.old) }
    ensures same_reader { R.references reader.new ≡ R.references reader.old }
    ensures same_writer { W.references writer.new ≡ W.references writer.old }
{
    let Ok(context) = div(alloc) else {
        return Err(NormalFault::Memory);
    };
    clean_fragment_in(alloc, reader, writer, references, exact, context, policy)
}
