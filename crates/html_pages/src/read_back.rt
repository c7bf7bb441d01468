//! Whether what is written of a document is read as that document again.
ghost use Rattle.std.specs.Prelude.{◌≡◌, IfErr, IfOk, IsUtf8, MatchOption};
ghost use Rattle.std.specs.Bool.{Decides};
ghost use Rattle.std.specs.String.{string_bytes};
ghost use Rattle.html_normal.specs.Document.{document_bytes};
ghost use Rattle.html_normal.specs.declared.fault.NormalFault.TheVariants.{Memory};
ghost use Rattle.html_pages.specs.ReadBack.{IsReadBack, told_of};

use crate::reading::document;
use devices::VecWriter;
use html_forest::{Forest, ForestNode};
use html_nodes::are_told_alike;
use html_normal::{NormalFault, References};
use html_serialize::{SerializeOpts, serialize};
use std::alloc::Global;

// What is written of a document; nothing where that is no text.
fn written(alloc: Global, forest: &Forest) -> Result<Option<String>, NormalFault>
    ensures ok { IfOk result (λ made. MatchOption made (¬ IsUtf8 (document_bytes forest.now))
        (λ text. string_bytes text ≡ document_bytes forest.now)) }
    ensures fault { IfErr result (λ fault. fault ≡ Memory) }
{
    forest.keeps();
    let mut writer = VecWriter::new(alloc);
    let node = ForestNode {
        forest,
        id: forest.document(),
    };
    let Ok(()) = serialize(alloc, &mut writer, &node, SerializeOpts::default()) else {
        return Err(NormalFault::Memory);
    };
    match String::from_utf8(writer.into_bytes()) {
        Ok(text) => Ok(Some(text)),
        Err(_) => Ok(None),
    }
}

// Whether a serializer is told the same of two documents, and they are in one quirks mode.
fn are_alike(alloc: Global, first: &Forest, second: &Forest) -> Result<bool, NormalFault>
    ensures ok { IfOk result (λ alike. Decides alike ((told_of first.now ≡ told_of second.now) × (first.now.quirks ≡ second.now.quirks))) }
    ensures fault { IfErr result (λ fault. fault ≡ Memory) }
{
    let Ok(alike) = are_told_alike(alloc, first, first.document(), second, second.document()) else {
        return Err(NormalFault::Memory);
    };
    Ok(alike && first.quirks() == second.quirks())
}

/// Whether what is written of a document is read as that document again: what a store of pages or a template engine asks of a tree that
/// it writes. It writes the document and reads it, in time and memory that grow as these do.
///
/// Errors: [`NormalFault::Memory`].
pub fn is_read_back(
    alloc: Global,
    references: References,
    forest: &Forest,
) -> Result<bool, NormalFault>
    ensures ok { IfOk result (λ is. Decides is (IsReadBack references forest.now)) }
    ensures fault { IfErr result (λ fault. fault ≡ Memory) }
{
    let Some(text) = written(alloc, forest)? else {
        return Ok(false);
    };
    let again = document(alloc, references, text)?;
    are_alike(alloc, forest, &again)
}
