//! Whether pages are read back as they were, and where they are not.
ghost use Rattle.std.specs.Prelude.{◌≡◌, ◌++◌, IfOk, OnOk, false, true};
ghost use Rattle.std.specs.String.{string_bytes};
ghost use Rattle.figpliers.specs.Puts.{told_by};
ghost use Rattle.figpliers_program.specs.Checking as spec;
ghost use Rattle.figpliers_program.specs.Checking.{AreAround, CheckText, IsUnfaithful, element_at, faithful_line, path};
ghost use Rattle.figpliers_program.specs.Checking.{slashed, unfaithful_line};
ghost use Rattle.figpliers_program.specs.Printing.{Prints, PrintsSome};
ghost use Rattle.figpliers_program.specs.declared.faults.PageFault.TheVariants.{Memory};
ghost use Rattle.html_faithful.specs.Walk.{is_faithful_forest};
ghost use Rattle.html_faithful_walk.specs.First.{IsFirst};

use crate::faults::{PageFault, Verdict};
use crate::writing::put;
use figpliers::{
    Forest, NodeId, Target, Unfaithful, element_name, first_unfaithful, why_unfaithful,
};
use html_listings::local_of;
use std::alloc::{AllocError, Global};

/// What is wrong with a node, in words.
fn reason(why: Unfaithful) -> &'static str
    ensures { result.now ≡ spec.reason why }
{
    match why {
        Unfaithful::Instruction => "a processing instruction is read as a comment",
        Unfaithful::Doctype => "the doctype has another name than html",
        Unfaithful::Name => "the name is not read as it is written",
        Unfaithful::Attributes => "an attribute is not read as it is written",
        Unfaithful::Comment => "the comment is not read as it is written",
        Unfaithful::EmptyText => "the text is empty",
        Unfaithful::Characters => "the text has U+0000 or U+000D",
        Unfaithful::LineFeed => "a line feed comes first",
        Unfaithful::BesideText => "the text follows another text",
        Unfaithful::RawText => "the text does not end where its element ends",
        Unfaithful::Place => "something else is read here",
    }
}

/// Adds a node to others, if it is an element.
fn push_element(forest: &Forest, id: NodeId, around: &mut Vec<NodeId>) -> Result<(), AllocError>
    ensures { OnOk result (around.new.items ≡ around.old.items ++ element_at forest.now id) }
{
    if element_name(forest, id).is_some() {
        around.push(id)?;
    }
    Ok(())
}

/// The elements that a node is in, and the node itself if it is one.
fn elements_around(alloc: Global, forest: &Forest, id: NodeId) -> Result<Vec<NodeId>, AllocError>
    ensures { IfOk result (λ around. AreAround forest.now id around.items) }
{
    let mut around = Vec::new(alloc);
    let mut at = id;
    for _ in 0..u64::MAX {
        push_element(forest, at, &mut around)?;
        let Some(parent) = forest.parent(at) else {
            return Ok(around);
        };
        at = parent;
    }
    Err(AllocError)
}

/// Adds the names of elements, each after a slash, the last one first.
fn push_slashed(forest: &Forest, around: Vec<NodeId>, path: &mut String) -> Result<(), AllocError>
    ensures { OnOk result (string_bytes path.new ≡ string_bytes path.old ++ slashed forest.now around.items) }
{
    let mut around = around;
    while let Some(id) = around.pop() {
        path.push_str("/")?;
        path.push_str(local_of(forest, id))?;
    }
    Ok(())
}

/// The path to the first of some elements.
fn path_of(alloc: Global, forest: &Forest, around: Vec<NodeId>) -> Result<String, AllocError>
    ensures { IfOk result (λ text. string_bytes text ≡ path forest.now around.items) }
{
    let mut around = around;
    let Some(outermost) = around.pop() else {
        return String::from_str(alloc, "document");
    };
    let mut path = String::from_str(alloc, local_of(forest, outermost))?;
    push_slashed(forest, around, &mut path)?;
    Ok(path)
}

/// Writes the line of a document that is faithful.
fn put_faithful<W: Target>(alloc: Global, name: &str, writer: &mut W) -> Result<(), PageFault>
    ensures { Prints (faithful_line name.now) (told_by W.written W.failures writer.old) result
        (told_by W.written W.failures writer.new) }
{
    let line = format!(in alloc; "{name}: faithful\n")?;
    put(writer, line.as_str())
}

/// Writes the line of a document that is not.
fn put_unfaithful<W: Target>(
    alloc: Global,
    name: &str,
    path: &str,
    reason: &str,
    writer: &mut W,
) -> Result<(), PageFault>
    ensures { Prints (unfaithful_line name.now path.now reason.now) (told_by W.written W.failures writer.old) result
        (told_by W.written W.failures writer.new) }
{
    let line = format!(in alloc; "{name}: {path}: {reason}\n")?;
    put(writer, line.as_str())
}

/// Writes where a document is not read back, which is at this node, and why.
fn write_unfaithful<W: Target>(
    alloc: Global,
    forest: &Forest,
    name: &str,
    id: NodeId,
    writer: &mut W,
) -> Result<Verdict, PageFault>
    requires judged { is_faithful_forest true forest.now ≡ false }
    requires first { IsFirst true forest.now id }
    ensures { PrintsSome (IsUnfaithful name.now forest.now) (told_by W.written W.failures writer.old) result
        (told_by W.written W.failures writer.new) }
{
    let why = why_unfaithful(alloc, forest, true, id)?;
    let around = elements_around(alloc, forest, id)?;
    let path = path_of(alloc, forest, around)?;
    put_unfaithful(alloc, name, path.as_str(), reason(why), writer)?;
    Ok(Verdict::Errors)
}

/// Writes whether what is written of a document is read back as just it; and if it is not, where and why.
pub fn check<W: Target>(
    alloc: Global,
    forest: &Forest,
    name: &str,
    writer: &mut W,
) -> Result<Verdict, PageFault>
    ensures { PrintsSome (CheckText name.now forest.now) (told_by W.written W.failures writer.old) result
        (told_by W.written W.failures writer.new) }
{
    match first_unfaithful(alloc, forest, true)? {
        Some(id) => write_unfaithful(alloc, forest, name, id, writer),
        None => {
            put_faithful(alloc, name, writer)?;
            Ok(Verdict::Fine)
        }
    }
}
