//! What each command writes of a page.
ghost use Rattle.std.specs.Prelude.{◌≡◌, ◌==◌, IfOk, if◌then◌else◌, length};
ghost use Rattle.std.specs.Fmt.{decimal};
ghost use Rattle.std.specs.String.{string_bytes};
ghost use Rattle.figpliers.specs.Document.{document_bytes};
ghost use Rattle.figpliers.specs.Forest.{children_of};
ghost use Rattle.figpliers.specs.Lines.{tree_lines};
ghost use Rattle.figpliers.specs.Puts.{told_by};
ghost use Rattle.html_listings.specs.Listings.{links_text};
ghost use Rattle.html_listings.specs.Selected.{selected_in, selected_text};
ghost use Rattle.figpliers_program.specs.Pages.{FragmentText, NotedText, RenderedText, error_line, place_words, top_of};
ghost use Rattle.figpliers_program.specs.Pages.{verdict_on};
ghost use Rattle.figpliers_program.specs.Printing.{Prints, PrintsSome};
ghost use Rattle.figpliers_program.specs.declared.faults.Verdict.TheVariants.{Errors, Fine};

use crate::faults::{PageFault, Verdict};
use crate::writing::{put, put_ended};
use figpliers::{
    Forest, ForestNode, NodeId, NotedForest, Place, References, SerializeOpts, Target, fragment,
    inner_text, markdown, serialize, write_tree,
};
use html_listings::{Listing, Show, write_links, write_selected};
use selectors::Selectors;
use std::alloc::{AllocError, Global};

/// Writes the text of a document as it is rendered, with a line feed at its end.
pub fn text<W: Target>(alloc: Global, forest: &Forest, writer: &mut W) -> Result<Verdict, PageFault>
    ensures { PrintsSome (RenderedText forest.now) (told_by W.written W.failures writer.old) result
        (told_by W.written W.failures writer.new) }
{
    let text = inner_text(alloc, forest, forest.document())?;
    put_ended(writer, text.as_str())?;
    Ok(Verdict::Fine)
}

/// Writes a document as Markdown.
pub fn write_markdown<W: Target>(
    alloc: Global,
    forest: &Forest,
    writer: &mut W,
) -> Result<Verdict, PageFault>
    ensures { PrintsSome (λ _ verdict. verdict ≡ Fine) (told_by W.written W.failures writer.old) result
        (told_by W.written W.failures writer.new) }
{
    let text = markdown(alloc, forest, forest.document())?;
    put(writer, text.as_str())?;
    Ok(Verdict::Fine)
}

/// Writes the tree of a document.
pub fn tree<W: Target>(alloc: Global, forest: &Forest, writer: &mut W) -> Result<Verdict, PageFault>
    ensures { PrintsSome (λ text verdict. (text ≡ tree_lines forest.now 0) × (verdict ≡ Fine))
        (told_by W.written W.failures writer.old) result (told_by W.written W.failures writer.new) }
{
    write_tree(alloc, forest, forest.document(), writer)?;
    Ok(Verdict::Fine)
}

/// Lists the links of a document.
pub fn links<W: Target>(
    alloc: Global,
    forest: &Forest,
    listing: &Listing,
    name: &str,
    has_several: bool,
    writer: &mut W,
) -> Result<Verdict, PageFault>
    ensures { PrintsSome (λ text verdict. (text ≡ links_text listing.now forest.now name.now has_several) × (verdict ≡ Fine))
        (told_by W.written W.failures writer.old) result (told_by W.written W.failures writer.new) }
{
    write_links(alloc, forest, listing, name, has_several, writer)?;
    Ok(Verdict::Fine)
}

/// Writes what is asked for of the elements of a document that are selected.
pub fn select<W: Target>(
    alloc: Global,
    forest: &Forest,
    selectors: &Selectors,
    show: &Show,
    name: &str,
    has_several: bool,
    writer: &mut W,
) -> Result<Verdict, PageFault>
    ensures { PrintsSome (λ text verdict. (text ≡ selected_text show.now selectors.now forest.now name.now has_several)
        × (verdict ≡ verdict_on (length (selected_in selectors.now forest.now))))
        (told_by W.written W.failures writer.old) result (told_by W.written W.failures writer.new) }
{
    if write_selected(alloc, forest, selectors, show, name, has_several, writer)? {
        Ok(Verdict::Fine)
    } else {
        Ok(Verdict::Nothing)
    }
}

/// The node in which the nodes of a fragment stand.
fn top(forest: &Forest) -> NodeId
    ensures { result ≡ top_of (children_of forest.now 0) }
{
    match forest.first_child(forest.document()) {
        Some(root) => root,
        None => forest.document(),
    }
}

/// Writes the tree of a fragment in an element of that name.
pub fn fragment_tree<W: Target>(
    alloc: Global,
    table: References,
    element: &str,
    page: String,
    writer: &mut W,
) -> Result<Verdict, PageFault>
    ensures { PrintsSome (FragmentText table element.now (string_bytes page)) (told_by W.written W.failures writer.old) result
        (told_by W.written W.failures writer.new) }
{
    let forest = fragment(alloc, table, element, page)?;
    write_tree(alloc, &forest, top(&forest), writer)?;
    Ok(Verdict::Fine)
}

/// Writes the normal text of a document.
pub fn normal<W: Target>(
    alloc: Global,
    forest: &Forest,
    writer: &mut W,
) -> Result<Verdict, PageFault>
    ensures { PrintsSome (λ text verdict. (text ≡ document_bytes forest.now) × (verdict ≡ Fine))
        (told_by W.written W.failures writer.old) result (told_by W.written W.failures writer.new) }
{
    forest.keeps();
    let node = ForestNode {
        forest,
        id: forest.document(),
    };
    serialize(alloc, writer, &node, SerializeOpts::default())?;
    Ok(Verdict::Fine)
}

/// A number in decimal digits.
fn digits_of(alloc: Global, number: u64) -> Result<String, AllocError>
    ensures { IfOk result (λ digits. string_bytes digits ≡ decimal number) }
{
    format!(in alloc; "{number}")
}

/// The line and the column of a place.
fn place_words(alloc: Global, place: Place) -> Result<String, AllocError>
    ensures { IfOk result (λ words. string_bytes words ≡ place_words place) }
{
    let line = digits_of(alloc, place.line)?;
    let line = line.as_str();
    let column = digits_of(alloc, place.column)?;
    let column = column.as_str();
    format!(in alloc; "{line}:{column}")
}

/// Writes the line of a parse error.
fn put_error<W: Target>(
    alloc: Global,
    name: &str,
    place: Place,
    message: &str,
    writer: &mut W,
) -> Result<(), PageFault>
    ensures { Prints (error_line name.now (place, message.now)) (told_by W.written W.failures writer.old) result
        (told_by W.written W.failures writer.new) }
{
    let at = place_words(alloc, place)?;
    let at = at.as_str();
    let words = format!(in alloc; "{name}:{at}: {message}\n")?;
    put(writer, words.as_str())
}

/// The verdict of a page with so many parse errors.
fn verdict_of(count: u64) -> Verdict
    ensures { result ≡ (if count == 0 then Fine else Errors) }
{
    if count == 0 {
        Verdict::Fine
    } else {
        Verdict::Errors
    }
}

/// Lists the parse errors that were found in a page.
pub fn errors<W: Target>(
    alloc: Global,
    name: &str,
    noted: &NotedForest,
    writer: &mut W,
) -> Result<Verdict, PageFault>
    ensures { PrintsSome (NotedText name.now noted.now) (told_by W.written W.failures writer.old) result
        (told_by W.written W.failures writer.new) }
{
    for error in &noted.errors {
        put_error(alloc, name, error.place, error.message.as_str(), writer)?;
    }
    Ok(verdict_of(noted.forest.error_count()))
}
