//! The C library: normal text, images of trees, and cleaned text, of pages in memory.
#![tactic(auto)]

ghost use Rattle.std.specs.Prelude.{◌≡◌, length};
ghost use Rattle.html_ffi.specs.Answers.{IsAnswer};
ghost use Rattle.html_ffi.specs.Calls.{IsCleanDocument, IsCleanFragment, IsNormalText};
ghost use Rattle.html_ffi.specs.Calls.{MeansCleaned, MeansText};
ghost use Rattle.html_ffi.specs.Decoding.{MeansDecoded};
ghost use Rattle.html_ffi.specs.Errors.{IsErrorList};
ghost use Rattle.html_ffi.specs.Images.{IsHtml, IsLinkList, IsTextContent, MeansNode, MeansSelection};
ghost use Rattle.html_ffi.specs.Policies.{MeansDocumentBy, MeansFragmentBy, MeansReady};
ghost use Rattle.html_ffi.specs.Trees.{MeansFragmentTree, MeansPlacedTree, MeansTree};

mod answer;
mod clean;
mod decoding;
mod errors;
mod image;
mod normal;
mod page;
mod placed;
mod policy;
mod report;
mod room;
mod select;
mod table;
#[cfg(test)]
mod tests;
mod tree;

use clean::{clean_document_by, clean_document_with, clean_fragment_by, clean_fragment_with};
use decoding::decode_by;
use errors::errors_by;
use html_standard_references::STANDARD_ROWS;
use image::{links_by, serialize_by, text_by};
use normal::normalise_by;
use placed::placed_tree_by;
use policy::ready_by;
use report::{FigCleaned, FigDecoded, FigReport};
use select::select_by;
use std::alloc::Global;
use tree::{fragment_tree_by, tree_by};

/// Writes the normal text of `page` to `output`, by the Standard's table of references.
#[unsafe(no_mangle)]
pub extern "C" fn fig_normalise(
    alloc: Global,
    page: &[u8],
    output: &mut [u8],
    report: &mut FigReport,
) -> u32
    ensures answer { IsAnswer (MeansText IsNormalText STANDARD_ROWS.now page.now output.old output.new report.new) result }
    ensures same_room { length output.new ≡ length output.old }
{
    normalise_by(alloc, STANDARD_ROWS.as_bytes(), page, output, report).number()
}

/// Writes the normal text of `page` to `output`, by the table of references that `table` has, as the bytes of a file.
#[unsafe(no_mangle)]
pub extern "C" fn fig_normalise_with(
    alloc: Global,
    table: &[u8],
    page: &[u8],
    output: &mut [u8],
    report: &mut FigReport,
) -> u32
    ensures answer { IsAnswer (MeansText IsNormalText table.now page.now output.old output.new report.new) result }
    ensures same_room { length output.new ≡ length output.old }
{
    normalise_by(alloc, table, page, output, report).number()
}

/// Writes the image of `page`'s tree to `output`, by the Standard's table of references.
#[unsafe(no_mangle)]
pub extern "C" fn fig_tree(
    alloc: Global,
    page: &[u8],
    output: &mut [u8],
    report: &mut FigReport,
) -> u32
    ensures answer { IsAnswer (MeansTree STANDARD_ROWS.now page.now output.old output.new report.new) result }
    ensures same_room { length output.new ≡ length output.old }
{
    tree_by(alloc, STANDARD_ROWS.as_bytes(), page, output, report).number()
}

/// Writes the image of `page`'s tree to `output`, by the table of references that `table` has.
#[unsafe(no_mangle)]
pub extern "C" fn fig_tree_with(
    alloc: Global,
    table: &[u8],
    page: &[u8],
    output: &mut [u8],
    report: &mut FigReport,
) -> u32
    ensures answer { IsAnswer (MeansTree table.now page.now output.old output.new report.new) result }
    ensures same_room { length output.new ≡ length output.old }
{
    tree_by(alloc, table, page, output, report).number()
}

/// Writes the image of the tree that `page` makes in a new element of HTML of the name `context`, as where `innerHTML` is set and scripts
/// run (HTML Standard, section 13.4), to `output`. It stands in the document's only child, an `html`. By the Standard's table of
/// references.
#[unsafe(no_mangle)]
pub extern "C" fn fig_fragment_tree(
    alloc: Global,
    context: &[u8],
    page: &[u8],
    output: &mut [u8],
    report: &mut FigReport,
) -> u32
    ensures answer { IsAnswer (MeansFragmentTree STANDARD_ROWS.now context.now page.now output.old output.new report.new) result }
    ensures same_room { length output.new ≡ length output.old }
{
    fragment_tree_by(
        alloc,
        STANDARD_ROWS.as_bytes(),
        context,
        page,
        output,
        report,
    )
    .number()
}

/// Writes the image of `page`'s tree to `output`, and behind it where its nodes begin in the text of the page: in the order of their
/// numbers the line and the column of each, counted from 1, in four bytes each, the lowest first. Control characters are counted as
/// parse errors too. By the Standard's table of references.
#[unsafe(no_mangle)]
pub extern "C" fn fig_placed_tree(
    alloc: Global,
    page: &[u8],
    output: &mut [u8],
    report: &mut FigReport,
) -> u32
    ensures answer { IsAnswer (MeansPlacedTree STANDARD_ROWS.now page.now output.old output.new report.new) result }
    ensures same_room { length output.new ≡ length output.old }
{
    placed_tree_by(alloc, STANDARD_ROWS.as_bytes(), page, output, report).number()
}

/// Writes the numbers of the nodes below a node of a tree that the selectors of `selector` select to `output`, by the node's number in the
/// tree's image, in tree order, each in four bytes, the lowest first (Selectors Level 4). `:scope` is that node, or where it is no element
/// the first element in it. `image` may come from anywhere.
#[unsafe(no_mangle)]
pub extern "C" fn fig_select(
    alloc: Global,
    selector: &[u8],
    image: &[u8],
    node: u32,
    output: &mut [u8],
    report: &mut FigReport,
) -> u32
    ensures answer { IsAnswer (MeansSelection selector.now image.now node output.old output.new report.new) result }
    ensures same_room { length output.new ≡ length output.old }
{
    select_by(alloc, selector, image, node, output, report).number()
}

/// Writes the text of `page`, which is in any encoding, in UTF-8 to `output`: the encoding is that of its byte order mark, or of `label`,
/// which came with it, as in a header of HTTP; where neither is there, that which the page declares, or windows-1252 (HTML Standard,
/// section 13.2.3). A label that names no encoding, as one of no bytes, says nothing.
#[unsafe(no_mangle)]
pub extern "C" fn fig_decode(
    alloc: Global,
    label: &[u8],
    page: &[u8],
    output: &mut [u8],
    report: &mut FigDecoded,
) -> u32
    ensures answer { IsAnswer (MeansDecoded STANDARD_ROWS.now label.now page.now output.old output.new report.new) result }
    ensures same_room { length output.new ≡ length output.old }
{
    decode_by(alloc, STANDARD_ROWS.as_bytes(), label, page, output, report).number()
}

/// Writes a line for each parse error of `page` to `output`, in the order in which they are found: the number of the page's line, `: `,
/// and the Standard's code of the error or words (HTML Standard, section 13.2.2). By the Standard's table of references.
#[unsafe(no_mangle)]
pub extern "C" fn fig_errors(
    alloc: Global,
    page: &[u8],
    output: &mut [u8],
    report: &mut FigReport,
) -> u32
    ensures answer { IsAnswer (MeansText IsErrorList STANDARD_ROWS.now page.now output.old output.new report.new) result }
    ensures same_room { length output.new ≡ length output.old }
{
    errors_by(alloc, STANDARD_ROWS.as_bytes(), page, output, report).number()
}

/// Writes what the ready policy keeps of `page`, as a fragment in a `div`, to `output`.
#[unsafe(no_mangle)]
pub extern "C" fn fig_clean(
    alloc: Global,
    page: &[u8],
    output: &mut [u8],
    report: &mut FigCleaned,
) -> u32
    ensures answer { IsAnswer (MeansCleaned IsCleanFragment STANDARD_ROWS.now page.now output.old output.new report.new) result }
    ensures same_room { length output.new ≡ length output.old }
{
    clean_fragment_by(alloc, STANDARD_ROWS.as_bytes(), page, output, report).number()
}

/// Writes what the ready policy keeps of `page`, as a document, to `output`.
#[unsafe(no_mangle)]
pub extern "C" fn fig_clean_document(
    alloc: Global,
    page: &[u8],
    output: &mut [u8],
    report: &mut FigCleaned,
) -> u32
    ensures answer { IsAnswer (MeansCleaned IsCleanDocument STANDARD_ROWS.now page.now output.old output.new report.new) result }
    ensures same_room { length output.new ≡ length output.old }
{
    clean_document_by(alloc, STANDARD_ROWS.as_bytes(), page, output, report).number()
}

/// Writes what the policy of a text, one rule a line, keeps of `page`, as a fragment in a `div`, to `output`.
#[unsafe(no_mangle)]
pub extern "C" fn fig_clean_by(
    alloc: Global,
    policy: &[u8],
    page: &[u8],
    output: &mut [u8],
    report: &mut FigCleaned,
) -> u32
    ensures answer { IsAnswer (MeansFragmentBy STANDARD_ROWS.now policy.now page.now output.old output.new report.new) result }
    ensures same_room { length output.new ≡ length output.old }
{
    clean_fragment_with(
        alloc,
        STANDARD_ROWS.as_bytes(),
        policy,
        page,
        output,
        report,
    )
    .number()
}

/// Writes what the policy of a text, one rule a line, keeps of `page`, as a document, to `output`.
#[unsafe(no_mangle)]
pub extern "C" fn fig_clean_document_by(
    alloc: Global,
    policy: &[u8],
    page: &[u8],
    output: &mut [u8],
    report: &mut FigCleaned,
) -> u32
    ensures answer { IsAnswer (MeansDocumentBy STANDARD_ROWS.now policy.now page.now output.old output.new report.new) result }
    ensures same_room { length output.new ≡ length output.old }
{
    clean_document_with(
        alloc,
        STANDARD_ROWS.as_bytes(),
        policy,
        page,
        output,
        report,
    )
    .number()
}

/// Writes the text of the ready policy of a name (`text-alone`, `text-and-links`, `user-content`, `mail`), one rule a line, to `output`.
#[unsafe(no_mangle)]
pub extern "C" fn fig_policy(
    alloc: Global,
    name: &[u8],
    output: &mut [u8],
    report: &mut FigReport,
) -> u32
    ensures answer { IsAnswer (MeansReady name.now output.old output.new report.new) result }
    ensures same_room { length output.new ≡ length output.old }
{
    ready_by(alloc, name, output, report).number()
}

/// Writes a node of a tree, by its number in the tree's image, with what is in it as HTML (HTML Standard, section 13.3) to `output`; of
/// the document and of a template's contents what is in them. `image` may come from anywhere.
#[unsafe(no_mangle)]
pub extern "C" fn fig_serialize(
    alloc: Global,
    image: &[u8],
    node: u32,
    output: &mut [u8],
    report: &mut FigReport,
) -> u32
    ensures answer { IsAnswer (MeansNode IsHtml node image.now output.old output.new report.new) result }
    ensures same_room { length output.new ≡ length output.old }
{
    serialize_by(alloc, image, node, output, report).number()
}

/// Writes the text of a node of a tree, by its number in the tree's image, to `output`: that of each text in it (DOM Standard, section
/// 4.4, `textContent`). `image` may come from anywhere.
#[unsafe(no_mangle)]
pub extern "C" fn fig_text_content(
    alloc: Global,
    image: &[u8],
    node: u32,
    output: &mut [u8],
    report: &mut FigReport,
) -> u32
    ensures answer { IsAnswer (MeansNode IsTextContent node image.now output.old output.new report.new) result }
    ensures same_room { length output.new ≡ length output.old }
{
    text_by(alloc, image, node, output, report).number()
}

/// Writes where the elements in a node of a tree lead, by the node's number in the tree's image, to `output`: in tree order, each with a
/// line feed behind it, the `href` of each `a`, `area` and `link` (HTML Standard, section 4.6), and the `src` of each `img`, `script`,
/// frame, `embed`, `input` and of media, as it is written but for tabs and line breaks, which are no part of a URL. `image` may come from
/// anywhere.
#[unsafe(no_mangle)]
pub extern "C" fn fig_links(
    alloc: Global,
    image: &[u8],
    node: u32,
    output: &mut [u8],
    report: &mut FigReport,
) -> u32
    ensures answer { IsAnswer (MeansNode IsLinkList node image.now output.old output.new report.new) result }
    ensures same_room { length output.new ≡ length output.old }
{
    links_by(alloc, image, node, output, report).number()
}
