//! Links, line by line.
ghost use Rattle.std.specs.Prelude.{◌≡◌, ◌++◌, IfErr, IfOk, OnOk, option_map};
ghost use Rattle.std.specs.List.{flat_map};
ghost use Rattle.std.specs.String.{string_bytes};
ghost use Rattle.html_serialize.specs.Puts.{told_by};
ghost use Rattle.html_serialize.specs.Serializing.{Writes};
ghost use Rattle.markup.specs.declared.serializer.SerializeFault.TheVariants.{Memory};
ghost use Rattle.html_listings.specs.Listings as spec;
ghost use Rattle.html_listings.specs.Listings.{file_prefix, has_names, json_line, line_of, links_text, local_of};
ghost use Rattle.html_listings.specs.Listings.{plain_line, text_or, url_line};

use crate::base::{base_of, url_by};
use crate::json::push_member;
use crate::links::{Link, links_below};
use crate::writing::{prefix_of, put};
use devices::Target;
use html_forest::{Forest, NodeId};
use html_nodes::element_name;
use markup::SerializeFault;
use std::alloc::{AllocError, Global};
use url::Url;

/// How links are listed.
#[derive(Drop)]
pub struct Listing {
    /// What relative links are relative to, where the page doesn't say.
    pub base: Option<String>,
    /// Whether links to a place in the page itself are listed.
    pub anchors: bool,
    /// Whether each is listed after its kind.
    pub kinds: bool,
    /// Whether each is an object of JSON.
    pub json: bool,
    /// Whether each is listed after the name of the file; if that isn't said, it is where there are several.
    pub names: Option<bool>,
}

/// The page whose links are listed.
#[derive(Drop)]
struct Page<'a> {
    forest: &'a Forest,
    name: &'a str,
    // What stands before each line.
    prefix: String,
    base: Option<Url>,
}

/// The local name of an element; empty for another node.
pub fn local_of(forest: &Forest, id: NodeId) -> &str
    ensures { result.now ≡ local_of forest.now id }
{
    match element_name(forest, id) {
        Some(name) => name.local.as_str(),
        None => "",
    }
}

/// Adds a line.
#[tactic(auto, unfolding(crate::specs::Listings::plain_line))]
fn push_plain(
    line: &mut String,
    kinds: bool,
    prefix: &str,
    kind: &str,
    url: &str,
) -> Result<(), AllocError>
    ensures { OnOk result (string_bytes line.new ≡ string_bytes line.old ++ plain_line kinds prefix.now kind.now url.now) }
{
    line.push_str(prefix)?;
    if kinds {
        line.push_str(kind)?;
        line.push_str(" ")?;
    }
    line.push_str(url)?;
    line.push_str("\n")
}

/// Adds a line of JSON.
#[tactic(auto, unfolding(crate::specs::Listings::json_line))]
fn push_json(
    line: &mut String,
    name: &str,
    kind: &str,
    element: &str,
    url: &str,
) -> Result<(), AllocError>
    ensures { OnOk result (string_bytes line.new ≡ string_bytes line.old ++ json_line name.now kind.now element.now url.now) }
{
    push_member(line, "{\"file\":", name)?;
    push_member(line, ",\"kind\":", kind)?;
    push_member(line, ",\"element\":", element)?;
    push_member(line, ",\"url\":", url)?;
    line.push_str("}\n")
}

/// Adds the line of a link of which this is the URL that is listed.
#[tactic(auto, unfolding(crate::specs::Listings::url_line))]
fn push_line(
    listing: &Listing,
    page: &Page<'_>,
    link: &Link,
    url: &str,
    line: &mut String,
) -> Result<(), AllocError>
    ensures { OnOk result (string_bytes line.new ≡ string_bytes line.old ++ url_line listing.now page.now.forest.now page.now.name.now
        (string_bytes page.now.prefix) link.now url.now) }
{
    let kind = link.kind.word();
    if listing.json {
        let element = local_of(page.forest, link.node);
        push_json(line, page.name, kind, element, url)
    } else {
        push_plain(line, listing.kinds, page.prefix.as_str(), kind, url)
    }
}

/// Whether a link is not listed.
fn is_left_out(listing: &Listing, url: &str) -> bool
    ensures { result ≡ spec.is_left_out listing.now url.now }
{
    !listing.anchors && url.as_bytes().starts_with(b"#")
}

/// The text of a URL, or else the one that is given.
fn text_or<'a>(url: &'a Option<Url>, text: &'a str) -> &'a str
    ensures { result.now ≡ text_or url.entry.now text.entry.now }
{
    match url {
        Some(url) => url.as_str(),
        None => text,
    }
}

/// Adds the line of a link, absolute where there is something to which it is relative.
#[tactic(auto, unfolding(crate::specs::Listings::line_of))]
fn push_link(
    listing: &Listing,
    page: &Page<'_>,
    link: &Link,
    line: &mut String,
) -> Result<(), SerializeFault>
    ensures ok { OnOk result (string_bytes line.new ≡ string_bytes line.old ++ line_of listing.now page.now.forest.now page.now.name.now
        (string_bytes page.now.prefix) page.now.base link.now) }
    ensures fault { IfErr result (λ fault. fault ≡ Memory) }
{
    let text = link.url.as_str();
    if is_left_out(listing, text) {
        return Ok(());
    }
    let url = url_by(&page.base, text)?;
    push_line(listing, page, link, text_or(&url, text), line)?;
    Ok(())
}

/// Writes the line of a link; `line` is room for it.
fn put_link<W: Target>(
    listing: &Listing,
    page: &Page<'_>,
    link: &Link,
    line: &mut String,
    writer: &mut W,
) -> Result<(), SerializeFault>
    ensures { Writes (line_of listing.now page.now.forest.now page.now.name.now (string_bytes page.now.prefix) page.now.base link.now)
        (told_by W.written W.failures writer.old) result (told_by W.written W.failures writer.new) }
{
    line.clear();
    push_link(listing, page, link, line)?;
    put(writer, line.as_str())
}

/// Writes the lines of links.
fn put_links<W: Target>(
    alloc: Global,
    listing: &Listing,
    page: &Page<'_>,
    links: &[Link],
    writer: &mut W,
) -> Result<(), SerializeFault>
    ensures { Writes (flat_map (line_of listing.now page.now.forest.now page.now.name.now (string_bytes page.now.prefix) page.now.base)
        links.now) (told_by W.written W.failures writer.old) result (told_by W.written W.failures writer.new) }
{
    let mut line = String::new(alloc);
    for link in links {
        put_link(listing, page, link, &mut line, writer)?;
    }
    Ok(())
}

/// The page of a file whose links are listed.
fn page_of<'a>(
    alloc: Global,
    forest: &'a Forest,
    listing: &Listing,
    name: &'a str,
    has_several: bool,
) -> Result<Page<'a>, SerializeFault>
    ensures forest { IfOk result (λ page. page.forest.now ≡ forest.entry.now) }
    ensures name { IfOk result (λ page. page.name.now ≡ name.entry.now) }
    ensures prefix { IfOk result (λ page. string_bytes page.prefix
        ≡ file_prefix (has_names listing.now has_several) name.entry.now) }
    ensures base { IfOk result (λ page. page.base ≡ spec.base_of forest.entry.now (option_map string_bytes listing.now.base)) }
    ensures fault { IfErr result (λ fault. fault ≡ Memory) }
{
    let base = base_of(alloc, forest, &listing.base)?;
    let is_printed = listing.names.unwrap_or(has_several);
    Ok(Page {
        forest,
        name,
        prefix: prefix_of(alloc, is_printed, name)?,
        base,
    })
}

/// Writes the links of a page that is in the file of that name, a line for each, in the order of [`links_below`]: absolute where there is
/// something to which they are relative, that is the page's `base` (HTML Standard, section 4.2.3) or the one that is given. A link that is
/// no URL then is written as it is.
///
/// Errors: [`SerializeFault::Write`] and [`SerializeFault::Memory`], after a beginning of the lines was written.
pub fn write_links<W: Target>(
    alloc: Global,
    forest: &Forest,
    listing: &Listing,
    name: &str,
    has_several: bool,
    writer: &mut W,
) -> Result<(), SerializeFault>
    ensures { Writes (links_text listing.now forest.now name.now has_several) (told_by W.written W.failures writer.old) result
        (told_by W.written W.failures writer.new) }
{
    let page = page_of(alloc, forest, listing, name, has_several)?;
    let Ok(links) = links_below(alloc, forest, forest.document()) else {
        return Err(SerializeFault::Memory);
    };
    put_links(alloc, listing, &page, links.as_slice(), writer)
}
