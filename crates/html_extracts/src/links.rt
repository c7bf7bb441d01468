//! Where the elements of a tree lead.
ghost use Rattle.std.specs.Prelude.{◌≡◌, IfErr, IfOk, filter, map, option_map};
ghost use Rattle.std.specs.Str.{chars};
ghost use Rattle.std.specs.String.{string_bytes};
ghost use Rattle.html_nodes.specs.Below.{below};
ghost use Rattle.markup.specs.declared.fault.ParseFault.TheVariants.{Memory};
ghost use Rattle.html_extracts.specs.Links as spec;
ghost use Rattle.html_extracts.specs.Links.{is_in_line, lines_of_links};

use html_forest::{Forest, NodeId};
use html_nodes::{attribute_of, element_name, nodes_below};
use markup::{KnownNamespace, ParseFault, Text};
use std::alloc::Global;

/// Whether an element of HTML of this name leads where its `href` says.
pub fn has_href(local: &str) -> bool
    ensures { result ≡ spec.has_href local.now }
{
    local == "a" || local == "area" || local == "link"
}

/// Whether an element of HTML of this name takes what it shows from where its `src` says.
pub fn has_source(local: &str) -> bool
    ensures { result ≡ spec.has_source local.now }
{
    local == "img"
        || local == "script"
        || local == "iframe"
        || local == "source"
        || local == "video"
        || local == "audio"
        || local == "track"
        || local == "embed"
        || local == "input"
        || local == "frame"
}

/// Where an element of HTML leads: the `href` of an `a`, an `area` or a `link` (HTML Standard, section 4.6), or the `src` of an `img`, a
/// `script`, a frame, an `embed`, an `input`, or of media. Nothing of another node, and of one without that attribute.
pub fn link_of(forest: &Forest, id: NodeId) -> Option<&str>
    ensures { option_map (λ link. chars link.now) result ≡ spec.link_of forest.now id }
{
    let name = element_name(forest, id)?;
    if !name.ns.is_known(KnownNamespace::Html) {
        return None;
    }
    if has_href(name.local.as_str()) {
        return attribute_of(forest, id, "href");
    }
    if has_source(name.local.as_str()) {
        return attribute_of(forest, id, "src");
    }
    None
}

// Whether a character of a URL stays in it (URL Standard, section 4.4).
fn is_in_line(character: char) -> bool
    ensures { result ≡ is_in_line character }
{
    character != '\t' && character != '\n' && character != '\r'
}

/// The characters of a URL but tabs and line breaks, which are no part of it (URL Standard, section 4.4).
///
/// Errors: [`ParseFault::Memory`].
pub fn without_breaks(alloc: Global, url: &str) -> Result<Text, ParseFault>
    ensures ok { IfOk result (λ line. line ≡ filter is_in_line (chars url.now)) }
    ensures fault { IfErr result (λ fault. fault ≡ Memory) }
{
    let mut line = Text::empty(alloc);
    for character in url.chars() {
        if is_in_line(character) {
            line.push(character)?;
        }
    }
    Ok(line)
}

/// Where the elements below a node lead, in tree order: the links of [`link_of`], as they are written but for tabs and line breaks, which
/// are no part of a URL. What stands in a template is not below it.
pub fn links_below(alloc: Global, forest: &Forest, top: NodeId) -> Result<Vec<Text>, ParseFault>
    ensures ok { IfOk result (λ found. found.items ≡ lines_of_links forest.now (below forest.now top)) }
    ensures fault { IfErr result (λ fault. fault ≡ Memory) }
{
    let mut found = Vec::new(alloc);
    for id in nodes_below(forest, top) {
        if let Some(link) = link_of(forest, id) {
            found.push(without_breaks(alloc, link)?)?;
        }
    }
    Ok(found)
}
