//! The links of a page, of each kind.
ghost use Rattle.std.specs.Prelude.{◌≡◌, ◌∷◌, ◌++◌, [], IfErr, IfOk, OnOk, map};
ghost use Rattle.std.specs.List.{flat_map};
ghost use Rattle.std.specs.Str.{chars};
ghost use Rattle.markup.specs.declared.fault.ParseFault.TheVariants.{Memory};
ghost use Rattle.html_listings.specs.Links as spec;
ghost use Rattle.html_listings.specs.Links.{in_one_line, kinds, leads, link, links_at, links_of, urls_in, word_of};

use html_extracts::{has_href, has_source, without_breaks};
use html_forest::{Forest, NodeId};
use html_nodes::{attribute_of, element_name, nodes_below};
use html_srcset::candidates;
use markup::{KnownNamespace, ParseFault, Text};
use std::alloc::Global;

/// An attribute with URLs.
#[derive(Clone, Copy, Debug, PartialEq, Eq)]
pub enum LinkKind {
    /// That of `a`, `area` and `link`.
    Href,
    /// That of images, scripts, frames, media, `embed` and `input`.
    Src,
    /// That of `img` and `source`, which may have several.
    Srcset,
    /// That of `form`.
    Action,
    /// That of `object`.
    Data,
    /// That of `video`.
    Poster,
}

impl LinkKind {
    /// The name of the attribute.
    pub fn word(self) -> &'static str
        ensures { result.now ≡ word_of self }
    {
        match self {
            LinkKind::Href => "href",
            LinkKind::Src => "src",
            LinkKind::Srcset => "srcset",
            LinkKind::Action => "action",
            LinkKind::Data => "data",
            LinkKind::Poster => "poster",
        }
    }
}

/// Where an element leads.
#[derive(Debug, Drop)]
pub struct Link {
    /// The attribute that says so.
    pub kind: LinkKind,
    /// The element.
    pub node: NodeId,
    /// The URL as it is written, but for the white space at its ends, tabs and line breaks, which are no part of it (URL Standard, section
    /// 4.4).
    pub url: Text,
}

const KINDS: [LinkKind; 6] = [
    LinkKind::Href,
    LinkKind::Src,
    LinkKind::Srcset,
    LinkKind::Action,
    LinkKind::Data,
    LinkKind::Poster,
];

/// Whether an element of HTML of this name has URLs in the attribute.
#[tactic(auto, unfolding(crate::specs::Links::leads))]
fn leads(kind: LinkKind, local: &str) -> bool
    ensures { result ≡ leads kind local.now }
{
    match kind {
        LinkKind::Href => has_href(local),
        LinkKind::Src => has_source(local),
        LinkKind::Srcset => local == "img" || local == "source",
        LinkKind::Action => local == "form",
        LinkKind::Data => local == "object",
        LinkKind::Poster => local == "video",
    }
}

/// A URL in one line, without the white space at its ends.
#[tactic(auto, unfolding(crate::specs::Links::in_one_line))]
fn in_one_line(alloc: Global, url: &str) -> Result<Text, ParseFault>
    ensures ok { IfOk result (λ line. line ≡ in_one_line url.now) }
    ensures fault { IfErr result (λ fault. fault ≡ Memory) }
{
    without_breaks(alloc, url.trim_ascii())
}

/// Adds the link of one URL.
fn push_url(
    alloc: Global,
    node: NodeId,
    kind: LinkKind,
    url: &str,
    links: &mut Vec<Link>,
) -> Result<(), ParseFault>
    ensures ok { OnOk result (links.new.items ≡ links.old.items ++ link node kind (chars url.now) ∷ []) }
    ensures fault { IfErr result (λ fault. fault ≡ Memory) }
{
    let url = in_one_line(alloc, url)?;
    links.push(Link { kind, node, url })?;
    Ok(())
}

/// Adds the links of several URLs.
fn push_urls(
    alloc: Global,
    node: NodeId,
    kind: LinkKind,
    urls: &[Text],
    links: &mut Vec<Link>,
) -> Result<(), ParseFault>
    ensures ok { OnOk result (links.new.items ≡ links.old.items ++ map (link node kind) urls.now) }
    ensures fault { IfErr result (λ fault. fault ≡ Memory) }
{
    for url in urls {
        push_url(alloc, node, kind, url.as_str(), links)?;
    }
    Ok(())
}

/// Adds the links of a value.
#[tactic(auto, unfolding(crate::specs::Links::urls_in))]
fn push_value(
    alloc: Global,
    node: NodeId,
    kind: LinkKind,
    value: &str,
    links: &mut Vec<Link>,
) -> Result<(), ParseFault>
    ensures ok { OnOk result (links.new.items ≡ links.old.items ++ map (link node kind) (urls_in kind (chars value.now))) }
    ensures fault { IfErr result (λ fault. fault ≡ Memory) }
{
    match kind {
        LinkKind::Srcset => {
            let urls = candidates(alloc, value)?;
            push_urls(alloc, node, kind, urls.as_slice(), links)
        }
        _ => push_url(alloc, node, kind, value, links),
    }
}

/// Adds the links of one kind of an element of HTML with this name.
#[tactic(auto, unfolding(crate::specs::Links::links_in, crate::specs::Links::links_of))]
fn push_kind(
    alloc: Global,
    forest: &Forest,
    node: NodeId,
    local: &str,
    kind: LinkKind,
    links: &mut Vec<Link>,
) -> Result<(), ParseFault>
    ensures ok { OnOk result (links.new.items ≡ links.old.items ++ links_of forest.now node local.now kind) }
    ensures fault { IfErr result (λ fault. fault ≡ Memory) }
{
    if !leads(kind, local) {
        return Ok(());
    }
    match attribute_of(forest, node, kind.word()) {
        Some(value) => push_value(alloc, node, kind, value, links),
        None => Ok(()),
    }
}

/// Adds the links of some kinds of an element of HTML with this name.
fn push_kinds(
    alloc: Global,
    forest: &Forest,
    node: NodeId,
    local: &str,
    kinds: &[LinkKind],
    links: &mut Vec<Link>,
) -> Result<(), ParseFault>
    ensures ok { OnOk result (links.new.items ≡ links.old.items ++ flat_map (links_of forest.now node local.now) kinds.now) }
    ensures fault { IfErr result (λ fault. fault ≡ Memory) }
{
    for kind in kinds {
        push_kind(alloc, forest, node, local, *kind, links)?;
    }
    Ok(())
}

/// Adds the links of a node.
#[tactic(auto, unfolding(crate::specs::Links::links_at))]
fn push_links(
    alloc: Global,
    forest: &Forest,
    node: NodeId,
    links: &mut Vec<Link>,
) -> Result<(), ParseFault>
    ensures ok { OnOk result (links.new.items ≡ links.old.items ++ links_at forest.now node) }
    ensures fault { IfErr result (λ fault. fault ≡ Memory) }
{
    let Some(name) = element_name(forest, node) else {
        return Ok(());
    };
    if !name.ns.is_known(KnownNamespace::Html) {
        return Ok(());
    }
    push_kinds(alloc, forest, node, name.local.as_str(), &KINDS, links)
}

/// The links of the elements below a node, in tree order; those of one element in the order of [`LinkKind`]. What stands in a template is
/// not below it. Takes the memory of the URLs.
///
/// Errors: [`ParseFault::Memory`].
pub fn links_below(alloc: Global, forest: &Forest, top: NodeId) -> Result<Vec<Link>, ParseFault>
    ensures ok { IfOk result (λ links. links.items ≡ spec.links_below forest.now top) }
    ensures fault { IfErr result (λ fault. fault ≡ Memory) }
{
    let mut links = Vec::new(alloc);
    for node in nodes_below(forest, top) {
        push_links(alloc, forest, node, &mut links)?;
    }
    Ok(links)
}
