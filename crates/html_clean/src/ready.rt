//! Policies that are ready.
ghost use Rattle.std.specs.Prelude.{◌≡◌, ◌++◌, [], map, OnOk, IfOk, IfErr};
ghost use Rattle.std.specs.Str.{chars};
ghost use Rattle.html_clean.specs.Limits.{limit_parts};
ghost use Rattle.html_clean.specs.Ready.{IsTextAlone, IsTextAndLinks, IsUserContent, addition_parts, ready_rules, rule_names};
ghost use Rattle.html_clean.specs.Ready.{user_ids, user_values};
ghost use Rattle.markup.specs.declared.fault.ParseFault.TheVariants.{Memory};

use crate::policy::{Allowed, IdForm, Policy, Rule, names_of};
use markup::{LocalName, ParseFault, Text};
use std::alloc::Global;

/// Elements that are kept without attributes of their own.
const PLAIN_ELEMENTS: [&str; 58] = [
    "abbr",
    "acronym",
    "area",
    "article",
    "aside",
    "b",
    "bdi",
    "br",
    "caption",
    "center",
    "cite",
    "code",
    "data",
    "dd",
    "details",
    "dfn",
    "div",
    "dl",
    "dt",
    "em",
    "figcaption",
    "figure",
    "footer",
    "h1",
    "h2",
    "h3",
    "h4",
    "h5",
    "h6",
    "header",
    "hgroup",
    "i",
    "kbd",
    "li",
    "map",
    "mark",
    "nav",
    "p",
    "pre",
    "rp",
    "rt",
    "rtc",
    "ruby",
    "s",
    "samp",
    "small",
    "span",
    "strike",
    "strong",
    "sub",
    "summary",
    "sup",
    "time",
    "tt",
    "u",
    "ul",
    "var",
    "wbr",
];

/// Elements that are kept with attributes of their own.
const ELEMENTS: [(&str, &[&str]); 18] = [
    ("a", &["href", "hreflang"]),
    ("bdo", &["dir"]),
    ("blockquote", &["cite"]),
    ("col", &["align", "char", "charoff", "span"]),
    ("colgroup", &["align", "char", "charoff", "span"]),
    ("del", &["cite", "datetime"]),
    ("hr", &["align", "size", "width"]),
    ("img", &["align", "alt", "height", "src", "width"]),
    ("ins", &["cite", "datetime"]),
    ("ol", &["start"]),
    ("q", &["cite"]),
    ("table", &["align", "char", "charoff", "summary"]),
    ("tbody", &["align", "char", "charoff"]),
    (
        "td",
        &["align", "char", "charoff", "colspan", "headers", "rowspan"],
    ),
    ("tfoot", &["align", "char", "charoff"]),
    (
        "th",
        &[
            "align", "char", "charoff", "colspan", "headers", "rowspan", "scope",
        ],
    ),
    ("thead", &["align", "char", "charoff"]),
    ("tr", &["align", "char", "charoff"]),
];

/// Elements that are dropped with what stands in them.
const DROPPED: [&str; 9] = [
    "head", "iframe", "noembed", "noframes", "noscript", "script", "style", "template", "title",
];

/// Attributes that each element may have.
const EVERYWHERE: [&str; 2] = ["lang", "title"];

/// Elements of user content beside those of texts and links.
const USER_ELEMENTS: [(&str, &[&str]); 19] = [
    ("a", &["name"]),
    ("code", &["class"]),
    ("data", &["value"]),
    ("details", &["open"]),
    ("div", &["align"]),
    ("h1", &["align"]),
    ("h2", &["align"]),
    ("h3", &["align"]),
    ("h4", &["align"]),
    ("h5", &["align"]),
    ("h6", &["align"]),
    ("input", &["checked"]),
    ("li", &["value"]),
    ("ol", &["reversed", "type"]),
    ("p", &["align"]),
    ("picture", &[]),
    ("section", &[]),
    ("source", &["media", "sizes", "srcset", "type"]),
    ("time", &["datetime"]),
];

/// What the names of elements of user content begin with.
const USER_PREFIX: &str = "user-content-";

/// Attributes that links and check boxes are given.
const USER_ADDITIONS: [(&str, &str, &str); 3] = [
    ("a", "rel", "nofollow noopener ugc"),
    ("input", "type", "checkbox"),
    ("input", "disabled", ""),
];

/// Schemes of URLs.
const SCHEMES: [&str; 25] = [
    "bitcoin",
    "ftp",
    "ftps",
    "geo",
    "http",
    "https",
    "im",
    "irc",
    "ircs",
    "magnet",
    "mailto",
    "mms",
    "mx",
    "news",
    "nntp",
    "openpgp4fpr",
    "sip",
    "sms",
    "smsto",
    "ssh",
    "tel",
    "url",
    "webcal",
    "wtai",
    "xmpp",
];

/// The texts of these.
pub(crate) fn texts_of(alloc: Global, list: &[&str]) -> Result<Vec<Text>, ParseFault>
    ensures ok { IfOk result (λ texts. texts.items ≡ map (λ text. chars text.now) list.now) }
    ensures fault { IfErr result (λ fault. fault ≡ Memory) }
{
    let mut texts = Vec::with_capacity(alloc, list.len())?;
    for text in list {
        texts.push(Text::from_str(alloc, text)?)?;
    }
    Ok(texts)
}

/// Adds rules for elements without attributes of their own.
fn push_plain(alloc: Global, list: &[&str], rules: &mut Vec<Rule>) -> Result<(), ParseFault>
    ensures ok { OnOk result (map rule_names rules.new.items ≡ map rule_names rules.old.items
        ++ map (λ name. (chars name.now, [])) list.now) }
    ensures fault { IfErr result (λ fault. fault ≡ Memory) }
{
    for name in list {
        rules.push(Rule::new(alloc, name, &[])?)?;
    }
    Ok(())
}

/// Adds rules for elements with attributes of their own.
fn push_rules(
    alloc: Global,
    list: &[(&str, &[&str])],
    rules: &mut Vec<Rule>,
) -> Result<(), ParseFault>
    ensures ok { OnOk result (map rule_names rules.new.items ≡ map rule_names rules.old.items
        ++ map (λ row. (chars row.0.now, map (λ name. chars name.now) row.1.now)) list.now) }
    ensures fault { IfErr result (λ fault. fault ≡ Memory) }
{
    for (name, attributes) in list {
        rules.push(Rule::new(alloc, name, attributes)?)?;
    }
    Ok(())
}

/// Gives elements attributes.
fn push_additions(
    alloc: Global,
    list: &[(&str, &str, &str)],
    policy: &mut Policy,
) -> Result<(), ParseFault>
    ensures ok { OnOk result (map addition_parts policy.new.added.items ≡ map addition_parts policy.old.added.items
        ++ map (λ row. (chars row.0.now, (chars row.1.now, chars row.2.now))) list.now) }
    ensures same { policy.new ≡ record policy.old { added = policy.new.added } }
    ensures fault { IfErr result (λ fault. fault ≡ Memory) }
{
    for (element, name, value) in list {
        policy.add(alloc, element, name, value)?;
    }
    Ok(())
}

/// Limits the classes of code, directions, and how lists are numbered.
fn limit_user_values(alloc: Global, policy: &mut Policy) -> Result<(), ParseFault>
    ensures ok { OnOk result (map limit_parts policy.new.values.items ≡ map limit_parts policy.old.values.items ++ user_values) }
    ensures same { policy.new ≡ record policy.old { values = policy.new.values } }
    ensures fault { IfErr result (λ fault. fault ≡ Memory) }
{
    let classes = Allowed::words(alloc, &[], &["language-"])?;
    policy.limit(alloc, Some("code"), "class", classes)?;
    let directions = Allowed::one_of(alloc, &["auto", "ltr", "rtl"])?;
    policy.limit(alloc, None, "dir", directions)?;
    let kinds = Allowed::one_of(alloc, &["1", "a", "i"])?;
    policy.limit(alloc, Some("ol"), "type", kinds)?;
    Ok(())
}

/// Gives a prefix to the names of elements, and to what refers to them.
fn prefix_user_ids(alloc: Global, policy: &mut Policy) -> Result<(), ParseFault>
    ensures ok { OnOk result (map limit_parts policy.new.values.items ≡ map limit_parts policy.old.values.items ++ user_ids) }
    ensures same { policy.new ≡ record policy.old { values = policy.new.values } }
    ensures fault { IfErr result (λ fault. fault ≡ Memory) }
{
    let id = Allowed::prefixed(alloc, IdForm::Name, USER_PREFIX)?;
    policy.limit(alloc, None, "id", id)?;
    let name = Allowed::prefixed(alloc, IdForm::Name, USER_PREFIX)?;
    policy.limit(alloc, Some("a"), "name", name)?;
    let link = Allowed::prefixed(alloc, IdForm::Link, USER_PREFIX)?;
    policy.limit(alloc, None, "href", link)?;
    let headers = Allowed::prefixed(alloc, IdForm::Names, USER_PREFIX)?;
    policy.limit(alloc, None, "headers", headers)?;
    Ok(())
}

/// The rules of the policy.
fn rules(alloc: Global) -> Result<Vec<Rule>, ParseFault>
    ensures ok { IfOk result (λ rules. map rule_names rules.items ≡ ready_rules) }
    ensures fault { IfErr result (λ fault. fault ≡ Memory) }
{
    let mut rules = Vec::new(alloc);
    push_plain(alloc, &PLAIN_ELEMENTS, &mut rules)?;
    push_rules(alloc, &ELEMENTS, &mut rules)?;
    Ok(rules)
}

impl Policy {
    /// A policy that keeps no element, and so text alone.
    ///
    /// Dropped with what they have are the same elements as by [`text_and_links`](Policy::text_and_links), so that the source of a script
    /// or a style sheet does not become text.
    pub fn text_alone(alloc: Global) -> Result<Policy, ParseFault>
        ensures ok { IfOk result IsTextAlone }
        ensures fault { IfErr result (λ fault. fault ≡ Memory) }
    {
        Ok(Policy {
            kept: Vec::new(alloc),
            dropped: names_of(alloc, &DROPPED)?,
            everywhere: Vec::new(alloc),
            beginnings: Vec::new(alloc),
            values: Vec::new(alloc),
            added: Vec::new(alloc),
            urls: Vec::new(alloc),
            schemes: Vec::new(alloc),
            allows_relative: false,
            allows_hosts: false,
        })
    }

    /// What [ammonia](https://docs.rs/ammonia) keeps by default, as far as it can be had here: the elements of texts, lists, tables, links
    /// and images, with URLs of its schemes, relative ones and those that begin with a host.
    ///
    /// Dropped with what they have are scripts, styles, the head of a document, templates, frames and what is shown without scripts.
    pub fn text_and_links(alloc: Global) -> Result<Policy, ParseFault>
        ensures ok { IfOk result IsTextAndLinks }
        ensures fault { IfErr result (λ fault. fault ≡ Memory) }
    {
        Ok(Policy {
            kept: rules(alloc)?,
            dropped: names_of(alloc, &DROPPED)?,
            everywhere: names_of(alloc, &EVERYWHERE)?,
            beginnings: Vec::new(alloc),
            values: Vec::new(alloc),
            added: Vec::new(alloc),
            urls: Vec::new(alloc),
            schemes: texts_of(alloc, &SCHEMES)?,
            allows_relative: true,
            allows_hosts: true,
        })
    }

    /// What people write in forums, comments and Markdown: beside what [`text_and_links`](Policy::text_and_links) keeps, the classes
    /// `language-..` of `code`, check boxes of task lists, lists that are numbered otherwise, `details` that are open, sections, dates and
    /// directions, alignment, `picture`, and the names of elements, by `id` and by `name` of `a`.
    ///
    /// Each such name begins with `user-content-`, or gets this in front, and so does the name in a link to it, such as `href="#note"`, and
    /// in `headers`.
    ///
    /// Each link gets `rel="nofollow noopener ugc"`, and each `input` is a check box that is disabled.
    pub fn user_content(alloc: Global) -> Result<Policy, ParseFault>
        ensures ok { IfOk result IsUserContent }
        ensures fault { IfErr result (λ fault. fault ≡ Memory) }
    {
        let mut policy = Policy::text_and_links(alloc)?;
        push_rules(alloc, &USER_ELEMENTS, &mut policy.kept)?;
        policy.everywhere.push(LocalName::from_str(alloc, "dir")?)?;
        policy.everywhere.push(LocalName::from_str(alloc, "id")?)?;
        limit_user_values(alloc, &mut policy)?;
        prefix_user_ids(alloc, &mut policy)?;
        push_additions(alloc, &USER_ADDITIONS, &mut policy)?;
        Ok(policy)
    }
}
