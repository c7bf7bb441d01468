//! Policies of one's own, what is counted, and faults.

use devices::{MemReader, MemWriter, VecWriter};
use html_clean::{Allowed, Cleaned, Policy};
use html_clean_document::{clean, clean_fragment, clean_fragment_in};
use html_normal::{Exact, NormalFault, References};
use html_policy_text::{PolicyFault, Problem, Ready, WriteFault, read_policy, write_policy};
use markup::{KnownNamespace, LocalName, Namespace, ParseFault, QualName, Text};
use std::alloc::{AllocError, Global};
use std::test::Fail;

/// Links by `https` and marks, with a class, and no other attribute; no relative links.
fn links_alone(alloc: Global) -> Result<Policy, ParseFault> {
    let mut policy = Policy::text_alone(alloc)?;
    policy.keep(alloc, "a", &["href"])?;
    policy.keep(alloc, "mark", &[])?;
    policy
        .everywhere
        .push(LocalName::from_str(alloc, "class")?)?;
    policy.schemes.push(Text::from_str(alloc, "https")?)?;
    policy.schemes.push(Text::from_str(alloc, "data")?)?;
    policy.dropped.push(LocalName::from_str(alloc, "aside")?)?;
    Ok(policy)
}

/// What stands in names that are never kept.
fn unsafe_policy(alloc: Global) -> Result<Policy, ParseFault> {
    let mut policy = Policy::text_alone(alloc)?;
    for element in [
        "p", "script", "style", "image", "svg", "x-y", "title", "embed",
    ] {
        policy.keep(
            alloc,
            element,
            &["onclick", "style", "srcdoc", "code", "title"],
        )?;
    }
    Ok(policy)
}

fn reader_of(alloc: Global, page: &str) -> Result<MemReader, AllocError> {
    Ok(MemReader::new(Vec::from_slice(alloc, page.as_bytes())?, 4096, None))
}

/// Whether a policy leaves this of a fragment, and counts so.
fn leaves(alloc: Global, policy: &Policy, page: &str, left: &str, counts: Cleaned) -> bool {
    let (Ok(mut reader), Ok(five)) = (reader_of(alloc, page), References::five(alloc)) else {
        return false;
    };
    let mut writer = VecWriter::new(alloc);
    let answer = clean_fragment(
        alloc,
        &mut reader,
        &mut writer,
        five,
        Exact::default(),
        policy,
    );
    answer == Ok(counts) && writer.written() == left.as_bytes()
}

#[test]
fn a_policy_of_ones_own(rt: HostRuntime) -> Result<(), Fail> {
    let alloc = rt.alloc();
    let policy = links_alone(alloc)?;
    let refused = policy.checked().err();
    assert!(rt; refused.is_some_and(|scheme| scheme == "data"));
    let page =
        "<p class=a>x<a href=https://b id=c class=d>y</a><a href=data:e>z</a></p><aside>u<b>v</b></aside><!-- w --><mark class=a class=b>";
    let left = "x<a href=\"https://b\" class=\"d\">y</a><a>z</a><mark class=\"a\"></mark>";
    let counts = Cleaned {
        unwrapped: 1,
        dropped: 1,
        attributes: 2,
        comments: 1,
    };
    assert!(rt; leaves(alloc, &policy, page, left, counts));
    Ok(())
}

#[test]
fn some_names_are_never_kept(rt: HostRuntime) -> Result<(), Fail> {
    let alloc = rt.alloc();
    let policy = unsafe_policy(alloc)?;
    let first = policy.checked().err();
    assert!(rt; first.is_some_and(|name| name == "script"));
    let page =
        "<p onclick=a style=b srcdoc=c title=d><script>e</script><x-y>f</x-y><svg>g</svg><embed code=h title=i>";
    let left = "<p title=\"d\">fg<embed title=\"i\"></p>";
    let counts = Cleaned {
        unwrapped: 2,
        dropped: 1,
        attributes: 4,
        comments: 0,
    };
    assert!(rt; leaves(alloc, &policy, page, left, counts));
    Ok(())
}

#[test]
fn a_fragment_stands_in_its_context(rt: HostRuntime) -> Result<(), Fail> {
    let alloc = rt.alloc();
    let policy = Policy::text_and_links(alloc)?;
    let context = QualName::new(
        None,
        Namespace::from_known(KnownNamespace::Html),
        LocalName::from_str(alloc, "table")?,
    );
    let mut reader = reader_of(alloc, "<td>a")?;
    let mut writer = VecWriter::new(alloc);
    let five = References::five(alloc)?;
    let answer = clean_fragment_in(
        alloc,
        &mut reader,
        &mut writer,
        five,
        Exact::default(),
        context,
        &policy,
    );
    assert!(rt; answer == Ok(Cleaned::default()));
    assert!(rt; writer.written() == "<tbody><tr><td>a</td></tr></tbody>".as_bytes());
    Ok(())
}

/// What a site for articles may keep: classes of code, `data-` attributes, directions and small numbers; each link is marked.
fn articles(alloc: Global) -> Result<Policy, ParseFault> {
    let mut policy = Policy::text_and_links(alloc)?;
    policy.keep(alloc, "code", &["class"])?;
    policy.keep_beginning(alloc, "data-")?;
    let classes = Allowed::words(alloc, &["note"], &["language-"])?;
    policy.limit(alloc, Some("code"), "class", classes)?;
    let directions = Allowed::one_of(alloc, &["auto", "ltr", "rtl"])?;
    policy.limit(alloc, None, "dir", directions)?;
    let numbers = Allowed::Number { least: 1, most: 99 };
    policy.limit(alloc, Some("ol"), "start", numbers)?;
    policy.add(alloc, "a", "rel", "nofollow noopener")?;
    policy.add(alloc, "a", "rel", "opener")?;
    Ok(policy)
}

/// Whether a policy leaves this of a fragment.
pub(crate) fn writes(alloc: Global, policy: &Policy, page: &str, left: &str) -> bool {
    let (Ok(mut reader), Ok(five)) = (reader_of(alloc, page), References::five(alloc)) else {
        return false;
    };
    let mut writer = VecWriter::new(alloc);
    let answer = clean_fragment(
        alloc,
        &mut reader,
        &mut writer,
        five,
        Exact::default(),
        policy,
    );
    answer.is_ok() && writer.written() == left.as_bytes()
}

const ARTICLES: [(&str, &str); 10] = [
    (
        "<code class=' language-rust evil\tnote '>x</code>",
        "<code class=\"language-rust note\">x</code>",
    ),
    ("<code class=evil>x</code>", "<code>x</code>"),
    ("<code class>x</code>", "<code>x</code>"),
    (
        "<a rel=opener href=/b title=c>y</a>",
        "<a rel=\"nofollow noopener\" href=\"/b\" title=\"c\">y</a>",
    ),
    ("<a>y</a>", "<a rel=\"nofollow noopener\">y</a>"),
    (
        "<p data-x=1 onclick=2 dat=3 DATA-Y=4>z",
        "<p data-x=\"1\" data-y=\"4\">z</p>",
    ),
    ("<ol start=7><li>a</ol>", "<ol start=\"7\"><li>a</li></ol>"),
    ("<ol start=100><li>a</ol>", "<ol><li>a</li></ol>"),
    (
        "<ol start=99999999999999999999><li>a</ol>",
        "<ol><li>a</li></ol>",
    ),
    (
        "<bdo dir=RTL>x</bdo><bdo dir=up>y</bdo>",
        "<bdo dir=\"RTL\">x</bdo><bdo>y</bdo>",
    ),
];

const USER_CONTENT: [(&str, &str); 13] = [
    (
        "<ul><li><input type=checkbox checked> a</ul>",
        "<ul><li><input type=\"checkbox\" disabled=\"\" checked=\"\"> a</li></ul>",
    ),
    (
        "<input type=text name=q value=x onfocus=y>",
        "<input type=\"checkbox\" disabled=\"\">",
    ),
    (
        "<pre><code class='x language-rust'>fn</code></pre>",
        "<pre><code class=\"language-rust\">fn</code></pre>",
    ),
    (
        "<ol type=A reversed start=3><li value=4>a</ol>",
        "<ol type=\"A\" reversed=\"\" start=\"3\"><li value=\"4\">a</li></ol>",
    ),
    (
        "<details open ontoggle=x><summary>s</summary>t</details>",
        "<details open=\"\"><summary>s</summary>t</details>",
    ),
    (
        "<section dir=rtl><p dir=up class=c>a</section>",
        "<section dir=\"rtl\"><p>a</p></section>",
    ),
    (
        "<time datetime=2026-11-29>today</time>",
        "<time datetime=\"2026-11-29\">today</time>",
    ),
    ("<img src=a alt=b srcset=c>", "<img src=\"a\" alt=\"b\">"),
    (
        "<h1 align=center><picture><source srcset='a 2x' media=m><source srcset='a, javascript:b'><img src=c></picture></h1>",
        "<h1 align=\"center\"><picture><source srcset=\"a 2x\" media=\"m\"><source><img src=\"c\"></picture></h1>",
    ),
    (
        "<p id=a><a name=user-content-b href=' #a'>x</a>",
        "<p id=\"user-content-a\"><a rel=\"nofollow noopener ugc\" name=\"user-content-b\" href=\"#user-content-a\">x</a></p>",
    ),
    (
        "<table><tr><td headers='a\nb' id=''>x<th id='c d'>",
        "<table><tbody><tr><td headers=\"user-content-a user-content-b\">x</td><th id=\"user-content-c d\"></th></tr></tbody></table>",
    ),
    (
        "<a href=b#c>x</a><a href='#'>y</a>",
        "<a rel=\"nofollow noopener ugc\" href=\"b#c\">x</a><a rel=\"nofollow noopener ugc\" href=\"#\">y</a>",
    ),
    (
        "<a href=javascript:x rel=opener target=_top>y</a>",
        "<a rel=\"nofollow noopener ugc\">y</a>",
    ),
];

#[test]
fn user_content_is_kept(rt: HostRuntime) -> Result<(), Fail> {
    let alloc = rt.alloc();
    let policy = Policy::user_content(alloc)?;
    assert!(rt; policy.checked_for_fragments().is_ok());
    for (page, left) in &USER_CONTENT {
        assert!(rt; writes(alloc, &policy, page, left), "{}", page);
    }
    Ok(())
}

const MAIL: [(&str, &str); 4] = [
    (
        "<table bgcolor=#fff style=x><td valign=top><font color=red face=a>x",
        "<table bgcolor=\"#fff\"><tbody><tr><td valign=\"top\"><font color=\"red\" face=\"a\">x</font></td></tr></tbody></table>",
    ),
    (
        "<img src=cid:a@b><img src=data:image/png;base64,a><img src=a.png><img src=//a/b>",
        "<img src=\"cid:a@b\"><img src=\"data:image/png;base64,a\"><img><img>",
    ),
    (
        "<a href=/logout target=_top>x</a><a href=mailto:a@b>y</a>",
        "<a rel=\"nofollow noopener noreferrer\" target=\"_blank\">x</a><a rel=\"nofollow noopener noreferrer\" target=\"_blank\" href=\"mailto:a@b\">y</a>",
    ),
    ("<base href=x><form action=y>z</form>", "z"),
];

#[test]
fn mails_are_kept(rt: HostRuntime) -> Result<(), Fail> {
    let alloc = rt.alloc();
    let policy = Ready::Mail.policy(alloc)?;
    assert!(rt; policy.checked_for_fragments().is_ok());
    for (page, left) in &MAIL {
        assert!(rt; writes(alloc, &policy, page, left), "{}", page);
    }
    Ok(())
}

#[test]
fn values_are_limited_and_attributes_added(rt: HostRuntime) -> Result<(), Fail> {
    let alloc = rt.alloc();
    let policy = articles(alloc)?;
    assert!(rt; policy.checked_for_fragments().is_ok());
    for (page, left) in &ARTICLES {
        assert!(rt; writes(alloc, &policy, page, left), "{}", page);
    }
    Ok(())
}

/// Pictures by `https` alone; links by `https`, or to mail and telephones; all else by `http` or `https`.
fn schemes_of_each(alloc: Global) -> Result<Policy, ParseFault> {
    let mut policy = Policy::text_alone(alloc)?;
    policy.keep(alloc, "img", &["src"])?;
    policy.keep(alloc, "a", &["href", "ping-to"])?;
    policy.keep(alloc, "q", &["cite"])?;
    policy.keep(alloc, "area", &["href"])?;
    policy.schemes.push(Text::from_str(alloc, "http")?)?;
    policy.schemes.push(Text::from_str(alloc, "https")?)?;
    policy.allows_relative = true;
    policy.limit(
        alloc,
        Some("img"),
        "src",
        Allowed::schemes(alloc, &["https"])?,
    )?;
    let links = Allowed::schemes(alloc, &["https", "mailto", "tel"])?;
    policy.limit(alloc, Some("a"), "href", links)?;
    policy.limit(alloc, None, "ping-to", Allowed::schemes(alloc, &["https"])?)?;
    Ok(policy)
}

const SCHEMES_OF_EACH: [(&str, &str); 14] = [
    ("<img src=https://a>", "<img src=\"https://a\">"),
    ("<img src=http://a>", "<img>"),
    ("<img src=mailto:a>", "<img>"),
    ("<img src=a.png>", "<img src=\"a.png\">"),
    ("<img src=//a/b.png>", "<img>"),
    ("<a href=HTTPS://a>x</a>", "<a href=\"HTTPS://a\">x</a>"),
    ("<a href=http://a>x</a>", "<a>x</a>"),
    ("<a href=MailTo:a>x</a>", "<a href=\"MailTo:a\">x</a>"),
    ("<a href=tel:1>x</a>", "<a href=\"tel:1\">x</a>"),
    ("<a href=javascript:x>y</a>", "<a>y</a>"),
    ("<q cite=http://a>x</q>", "<q cite=\"http://a\">x</q>"),
    ("<q cite=mailto:a>x</q>", "<q>x</q>"),
    ("<area href=http://a>", "<area href=\"http://a\">"),
    (
        "<a ping-to=http://a>x</a><a ping-to=https://a>y</a>",
        "<a>x</a><a ping-to=\"https://a\">y</a>",
    ),
];

#[test]
fn an_attribute_has_schemes_of_its_own(rt: HostRuntime) -> Result<(), Fail> {
    let alloc = rt.alloc();
    let policy = schemes_of_each(alloc)?;
    assert!(rt; policy.checked_for_fragments().is_ok());
    for (page, left) in &SCHEMES_OF_EACH {
        assert!(rt; writes(alloc, &policy, page, left), "{}", page);
    }
    Ok(())
}

/// Pictures by `https` or as data; all else by `https`.
const DATA_POLICY: &str =
    "keep img src srcset\nkeep source src\nkeep a href\nrelative\nscheme https\nschemes-for img src https data\n";

const DATA: [(&str, &str); 13] = [
    (
        "<img src=data:image/png;base64,aa>",
        "<img src=\"data:image/png;base64,aa\">",
    ),
    (
        "<img src=' DaTa:IMAGE/webp,a'>",
        "<img src=\" DaTa:IMAGE/webp,a\">",
    ),
    (
        "<img src='da\nta:image/gif;a'>",
        "<img src=\"da\nta:image/gif;a\">",
    ),
    (
        "<img src=data:image/avif,><img src=data:image/jpeg;>",
        "<img src=\"data:image/avif,\"><img src=\"data:image/jpeg;\">",
    ),
    ("<img src=data:image/svg+xml,a>", "<img>"),
    ("<img src=data:image/svg+xml;image/png,a>", "<img>"),
    ("<img src=data:image/png>", "<img>"),
    ("<img src=data:,a>", "<img>"),
    ("<img src=data:text/html,a>", "<img>"),
    ("<img srcset=data:image/png,a>", "<img>"),
    ("<source src=data:image/png,a>", "<source>"),
    ("<a href=data:image/png,a>x</a>", "<a>x</a>"),
    ("<img src=https:a>", "<img src=\"https:a\">"),
];

#[test]
fn data_of_pictures_is_kept_where_it_is_listed(rt: HostRuntime) -> Result<(), Fail> {
    let alloc = rt.alloc();
    let Ok(policy) = read_policy(alloc, DATA_POLICY) else {
        return Err(Fail::from("the policy is not read"));
    };
    assert!(rt; policy.checked_for_fragments().is_ok());
    for (page, left) in &DATA {
        assert!(rt; writes(alloc, &policy, page, left), "{}", page);
    }
    for text in [
        "scheme data",
        "schemes-for * src data",
        "schemes-for img srcset data",
        "schemes-for a src data",
    ] {
        let Ok(refused) = read_policy(alloc, text) else {
            return Err(Fail::from("a policy is not read"));
        };
        assert!(rt;
            refused.checked().err().is_some_and(|word| word == "data"),
            "{}",
            text
        );
    }
    Ok(())
}

/// Pictures with a `srcset` by `https`.
fn pictures(alloc: Global) -> Result<Policy, ParseFault> {
    let mut policy = Policy::text_alone(alloc)?;
    policy.keep(alloc, "img", &["src", "srcset"])?;
    policy.keep(alloc, "source", &["srcset", "sizes"])?;
    policy.schemes.push(Text::from_str(alloc, "https")?)?;
    policy.schemes.push(Text::from_str(alloc, "http")?)?;
    policy.allows_relative = true;
    let schemes = Allowed::schemes(alloc, &["http"])?;
    policy.limit(alloc, Some("source"), "srcset", schemes)?;
    Ok(policy)
}

const PICTURES: [(&str, &str); 16] = [
    ("<img srcset=a>", "<img srcset=\"a\">"),
    (
        "<img srcset='a 1x, https://b 2x'>",
        "<img srcset=\"a 1x, https://b 2x\">",
    ),
    ("<img srcset='a 1x, javascript:b 2x'>", "<img>"),
    ("<img srcset=javascript:alert(1)>", "<img>"),
    ("<img srcset='a,\tjavascript:b'>", "<img>"),
    ("<img srcset=' ,, JAVASCRIPT:b 1x'>", "<img>"),
    // A URL that ends with a comma has no description.
    ("<img srcset='a, javascript:b'>", "<img>"),
    (
        "<img srcset='a,javascript:b'>",
        "<img srcset=\"a,javascript:b\">",
    ),
    // A comma in parentheses ends no description.
    (
        "<img srcset='a 1x (b, javascript:c) 2x'>",
        "<img srcset=\"a 1x (b, javascript:c) 2x\">",
    ),
    ("<img srcset='a 1x (b), javascript:c'>", "<img>"),
    (
        "<img srcset='a (b, data:c'>",
        "<img srcset=\"a (b, data:c\">",
    ),
    ("<img srcset='a 1x, //b 2x'>", "<img>"),
    ("<img srcset>", "<img srcset=\"\">"),
    (
        "<source srcset='http://a, b 2x' sizes=c>",
        "<source srcset=\"http://a, b 2x\" sizes=\"c\">",
    ),
    ("<source srcset='http://a, https://b 2x'>", "<source>"),
    ("<img src=a srcset='b 1x,data:c'>", "<img src=\"a\">"),
];

#[test]
fn each_url_of_a_srcset_is_judged(rt: HostRuntime) -> Result<(), Fail> {
    let alloc = rt.alloc();
    let policy = pictures(alloc)?;
    assert!(rt; policy.checked_for_fragments().is_ok());
    for (page, left) in &PICTURES {
        assert!(rt; writes(alloc, &policy, page, left), "{}", page);
    }
    Ok(())
}

/// The scheme that is never kept, of a policy that lists schemes for links.
fn refused_scheme(alloc: Global, schemes: &[&str], scheme: &str) -> Result<bool, ParseFault> {
    let mut policy = Policy::text_and_links(alloc)?;
    policy.limit(alloc, Some("a"), "href", Allowed::schemes(alloc, schemes)?)?;
    Ok(policy.checked().err().is_some_and(|first| first == scheme))
}

#[test]
fn scripts_are_no_schemes_of_an_attribute(rt: HostRuntime) -> Result<(), Fail> {
    let alloc = rt.alloc();
    assert!(rt; refused_scheme(alloc, &["https", "javascript", "data"], "javascript")?);
    assert!(rt; refused_scheme(alloc, &["data"], "data")?);
    assert!(rt; refused_scheme(alloc, &["vbscript"], "vbscript")?);
    assert!(rt; refused_scheme(alloc, &["HTTPS"], "HTTPS")?);
    let mut scripts = Policy::text_alone(alloc)?;
    scripts.keep(alloc, "a", &["href"])?;
    let schemes = Allowed::schemes(alloc, &["javascript", "tel"])?;
    scripts.limit(alloc, Some("a"), "href", schemes)?;
    let page = "<a href=javascript:x>y</a><a href=tel:1>z</a>";
    assert!(rt; writes(alloc, &scripts, page, "<a>y</a><a href=\"tel:1\">z</a>"));
    Ok(())
}

/// The same policy as text, without what text and links keep besides.
const ARTICLES_TEXT: &str = "# articles
keep a href title
keep bdo dir
keep code class
keep ol start
keep li
keep p
relative
beginning data-
words code class note ^language-
one-of * dir auto ltr rtl
schemes-for a href https mailto
number ol start 01 99
prefix * id user-
prefix-words td headers user-
prefix-link a href user-

add a rel nofollow noopener
";

#[test]
fn a_policy_is_read_from_a_text(rt: HostRuntime) -> Result<(), Fail> {
    let alloc = rt.alloc();
    let Ok(policy) = read_policy(alloc, ARTICLES_TEXT) else {
        return Err(Fail::from("the policy is not read"));
    };
    for (page, left) in &ARTICLES {
        assert!(rt; writes(alloc, &policy, page, left), "{}", page);
    }
    let page = "<a href=http:b>x</a><a href=mailto:b>y</a>";
    let left =
        "<a rel=\"nofollow noopener\">x</a><a rel=\"nofollow noopener\" href=\"mailto:b\">y</a>";
    assert!(rt; writes(alloc, &policy, page, left));
    Ok(())
}

/// The same, as it is written.
const ARTICLES_WRITTEN: &str = "keep a href title
keep bdo dir
keep code class
keep ol start
keep li
keep p
beginning data-
words code class note ^language-
one-of * dir auto ltr rtl
schemes-for a href https mailto
number ol start 1 99
prefix * id user-
prefix-words td headers user-
prefix-link a href user-
add a rel nofollow noopener
relative
";

/// Whether a policy that a text says is written so.
fn is_written(alloc: Global, text: &str, written: &str) -> bool {
    let Ok(policy) = read_policy(alloc, text) else {
        return false;
    };
    match write_policy(alloc, &policy) {
        Ok(made) => made.as_str() == written,
        Err(_) => false,
    }
}

#[test]
fn a_policy_is_written_and_read_again(rt: HostRuntime) -> Result<(), Fail> {
    let alloc = rt.alloc();
    assert!(rt; is_written(alloc, ARTICLES_TEXT, ARTICLES_WRITTEN));
    assert!(rt; is_written(alloc, ARTICLES_WRITTEN, ARTICLES_WRITTEN));
    assert!(rt; is_written(alloc, "", ""));
    for name in ["text-alone", "text-and-links", "user-content", "mail"] {
        let Some(ready) = Ready::named(name) else {
            return Err(Fail::from("a ready policy has no name"));
        };
        let policy = ready.policy(alloc)?;
        let Ok(text) = write_policy(alloc, &policy) else {
            return Err(Fail::from("a ready policy is not written"));
        };
        assert!(rt; is_written(alloc, text.as_str(), text.as_str()));
    }
    Ok(())
}

/// Whether a policy can't be written as text.
fn is_unwritable(alloc: Global, policy: &Policy) -> bool {
    write_policy(alloc, policy).err() == Some(WriteFault::Unwritable)
}

#[test]
fn a_policy_that_text_can_not_say(rt: HostRuntime) -> Result<(), Fail> {
    let alloc = rt.alloc();
    let mut spaced = Policy::text_alone(alloc)?;
    spaced.keep(alloc, "a", &["b c"])?;
    assert!(rt; is_unwritable(alloc, &spaced));
    let mut empty = Policy::text_alone(alloc)?;
    empty.keep_beginning(alloc, "")?;
    assert!(rt; is_unwritable(alloc, &empty));
    let mut starred = Policy::text_alone(alloc)?;
    starred.limit(alloc, Some("*"), "a", Allowed::one_of(alloc, &["b"])?)?;
    assert!(rt; is_unwritable(alloc, &starred));
    let mut marked = Policy::text_alone(alloc)?;
    marked.limit(alloc, None, "a", Allowed::words(alloc, &["^b"], &[])?)?;
    assert!(rt; is_unwritable(alloc, &marked));
    let mut doubled = Policy::text_alone(alloc)?;
    doubled.add(alloc, "a", "rel", "b  c")?;
    assert!(rt; is_unwritable(alloc, &doubled));
    Ok(())
}

#[test]
fn a_line_that_is_no_rule_is_named(rt: HostRuntime) -> Result<(), Fail> {
    let alloc = rt.alloc();
    let unknown = PolicyFault::Line {
        line: 2,
        problem: Problem::UnknownRule,
    };
    let wrong = PolicyFault::Line {
        line: 3,
        problem: Problem::WrongWords,
    };
    assert!(rt; read_policy(alloc, "keep a\nkepp b\ndrop").err() == Some(unknown));
    assert!(rt; read_policy(alloc, "keep a\n\nadd a\n").err() == Some(wrong));
    let number = PolicyFault::Line {
        line: 1,
        problem: Problem::WrongNumber,
    };
    assert!(rt; read_policy(alloc, "number ol start 1 x").err() == Some(number));
    assert!(rt; read_policy(alloc, "number ol start -1 1").err() == Some(number));
    Ok(())
}

/// The word that is never kept of a policy for texts, with an attribute that is added to links and a beginning of names.
fn refused_with(
    alloc: Global,
    name: &str,
    beginning: &str,
    word: &str,
) -> Result<bool, ParseFault> {
    let mut policy = Policy::text_and_links(alloc)?;
    policy.add(alloc, "a", name, "x")?;
    policy.keep_beginning(alloc, beginning)?;
    Ok(policy.checked().err().is_some_and(|first| first == word))
}

#[test]
fn events_and_urls_are_never_added(rt: HostRuntime) -> Result<(), Fail> {
    let alloc = rt.alloc();
    assert!(rt; refused_with(alloc, "onclick", "data-", "onclick")?);
    assert!(rt; refused_with(alloc, "href", "data-", "href")?);
    assert!(rt; refused_with(alloc, "rel", "on", "on")?);
    assert!(rt; refused_with(alloc, "rel", "Data-", "Data-")?);
    Ok(())
}

/// What cleaning answers and writes of some bytes, with a reader and a writer that may fail.
fn outcome(
    alloc: Global,
    bytes: &[u8],
    read_fails: Option<u64>,
    write_fails: Option<u64>,
) -> Result<(Result<Cleaned, NormalFault>, usize), AllocError> {
    let (Ok(policy), Ok(five)) = (Policy::text_and_links(alloc), References::five(alloc)) else {
        return Err(AllocError);
    };
    let mut reader = MemReader::new(Vec::from_slice(alloc, bytes)?, 4, read_fails);
    let mut writer = MemWriter::new(alloc, 100, 100, write_fails, false)?;
    let answer = clean(
        alloc,
        &mut reader,
        &mut writer,
        five,
        Exact::default(),
        &policy,
    );
    Ok((answer, writer.written().len()))
}

#[test]
fn faults_are_told(rt: HostRuntime) -> Result<(), Fail> {
    let alloc = rt.alloc();
    let refused = outcome(alloc, b"<p>a\xFF", None, None)?;
    assert!(rt; refused == (Err(NormalFault::NotUtf8 { at: 4 }), 0));
    assert!(rt; outcome(alloc, b"<p>a</p>", Some(1), None)? == (Err(NormalFault::Read), 0));
    let broke = outcome(alloc, b"<p>a</p>", None, Some(2))?;
    assert!(rt; broke.0 == Err(NormalFault::Write) && broke.1 < 8);
    Ok(())
}
