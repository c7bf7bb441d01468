//! URLs that are changed: pictures that are loaded through a proxy, and URLs that are made absolute.

use crate::policies::writes;
use html_clean::{Allowed, Policy};
use html_policy_text::{read_policy, write_policy};
use markup::{ParseFault, Text};
use std::alloc::Global;
use std::test::Fail;

/// Pictures through a proxy, and those that come with a mail.
const TEXT: &str = "keep img alt src
schemes-for img src cid data https
proxy img src https://proxy.example/?url=
proxy * data-src https://proxy.example/?url=
attribute data-src
scheme https
";

const PAGES: [(&str, &str); 14] = [
    (
        "<img src='https://a.b/c?d=e&amp;f' alt=g>",
        "<img src=\"https://proxy.example/?url=https%3A%2F%2Fa.b%2Fc%3Fd%3De%26f\" alt=\"g\">",
    ),
    (
        "<img src=' ht&#9;tp://a.b/\u{e9}'>",
        "<img src=\"https://proxy.example/?url=http%3A%2F%2Fa.b%2F%C3%A9\">",
    ),
    (
        "<img src=//a.b/c.png>",
        "<img src=\"https://proxy.example/?url=%2F%2Fa.b%2Fc.png\">",
    ),
    (
        "<img src='\\/a.b/'>",
        "<img src=\"https://proxy.example/?url=%5C%2Fa.b%2F\">",
    ),
    (
        "<img src=https://proxy.example/?url=https%3A%2F%2Fa.b>",
        "<img src=\"https://proxy.example/?url=https%3A%2F%2Fa.b\">",
    ),
    (
        "<img src=https://proxy.example/?url=https://a.b>",
        "<img src=\"https://proxy.example/?url=https%3A%2F%2Fproxy.example%2F%3Furl%3Dhttps%3A%2F%2Fa.b\">",
    ),
    (
        "<img src=https://proxy.example/?url=https%3A&lt;a>",
        "<img src=\"https://proxy.example/?url=https%3A%2F%2Fproxy.example%2F%3Furl%3Dhttps%253A%3Ca\">",
    ),
    (
        "<img src=https://proxy.example/admin>",
        "<img src=\"https://proxy.example/?url=https%3A%2F%2Fproxy.example%2Fadmin\">",
    ),
    (
        "<img src=HTTPS:a>",
        "<img src=\"https://proxy.example/?url=HTTPS%3Aa\">",
    ),
    ("<img src=cid:1>", "<img src=\"cid:1\">"),
    (
        "<img src=data:image/png,x>",
        "<img src=\"data:image/png,x\">",
    ),
    ("<img src=data:image/svg+xml,x>", "<img>"),
    ("<img src=javascript:x><img src=ftp://a/>", "<img><img>"),
    (
        "<img src=a.png data-src=javascript:x><img data-src=http://a>",
        "<img><img data-src=\"https://proxy.example/?url=http%3A%2F%2Fa\">",
    ),
];

/// The same policy, but that pictures of the page's own server are kept.
fn with_own(alloc: Global) -> Result<Policy, ParseFault> {
    let mut policy = Policy::text_alone(alloc)?;
    policy.keep(alloc, "img", &["src"])?;
    policy.schemes.push(Text::from_str(alloc, "http")?)?;
    policy.limit(alloc, None, "src", Allowed::proxied(alloc, "/proxy/")?)?;
    policy.allows_relative = true;
    Ok(policy)
}

#[test]
fn pictures_are_loaded_through_a_proxy(rt: HostRuntime) -> Result<(), Fail> {
    let alloc = rt.alloc();
    let Ok(policy) = read_policy(alloc, TEXT) else {
        return Err(Fail::from("the policy is not read"));
    };
    assert!(rt; policy.checked_for_fragments().is_ok());
    for (page, left) in &PAGES {
        assert!(rt; writes(alloc, &policy, page, left), "{}", page);
        // Once more, it stays as it is.
        assert!(rt; writes(alloc, &policy, left, left), "{}", left);
    }
    Ok(())
}

#[test]
fn lists_of_urls_are_not_changed_as_one(rt: HostRuntime) -> Result<(), Fail> {
    let alloc = rt.alloc();
    for text in ["proxy img srcset /p/", "base * srcset https://b/"] {
        let Ok(policy) = read_policy(alloc, text) else {
            return Err(Fail::from("the policy is not read"));
        };
        assert!(rt; policy.checked().err().is_some_and(|name| name == "srcset"));
    }
    Ok(())
}

#[test]
fn pictures_of_the_page_s_own_server_stay(rt: HostRuntime) -> Result<(), Fail> {
    let alloc = rt.alloc();
    let policy = with_own(alloc)?;
    let page = "<img src=a/b.png><img src=/proxy/x><img src=ftp://a/>";
    let left = "<img src=\"a/b.png\"><img src=\"/proxy/x\"><img>";
    assert!(rt; writes(alloc, &policy, page, left));
    let page = "<img src=https://a/><img src=//b/>";
    let left = "<img src=\"/proxy/https%3A%2F%2Fa%2F\"><img src=\"/proxy/%2F%2Fb%2F\">";
    assert!(rt; writes(alloc, &policy, page, left));
    Ok(())
}

#[test]
fn a_proxy_is_written_and_read_again(rt: HostRuntime) -> Result<(), Fail> {
    let alloc = rt.alloc();
    let Ok(policy) = read_policy(alloc, TEXT) else {
        return Err(Fail::from("the policy is not read"));
    };
    let Ok(text) = write_policy(alloc, &policy) else {
        return Err(Fail::from("the policy is not written"));
    };
    let written = "keep img alt src
attribute data-src
schemes-for img src cid data https
proxy img src https://proxy.example/?url=
proxy * data-src https://proxy.example/?url=
scheme https
";
    assert_eq!(rt; text.as_str(), written);
    Ok(())
}

/// Links and pictures of a page of a blog, to be shown elsewhere.
const FEED: &str = "keep a href
keep img src
base * href https://blog.example/2026/post?q#f
base * src https://blog.example/2026/
scheme http https
";

const FEED_PAGES: [(&str, &str); 11] = [
    (
        "<a href=next>x</a>",
        "<a href=\"https://blog.example/2026/next\">x</a>",
    ),
    (
        "<a href='../a b?c#d'>x</a>",
        "<a href=\"https://blog.example/a%20b?c#d\">x</a>",
    ),
    ("<a href=/>x</a>", "<a href=\"https://blog.example/\">x</a>"),
    (
        "<a href='#note'>x</a>",
        "<a href=\"https://blog.example/2026/post?q#note\">x</a>",
    ),
    (
        "<a href>x</a>",
        "<a href=\"https://blog.example/2026/post?q\">x</a>",
    ),
    (
        "<a href='\\\\Other.example/x'>x</a>",
        "<a href=\"https://other.example/x\">x</a>",
    ),
    (
        "<a href=HTTP://Other.example>x</a>",
        "<a href=\"HTTP://Other.example\">x</a>",
    ),
    ("<a href=javascript:x>x</a>", "<a>x</a>"),
    ("<a href='//['>x</a>", "<a>x</a>"),
    (
        "<img src=\u{e9}.png>",
        "<img src=\"https://blog.example/2026/%C3%A9.png\">",
    ),
    ("<img src=data:image/png,x>", "<img>"),
];

#[test]
fn urls_are_made_absolute(rt: HostRuntime) -> Result<(), Fail> {
    let alloc = rt.alloc();
    let Ok(policy) = read_policy(alloc, FEED) else {
        return Err(Fail::from("the policy is not read"));
    };
    for (page, left) in &FEED_PAGES {
        assert!(rt; writes(alloc, &policy, page, left), "{}", page);
        // Once more, it stays as it is.
        assert!(rt; writes(alloc, &policy, left, left), "{}", left);
    }
    let Ok(text) = write_policy(alloc, &policy) else {
        return Err(Fail::from("the policy is not written"));
    };
    let Ok(again) = read_policy(alloc, text.as_str()) else {
        return Err(Fail::from("the text is not read"));
    };
    let left = "<a href=\"https://blog.example/2026/b\"></a>";
    assert!(rt; writes(alloc, &again, "<a href=b>", left));
    Ok(())
}

#[test]
fn absolute_pictures_are_loaded_through_a_proxy(rt: HostRuntime) -> Result<(), Fail> {
    let alloc = rt.alloc();
    let text = "keep img src\nscheme https\nbase * src https://a/b/\nproxy * src https://p/?\n";
    let Ok(policy) = read_policy(alloc, text) else {
        return Err(Fail::from("the policy is not read"));
    };
    let left = "<img src=\"https://p/?https%3A%2F%2Fa%2Fc.png\">";
    assert!(rt; writes(alloc, &policy, "<img src=../c.png>", left));
    assert!(rt; writes(alloc, &policy, left, left));
    Ok(())
}

#[test]
fn a_base_that_is_no_url_changes_nothing(rt: HostRuntime) -> Result<(), Fail> {
    let alloc = rt.alloc();
    let mut policy = Policy::text_alone(alloc)?;
    policy.keep(alloc, "a", &["href"])?;
    policy.allows_relative = true;
    policy.limit(alloc, None, "href", Allowed::absolute(alloc, "b/")?)?;
    assert!(rt; writes(alloc, &policy, "<a href=c>", "<a href=\"c\"></a>"));
    Ok(())
}
