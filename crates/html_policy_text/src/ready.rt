//! The ready policies, by their names.
ghost use Rattle.std.specs.Prelude.{◌≡◌, IfErr, IfOk};
ghost use Rattle.html_policy_text.specs.ReadyRules.{ready_named, rules_of_ready};
ghost use Rattle.html_policy_text.specs.Rules.{rules_of};
ghost use Rattle.html_policy_text.specs.declared.ready.Ready.TheVariants.{Mail};
ghost use Rattle.markup.specs.declared.fault.ParseFault.TheVariants.{Memory};

use crate::reading::read_policy;
use html_clean::Policy;
use markup::ParseFault;
use std::alloc::Global;

/// The policy for mails.
const MAIL: &str = "keep a href
keep abbr
keep acronym
keep address
keep b
keep bdi
keep bdo
keep big
keep blockquote cite
keep br
keep caption align
keep center
keep cite
keep code class
keep col align span valign width
keep colgroup align span valign width
keep data value
keep dd
keep del cite datetime
keep details open
keep dfn
keep div align
keep dl
keep dt
keep em
keep figcaption
keep figure
keep font color face size
keep h1 align
keep h2 align
keep h3 align
keep h4 align
keep h5 align
keep h6 align
keep hr align size width
keep i
keep img align alt border height hspace src vspace width
keep ins cite datetime
keep kbd
keep li type value
keep mark
keep ol reversed start type
keep p align
keep pre
keep q cite
keep rp
keep rt
keep ruby
keep s
keep samp
keep section
keep small
keep span
keep strike
keep strong
keep sub
keep summary
keep sup
keep table align bgcolor border cellpadding cellspacing height summary width
keep tbody align valign
keep td align bgcolor colspan height nowrap rowspan valign width
keep tfoot align valign
keep th align bgcolor colspan height nowrap rowspan scope valign width
keep thead align valign
keep time datetime
keep tr align bgcolor height valign
keep tt
keep u
keep ul type
keep var
keep wbr
drop head iframe noembed noframes noscript script style template title
attribute dir lang title
words code class ^language-
one-of * dir auto ltr rtl
schemes-for img src cid data http https
add a rel nofollow noopener noreferrer
add a target _blank
scheme http https mailto tel
";

/// A policy that is ready.
#[derive(Clone, Copy, Debug, PartialEq, Eq)]
pub enum Ready {
    /// [`Policy::text_alone`], by the name `text-alone`.
    TextAlone,
    /// [`Policy::text_and_links`], by the name `text-and-links`.
    TextAndLinks,
    /// [`Policy::user_content`], by the name `user-content`.
    UserContent,
    /// What mails keep, by the name `mail`: texts, tables and pictures with the attributes that mails lay them out by, but no URL that is
    /// relative. Each link opens a page of its own. Pictures are those that come with the mail (`cid` and `data`) and those of other
    /// servers, which learn by them that a mail was read.
    Mail,
}

/// The policy for mails.
fn mail(alloc: Global) -> Result<Policy, ParseFault>
    ensures ok { IfOk result (λ policy. rules_of policy ≡ rules_of_ready Mail) }
    ensures fault { IfErr result (λ fault. fault ≡ Memory) }
{
    match read_policy(alloc, MAIL) {
        Ok(policy) => Ok(policy),
        // Each line is a rule, so no other fault comes.
        Err(_) => Err(ParseFault::Memory),
    }
}

impl Ready {
    /// The ready policy of a name.
    pub fn named(name: &str) -> Option<Ready>
        ensures { result ≡ ready_named name.now }
    {
        match name {
            "text-alone" => Some(Ready::TextAlone),
            "text-and-links" => Some(Ready::TextAndLinks),
            "user-content" => Some(Ready::UserContent),
            "mail" => Some(Ready::Mail),
            _ => None,
        }
    }

    /// The policy itself.
    pub fn policy(self, alloc: Global) -> Result<Policy, ParseFault>
        ensures ok { IfOk result (λ policy. rules_of policy ≡ rules_of_ready self) }
        ensures fault { IfErr result (λ fault. fault ≡ Memory) }
    {
        match self {
            Ready::TextAlone => Policy::text_alone(alloc),
            Ready::TextAndLinks => Policy::text_and_links(alloc),
            Ready::UserContent => Policy::user_content(alloc),
            Ready::Mail => mail(alloc),
        }
    }
}
