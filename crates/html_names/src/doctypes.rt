//! Which doctypes are errors, and the quirks mode that each sets (HTML Standard, section 13.2.6.4.1).
ghost use Rattle.std.specs.Prelude.{◌≡◌, ◌&&◌, ◌||◌, IsTrue, true, is_none, map, codes};
ghost use Rattle.std.specs.List.{list_all, list_any};
ghost use Rattle.std.specs.Str.{chars};
ghost use Rattle.markup.specs.Plain.{is_plain};
ghost use Rattle.html_tokens.specs.Characters.{begins_any_case};
ghost use Rattle.html_rules.specs.Doctypes.{begins_with_one, doctype_error, is_allowed, is_given, is_quirky, lowered};
ghost use Rattle.html_rules.specs.Doctypes.{is_quirky_by, quirks_of, quirks_of_identifiers, quirky_public_prefixes};

use crate::any_case;
use html_rules::Rules;
use html_tokens::Doctype;
use markup::{QuirksMode, Text};

// What public identifiers begin with in doctypes of no standard, or of one that browsers lay out as old ones did; in lower case.
const QUIRKY_PUBLIC_PREFIXES: [&str; 54] = [
    "-//ietf//dtd html//",
    "-//ietf//dtd html 2.0//",
    "-//ietf//dtd html 2.0 level 1//",
    "-//ietf//dtd html 2.0 level 2//",
    "-//ietf//dtd html 2.0 strict//",
    "-//ietf//dtd html 2.0 strict level 1//",
    "-//ietf//dtd html 2.0 strict level 2//",
    "-//ietf//dtd html 2.1e//",
    "-//ietf//dtd html 3//",
    "-//ietf//dtd html 3.0//",
    "-//ietf//dtd html 3.2//",
    "-//ietf//dtd html 3.2 final//",
    "-//ietf//dtd html level 0//",
    "-//ietf//dtd html level 1//",
    "-//ietf//dtd html level 2//",
    "-//ietf//dtd html level 3//",
    "-//ietf//dtd html strict//",
    "-//ietf//dtd html strict level 0//",
    "-//ietf//dtd html strict level 1//",
    "-//ietf//dtd html strict level 2//",
    "-//ietf//dtd html strict level 3//",
    "-//w3c//dtd html 3 1995-03-24//",
    "-//w3c//dtd html 3.2//",
    "-//w3c//dtd html 3.2 draft//",
    "-//w3c//dtd html 3.2 final//",
    "-//w3c//dtd html 3.2s draft//",
    "-//w3c//dtd html 4.0 frameset//",
    "-//w3c//dtd html 4.0 transitional//",
    "-//w3c//dtd html experimental 19960712//",
    "-//w3c//dtd html experimental 970421//",
    "-//w3c//dtd w3 html//",
    "-//microsoft//dtd internet explorer 2.0 html//",
    "-//microsoft//dtd internet explorer 2.0 html strict//",
    "-//microsoft//dtd internet explorer 2.0 tables//",
    "-//microsoft//dtd internet explorer 3.0 html//",
    "-//microsoft//dtd internet explorer 3.0 html strict//",
    "-//microsoft//dtd internet explorer 3.0 tables//",
    "-//advasoft ltd//dtd html 3.0 aswedit + extensions//",
    "-//as//dtd html 3.0 aswedit + extensions//",
    "-//metrius//dtd metrius presentational//",
    "-//netscape comm. corp.//dtd html//",
    "-//netscape comm. corp.//dtd strict html//",
    "-//o'reilly and associates//dtd html 2.0//",
    "-//o'reilly and associates//dtd html extended 1.0//",
    "-//o'reilly and associates//dtd html extended relaxed 1.0//",
    "-//softquad software//dtd hotmetal pro 6.0::19990601::extensions to html 4.0//",
    "-//softquad//dtd hotmetal pro 4.0::19971010::extensions to html 4.0//",
    "-//spyglass//dtd html 2.0 extended//",
    "-//sq//dtd html 2.0 hotmetal + extensions//",
    "-//sun microsystems corp.//dtd hotjava html//",
    "-//sun microsystems corp.//dtd hotjava strict html//",
    "-//w3o//dtd w3 html 3.0//",
    "-//webtechs//dtd mozilla html//",
    "-//webtechs//dtd mozilla html 2.0//",
];

/// What only the Standard lists.
const STANDARD_PREFIXES: [&str; 1] = ["+//silmaril//dtd html pro v0r11 19970101//"];

const XHTML_PREFIXES: [&str; 2] = [
    "-//w3c//dtd xhtml 1.0 frameset//",
    "-//w3c//dtd xhtml 1.0 transitional//",
];

// Quirks or limited quirks, by whether there is a system identifier.
const HTML401_PREFIXES: [&str; 2] = [
    "-//w3c//dtd html 4.01 frameset//",
    "-//w3c//dtd html 4.01 transitional//",
];

/// Whether a part of a doctype is there and is that text.
fn is_given(part: &Option<Text>, text: &str) -> bool
    requires { IsTrue (is_plain text.now) }
    ensures { result ≡ is_given part.now text.now }
{
    match part {
        Some(part) => part.is(text),
        None => false,
    }
}

/// The same in any case.
fn is_given_any_case(part: &Option<Text>, text: &str) -> bool
    requires { IsTrue (is_plain text.now) }
    ensures { result ≡ is_given (lowered part.now) text.now }
{
    match part {
        Some(part) => any_case::equals_any_case(part.as_str(), text),
        None => false,
    }
}

/// Whether a text begins with one of these, in any case.
fn begins_with_any(text: &str, prefixes: &[&str]) -> bool
    requires { list_all (λ prefix. is_plain prefix.now) prefixes.now ≡ true }
    ensures { result ≡ list_any (λ prefix. begins_any_case prefix.now (chars text.now)) prefixes.now }
{
    for prefix in prefixes {
        if any_case::begins(text, prefix) {
            return true;
        }
    }
    false
}

/// Whether an identifier is there and begins with one of these, in any case.
fn begins_with_one(part: &Option<Text>, prefixes: &[&str]) -> bool
    requires { list_all (λ prefix. is_plain prefix.now) prefixes.now ≡ true }
    ensures { result ≡ begins_with_one (lowered part.now) (map (λ prefix. prefix.now) prefixes.now) }
{
    match part {
        Some(part) => begins_with_any(part.as_str(), prefixes),
        None => false,
    }
}

/// Whether the public identifier is this one and the system identifier is this one, or lacks where it may.
fn are_given(
    public_id: &Option<Text>,
    system_id: &Option<Text>,
    public: &str,
    system: &str,
    may_lack: bool,
) -> bool
    requires public { IsTrue (is_plain public.now) }
    requires system { IsTrue (is_plain system.now) }
    ensures { result ≡ (is_given public_id.now public.now && ((may_lack && is_none system_id.now) || is_given system_id.now system.now)) }
{
    is_given(public_id, public) && (may_lack && system_id.is_none() || is_given(system_id, system))
}

/// Whether there is no public identifier, and no system identifier but the one that old software writes.
fn is_plain_html(public_id: &Option<Text>, system_id: &Option<Text>) -> bool
    ensures { result ≡ (is_none public_id.now && (is_none system_id.now || is_given system_id.now (codes "about:legacy-compat"))) }
{
    public_id.is_none() && (system_id.is_none() || is_given(system_id, "about:legacy-compat"))
}

/// No identifiers, or those of an old doctype that is no error.
fn is_allowed(public_id: &Option<Text>, system_id: &Option<Text>) -> bool
    ensures { result ≡ is_allowed public_id.now system_id.now }
{
    is_plain_html(public_id, system_id)
        || are_given(
            public_id,
            system_id,
            "-//W3C//DTD HTML 4.0//EN",
            "http://www.w3.org/TR/REC-html40/strict.dtd",
            true,
        )
        || are_given(
            public_id,
            system_id,
            "-//W3C//DTD HTML 4.01//EN",
            "http://www.w3.org/TR/html4/strict.dtd",
            true,
        )
        || are_given(
            public_id,
            system_id,
            "-//W3C//DTD XHTML 1.0 Strict//EN",
            "http://www.w3.org/TR/xhtml1/DTD/xhtml1-strict.dtd",
            false,
        )
        || are_given(
            public_id,
            system_id,
            "-//W3C//DTD XHTML 1.1//EN",
            "http://www.w3.org/TR/xhtml11/DTD/xhtml11.dtd",
            false,
        )
}

/// Whether a doctype is an error.
#[tactic(auto, unfolding(html_rules::specs::Doctypes::doctype_error))]
fn is_error(doctype: &Doctype) -> bool
    ensures { result ≡ doctype_error doctype.now }
{
    !(is_given(&doctype.name, "html") && is_allowed(&doctype.public_id, &doctype.system_id))
}

/// Whether identifiers are, as a whole, those of a doctype that sets quirks mode.
fn are_quirky(public_id: &Option<Text>, system_id: &Option<Text>) -> bool
    ensures { result ≡ (is_given (lowered public_id.now) (codes "-//w3o//dtd w3 html strict 3.0//en//")
        || is_given (lowered public_id.now) (codes "-/w3c/dtd html 4.0 transitional/en")
        || is_given (lowered public_id.now) (codes "html") || is_given (lowered system_id.now)
        (codes "http://www.ibm.com/data/dtd/v11/ibmxhtml1-transitional.dtd")) }
{
    is_given_any_case(public_id, "-//w3o//dtd w3 html strict 3.0//en//")
        || is_given_any_case(public_id, "-/w3c/dtd html 4.0 transitional/en")
        || is_given_any_case(public_id, "html")
        || is_given_any_case(
            system_id,
            "http://www.ibm.com/data/dtd/v11/ibmxhtml1-transitional.dtd",
        )
}

/// Whether a public identifier begins as one of a doctype that sets quirks mode.
#[tactic(auto, unfolding(html_rules::specs::Doctypes::quirky_public_prefixes))]
fn begins_quirky(public_id: &Option<Text>) -> bool
    ensures { result ≡ begins_with_one (lowered public_id.now) quirky_public_prefixes }
{
    begins_with_one(public_id, &QUIRKY_PUBLIC_PREFIXES)
}

/// Whether identifiers are those of a doctype that sets quirks mode.
fn is_quirky(public_id: &Option<Text>, system_id: &Option<Text>) -> bool
    ensures { result ≡ is_quirky (lowered public_id.now) (lowered system_id.now) }
{
    are_quirky(public_id, system_id) || begins_quirky(public_id)
}

/// Whether only the Standard's rules set quirks mode by a public identifier.
fn is_quirky_by(rules: Rules, public_id: &Option<Text>) -> bool
    ensures { result ≡ is_quirky_by rules (lowered public_id.now) }
{
    match rules {
        Rules::Html5ever => false,
        Rules::Standard => begins_with_one(public_id, &STANDARD_PREFIXES),
    }
}

/// The mode by the identifiers.
fn quirks_of_identifiers(
    rules: Rules,
    public_id: &Option<Text>,
    system_id: &Option<Text>,
) -> QuirksMode
    ensures { result ≡ quirks_of_identifiers rules (lowered public_id.now) (lowered system_id.now) }
{
    if is_quirky(public_id, system_id) || is_quirky_by(rules, public_id) {
        QuirksMode::Quirks
    } else if begins_with_one(public_id, &XHTML_PREFIXES) {
        QuirksMode::LimitedQuirks
    } else if begins_with_one(public_id, &HTML401_PREFIXES) {
        match system_id {
            None => QuirksMode::Quirks,
            Some(_) => QuirksMode::LimitedQuirks,
        }
    } else {
        QuirksMode::NoQuirks
    }
}

/// The mode that a doctype sets, in the document of an `iframe` with `srcdoc` or in another.
#[tactic(auto, unfolding(html_rules::specs::Doctypes::quirks_of))]
fn quirks_of(rules: Rules, doctype: &Doctype, iframe_srcdoc: bool) -> QuirksMode
    ensures { result ≡ quirks_of rules iframe_srcdoc doctype.now }
{
    if doctype.force_quirks || !is_given(&doctype.name, "html") {
        QuirksMode::Quirks
    } else if iframe_srcdoc {
        QuirksMode::NoQuirks
    } else {
        quirks_of_identifiers(rules, &doctype.public_id, &doctype.system_id)
    }
}

/// Whether a doctype is a parse error, and the quirks mode that it sets; the document of an `iframe` with `srcdoc` is in no quirks mode by
/// its identifiers. It takes no memory: identifiers are compared in any case as they are.
pub fn doctype_error_and_quirks(
    rules: Rules,
    doctype: &Doctype,
    iframe_srcdoc: bool,
) -> (bool, QuirksMode)
    ensures error { result.0 ≡ doctype_error doctype.now }
    ensures quirks { result.1 ≡ quirks_of rules iframe_srcdoc doctype.now }
{
    (is_error(doctype), quirks_of(rules, doctype, iframe_srcdoc))
}
