//! Which texts and comments are read as they are written (HTML Standard, sections 13.1 and 13.2.5).
ghost use Rattle.std.specs.Char.{is_ascii_alphabetic};
ghost use Rattle.std.specs.List.{list_all};
ghost use Rattle.std.specs.Prelude.{IsTrue, ◌≡◌, ◌++◌, true, ◌+◌, ◌<◌, ◌≤◌, ◌&&◌, ◌||◌, ℕ, List, not, length};
ghost use Rattle.std.specs.Prelude.{codes, IfErr, IfOk, is_none};
ghost use Rattle.std.specs.Str.{bytes_eq, chars};
ghost use Rattle.markup.specs.declared.fault.ParseFault.TheVariants.{Memory};
ghost use Rattle.html_tokens.specs.Comments.{comment_end};
ghost use Rattle.html_tokens.specs.Characters.{begins};
ghost use Rattle.html_tokens.specs.RawText.{is_letters};
ghost use Rattle.html_faithful.specs.Forms.{has_no_end, is_comment_text, is_kept, is_raw_text};
ghost use Rattle.html_faithful_judge.specs.Texts.{lacks};

use crate::bytes;
use crate::characters::begins;
use crate::names::is_nonempty;
use crate::raw::goes_on;
use html_tokens::states::RawKind;
use markup::ParseFault;
use memchr::{memchr, memchr2};
use std::alloc::Global;

/// Whether a text has neither U+0000 nor U+000D.
pub fn is_kept(text: &str) -> bool
    ensures { result ≡ is_kept (chars text.now) }
{
    if bytes::is_none(text.as_bytes()) {
        return true;
    }
    memchr2(0, b'\r', text.as_bytes()).is_none()
}

/// Whether a character of ASCII, given by its byte, is known not to stand in a text.
fn lacks(text: &str, byte: u8) -> bool
    requires { byte < 128 }
    ensures { IsTrue result → lacks byte (chars text.now) ≡ true }
{
    memchr(byte, text.as_bytes()).is_none()
}

/// Whether four characters or more begin with what ends a comment.
fn ends_comment(text: &[char]) -> bool
    requires { 3 < length text.now }
    ensures { result ≡ not (is_none (comment_end text.now)) }
{
    text[0] == '-' && text[1] == '-' && (text[2] == '>' || text[2] == '!' && text[3] == '>')
}

/// Whether a comment that has so many characters, with its end after them, ends nowhere before.
fn has_no_end(whole: &[char], count: usize) -> bool
    requires { count + 3 ≡ length whole.now }
    ensures { (text : List ℕ) → whole.now ≡ text ++ codes "-->" → result ≡ has_no_end text }
{
    for i in 0..count {
        if ends_comment(&whole[i..]) {
            return false;
        }
    }
    true
}

/// The characters of a text.
fn characters(alloc: Global, text: &str) -> Result<Vec<char>, ParseFault>
    ensures ok { IfOk result (λ made. made.items ≡ chars text.now) }
    ensures fault { IfErr result (λ fault. fault ≡ Memory) }
{
    let mut made = Vec::new(alloc);
    for c in text.chars() {
        made.push(c)?;
    }
    Ok(made)
}

/// The characters of a text, with more after them.
fn joined(alloc: Global, text: &str, more: &[char]) -> Result<Vec<char>, ParseFault>
    ensures ok { IfOk result (λ all. all.items ≡ chars text.now ++ more.now) }
    ensures fault { IfErr result (λ fault. fault ≡ Memory) }
{
    let mut all = characters(alloc, text)?;
    all.extend_from_slice(more)?;
    Ok(all)
}

/// Whether a comment that has these characters, with its end after them, ends nowhere before.
fn is_whole_comment(whole: &[char]) -> bool
    requires { 3 ≤ length whole.now }
    ensures { (text : List ℕ) → whole.now ≡ text ++ codes "-->"
        → result ≡ (has_no_end text && not (begins (codes ">") (text ++ codes "-->") || begins (codes "->") (text ++ codes "-->"))) }
{
    has_no_end(whole, whole.len() - 3) && !(begins(whole, &['>']) || begins(whole, &['-', '>']))
}

/// Whether a comment is read with just this text: it has neither U+0000 nor U+000D, and nothing in it ends it (HTML Standard, sections
/// 13.2.5.43 to 13.2.5.52).
pub fn is_comment_text(alloc: Global, text: &str) -> Result<bool, ParseFault>
    ensures ok { IfOk result (λ told. told ≡ is_comment_text (chars text.now)) }
    ensures fault { IfErr result (λ fault. fault ≡ Memory) }
{
    if !is_kept(text) {
        return Ok(false);
    }
    if lacks(text, b'>') {
        return Ok(true);
    }
    let whole = joined(alloc, text, &['-', '-', '>'])?;
    Ok(is_whole_comment(whole.as_slice()))
}

/// Whether a text has no character but ASCII letters.
fn has_letters(text: &str) -> bool
    ensures { result ≡ list_all is_ascii_alphabetic (chars text.now) }
{
    text.chars().all(|c| c.is_ascii_alphabetic())
}

/// Whether a text is of one or more ASCII letters.
fn is_letters(text: &str) -> bool
    ensures { result ≡ is_letters (chars text.now) }
{
    is_nonempty(text) && has_letters(text)
}

/// Whether a name is `script`.
fn is_script(name: &str) -> bool
    ensures { result ≡ bytes_eq (chars name.now) (codes "script") }
{
    name == "script"
}

/// Whether the text of an element whose text only its own end tag ends is read as it is written.
fn is_raw(kind: RawKind, name: &str, text: &str) -> bool
    ensures { result ≡ is_raw_text kind (chars name.now) (chars text.now) }
{
    match kind {
        RawKind::Rcdata => is_letters(name),
        RawKind::Rawtext => {
            if is_letters(name) {
                goes_on(RawKind::Rawtext, name, text)
            } else {
                false
            }
        }
        RawKind::ScriptData => {
            if is_script(name) {
                goes_on(RawKind::ScriptData, name, text)
            } else {
                false
            }
        }
        RawKind::ScriptDataEscaped(_) => false,
    }
}

/// Whether the text of an element whose text only its own end tag ends is read as it is written: nothing in it ends it, and the end tag
/// does (HTML Standard, sections 13.2.5.2 to 13.2.5.4 and 13.2.5.9 to 13.2.5.31). Where references are read the text is escaped.
pub fn is_raw_text(alloc: Global, kind: RawKind, name: &str, text: &str) -> Result<bool, ParseFault>
    ensures ok { IfOk result (λ told. told ≡ is_raw_text kind (chars name.now) (chars text.now)) }
    ensures fault { IfErr result (λ fault. fault ≡ Memory) }
{
    Ok(is_raw(kind, name, text))
}
