ghost use Rattle.std.specs.Prelude.{◌≡◌, ◌+◌, ◌<◌, ◌≤◌, ◌++◌, [], if◌then◌else◌, is_ok, IfOk, IfErr, OnOk, OnErr, length, take, drop};
ghost use Rattle.std.specs.Str.{IsCharBoundary, IsUtf8, chars};
ghost use Rattle.std.specs.String.{string_bytes};
ghost use Rattle.markup.specs.declared.fault.ParseFault.TheVariants.{Memory};

use markup::{ParseFault, Text};
use std::alloc::{AllocError, Global};
use std::marker::Model;

/// A text and the place of its first character that is not yet taken. A contract sees the bytes
/// from there on.
#[derive(Drop)]
pub(crate) struct Cursor {
    text: Option<String>,
    place: usize,
}

impl Model for Cursor {
    ghost use Rattle.std.specs.Prelude.{ℕ, List, drop};
    ghost use Rattle.std.specs.Str.{IsCharBoundary};
    ghost use Rattle.html_queue.specs.Held.{held};

    ghost Value = { List ℕ };

    ghost view = { λ c. drop c.place (held c.text) };

    ghost invariant = { λ c. IsCharBoundary (held c.text) c.place };
}

impl Cursor {
    pub(crate) fn new() -> Cursor
        ensures { result ≡ [] }
    {
        Cursor {
            text: None,
            place: 0,
        }
    }

    /// What is left.
    #[inline(always)]
    pub(crate) fn as_str(&self) -> &str
        ensures { result.now ≡ self.now }
    {
        match &self.text {
            Some(text) => &text.as_str()[self.place..],
            None => "",
        }
    }

    /// Takes so many bytes.
    #[inline(always)]
    pub(crate) fn skip(&mut self, width: usize)
        requires { IsCharBoundary self.old width }
        ensures { self.new ≡ drop width self.old }
    {
        self.place += width;
    }

    /// A copy of so many bytes, which stay.
    pub(crate) fn copy_front(&self, width: usize) -> Result<Text, ParseFault>
        requires some { 0 < width }
        requires whole { IsCharBoundary self.now width }
        ensures ok { IfOk result (λ text. text ≡ chars (take width self.now)) }
        ensures fault { IfErr result (λ fault. fault ≡ Memory) }
    {
        match &self.text {
            Some(text) => Text::from_str(
                *text.allocator(),
                &text.as_str()[self.place..self.place + width],
            ),
            None => unreachable!(),
        }
    }

    /// Lets go of what was taken once it is no less than what is left, so that each byte is moved
    /// only a few times, however many texts are put in.
    pub(crate) fn push_back(&mut self, more: String) -> Result<(), AllocError>
        ensures bytes { self.new ≡ (if is_ok result then self.old ++ string_bytes more else self.old) }
        ensures utf8 { IsUtf8 self.old }
    {
        if let Some(text) = &mut self.text {
            if self.place < text.len() {
                if text.len() - self.place <= self.place {
                    text.replace_range(..self.place, "")?;
                    self.place = 0;
                }
                return text.push_str(more.as_str());
            }
        }
        self.text = Some(more);
        self.place = 0;
        Ok(())
    }

    /// Steps back over a text that was just taken, and else puts it over the end of what was. Where that has no room for it,
    /// room is made, for as much again as waits.
    pub(crate) fn push_front(&mut self, more: String) -> Result<(), AllocError>
        ensures { self.new ≡ (if is_ok result then string_bytes more ++ self.old else self.old) }
    {
        if let Some(text) = &mut self.text {
            let front = &text.as_str()[..self.place];
            if front.ends_with(more.as_str()) {
                self.place -= more.as_str().len();
                return Ok(());
            }
            if self.place < text.len() {
                let (from, gap) = room_for(text.as_str(), self.place, more.len());
                put_before(text, from, self.place, gap, more.as_str())?;
                self.place = from + gap;
                return Ok(());
            }
        }
        self.text = Some(more);
        self.place = 0;
        Ok(())
    }
}

// Which part of a text before a place gives way to one of so many bytes, from where on, and how many spaces stand before it
// there: the end of what was taken, where that is long enough, or else all of it and as much again as waits.
fn room_for(text: &str, place: usize, width: usize) -> (usize, usize)
    requires { IsCharBoundary text.now place }
    ensures cut { IsCharBoundary text.now result.0 }
    ensures before { result.0 ≤ place }
{
    if width <= place {
        let from = text.floor_char_boundary(place - width);
        (from, place - width - from)
    } else {
        (0, text.len() - place)
    }
}

// So many spaces.
fn spaces(alloc: Global, count: usize) -> Result<String, AllocError>
    ensures { IfOk result (λ text. length (string_bytes text) ≡ count) }
{
    let mut text = String::new(alloc);
    for _space in 0..count {
        text.push(' ')?;
    }
    Ok(text)
}

// Puts spaces and a text in place of a part of another one.
fn put_before(
    text: &mut String,
    from: usize,
    place: usize,
    gap: usize,
    more: &str,
) -> Result<(), AllocError>
    requires cut { IsCharBoundary (string_bytes text.old) from }
    requires place { IsCharBoundary (string_bytes text.old) place }
    requires order { from ≤ place }
    ensures ok { OnOk result (drop (from + gap) (string_bytes text.new) ≡ more.now ++ drop place (string_bytes text.old)) }
    ensures cut { OnOk result (IsCharBoundary (string_bytes text.new) (from + gap)) }
    ensures err { OnErr result (string_bytes text.new ≡ string_bytes text.old) }
{
    if gap == 0 {
        return text.replace_range(from..place, more);
    }
    let mut padded = spaces(*text.allocator(), gap)?;
    padded.push_str(more)?;
    text.replace_range(from..place, padded.as_str())
}
