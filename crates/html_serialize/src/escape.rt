//! Escaping a string (HTML Standard, section 13.3).
ghost use Rattle.std.specs.Prelude.{◌≡◌, ◌≤◌, ◌<◌, ◌+◌, ℕ, suc, true, false, encode_utf8_all, map, take, drop, length, slice_index, IfOk};
ghost use Rattle.std.specs.Str.{chars};
ghost use Rattle.std.specs.Simd.Lanes.{mask_l};
ghost use Rattle.markup.specs.Escape.{escape_in};
ghost use Rattle.html_serialize.specs.Bytes.{IsClear, IsNext, escape_bytes, is_marked, is_replaced, mode_of, place_after};
ghost use Rattle.html_serialize.specs.Bytes.{quote_of, reference_of, written_through};
ghost use Rattle.html_serialize.specs.Puts.{Puts, told_by};

use crate::put::put;
use markup::SerializeFault;
use markup::devices::Target;
use std::simd::prelude::*;

/// Where a string is escaped.
#[derive(Clone, Copy)]
pub(crate) enum Escaping {
    Text,
    Value,
}

/// Of sixteen bytes from a place on, those that are 0 or may begin an escaped character, with this quote or without.
#[inline(always)]
fn marks(bytes: &[u8], at: usize, quote: u8) -> u64
    requires { at + 16 ≤ length bytes.now }
    ensures { result ≡ mask_l (map (is_marked quote) (take 16 (drop at bytes.now))) }
{
    let zero = u8x16::splat(0);
    let seen = u8x16::from_slice(&bytes[at..]);
    let less = seen.simd_eq(u8x16::splat(b'<')).select(zero, seen);
    let less = less.simd_eq(u8x16::splat(b'>')).select(zero, less);
    let less = less.simd_eq(u8x16::splat(b'&')).select(zero, less);
    let less = less.simd_eq(u8x16::splat(quote)).select(zero, less);
    let least = less.simd_eq(u8x16::splat(0xC2)).select(zero, less);
    least.simd_eq(zero).to_bitmask()
}

/// How many of sixteen bytes from a place on stand before the first that is 0 or may begin an escaped character.
#[inline(always)]
fn unmarked(bytes: &[u8], at: usize, quote: u8) -> usize
    requires { at + 16 ≤ length bytes.now }
    ensures within { result ≤ 16 }
    ensures before { (k : ℕ) → at ≤ k → k < at + result → is_marked quote (slice_index bytes.now k) ≡ false }
{
    let marked = marks(bytes, at, quote);
    if marked == 0 {
        return 16;
    }
    marked.trailing_zeros() as usize
}

/// Whether an escaped character begins at a place.
#[inline(always)]
fn is_escaped_at(bytes: &[u8], at: usize, escaping: Escaping) -> bool
    requires { at < length bytes.now }
    ensures { result ≡ is_replaced (mode_of escaping) (slice_index bytes.now at) (slice_index bytes.now (suc at)) }
{
    match bytes[at] {
        b'<' | b'>' | b'&' => true,
        b'"' => matches!(escaping, Escaping::Value),
        0xC2 => at + 1 < bytes.len() && bytes[at + 1] == 0xA0,
        _ => false,
    }
}

/// The quote that is looked for; `&`, which is looked for anyway, where no quote is escaped.
#[inline(always)]
fn quote_in(escaping: Escaping) -> u8
    ensures { result ≡ quote_of (mode_of escaping) }
{
    match escaping {
        Escaping::Text => b'&',
        Escaping::Value => b'"',
    }
}

/// How many of fewer than sixteen bytes stand before the first that is 0 or may begin an escaped character.
#[inline(always)]
fn few_unmarked(bytes: &[u8], quote: u8) -> usize
    requires { length bytes.now < 16 }
    ensures within { result ≤ length bytes.now }
    ensures before { (k : ℕ) → k < result → is_marked quote (slice_index bytes.now k) ≡ false }
{
    let mut room = [b' '; 16];
    room[..bytes.len()].copy_from_slice(bytes);
    unmarked(&room, 0, quote).min(bytes.len())
}

/// A place before which none of the last sixteen bytes is 0 or may begin an escaped character.
#[inline(always)]
fn place_at_end(bytes: &[u8], quote: u8) -> usize
    ensures within { result ≤ length bytes.now }
    ensures before { (k : ℕ) → length bytes.now ≤ k + 16 → k < result → is_marked quote (slice_index bytes.now k) ≡ false }
{
    if bytes.len() < 16 {
        return few_unmarked(bytes, quote);
    }
    let last = bytes.len() - 16;
    last + unmarked(bytes, last, quote)
}

/// A place from which on an escaped character may come and before which there is none, looked for in sixteen bytes at a time.
#[inline(always)]
fn place_ahead(bytes: &[u8], from: usize, escaping: Escaping) -> usize
    requires { from ≤ length bytes.now }
    ensures { IsClear (mode_of escaping) bytes.now from result }
{
    let quote = quote_in(escaping);
    let mut at = from;
    while bytes.len() - at >= 16 {
        let passed = unmarked(bytes, at, quote);
        at += passed;
        if passed < 16 {
            if is_escaped_at(bytes, at, escaping) {
                return at;
            }
            at += 1;
        }
    }
    at
}

// So few bytes are looked at one by one.
const FEW: usize = 4;

/// A place as far on or farther, before which there is no escaped character either, looked for in the last sixteen bytes at once.
#[inline(always)]
fn place_to_end(bytes: &[u8], at: usize, escaping: Escaping) -> usize
    requires { IsClear (mode_of escaping) bytes.now 0 at }
    ensures { IsClear (mode_of escaping) bytes.now 0 result }
{
    if bytes.len() - at >= 16 || bytes.len() < FEW {
        return at;
    }
    at.max(place_at_end(bytes, quote_in(escaping)))
}

/// The next character from a place on that is escaped, or the end.
fn next_escaped(bytes: &[u8], from: usize, escaping: Escaping) -> usize
    requires { from ≤ length bytes.now }
    ensures low { from ≤ result }
    ensures next { IsNext (is_replaced (mode_of escaping)) bytes.now from result }
{
    for at in place_ahead(bytes, from, escaping)..bytes.len() {
        if is_escaped_at(bytes, at, escaping) {
            return at;
        }
    }
    bytes.len()
}

/// The first character that is escaped, or the end.
#[inline(always)]
fn first_escaped(bytes: &[u8], escaping: Escaping) -> usize
    ensures { IsNext (is_replaced (mode_of escaping)) bytes.now 0 result }
{
    let ahead = place_ahead(bytes, 0, escaping);
    for at in place_to_end(bytes, ahead, escaping)..bytes.len() {
        if is_escaped_at(bytes, at, escaping) {
            return at;
        }
    }
    bytes.len()
}

/// What an escaped character is written as, by its first byte.
fn reference(lead: u8) -> &'static str
    ensures { result.now ≡ reference_of lead }
{
    match lead {
        b'<' => "&lt;",
        b'>' => "&gt;",
        b'&' => "&amp;",
        b'"' => "&quot;",
        _ => "&nbsp;",
    }
}

/// Writes the bytes from a place up to another, and the character there as a reference, if it is not the end. Answers the place after it.
fn put_through<Wr: Target>(
    writer: &mut Wr,
    bytes: &[u8],
    start: usize,
    at: usize,
) -> Result<usize, SerializeFault>
    requires start { start ≤ at }
    requires at { at ≤ length bytes.now }
    ensures place { IfOk result (λ place. place ≡ place_after bytes.now at) }
    ensures puts { Puts (told_by Wr.written Wr.failures writer.old) (written_through bytes.now start at) result
        (told_by Wr.written Wr.failures writer.new) }
    ensures same_references { Wr.references writer.new ≡ Wr.references writer.old }
{
    put(writer, &bytes[start..at])?;
    if at == bytes.len() {
        return Ok(at);
    }
    let lead = bytes[at];
    put(writer, reference(lead).as_bytes())?;
    Ok(if lead == 0xC2 { at + 2 } else { at + 1 })
}

/// Writes bytes with their escaped characters as references, by the place of the first one. Runs without any go out in one write each.
#[inline(never)]
fn put_runs<Wr: Target>(
    writer: &mut Wr,
    bytes: &[u8],
    first: usize,
    escaping: Escaping,
) -> Result<(), SerializeFault>
    requires { IsNext (is_replaced (mode_of escaping)) bytes.now 0 first }
    ensures puts { Puts (told_by Wr.written Wr.failures writer.old)
        (escape_bytes (mode_of escaping) false bytes.now) result (told_by Wr.written Wr.failures writer.new) }
    ensures same_references { Wr.references writer.new ≡ Wr.references writer.old }
{
    let mut start = 0;
    let mut at = first;
    'runs: while start < bytes.len() {
        start = put_through(writer, bytes, start, at)?;
        at = next_escaped(bytes, start, escaping);
    }
    Ok(())
}

/// Writes bytes with their escaped characters as references.
fn put_escaped_bytes<Wr: Target>(
    writer: &mut Wr,
    bytes: &[u8],
    escaping: Escaping,
) -> Result<(), SerializeFault>
    ensures puts { Puts (told_by Wr.written Wr.failures writer.old)
        (escape_bytes (mode_of escaping) false bytes.now) result (told_by Wr.written Wr.failures writer.new) }
    ensures same_references { Wr.references writer.new ≡ Wr.references writer.old }
{
    let first = first_escaped(bytes, escaping);
    if first == bytes.len() {
        return put(writer, bytes);
    }
    put_runs(writer, bytes, first, escaping)
}

/// Writes a text, escaped.
pub(crate) fn put_escaped<Wr: Target>(
    writer: &mut Wr,
    text: &str,
    escaping: Escaping,
) -> Result<(), SerializeFault>
    ensures puts { Puts (told_by Wr.written Wr.failures writer.old)
        (encode_utf8_all (escape_in (mode_of escaping) (chars text.now))) result (told_by Wr.written Wr.failures writer.new) }
    ensures same_references { Wr.references writer.new ≡ Wr.references writer.old }
{
    put_escaped_bytes(writer, text.as_bytes(), escaping)
}
