//! A target before which bytes are gathered, so that few writes are made.
//!
//! Tests: `base_tests`, `gathered`.
#![tactic(auto)]

ghost use Rattle.std.specs.Prelude.{◌≡◌, ◌≤◌, ◌+◌, ◌++◌, [], length, take, vec_len, is_err, IfOk, OnOk, OnErr};
ghost use Rattle.std.specs.Io.KnownBytes.{append_known};
ghost use Rattle.devices.specs.Devices.{count_after, write_failed};

use devices::{DeviceFault, Target};
use std::alloc::{AllocError, Global};

/// A target that copies short writes and hands them on many at once.
///
/// A contract sees the bytes that it holds as written. They are handed on by [`Gathered::flush`], which has to be called after
/// the last write. A write that fails has taken nothing, and what is held stays, so it may be tried again.
#[derive(Drop)]
pub struct Gathered<W> {
    writer: W,
    // What is held stands at the front.
    bytes: Vec<u8>,
    len: usize,
    ghost within: { len ≤ vec_len bytes },
}

/// Writes the bytes, up to the first write that fails. Answers how many were written, and whether all were.
fn write_out<W: Target>(writer: &mut W, bytes: &[u8]) -> (usize, Result<(), DeviceFault>)
    ensures within { result.0 ≤ length bytes.now }
    ensures all { OnOk result.1 (result.0 ≡ length bytes.now) }
    ensures moved { W.written writer.new ≡ append_known (W.written writer.old) (take result.0 bytes.now) }
    ensures counted { W.failures writer.new ≡ count_after (is_err result.1) (W.failures writer.old) }
    ensures same_references { W.references writer.new ≡ W.references writer.old }
{
    let mut at = 0;
    while at < bytes.len() {
        let Ok(count) = writer.write_some(&bytes[at..]) else {
            return (at, Err(DeviceFault::Device));
        };
        if count == 0 {
            return (at, Err(DeviceFault::Device));
        }
        at += count;
    }
    (at, Ok(()))
}

impl<W: Target + Drop> Gathered<W> {
    ghost use Rattle.gathered_writes.specs.Gathered.{held, room};

    /// Gathers up to `capacity` bytes before a target, in memory that is taken here and now.
    pub fn new(alloc: Global, writer: W, capacity: usize) -> Result<Gathered<W>, AllocError>
        ensures writer { IfOk result (λ made. made.writer ≡ writer) }
        ensures room { IfOk result (λ made. room made ≡ capacity) }
        ensures held { IfOk result (λ made. held made ≡ []) }
    {
        let mut bytes = Vec::new(alloc);
        bytes.resize(capacity, 0)?;
        Ok(Gathered {
            writer,
            bytes,
            len: 0,
        })
    }
}

impl<W: Target> Gathered<W> {
    ghost use Rattle.gathered_writes.specs.Gathered.{held, room, written_with};

    /// Hands on what is held. After a fault some of it may still be held.
    #[inline(never)]
    pub fn flush(&mut self) -> Result<(), DeviceFault>
        ensures kept { written_with W.written self.new ≡ written_with W.written self.old }
        ensures all { OnOk result (W.written self.new.writer ≡ written_with W.written self.old) }
        ensures counted { W.failures self.new.writer ≡ count_after (is_err result) (W.failures self.old.writer) }
        ensures same_references { W.references self.new.writer ≡ W.references self.old.writer }
        ensures same_room { room self.new ≡ room self.old }
        ensures empty { OnOk result (self.new.len ≡ 0) }
    {
        let (count, answer) = write_out(&mut self.writer, &self.bytes[..self.len]);
        self.bytes.as_mut_slice().copy_within(count..self.len, 0);
        self.len -= count;
        answer
    }

    /// Holds bytes for which there is room.
    #[inline(always)]
    fn hold(&mut self, bytes: &[u8])
        requires { self.old.len + length bytes.now ≤ room self.old }
        ensures held { held self.new ≡ held self.old ++ bytes.now }
        ensures same_writer { self.new.writer ≡ self.old.writer }
    {
        let end = self.len + bytes.len();
        self.bytes[self.len..end].copy_from_slice(bytes);
        self.len = end;
    }

    /// Writes once, where there is no room for the bytes: hands on what is held first, and with it bytes of which there are too many to
    /// be held.
    #[inline(never)]
    fn write_after_flush(&mut self, bytes: &[u8]) -> Result<usize, DeviceFault>
        ensures within { IfOk result (λ n. n ≤ length bytes.now) }
        ensures moved { IfOk result (λ n. written_with W.written self.new ≡ append_known (written_with W.written self.old) (take n bytes.now)) }
        ensures kept { OnErr result (written_with W.written self.new ≡ written_with W.written self.old) }
        ensures counted { W.failures self.new.writer ≡ count_after (write_failed bytes.now result) (W.failures self.old.writer) }
        ensures same_references { W.references self.new.writer ≡ W.references self.old.writer }
    {
        self.flush()?;
        if bytes.len() > self.bytes.len() {
            return self.writer.write_some(bytes);
        }
        self.hold(bytes);
        Ok(bytes.len())
    }
}

impl<W: Target> Target for Gathered<W> {
    ghost use Rattle.gathered_writes.specs.Gathered.{written_with};

    ghost written = { written_with W.written };

    ghost failures = { λ g. W.failures g.writer };

    ghost references = { λ g. W.references g.writer };

    #[inline(always)]
    fn write_some(&mut self, bytes: &[u8]) -> Result<usize, DeviceFault> {
        if bytes.len() > self.bytes.len() - self.len {
            return self.write_after_flush(bytes);
        }
        self.hold(bytes);
        Ok(bytes.len())
    }
}
