//! A target over room in memory.
ghost use Rattle.std.specs.Prelude.{◌≡◌, ◌<◌, ◌≤◌, [], length, take, Some, IfOk, OnErr};
ghost use Rattle.std.specs.Io.KnownBytes.{append_known};
ghost use Rattle.devices.specs.Devices.{count_after, write_failed};
ghost use Rattle.devices.specs.MemWriter.{after_write, write_answer};

use super::schedule::{count_failure, is_due};
use super::{DeviceFault, Target};
use std::alloc::{AllocError, Global};
use std::marker::Model;

/// A target over room in memory, that tells its bytes and its failures.
#[derive(Drop)]
pub struct MemWriter {
    bytes: Vec<u8>,
    room: usize,
    piece: usize,
    fails_in: Option<u64>,
    zero: bool,
    failures: u64,
}

impl Model for MemWriter {
    ghost use Rattle.std.specs.Prelude.{◌<◌, ◌≤◌, ◌-◌, vec_len, vec_capacity};
    ghost use Rattle.devices.specs.MemWriter.{Writer};

    ghost Value = { Writer };

    ghost view = { λ w. record {
      written = w.bytes.items;
      room = w.room - vec_len w.bytes;
      piece = w.piece;
      fails_in = w.fails_in;
      zero = w.zero;
      failures = w.failures;
    } };

    ghost invariant = { λ w. (0 < w.piece) × (vec_len w.bytes ≤ w.room) × (w.room ≤ vec_capacity w.bytes) };
}

impl MemWriter {
    /// A target with room for `room` bytes, reserved here and now, that takes at most `piece` bytes a call.
    ///
    /// The call number `fail_at`, counted from 1, fails; with `zero` it does so by answering 0, which is no
    /// failure where there was nothing to write. A write of something is also refused where no room is
    /// left. No other call fails.
    pub fn new(
        alloc: Global,
        room: usize,
        piece: usize,
        fail_at: Option<u64>,
        zero: bool,
    ) -> Result<MemWriter, AllocError>
        requires { 0 < piece }
        ensures { IfOk result (λ w. w ≡ record {
          written = [];
          room = room;
          piece = piece;
          fails_in = fail_at;
          zero = zero;
          failures = 0;
        }) }
    {
        Ok(MemWriter {
            bytes: Vec::with_capacity(alloc, room)?,
            room,
            piece,
            fails_in: fail_at,
            zero,
            failures: 0,
        })
    }

    /// The bytes that were written so far.
    pub fn written(&self) -> &[u8]
        ensures { result.now ≡ self.now.written }
    {
        self.bytes.as_slice()
    }
}

impl Target for MemWriter {
    ghost written = { λ w. Some w.written };

    ghost failures = { λ w. Some w.failures };

    fn write_some(&mut self, bytes: &[u8]) -> Result<usize, DeviceFault>
        ensures within { IfOk result (λ n. n ≤ length bytes.now) }
        ensures moved { IfOk result (λ n. Some self.new.written ≡ append_known (Some self.old.written) (take n bytes.now)) }
        ensures kept { OnErr result (Some self.new.written ≡ Some self.old.written) }
        ensures counted { Some self.new.failures ≡ count_after (write_failed bytes.now result) (Some self.old.failures) }
        ensures answer { result ≡ write_answer self.old (length bytes.now) }
        ensures after { self.new ≡ after_write self.old bytes.now }
    {
        if is_due(&mut self.fails_in) {
            if !self.zero {
                count_failure(&mut self.failures);
                return Err(DeviceFault::Device);
            }
            if !bytes.is_empty() {
                count_failure(&mut self.failures);
            }
            return Ok(0);
        }
        let room = self.room - self.bytes.len();
        if room == 0 && !bytes.is_empty() {
            count_failure(&mut self.failures);
            return Err(DeviceFault::Device);
        }
        let count = self.piece.min(bytes.len()).min(room);
        self.bytes.extend_from_slice(&bytes[..count]).unwrap();
        Ok(count)
    }
}
