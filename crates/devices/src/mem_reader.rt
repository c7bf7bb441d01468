//! A source over bytes in memory.
ghost use Rattle.std.specs.Prelude.{◌≡◌, ◌<◌, ◌≤◌, length, take, drop, is_err, Some, IfOk, OnErr, OnSome};
ghost use Rattle.std.specs.Io.KnownBytes.{IsAtEnd, prepend_known};
ghost use Rattle.devices.specs.Devices.{count_after};
ghost use Rattle.devices.specs.MemReader.{after_read, filled, read_answer};

use super::schedule::{count_failure, is_due};
use super::{DeviceFault, Source};
use std::marker::Model;

/// A source over bytes in memory, that tells its bytes and its failures.
#[derive(Drop)]
pub struct MemReader {
    bytes: Vec<u8>,
    at: usize,
    piece: usize,
    fails_in: Option<u64>,
    failures: u64,
}

impl Model for MemReader {
    ghost use Rattle.std.specs.Prelude.{◌<◌, ◌≤◌, drop, vec_len};
    ghost use Rattle.devices.specs.MemReader.{Reader};

    ghost Value = { Reader };

    ghost view = { λ r. record { left = drop r.at r.bytes.items; piece = r.piece; fails_in = r.fails_in; failures = r.failures } };

    ghost invariant = { λ r. (0 < r.piece) × (r.at ≤ vec_len r.bytes) };
}

impl MemReader {
    /// A source of these bytes that gives at most `piece` bytes a call.
    ///
    /// The call number `fail_at`, counted from 1, fails; the ones after it go on as if it had not been
    /// made. No other call fails. Takes no memory.
    pub fn new(bytes: Vec<u8>, piece: usize, fail_at: Option<u64>) -> MemReader
        requires { 0 < piece }
        ensures { result ≡ record { left = bytes.items; piece = piece; fails_in = fail_at; failures = 0 } }
    {
        MemReader {
            bytes,
            at: 0,
            piece,
            fails_in: fail_at,
            failures: 0,
        }
    }
}

impl Source for MemReader {
    ghost left = { λ r. Some r.left };

    ghost failures = { λ r. Some r.failures };

    fn read_some(&mut self, buffer: &mut [u8]) -> Result<usize, DeviceFault>
        ensures within { IfOk result (λ n. n ≤ length buffer.old) }
        ensures moved { IfOk result (λ n. Some self.old.left ≡ prepend_known (take n buffer.new) (Some self.new.left)) }
        ensures rest { IfOk result (λ n. OnSome (Some self.old.left) (drop n buffer.new ≡ drop n buffer.old)) }
        ensures end { IfOk result (λ n. n ≡ 0 → 0 < length buffer.old → IsAtEnd (Some self.old.left)) }
        ensures kept { OnErr result (Some self.new.left ≡ Some self.old.left) }
        ensures untouched { OnErr result (OnSome (Some self.old.left) (buffer.new ≡ buffer.old)) }
        ensures counted { Some self.new.failures ≡ count_after (is_err result) (Some self.old.failures) }
        ensures answer { result ≡ read_answer self.old (length buffer.old) }
        ensures after { self.new ≡ after_read self.old (length buffer.old) }
        ensures filled { buffer.new ≡ filled self.old buffer.old }
    {
        if is_due(&mut self.fails_in) {
            count_failure(&mut self.failures);
            return Err(DeviceFault::Device);
        }
        let left = &self.bytes[self.at..];
        let count = self.piece.min(buffer.len()).min(left.len());
        buffer[..count].copy_from_slice(&left[..count]);
        self.at += count;
        Ok(count)
    }
}
