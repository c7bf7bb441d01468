//! A target in memory that grows.
ghost use Rattle.std.specs.Prelude.{◌≡◌, ◌≤◌, [], length, take, Some, IfOk, OnErr};
ghost use Rattle.std.specs.Io.KnownBytes.{append_known};
ghost use Rattle.devices.specs.Devices.{count_after, write_failed};
ghost use Rattle.devices.specs.VecWriter.{grown};

use super::schedule::count_failure;
use super::{DeviceFault, Target};
use std::alloc::Global;
use std::marker::Model;

/// A target in memory that grows as it is written to, and tells its bytes and its failures.
///
/// A write takes all its bytes; it fails only where no memory is left, and has then taken none.
#[derive(Drop)]
pub struct VecWriter {
    bytes: Vec<u8>,
    failures: u64,
}

impl Model for VecWriter {
    ghost use Rattle.devices.specs.VecWriter.{Growing};

    ghost Value = { Growing };

    ghost view = { λ w. record { written = w.bytes.items; failures = w.failures } };
}

impl VecWriter {
    /// A target with nothing written. Takes no memory.
    pub fn new(alloc: Global) -> VecWriter
        ensures { result ≡ record { written = []; failures = 0 } }
    {
        VecWriter {
            bytes: Vec::new(alloc),
            failures: 0,
        }
    }

    /// The bytes that were written so far.
    pub fn written(&self) -> &[u8]
        ensures { result.now ≡ self.now.written }
    {
        self.bytes.as_slice()
    }

    /// The bytes that were written, with their memory.
    pub fn into_bytes(self) -> Vec<u8>
        ensures { result.items ≡ self.written }
    {
        let VecWriter { bytes, .. } = self;
        bytes
    }
}

impl Target for VecWriter {
    ghost written = { λ w. Some w.written };

    ghost failures = { λ w. Some w.failures };

    fn write_some(&mut self, bytes: &[u8]) -> Result<usize, DeviceFault>
        ensures within { IfOk result (λ n. n ≤ length bytes.now) }
        ensures moved { IfOk result (λ n. Some self.new.written ≡ append_known (Some self.old.written) (take n bytes.now)) }
        ensures kept { OnErr result (Some self.new.written ≡ Some self.old.written) }
        ensures counted { Some self.new.failures ≡ count_after (write_failed bytes.now result) (Some self.old.failures) }
        ensures whole { IfOk result (λ n. n ≡ length bytes.now) }
        ensures after { self.new ≡ grown self.old bytes.now result }
    {
        match self.bytes.extend_from_slice(bytes) {
            Ok(()) => Ok(bytes.len()),
            Err(_) => {
                count_failure(&mut self.failures);
                Err(DeviceFault::Device)
            }
        }
    }
}
