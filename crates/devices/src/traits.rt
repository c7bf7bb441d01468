//! The traits of the devices.
ghost use Rattle.std.specs.Prelude.{◌≡◌, ◌<◌, ◌≤◌, ℕ, List, [], ◌∷◌, Option, length, take, drop, is_err, IfOk, OnErr, OnSome};
ghost use Rattle.std.specs.Io.KnownBytes.{IsAtEnd, append_known, prepend_known};
ghost use Rattle.devices.specs.Devices.{TellsBytes, count_after, write_failed};

use thiserror::Error;

/// A device failed.
#[derive(Clone, Copy, Debug, PartialEq, Eq, Hash, Error)]
pub enum DeviceFault {
    #[error("a device failed")]
    Device,
}

/// Where bytes come from, one read a call.
///
/// Contracts see the bytes that are `left` and the count of `failures`. Each is told or not told, and
/// stays so: a source that tells neither, as one of the operating system, is still bound by the numbers
/// that it answers. One that tells its failures tells its bytes too.
pub trait Source {
    // The bytes that reads will give from here on, where they are told.
    ghost left: { Self → Option (List ℕ) };

    // How often the source has failed, where it is told. At u64::MAX the count stays.
    ghost failures: { Self → Option ℕ };

    // The names of the `&mut`s that the source reads through. No call changes them, so what they point to is known
    // once they end.
    ghost references: { Self → List ℕ } = { λ _. [] };

    /// Reads once: moves bytes to the front of `buffer` and answers how many.
    ///
    /// 0 means that no byte is left, or that `buffer` has no room; a read into a buffer with no room is a
    /// read like any other, and may fail. A read that fails has moved no byte, and may be tried again.
    fn read_some(&mut self, buffer: &mut [u8]) -> Result<usize, DeviceFault>
        ensures within { IfOk result (λ n. n ≤ length buffer.old) }
        ensures moved { IfOk result (λ n. left self.old ≡ prepend_known (take n buffer.new) (left self.new)) }
        ensures rest { IfOk result (λ n. OnSome (left self.old) (drop n buffer.new ≡ drop n buffer.old)) }
        ensures end { IfOk result (λ n. n ≡ 0 → 0 < length buffer.old → IsAtEnd (left self.old)) }
        ensures kept { OnErr result (left self.new ≡ left self.old) }
        ensures untouched { OnErr result (OnSome (left self.old) (buffer.new ≡ buffer.old)) }
        ensures tells { TellsBytes (left self.old) (failures self.old) }
        ensures counted { failures self.new ≡ count_after (is_err result) (failures self.old) }
        ensures same_references { references self.new ≡ references self.old };
}

/// Where bytes go, one write a call.
///
/// Contracts see the bytes that were `written` and the count of `failures`. Each is told or not told, and
/// stays so.
pub trait Target {
    // The bytes that were written so far, where they are told.
    ghost written: { Self → Option (List ℕ) };

    // How often the target has failed, where it is told. At u64::MAX the count stays.
    ghost failures: { Self → Option ℕ };

    // The names of the `&mut`s that the target writes through. No call changes them, so what they point to is known
    // once they end.
    ghost references: { Self → List ℕ } = { λ _. [] };

    /// Writes once: takes bytes from the front of `bytes` and answers how many.
    ///
    /// A write that fails has taken no byte, and may be tried again. A write of something that answers 0
    /// counts as a failure too.
    fn write_some(&mut self, bytes: &[u8]) -> Result<usize, DeviceFault>
        ensures within { IfOk result (λ n. n ≤ length bytes.now) }
        ensures moved { IfOk result (λ n. written self.new ≡ append_known (written self.old) (take n bytes.now)) }
        ensures kept { OnErr result (written self.new ≡ written self.old) }
        ensures counted { failures self.new ≡ count_after (write_failed bytes.now result) (failures self.old) }
        ensures same_references { references self.new ≡ references self.old };
}

impl<S: Source> Source for &mut S {
    ghost left = { λ s. S.left s.now };

    ghost failures = { λ s. S.failures s.now };

    ghost references = { λ s. s.ghost_name ∷ S.references s.now };

    fn read_some(&mut self, buffer: &mut [u8]) -> Result<usize, DeviceFault> {
        (**self).read_some(buffer)
    }
}

impl<T: Target> Target for &mut T {
    ghost written = { λ t. T.written t.now };

    ghost failures = { λ t. T.failures t.now };

    ghost references = { λ t. t.ghost_name ∷ T.references t.now };

    fn write_some(&mut self, bytes: &[u8]) -> Result<usize, DeviceFault> {
        (**self).write_some(bytes)
    }
}
