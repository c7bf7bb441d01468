//! Callers over any device.
ghost use Rattle.std.specs.Prelude.{◌≡◌, ◌-◌, ◌^◌, ◌<◌, ℕ, List, length, true, is_err, Some, IfOk, OnOk, IsErrOf};
ghost use Rattle.std.specs.Io.KnownBytes.{append_known, prepend_known, IsAtEnd};
ghost use Rattle.devices.specs.Devices.{count_after};

use devices::{DeviceFault, Source, Target, write_whole};
use std::alloc::Global;

// A writer that keeps its target.
#[derive(Drop)]
pub struct Keeper<W> {
    pub inner: W,
}

impl<W: Target> Keeper<W> {
    pub fn put(&mut self, bytes: &[u8]) -> Result<(), DeviceFault>
        ensures ok { OnOk result (W.written self.new.inner ≡ append_known (W.written self.old.inner) bytes.now) }
        ensures counted { W.failures self.new.inner ≡ count_after (is_err result) (W.failures self.old.inner) }
        ensures same_references { W.references self.new.inner ≡ W.references self.old.inner }
    {
        write_whole(&mut self.inner, bytes)
    }
}

// Writes through a keeper that is lent the target: what the target holds is known once the loan is over.
pub fn put_by_loan<T: Target>(target: &mut T, bytes: &[u8]) -> Result<(), DeviceFault>
    ensures ok { OnOk result (T.written target.new ≡ append_known (T.written target.old) bytes.now) }
    ensures counted { T.failures target.new ≡ count_after (is_err result) (T.failures target.old) }
{
    let mut keeper = Keeper { inner: target };
    keeper.put(bytes)
}

// Why a whole reading ended early.
#[derive(Clone, Copy)]
pub enum ReadFault {
    Read,
    Memory,
}

// Reads to the end, by reads of at most 4,096 bytes.
pub fn read_whole<S: Source>(alloc: Global, source: &mut S) -> Result<Vec<u8>, ReadFault>
    ensures whole { IfOk result (λ v. S.left source.old ≡ prepend_known v.items (S.left source.new)) }
    ensures end { OnOk result (IsAtEnd (S.left source.new)) }
    ensures none_failed { OnOk result (S.failures source.new ≡ S.failures source.old) }
    ensures read { IsErrOf result ReadFault.Read → (bytes : List ℕ) → S.left source.old ≡ Some bytes
        → length bytes < 2 ^ 64 - 1 → S.failures source.new ≡ count_after true (S.failures source.old) }
{
    let mut bytes = Vec::new(alloc);
    let mut buffer = [0; 4096];
    for turn in 0..u64::MAX {
        let Ok(count) = source.read_some(&mut buffer) else {
            return Err(ReadFault::Read);
        };
        if count == 0 {
            return Ok(bytes);
        }
        if bytes.extend_from_slice(&buffer[..count]).is_err() {
            return Err(ReadFault::Memory);
        }
    }
    Err(ReadFault::Read)
}
