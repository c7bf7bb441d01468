//! Loops over the calls of a device.
ghost use Rattle.std.specs.Prelude.{◌≡◌, ℕ, ◌≤◌, length, take, is_err, OnOk, OnErr};
ghost use Rattle.std.specs.Io.KnownBytes.{append_known};
ghost use Rattle.devices.specs.Devices.{count_after};

use super::{DeviceFault, Target};

/// Writes all the bytes, by as many writes as it takes, up to the first one that fails.
///
/// A write of something that answers 0 has failed too, and none is made after a failure: it is not
/// tried again. Where one failed, a beginning of the bytes was written.
pub fn write_whole<T: Target>(target: &mut T, bytes: &[u8]) -> Result<(), DeviceFault>
    ensures ok { OnOk result (T.written target.new ≡ append_known (T.written target.old) bytes.now) }
    ensures err { OnErr result
        ((n : ℕ) × (n ≤ length bytes.now) × (T.written target.new ≡ append_known (T.written target.old) (take n bytes.now))) }
    ensures counted { T.failures target.new ≡ count_after (is_err result) (T.failures target.old) }
    ensures same_references { T.references target.new ≡ T.references target.old }
{
    let mut at = 0;
    while at < bytes.len() {
        let count = target.write_some(&bytes[at..])?;
        if count == 0 {
            return Err(DeviceFault::Device);
        }
        at += count;
    }
    Ok(())
}
