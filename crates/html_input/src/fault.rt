//! Why bytes are no text.
ghost use Rattle.std.specs.Prelude.{◌≡◌};
ghost use Rattle.html_input.specs.declared.fault.TextFault.TheVariants.{Memory};

use std::alloc::AllocError;
use thiserror::Error;

/// Why the bytes of a source gave no text.
#[derive(Clone, Copy, Debug, PartialEq, Eq, Hash, Error)]
pub enum TextFault {
    /// They are not UTF-8; their longest front that is takes `at` bytes.
    #[error("not UTF-8 at byte {at}")]
    NotUtf8 { at: u64 },
    /// They could not be read.
    #[error("a read failed")]
    Read,
    /// There was not enough memory.
    #[error("no memory was left")]
    Memory,
}

impl From<AllocError> for TextFault {
    ghost from_gives = { λ _ fault. fault ≡ Memory };

    fn from(_error: AllocError) -> TextFault {
        TextFault::Memory
    }
}
