//! A page in the caller's memory.
ghost use Rattle.std.specs.Prelude.{◌≡◌};

use devices::{DeviceFault, Source};
use html_normal::Exact;

/// Which errors are counted: not each control character, as by default.
pub(crate) const COUNTED: Exact = Exact {
    tokenizer: false,
    tree_builder: false,
};

/// A source over bytes of the caller's, none of which is copied before it is read. No read fails.
#[derive(Drop)]
pub(crate) struct Page<'a> {
    left: &'a [u8],
}

impl<'a> Page<'a> {
    /// A source of these bytes.
    pub(crate) fn new(bytes: &'a [u8]) -> Page<'a>
        ensures { result.left.now ≡ bytes.now }
    {
        Page { left: bytes }
    }
}

impl Source for Page<'_> {
    ghost use Rattle.std.specs.Prelude.{Some};

    ghost left = { λ page. Some page.left.now };

    ghost failures = { λ _. Some 0 };

    fn read_some(&mut self, buffer: &mut [u8]) -> Result<usize, DeviceFault> {
        let count = buffer.len().min(self.left.len());
        let (front, rest) = self.left.split_at(count);
        buffer[..count].copy_from_slice(front);
        self.left = rest;
        Ok(count)
    }
}
