//! Standard output, which may be closed by what reads it.
ghost use Rattle.std.specs.Prelude.{◌≤◌, length, None, IfOk};

use figpliers::{DeviceFault, Target};
use std::io::{Error, ErrorKind, Write};

/// A writer that remembers whether its reader is gone.
#[derive(Drop)]
pub struct Output<W> {
    inner: W,
    is_closed: bool,
}

impl<W: Write> Output<W> {
    /// The writer, from which nothing is known yet.
    pub fn new(inner: W) -> Output<W> {
        Output {
            inner,
            is_closed: false,
        }
    }

    /// Notes why a write failed.
    fn note(&mut self, error: Error) -> DeviceFault {
        if error.kind() == ErrorKind::BrokenPipe {
            self.is_closed = true;
        }
        DeviceFault::Device
    }

    /// Has the writer pass on what it holds.
    pub fn flush(&mut self) -> Result<(), DeviceFault> {
        match self.inner.flush() {
            Ok(()) => Ok(()),
            Err(error) => Err(self.note(error)),
        }
    }

    /// Whether a write failed since what reads is gone.
    pub fn is_closed(&self) -> bool {
        self.is_closed
    }
}

impl<W: Write> Target for Output<W> {
    ghost written = { λ _. None };

    ghost failures = { λ _. None };

    fn write_some(&mut self, bytes: &[u8]) -> Result<usize, DeviceFault>
        ensures within { IfOk result (λ n. n ≤ length bytes.now) }
    {
        match self.inner.write(bytes) {
            Ok(count) => Ok(count),
            Err(error) => Err(self.note(error)),
        }
    }
}
