//! The readers and writers of the standard library as devices.
ghost use Rattle.std.specs.Prelude.{◌≡◌, ◌≤◌, length, None, IfOk};
ghost use Rattle.std.specs.Io.KnownBytes.{Keeps, ReadConsumes, WriteAppends};

use super::{DeviceFault, Source, Target};
use std::io::{Read, Write};
use std::marker::Model;

/// A reader of the standard library as a source, that tells neither bytes nor failures.
///
/// A call is one read. Any error of the reader is a fault, an interrupted read too.
#[derive(Drop)]
pub struct StdSource<R> {
    inner: R,
}

impl<R> Model for StdSource<R> {
    ghost Value = { R };

    ghost view = { λ s. s.inner };
}

impl<R> StdSource<R> {
    /// The reader as a source.
    pub fn new(inner: R) -> StdSource<R>
        ensures { result ≡ inner }
    {
        StdSource { inner }
    }

    /// The reader again.
    pub fn into_inner(self) -> R
        ensures { result ≡ self }
    {
        self.inner
    }
}

impl<R: Read> Source for StdSource<R> {
    ghost left = { λ _. None };

    ghost failures = { λ _. None };

    fn read_some(&mut self, buffer: &mut [u8]) -> Result<usize, DeviceFault>
        ensures within { IfOk result (λ n. n ≤ length buffer.old) }
        ensures inner { ReadConsumes (R.remaining self.old) (R.remaining self.new) result buffer.new }
    {
        self.inner.read(buffer).map_err(|_| DeviceFault::Device)
    }
}

/// A writer of the standard library as a target, that tells neither bytes nor failures.
///
/// A call is one write. Any error of the writer is a fault, an interrupted write too. What a writer with
/// a buffer of its own still holds is passed on by `flush`, which has to be called after the last write.
#[derive(Drop)]
pub struct StdTarget<W> {
    inner: W,
}

impl<W> Model for StdTarget<W> {
    ghost Value = { W };

    ghost view = { λ t. t.inner };
}

impl<W> StdTarget<W> {
    /// The writer as a target.
    pub fn new(inner: W) -> StdTarget<W>
        ensures { result ≡ inner }
    {
        StdTarget { inner }
    }

    /// The writer again. It is not flushed.
    pub fn into_inner(self) -> W
        ensures { result ≡ self }
    {
        self.inner
    }
}

impl<W: Write> StdTarget<W> {
    /// Has the writer pass on what it holds in a buffer of its own. After a fault some of it may still
    /// be held.
    pub fn flush(&mut self) -> Result<(), DeviceFault>
        ensures { Keeps (W.contents self.old) (W.contents self.new) }
    {
        self.inner.flush().map_err(|_| DeviceFault::Device)
    }
}

impl<W: Write> Target for StdTarget<W> {
    ghost written = { λ _. None };

    ghost failures = { λ _. None };

    fn write_some(&mut self, bytes: &[u8]) -> Result<usize, DeviceFault>
        ensures within { IfOk result (λ n. n ≤ length bytes.now) }
        ensures inner { WriteAppends (W.contents self.old) (W.contents self.new) result bytes.now }
    {
        self.inner.write(bytes).map_err(|_| DeviceFault::Device)
    }
}
