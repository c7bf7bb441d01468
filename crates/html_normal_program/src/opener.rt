//! What opens files.
ghost use Rattle.std.specs.Prelude.{ℕ, List, None, Option, IfNone, IfSome};
ghost use Rattle.html_normal_program.specs.Streams.{IsMissing, IsOpened};

use devices::{Source, StdSource};
use std::fs::File;

/// What opens files by their names.
///
/// Contracts may state the bytes of each file; those of an opener of the operating system state nothing of any name.
pub trait Opener<File: Source> {
    // By a name: nothing, where it is not told; else the bytes of the file, if there is one.
    ghost files: { Self → List ℕ → Option (Option (List ℕ)) };

    /// The file of that name, at its beginning; nothing where it cannot be opened.
    fn open(&self, name: &str) -> Option<File>
        ensures opened { IfSome result (λ file. IsOpened (files self.now name.now) (File.left file)) }
        ensures missing { IfNone result (IsMissing (files self.now name.now)) };
}

/// The files of the operating system, of which contracts state nothing.
#[derive(Drop)]
pub struct HostFiles<'a> {
    rt: &'a HostRuntime,
}

impl HostFiles<'_> {
    /// The files that a program may open.
    pub fn new(rt: &HostRuntime) -> HostFiles<'_> {
        HostFiles { rt }
    }
}

impl Opener<StdSource<File>> for HostFiles<'_> {
    ghost files = { λ _ _. None };

    fn open(&self, name: &str) -> Option<StdSource<File>> {
        match File::open(self.rt, name) {
            Ok(file) => Some(StdSource::new(file)),
            Err(_) => None,
        }
    }
}
