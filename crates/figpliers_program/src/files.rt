//! The files with pages.

use crate::faults::Why;
use figpliers::{Source, StdSource};
use html_normal_program::Opener;
use std::fs::{self, File};
use std::io::{Error, ErrorKind};

/// What opens files by their names, and says why it doesn't.
pub trait Files<Opened: Source>: Opener<Opened> {
    /// Why the file of that name can't be opened.
    fn why(&self, name: &str) -> Why;
}

/// Why a file can't be opened, by the error of the operating system.
pub fn why_of(error: &Error) -> Why {
    match error.kind() {
        ErrorKind::NotFound => Why::Missing,
        ErrorKind::PermissionDenied => Why::Forbidden,
        _ => Why::Other,
    }
}

/// Whether a directory has that name.
fn is_directory(rt: &HostRuntime, name: &str) -> bool {
    match fs::metadata(rt, name) {
        Ok(it) => it.is_dir(),
        Err(_) => false,
    }
}

/// The files of the operating system.
#[derive(Drop)]
pub struct Disk<'a> {
    rt: &'a HostRuntime,
}

impl Disk<'_> {
    /// The files that a program may open.
    pub fn new(rt: &HostRuntime) -> Disk<'_> {
        Disk { rt }
    }
}

impl Opener<StdSource<File>> for Disk<'_> {
    ghost use Rattle.std.specs.Prelude.{None};

    ghost files = { λ _ _. None };

    // A directory can be opened, but not read.
    fn open(&self, name: &str) -> Option<StdSource<File>> {
        if is_directory(self.rt, name) {
            return None;
        }
        match File::open(self.rt, name) {
            Ok(file) => Some(StdSource::new(file)),
            Err(_) => None,
        }
    }
}

impl Files<StdSource<File>> for Disk<'_> {
    fn why(&self, name: &str) -> Why {
        if is_directory(self.rt, name) {
            return Why::Directory;
        }
        match File::open(self.rt, name) {
            Ok(_) => Why::Other,
            Err(error) => why_of(&error),
        }
    }
}
