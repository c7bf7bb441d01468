//! Why the rows of a file are not read.

use std::alloc::{AllocError, AllocFailed};
use std::io;
use thiserror::Error;

/// Why the rows of a file are not read.
#[derive(Debug, Error, Drop)]
pub enum RowFault {
    /// No file is named.
    #[error("usage: html_encodings_rows FILE")]
    NoFile,
    /// There was no memory.
    #[error("no memory")]
    Memory,
    /// A file could not be read, or the answer not be written.
    #[error("{0}")]
    Io(io::Error),
}

impl From<AllocError> for RowFault {
    fn from(_error: AllocError) -> RowFault {
        RowFault::Memory
    }
}

impl<T: Drop> From<AllocFailed<T>> for RowFault {
    fn from(_error: AllocFailed<T>) -> RowFault {
        RowFault::Memory
    }
}

impl From<io::Error> for RowFault {
    fn from(error: io::Error) -> RowFault {
        RowFault::Io(error)
    }
}
