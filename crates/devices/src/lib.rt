//! Devices: where bytes come from and where they go.
//!
//! Tests: `base_tests`, `streams`.
#![tactic(auto)]

mod loops;
mod mem_reader;
mod mem_writer;
mod schedule;
mod standard;
mod traits;
mod vec_writer;

pub use loops::write_whole;
pub use mem_reader::MemReader;
pub use mem_writer::MemWriter;
pub use standard::{StdSource, StdTarget};
pub use traits::{DeviceFault, Source, Target};
pub use vec_writer::VecWriter;
