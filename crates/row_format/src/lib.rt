//! Rows of tests in the format of html5lib: how a file is read, in which ways a row is run, whether what is seen is what it expects, and
//! the status of the program that runs them.
//!
//! A file has lines. A row begins with the heading `#data` or `#escaped`, and has a part for each heading: a line that begins with `#`
//! and is one of `headings.rt`, and the lines below it.
#![tactic(auto)]

pub mod counts;
mod escapes;
pub mod headings;
pub mod rows;
pub mod runs;

pub use counts::Counts;
pub use headings::Heading;
pub use rows::{Part, Row, rows_of};
pub use runs::{HOWS, How, is_as_expected};
