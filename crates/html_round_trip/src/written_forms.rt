//! Written text is read back: what the written forms of a document mean to a reading (HTML Standard, sections 13.2.5 and 13.3).
pub mod laws;
pub mod rows;
