//! What is written of a plain document is read back as that document (HTML Standard, sections 13.2 and 13.3).
pub mod laws;
pub mod rows;
