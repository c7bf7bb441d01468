//! Trees that are planted in a forest: just these are added, and are what is walked and written of it afterwards (HTML Standard,
//! section 13.3).
pub mod laws;
