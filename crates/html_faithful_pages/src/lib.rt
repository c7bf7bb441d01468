//! Faithful pages: what is written of them is read back as the same page, so `is_read_back` returns true (HTML Standard, sections 13.2 and
//! 13.3).
#![tactic(auto)]

pub mod laws;
