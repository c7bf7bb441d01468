//! Faithful documents: what is written of them is read as just them (HTML Standard, sections 13.2 and 13.3).
#![tactic(auto)]

pub mod laws;
