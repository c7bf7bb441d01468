//! Faithful trees: what is written of them is read as just them (HTML Standard, sections 13.2 and 13.3). Definitions, laws and worked rows.
#![tactic(auto)]

pub mod border;
pub mod laws;
pub mod rows;
