//! What a reader makes of cleaned text, wherever it is put (HTML Standard, section 13.2.6). Definitions and laws.
#![tactic(auto)]

pub mod laws;
