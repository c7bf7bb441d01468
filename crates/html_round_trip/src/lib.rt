//! Round trips: what is written of a tree is read back as it was meant (HTML Standard, sections 13.2 and 13.3). Laws alone, whose worked
//! rows are computed by the check.
#![tactic(auto)]

pub mod plain_documents;
pub mod planted_trees;
pub mod written_forms;
