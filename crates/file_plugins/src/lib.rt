//! What the command `lsof` prints: the files that a task has open.
#![tactic(auto)]

mod file_table;
mod lines;
mod lsof;
mod rows;

pub use lsof::write_lsof;
