//! Makes images of small machines, with their symbol files and scripts, so that all of memlens can be tried without an
//! image of a real machine.
#![tactic(auto)]

mod banner;
mod field;
mod files;
mod header;
mod image;
mod kernel;
mod machine;
mod made;
mod page_tables;
mod row;
mod script;
mod structure;
mod symbols;
mod task;
mod types;

pub use made::{Made, make};
