//! 4-level and 5-level paging as in the Intel SDM, volume 3, "Paging": from an address of a space to physical memory,
//! one table after another.
#![tactic(auto)]

mod block;
mod entry;
mod levels;
mod tables;
mod word;

pub use block::block_around;
pub use tables::{asks_tables, walk};
