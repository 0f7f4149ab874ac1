//! The areas of a process's memory, as the kernel links them.
#![tactic(auto)]

mod chain;
mod listed;
mod reader;

pub use chain::area_walk;
pub use listed::areas_by_chain;
pub use reader::AreaReader;
