//! The tasks of a kernel: what `pslist` and `pstree` print, the task of a PID, and its space.
#![tactic(auto)]

mod by_pid;
mod cells;
mod listed;
mod no_lines;
mod pslist;
mod pstree;
mod reader;
mod ring;
mod task_space;
mod tree;

pub use by_pid::task_of_pid;
pub use listed::tasks;
pub use pslist::write_pslist;
pub use pstree::write_pstree;
pub use task_space::{TaskSpace, space_of_task};
