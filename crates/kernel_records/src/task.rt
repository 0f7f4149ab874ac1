//! Tasks.

use crate::{Rows, Stop};
use layer_base::{Name, Number};

/// A task. What is absent in memory is none.
#[derive(Debug, Drop)]
pub struct Task {
    /// Its address.
    pub at: u64,
    /// The number of its process, the kernel's `tgid`.
    pub pid: Option<Number>,
    /// Its own number, the kernel's `pid`.
    pub tid: Option<Number>,
    /// The number of its parent's process.
    pub ppid: Option<Number>,
    /// Its name.
    pub comm: Option<Name>,
}

/// A list of tasks.
pub type TaskRows = Rows<Task>;

/// The tasks that a walk found, and why it ended.
#[derive(Debug, Drop)]
pub struct Tasks {
    pub rows: TaskRows,
    pub stop: Stop,
}
