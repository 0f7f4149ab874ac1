//! What a kernel's memory says, as plain records: the kernel, its tasks, areas, paths and values, and why a walk ended;
//! and the names that commands need of a symbol file.
#![tactic(auto)]

mod area;
mod fault;
mod kernel;
mod meaning;
mod need;
mod need_groups;
mod path_text;
mod rows;
mod stop;
mod task;
mod value;

pub use area::{Area, AreaRows, Areas};
pub use fault::{PluginFault, TaskFault, WalkFault};
pub use kernel::Kernel;
pub use meaning::{Meaning, meaning_of};
pub use need::{Need, need_text};
pub use need_groups::{
    area_needs, find_needs, lsof_needs, maps_needs, module_needs, path_needs, space_needs,
    syscall_needs, task_needs,
};
pub use path_text::PathText;
pub use rows::Rows;
pub use stop::Stop;
pub use task::{Task, TaskRows, Tasks};
pub use value::Value;
