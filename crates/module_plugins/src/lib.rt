//! What the commands `lsmod` and `check_syscall` print.
#![tactic(auto)]

mod calls;
mod modules;
mod size;
mod syscalls;

pub use modules::write_lsmod;
pub use syscalls::write_check_syscall;
