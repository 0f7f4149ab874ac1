//! A run of memlens: a script of commands over an image and a symbol file, and the text that it writes.
#![tactic(auto)]

mod at_place;
mod command;
mod desk;
mod dump;
mod ended;
mod error_line;
mod kernel;
mod kernel_command;
mod laws;
mod line_buffer;
mod made;
mod place;
mod program_run;
mod read;
mod refusal;
mod script;
mod setup;
mod stack;
mod status;
mod symbol_file;
mod symbols;
mod translate;

pub use ended::{Ended, run};
pub use laws::same_texts;
pub use made::run_made;
pub use program_run::program;
pub use status::Status;
