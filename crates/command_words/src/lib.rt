//! The grammar of a line of a script: which command a line asks for, or the first fault of it.
#![tactic(auto)]

mod command;
mod fault;
mod hex_word;
mod line;
mod name_word;
mod names;
mod number;
mod place;
mod split;
mod verb;
mod words;

pub use command::{AddrWord, Command, SpaceWord};
pub use fault::LineFault;
pub use line::parse_line;
pub use names::Names;
