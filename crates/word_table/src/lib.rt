//! Tables of words in a memory, such as a table of handlers or of open files.
#![tactic(auto)]

mod kept;
mod read;
mod slots;
mod table;

pub use read::read_words;
pub use slots::{Slot, Slots};
pub use table::WordTable;
