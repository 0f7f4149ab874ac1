//! The words of the command line: the settings that they ask for, or the made image.
#![tactic(auto)]

mod made;
mod number;
mod parse;
mod settings;

pub use made::made_words;
pub use settings::{Settings, WordsFault, settings_of};
