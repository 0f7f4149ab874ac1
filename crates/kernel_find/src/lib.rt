//! The kernel of an image, found without help: by the name of its first task and the tests that this passes.
#![tactic(auto)]

mod banner;
mod candidate;
mod criteria;
mod found;
mod layout;
mod physical;
mod search;
mod text;

pub use found::{FindFault, Found};
pub use search::find;
pub use text::found_text;
