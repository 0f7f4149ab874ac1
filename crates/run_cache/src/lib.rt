//! A cache of translated runs: which pages and holes of which spaces were found so far, the ones used last in front.
#![tactic(auto)]

mod cache;
mod key;
mod list;

pub use cache::{Kept, RunCache};
