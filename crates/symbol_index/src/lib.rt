//! The symbols of a kernel, by name and by address.
#![tactic(auto)]

mod indexed;
mod order;
mod search;
mod symbols;

pub use indexed::Entry;
pub use symbols::Symbols;
