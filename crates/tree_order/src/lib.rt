//! The order of rows of which each may name a parent, as a tree of processes is printed. It knows nothing of an image.
#![tactic(auto)]

mod branch;
mod climb;
mod entry;
mod family;
mod key;
mod order;
mod parents;
mod tops;

pub use branch::Branch;
pub use key::Key;
pub use order::tree;
