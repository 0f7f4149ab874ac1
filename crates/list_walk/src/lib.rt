//! Walks over the objects of the rings and chains in a memory.
#![tactic(auto)]

mod follow;
mod turn;
mod walk;

pub use turn::{Shape, Turn};
pub use walk::Walk;
