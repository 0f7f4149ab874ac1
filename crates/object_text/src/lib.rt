//! What the command `type` prints of an object.
#![tactic(auto)]

mod fault;
mod named;
mod object;
mod row;
mod rows;
mod write;

pub use write::write_object;
