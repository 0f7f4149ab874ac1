//! True bytes and holes of any space of addresses. A space is read through its tables, and the layer below gives the
//! bytes.
#![tactic(auto)]

mod around;
mod memory;
mod through;

pub use memory::{Got, Memory, NoMemory};
