//! What the command `maps` prints.
#![tactic(auto)]

mod areas;
mod flags;
mod maps;
mod row;

pub use maps::write_maps;
