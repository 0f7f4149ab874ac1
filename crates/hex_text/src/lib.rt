//! The texts of dumped bytes.
#![tactic(auto)]

mod rows;

pub use rows::{append_address, append_hex, append_rows, dump_row};
