//! The hits of needles in a range of addresses, one after another.
#![tactic(auto)]

mod filled;
mod position;
mod scan;
mod scanner;
mod search;
mod wanted;
mod window;

pub use scanner::Scanner;
