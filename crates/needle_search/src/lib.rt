//! Searches of bytes for several needles at once.
#![tactic(auto)]

mod hit;
mod needles;
mod progress;
mod search;

pub use hit::Hit;
pub use needles::Needles;
pub use progress::Progress;
pub use search::{first_from, first_in};
