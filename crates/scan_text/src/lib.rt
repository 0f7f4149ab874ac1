//! What the commands `scan` and `banners` print.
#![tactic(auto)]

mod banner;
mod banners;
mod listing;
mod rows;
mod scan;

pub use banners::write_banners;
pub use scan::write_scan;
