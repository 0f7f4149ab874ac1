//! The layer over one device: a raw image, whose bytes are the physical memory, or a LiME image, whose ranges are.
#![tactic(auto)]

mod file;

pub use file::FileLayer;
