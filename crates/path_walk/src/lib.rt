//! Paths of files: from a dentry up to the root of its mount, from there on from where the mount stands, and so to the
//! root of all.
#![tactic(auto)]

mod cell;
mod ended;
mod follow;
mod name;
mod paths;
mod places;
mod special;
mod turn;
mod way;

pub use cell::append_file_path;
pub use follow::path_of;
pub use paths::Paths;
