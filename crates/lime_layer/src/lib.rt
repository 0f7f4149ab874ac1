//! LiME version 1, the format in which the Linux Memory Extractor writes memory: the ranges of addresses that an image
//! holds, and where their bytes stand in it.
#![tactic(auto)]

mod header;
mod ranges;
mod read;

pub use ranges::lime_of;
