//! What everything above stands on: the objects of the outside (devices, sources, sinks and layers of an image)
//! as traits with contracts, the meaning of an image as a function from addresses to bytes, and objects in memory
//! that keep these contracts.
#![tactic(auto)]

mod device;
mod layer;
mod memory;
mod name;
mod number;
mod path_word;
mod reading;
mod segment;
mod segments;
mod sink;
mod source;
mod space;
mod steps;
mod why;

pub use device::{Device, Failed};
pub use layer::{DeviceFailed, Kind, Layer, Run};
pub use memory::{MemDevice, MemSink, MemSource};
pub use name::{Bytes, Name};
pub use number::Number;
pub use path_word::PathWord;
pub use reading::{Reading, room_within, run_of_reading};
pub use segment::Segment;
pub use segments::Segments;
pub use sink::{Sink, SinkFault, write_whole};
pub use source::Source;
pub use space::{Levels, Mapped, Space, block_size, frame_of, page_address};
pub use steps::Steps;
pub use why::{Rule, Why};
