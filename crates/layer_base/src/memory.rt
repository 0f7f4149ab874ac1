//! Objects in memory, for tests and for images that the program makes.
mod calls;
mod copy;
mod device;
mod sink;
mod source;

pub use device::MemDevice;
pub use sink::MemSink;
pub use source::MemSource;
