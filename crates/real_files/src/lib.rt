//! Files and streams of the system as devices, sources and sinks. Each is opened at its first use, counts its calls that
//! fail, and tells no content.
#![tactic(auto)]

mod ahead;
mod calls;
mod device;
mod input;
mod output;
mod sink;
mod source;
mod standard;

pub use device::RealDevice;
pub use input::RealInput;
pub use output::RealOutput;
pub use sink::RealSink;
pub use source::RealSource;
pub use standard::StandardOutput;
