//! Why a walk or a command failed.
ghost use Rattle.std.specs.Prelude.{◌≡◌};
ghost use Rattle.kernel_records.specs.Fault.{plugin_fault_of_sink, plugin_fault_of_walk, task_fault_of_walk};
ghost use Rattle.kernel_records.specs.declared.fault.PluginFault.TheVariants as plugins;
ghost use Rattle.kernel_records.specs.declared.fault.TaskFault.TheVariants as tasks;
ghost use Rattle.kernel_records.specs.declared.fault.WalkFault.TheVariants as walks;

use crate::Need;
use layer_base::{DeviceFailed, SinkFault};
use std::alloc::AllocError;

/// Why a walk failed.
#[derive(Clone, Copy, Debug, PartialEq, Eq)]
pub enum WalkFault {
    /// A call on the image's device failed.
    Device,
    /// Out of memory.
    Memory,
}

/// Why a command over the kernel failed.
#[derive(Clone, Copy, Debug, PartialEq, Eq)]
pub enum PluginFault {
    /// A call on the image's device failed.
    Device,
    /// A call on the output failed.
    Out,
    /// Out of memory.
    Memory,
}

/// Why a list over tasks was not made.
#[derive(Clone, Copy, Debug, PartialEq, Eq)]
pub enum TaskFault {
    /// The symbol file lacks this name, the first of those that are needed.
    Missing { need: Need },
    /// A call on the image's device failed.
    Device,
    /// Out of memory.
    Memory,
}

impl From<DeviceFailed> for WalkFault {
    ghost from_gives = { λ _ fault. fault ≡ walks.Device };

    fn from(_: DeviceFailed) -> Self {
        WalkFault::Device
    }
}

impl From<AllocError> for WalkFault {
    ghost from_gives = { λ _ fault. fault ≡ walks.Memory };

    fn from(_: AllocError) -> Self {
        WalkFault::Memory
    }
}

impl From<DeviceFailed> for PluginFault {
    ghost from_gives = { λ _ fault. fault ≡ plugins.Device };

    fn from(_: DeviceFailed) -> Self {
        PluginFault::Device
    }
}

impl From<AllocError> for PluginFault {
    ghost from_gives = { λ _ fault. fault ≡ plugins.Memory };

    fn from(_: AllocError) -> Self {
        PluginFault::Memory
    }
}

impl From<SinkFault> for PluginFault {
    ghost from_gives = { λ sink fault. fault ≡ plugin_fault_of_sink sink };

    fn from(fault: SinkFault) -> Self {
        match fault {
            SinkFault::Failed => PluginFault::Out,
            SinkFault::Memory => PluginFault::Memory,
        }
    }
}

impl From<WalkFault> for PluginFault {
    ghost from_gives = { λ walk fault. fault ≡ plugin_fault_of_walk walk };

    fn from(fault: WalkFault) -> Self {
        match fault {
            WalkFault::Device => PluginFault::Device,
            WalkFault::Memory => PluginFault::Memory,
        }
    }
}

impl From<DeviceFailed> for TaskFault {
    ghost from_gives = { λ _ fault. fault ≡ tasks.Device };

    fn from(_: DeviceFailed) -> Self {
        TaskFault::Device
    }
}

impl From<AllocError> for TaskFault {
    ghost from_gives = { λ _ fault. fault ≡ tasks.Memory };

    fn from(_: AllocError) -> Self {
        TaskFault::Memory
    }
}

impl From<WalkFault> for TaskFault {
    ghost from_gives = { λ walk fault. fault ≡ task_fault_of_walk walk };

    fn from(fault: WalkFault) -> Self {
        match fault {
            WalkFault::Device => TaskFault::Device,
            WalkFault::Memory => TaskFault::Memory,
        }
    }
}
