//! Why an object doesn't give what was asked of it.
ghost use Rattle.std.specs.Prelude.{◌≡◌};
ghost use Rattle.typed_object.specs.Fault.{plugin_fault_of_value};
ghost use Rattle.typed_object.specs.declared.fault.ObjectFault.TheVariants as objects;
ghost use Rattle.typed_object.specs.declared.fault.TextFault.TheVariants as texts;
ghost use Rattle.typed_object.specs.declared.fault.ValueFault.TheVariants as values;

use kernel_records::PluginFault;
use layer_base::DeviceFailed;
use std::alloc::AllocError;
use type_layout::TypeFault;

/// Why an object has no number, leads nowhere or has no text.
#[derive(Clone, Copy, Debug, PartialEq, Eq)]
pub enum ObjectFault {
    /// Its type doesn't give it, or it passes the addresses of the space.
    Fault(TypeFault),
    /// The first byte that is needed and absent.
    Hole { at: u64 },
    /// A call on the image's device failed.
    Device,
}

/// Why an object's text wasn't read.
#[derive(Clone, Copy, Debug, PartialEq, Eq)]
pub enum TextFault {
    Object(ObjectFault),
    /// Out of memory.
    Memory,
}

/// Why an object's value wasn't read.
#[derive(Clone, Copy, Debug, PartialEq, Eq)]
pub enum ValueFault {
    /// A call on the image's device failed.
    Device,
    /// Out of memory.
    Memory,
}

impl From<TypeFault> for ObjectFault {
    ghost from_gives = { λ why fault. fault ≡ objects.Fault why };

    fn from(fault: TypeFault) -> Self {
        ObjectFault::Fault(fault)
    }
}

impl From<DeviceFailed> for ObjectFault {
    ghost from_gives = { λ _ fault. fault ≡ objects.Device };

    fn from(_: DeviceFailed) -> Self {
        ObjectFault::Device
    }
}

impl From<ObjectFault> for TextFault {
    ghost from_gives = { λ why fault. fault ≡ texts.Object why };

    fn from(fault: ObjectFault) -> Self {
        TextFault::Object(fault)
    }
}

impl From<DeviceFailed> for TextFault {
    ghost from_gives = { λ _ fault. fault ≡ texts.Object objects.Device };

    fn from(_: DeviceFailed) -> Self {
        TextFault::Object(ObjectFault::Device)
    }
}

impl From<AllocError> for TextFault {
    ghost from_gives = { λ _ fault. fault ≡ texts.Memory };

    fn from(_: AllocError) -> Self {
        TextFault::Memory
    }
}

impl From<AllocError> for ValueFault {
    ghost from_gives = { λ _ fault. fault ≡ values.Memory };

    fn from(_: AllocError) -> Self {
        ValueFault::Memory
    }
}

impl From<ValueFault> for PluginFault {
    ghost from_gives = { λ why fault. fault ≡ plugin_fault_of_value why };

    fn from(fault: ValueFault) -> Self {
        match fault {
            ValueFault::Device => PluginFault::Device,
            ValueFault::Memory => PluginFault::Memory,
        }
    }
}
