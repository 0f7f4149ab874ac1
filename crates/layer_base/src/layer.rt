//! A layer: one device, shown as the memory that an image stands for.
ghost use Rattle.std.specs.Prelude.{◌≡◌, ◌≢◌, ◌↔◌, ℕ, ◌<◌, Option, length, IsErr, IsErrOf, IfOk, IfSome, OnOk, OnErr};

use crate::Why;

/// A call on the layer's device failed.
#[derive(Clone, Copy, Debug, PartialEq, Eq)]
pub struct DeviceFailed;

/// How a layer reads its device: as it is, or as a container.
#[derive(Clone, Copy, Debug, PartialEq, Eq)]
pub enum Kind {
    File,
    /// LiME version 1.
    Lime,
}

/// What is at the addresses from one on.
#[derive(Clone, Copy, Debug, PartialEq, Eq)]
pub enum Run {
    /// So many bytes are present, and stand in the front of the buffer.
    Present { count: usize },
    /// Every address up to this one, itself included, is absent.
    Absent { last: u64 },
}

/// An image of memory over one device.
pub trait Layer: Drop {
    ghost use Rattle.layer_base.specs.Attach.{reading_of, Attaches};
    ghost use Rattle.layer_base.specs.Counts.{HasCause, next_count};
    ghost use Rattle.layer_base.specs.Run.{IsWithin, IsTrueOf};
    ghost use Rattle.layer_base.specs.View.{View, IsFile, physical};
    ghost use Rattle.layer_base.specs.declared.layer.Kind.{Kind};

    /// What the image shows, where the layer tells it.
    ghost view: { Self → Option View };

    /// The kind of the reading that was attached last.
    ghost kind: { Self → Kind };

    /// How often a call on the device failed.
    ghost faults: { Self → ℕ };

    /// How often `run_at` was called; at the last value of a `u64` it stands still.
    ghost calls: { Self → ℕ };

    fn kind(&self) -> Kind
        ensures kind { result ≡ kind self.now }
        ensures file { kind self.now ≡ Kind.File → IfSome (view self.now) IsFile };

    /// Reads the layer as a container of a format, which becomes its kind: from then on it shows the ranges of the
    /// container over what it showed before. `File` is no container, and so `NotThis`. `param` is unused by the
    /// formats so far. `Taken` comes first, and exactly where the layer is read as a container already. When `Memory`
    /// comes is left open. After every refusal the layer is the same.
    fn attach(&mut self, format: Kind, param: u64) -> Result<(), Why>
        ensures kind { OnOk result (kind self.new ≡ format) }
        ensures reading { kind self.old ≡ Kind.File → IfSome (view self.old) (λ before.
            Attaches (reading_of format (physical before)) before (view self.new) result) }
        ensures taken { IsErrOf result Why.Taken ↔ (kind self.old ≢ Kind.File) }
        ensures same_view { OnErr result (view self.new ≡ view self.old) }
        ensures same_kind { OnErr result (kind self.new ≡ kind self.old) }
        ensures calls { calls self.new ≡ calls self.old }
        ensures cause { HasCause (faults self.old) (faults self.new) (IsErrOf result Why.Device) };

    /// Says what is at the addresses from `at` on: at least one byte and as many as the layer likes, or a hole.
    /// After a failure what the buffer holds is open.
    fn run_at(&mut self, at: u64, buf: &mut [u8]) -> Result<Run, DeviceFailed>
        requires { 0 < length buf.old }
        ensures within { IfOk result (IsWithin at (length buf.old)) }
        ensures run { IfSome (view self.old) (λ view. IfOk result (IsTrueOf (physical view) at buf.new)) }
        ensures same_view { view self.new ≡ view self.old }
        ensures same_kind { kind self.new ≡ kind self.old }
        ensures calls { calls self.new ≡ next_count (calls self.old) }
        ensures cause { HasCause (faults self.old) (faults self.new) (IsErr result) };
}

impl Layer for Box<dyn Layer> {
    ghost view = { λ b. (Layer-box b).view b.value };

    ghost kind = { λ b. (Layer-box b).kind b.value };

    ghost faults = { λ b. (Layer-box b).faults b.value };

    ghost calls = { λ b. (Layer-box b).calls b.value };

    fn kind(&self) -> Kind {
        (**self).kind()
    }

    fn attach(&mut self, format: Kind, param: u64) -> Result<(), Why> {
        (**self).attach(format, param)
    }

    fn run_at(&mut self, at: u64, buf: &mut [u8]) -> Result<Run, DeviceFailed> {
        (**self).run_at(at, buf)
    }
}
