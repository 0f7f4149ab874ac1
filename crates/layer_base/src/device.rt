//! A device: bytes that stay where they are.
ghost use Rattle.std.specs.Prelude.{◌≡◌, ℕ, ◌^◌, ◌<◌, ◌≤◌, List, Option, length, take, drop, IsErr, IfOk, IfSome};
ghost use Rattle.layer_base.specs.Counts.{HasCause};

/// A call on an object of the outside failed.
#[derive(Clone, Copy, Debug, PartialEq, Eq)]
pub struct Failed;

/// Bytes at places, which no call changes. A device may give less than it is asked for.
pub trait Device {
    /// The bytes from place 0 on, where the device tells them.
    ghost held: { Self → Option (List ℕ) };

    /// How often a call failed.
    ghost faults: { Self → ℕ };

    /// Puts bytes from the place `at` on into the front of the buffer, and answers how many: none only at or past
    /// the end, or where the buffer is empty. After a failure what the buffer holds is open.
    fn read_at(&mut self, at: u64, buf: &mut [u8]) -> Result<usize, Failed>
        ensures within { IfOk result (λ n. n ≤ length buf.old) }
        ensures bytes { IfSome (held self.old) (λ held. IfOk result (λ n. take n buf.new ≡ take n (drop at held))) }
        ensures end { IfSome (held self.old) (λ held. IfOk result (λ n. n ≡ 0 → 0 < length buf.old → length held ≤ at)) }
        ensures few { IfSome (held self.old) (λ held. length held < 2 ^ 63) }
        ensures same { held self.new ≡ held self.old }
        ensures cause { HasCause (faults self.old) (faults self.new) (IsErr result) };
}
