//! A range of addresses.
ghost use Rattle.std.specs.Prelude.{◌≡◌, ◌+◌, ◌-◌, ◌^◌, ◌<◌, ◌≤◌, min, IsTrue, Some};
ghost use Rattle.std.specs.Option.{SomeIff};
ghost use Rattle.layer_base.specs.View.{holds_address};

/// A range of addresses that a container shows: `length` bytes from `first` on, which stand from `place` on in the
/// view below.
#[derive(Clone, Copy, Debug, PartialEq, Eq)]
pub struct Segment {
    pub first: u64,
    pub place: u128,
    pub length: u128,
}

impl Segment {
    /// Whether the address lies in the segment.
    pub(crate) fn holds_address(&self, at: u64) -> bool
        ensures { result ≡ holds_address self.now at }
    {
        self.first <= at && u128::from(at - self.first) < self.length
    }

    /// The place in the view below of an address that lies in the segment.
    pub(crate) fn place_of(&self, at: u64) -> Option<u64>
        requires place { self.now.place ≤ 2 ^ 64 }
        requires holds { IsTrue (holds_address self.now at) }
        ensures { let place = self.now.place + (at - self.now.first) in SomeIff result (place < 2 ^ 64) place }
    {
        u64::try_from(self.place + u128::from(at - self.first)).ok()
    }

    /// The last address of the segment.
    pub(crate) fn last_address(&self) -> u64
        requires some { 1 ≤ self.now.length }
        requires most { self.now.length ≤ 2 ^ 64 }
        ensures { result + 1 ≡ min (2 ^ 64) (self.now.first + self.now.length) }
    {
        self.first.saturating_add((self.length - 1) as u64)
    }
}
