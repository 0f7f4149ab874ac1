//! Where a scan stands.
ghost use Rattle.std.specs.Prelude.{◌≡◌, ◌+◌, ◌-◌, ◌<◌, ◌≤◌};
ghost use Rattle.chunk_scanner.specs.Position.{addresses_left, StandsWithin};

/// At an address, and there at a needle number; or behind the last address.
#[derive(Clone, Copy, Debug)]
pub(crate) struct Position {
    pub(crate) at: u64,
    pub(crate) number: u32,
    pub(crate) done: bool,
}

impl Position {
    /// Behind an address.
    pub(crate) fn behind(at: u64, last: u64) -> Position
        requires { at ≤ last }
        ensures stands { StandsWithin last result }
        ensures left { addresses_left last result ≡ last - at }
        ensures order { at ≤ result.at }
        ensures address { at < last → result.at ≡ at + 1 }
        ensures number { result.number ≡ 0 }
    {
        if at == last {
            Position {
                at,
                number: 0,
                done: true,
            }
        } else {
            Position {
                at: at + 1,
                number: 0,
                done: false,
            }
        }
    }
}
