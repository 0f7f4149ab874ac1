//! A place at which a needle occurs.

/// A needle's number, from 0 on, and the place at which the needle begins.
#[derive(Clone, Copy, Debug, PartialEq, Eq)]
pub struct Hit {
    pub at: u64,
    pub needle: u32,
}
