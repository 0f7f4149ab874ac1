//! Why a walk ended.

/// Why a walk ended.
#[derive(Clone, Copy, Debug, PartialEq, Eq)]
pub enum Stop {
    /// It came back to its head.
    Head,
    /// It came to its end.
    End,
    /// It came to a link, or an object, that it had met before.
    Repeated { at: u64 },
    /// It needed a byte that is absent, in the object or at the address that is told.
    Unreadable { at: u64 },
    /// It was led past the addresses of the space, by the object or at the address that is told.
    Outside { at: u64 },
    /// It had taken as many turns as it may.
    Limit { n: u64 },
}
