//! Values of typed objects.

use layer_base::{Name, Number};

/// What an object of a type is in memory.
#[derive(Debug, Drop)]
pub enum Value {
    /// A number.
    Number(Number),
    /// The bytes of what isn't read as a number, the most significant one first.
    Raw { bytes: Name },
    /// The address that a pointer holds.
    Pointer(u64),
    /// The number of an enum, and the first name in byte order that its type has for it.
    Enum { number: Number, name: Option<Name> },
    /// The bytes of an array of characters before its first zero byte.
    Text(Name),
    /// An array of so many other elements.
    Array { count: u64 },
    /// A struct, a union or a class.
    Compound,
    /// An object of no value.
    Void,
    /// A function.
    Function,
    /// A byte that the value needs is absent, or lies past the addresses of the space.
    Absent,
    /// Its type doesn't say how to read it.
    Unknown,
}
