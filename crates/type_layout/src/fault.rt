//! What can be wrong with a type.

/// Why a type doesn't give what was asked of it.
#[derive(Clone, Copy, Debug, PartialEq, Eq)]
pub enum TypeFault {
    /// Nothing defines its name.
    NoType,
    /// No field has the name.
    NoMember,
    /// It is no struct, union or class.
    NotCompound,
    /// It is no array.
    NotArray,
    /// It is no pointer.
    NotPointer,
    /// It has no number.
    NotNumber,
    /// It is larger than what was asked for can be.
    TooBig,
    /// It ends behind the last address, or the index is not below the count.
    PastEnd,
}
