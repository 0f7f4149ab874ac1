//! Places of members.

use isf_reader::TypeRef;

/// A place in a type: how many bytes from the type's start it stands, and what type stands there.
#[derive(Clone, Copy, Debug)]
pub struct Place<'t> {
    pub offset: u64,
    pub of: &'t TypeRef,
}
