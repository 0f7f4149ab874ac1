//! Elements of arrays.
ghost use Rattle.std.specs.Prelude.{◌≡◌};
ghost use Rattle.std.specs.Result.{result_map_both};
ghost use Rattle.type_layout.specs.Member.{spot};
ghost use Rattle.type_layout.specs.Element.{element, within_addresses};

use crate::{Place, TypeFault, size_of};
use isf_reader::{Table, TypeRef};

/// The place of the element of an index in an array: the index times the size of an element from the array's start.
/// Errors: `NotArray` for a descriptor of another kind, else `PastEnd` where the index is not below the count, else
/// those of `size_of` for the type of an element, else `PastEnd` where the offset is above 2^64 - 1, which leads past
/// the last address from any start.
pub fn element<'t>(table: &Table, of: &'t TypeRef, index: u64) -> Result<Place<'t>, TypeFault>
    ensures value { result_map_both spot (λ fault. fault) result ≡ within_addresses (element table.now of.now index) }
{
    let TypeRef::Array { count, of } = of else {
        return Err(TypeFault::NotArray);
    };
    if index >= *count {
        return Err(TypeFault::PastEnd);
    }
    let size = size_of(table, of.get())?;
    let offset = index.checked_mul(size).ok_or(TypeFault::PastEnd)?;
    Ok(Place {
        offset,
        of: of.get(),
    })
}
