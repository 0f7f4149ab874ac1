//! Members of types.
ghost use Rattle.std.specs.Prelude.{◌≡◌, ◌*◌, ◌^◌, ◌<◌, IfOk};
ghost use Rattle.std.specs.Result.{result_map_both};
ghost use Rattle.type_layout.specs.Member.{spot, member, member_named, IsSearchedAlike};

use crate::found::{found_in, user_of};
use crate::{Place, TypeFault};
use isf_reader::{Table, TypeRef};

const DEEPEST: u64 = 32;

// A law of every table: its anonymous fields nest no deeper than a search goes.
fn searched_alike(table: &Table, name: &[u8])
    ensures { IsSearchedAlike table.now.users name.now }
{
    let _symbols = table.symbols();
}

/// The place of the member of that name in the user type of a name. A field of that very name comes first, anonymous or
/// not; else the anonymous fields of kind struct, union or class with a defined name are searched by offset and then by
/// name, each in the same way, and the first that has the name gives its own offset plus the offset found.
/// Errors: `NoType` where nothing defines the user type, else `NoMember` where no field has the name.
pub fn member_named<'t>(table: &'t Table, user: &[u8], name: &[u8]) -> Result<Place<'t>, TypeFault>
    ensures value { result_map_both spot (λ fault. fault) result ≡ member_named table.now user.now name.now }
    ensures rule { IsSearchedAlike table.now.users name.now }
    ensures near { IfOk result (λ place. place.offset < 33 * 2 ^ 32) }
{
    searched_alike(table, name);
    let user = user_of(table, user).ok_or(TypeFault::NoType)?;
    found_in(table, user, name, DEEPEST).ok_or(TypeFault::NoMember)
}

/// The place of the member of that name in a struct, union or class: that of `member_named` in the user type that the
/// descriptor names, whichever of the three kinds it has.
/// Errors: `NotCompound` for a descriptor of another kind, else those of `member_named`.
pub fn member<'t>(table: &'t Table, of: &TypeRef, name: &[u8]) -> Result<Place<'t>, TypeFault>
    ensures value { result_map_both spot (λ fault. fault) result ≡ member table.now of.now name.now }
    ensures rule { IsSearchedAlike table.now.users name.now }
    ensures near { IfOk result (λ place. place.offset < 33 * 2 ^ 32) }
{
    searched_alike(table, name);
    let user = of.user_name().ok_or(TypeFault::NotCompound)?;
    member_named(table, user.items(), name)
}
