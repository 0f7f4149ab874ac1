//! The search for a field in a user type and in what its anonymous fields bring in. It keeps nothing, so a name that is
//! absent costs a visit of each way through anonymous fields; a type that is brought in twice is searched twice.
ghost use Rattle.std.specs.Prelude.{◌≡◌, ◌+◌, ◌*◌, ◌^◌, ◌<◌, ◌≤◌, option_map, IfSome};
ghost use Rattle.std.specs.List.{AllByRecursion};
ghost use Rattle.std.specs.Option.{option_copied};
ghost use Rattle.isf_reader.specs.Depth.{entry_named};
ghost use Rattle.isf_reader.specs.Table.{IsNear};
ghost use Rattle.type_layout.specs.Member.{spot, user_brought, own_field, found_through, first_through, found_in};

use crate::Place;
use isf_reader::{Field, Table, UserType};

// The user type of a name, whose fields are near its start.
pub(crate) fn user_of<'t>(table: &'t Table, name: &[u8]) -> Option<&'t UserType>
    ensures value { option_copied result ≡ entry_named name.now table.now.users }
    ensures near { IfSome result (λ user. AllByRecursion IsNear user.now.fields) }
{
    table.user(name)
}

// The user type whose fields a field brings in.
fn user_brought<'t>(table: &'t Table, field: &Field) -> Option<&'t UserType>
    ensures value { option_copied result ≡ user_brought table.now.users field.now }
    ensures near { IfSome result (λ user. AllByRecursion IsNear user.now.fields) }
{
    if field.anonymous {
        user_of(table, field.of.user_name()?.items())
    } else {
        None
    }
}

// The field of that very name.
fn own_field<'t>(fields: &'t [Field], name: &[u8]) -> Option<Place<'t>>
    requires { AllByRecursion IsNear fields.now }
    ensures value { option_map spot result ≡ own_field name.now fields.now }
    ensures near { IfSome result (λ place. place.offset < 2 ^ 32) }
{
    let field = fields.iter().find(|field| field.name.items() == name)?;
    Some(Place {
        offset: field.offset,
        of: &field.of,
    })
}

// Where a user type has a name, through anonymous fields that nest at most so deep.
#[cycle(found)]
pub(crate) fn found_in<'t>(
    table: &'t Table,
    user: &'t UserType,
    name: &[u8],
    depth: u64,
) -> Option<Place<'t>>
    requires near { AllByRecursion IsNear user.now.fields }
    requires shallow { depth ≤ 32 }
    ensures value { option_map spot result ≡ found_in table.now.users name.now depth user.now }
    ensures near { IfSome result (λ place. place.offset < (depth + 1) * 2 ^ 32) }
{
    let own = own_field(user.fields.items(), name);
    if own.is_some() || depth == 0 {
        return own;
    }
    first_through(table, user.fields.items(), name, depth - 1)
}

// What is found through the first of these fields through which anything is.
#[cycle(found)]
fn first_through<'t>(
    table: &'t Table,
    fields: &'t [Field],
    name: &[u8],
    depth: u64,
) -> Option<Place<'t>>
    requires near { AllByRecursion IsNear fields.now }
    requires shallow { depth < 32 }
    ensures value { option_map spot result ≡ first_through (found_in table.now.users name.now depth) table.now.users fields.now }
    ensures near { IfSome result (λ place. place.offset < (depth + 2) * 2 ^ 32) }
{
    for field in fields {
        let through = found_through(table, field, name, depth);
        if through.is_some() {
            return through;
        }
    }
    None
}

// What is found through a field.
#[cycle(found)]
fn found_through<'t>(
    table: &'t Table,
    field: &'t Field,
    name: &[u8],
    depth: u64,
) -> Option<Place<'t>>
    requires near { IsNear field.now }
    requires shallow { depth < 32 }
    ensures value { option_map spot result ≡ found_through (found_in table.now.users name.now depth) table.now.users field.now }
    ensures near { IfSome result (λ place. place.offset < (depth + 2) * 2 ^ 32) }
{
    let user = user_brought(table, field)?;
    let within = found_in(table, user, name, depth)?;
    Some(Place {
        offset: field.offset + within.offset,
        of: within.of,
    })
}
