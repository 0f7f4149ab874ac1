//! How deep anonymous fields nest, found in rounds: at first each user type is there, and a round keeps those that bring in
//! one that is there. So a round costs no more than the types that are left, and the work does not grow with the number
//! of ways to a field.
ghost use Rattle.std.specs.Prelude.{◌≡◌, suc, map, option_map, is_some, IfOk};
ghost use Rattle.std.specs.Cmp.Lexicographic.{slice_cmp};
ghost use Rattle.std.specs.List.{list_any};
ghost use Rattle.std.specs.Option.{option_copied};
ghost use Rattle.std.specs.Ordering.{nat_cmp};
ghost use Rattle.isf_reader.specs.Depth.{entry_named, brought_in, brings_in, brings_one_of, deepest, deeper, nesting, first_too_deep};
ghost use Rattle.isf_reader.specs.Table.{HasNamesInOrder};

use crate::{Field, UserType};
use layer_base::Name;
use std::alloc::{AllocError, Global};
use std::cmp::Ordering;

const DEEPEST: usize = 32;

// The name of the user type whose fields an anonymous field brings in.
fn brought_in(field: &Field) -> Option<&Name>
    ensures { option_copied result ≡ brought_in field.now }
{
    if field.anonymous {
        field.of.user_name()
    } else {
        None
    }
}

// Whether one of the types has the name.
fn has(types: &[&(Name, UserType)], name: &[u8]) -> bool
    requires { HasNamesInOrder (map (λ entry. entry.now) types.now) }
    ensures { result ≡ is_some (entry_named name.now (map (λ entry. entry.now) types.now)) }
{
    let found = types.binary_search_by(
        |entry: &&(Name, UserType)| -> Ordering
            ensures { result ≡ slice_cmp nat_cmp entry.now.now.0 name.entry.now }
        { entry.0.items().cmp(name) },
    );
    match found {
        Ok(_) => true,
        Err(_) => false,
    }
}

// Whether a field brings in one of the types.
fn brings_in(types: &[&(Name, UserType)], field: &Field) -> bool
    requires { HasNamesInOrder (map (λ entry. entry.now) types.now) }
    ensures { result ≡ brings_in (map (λ entry. entry.now) types.now) field.now }
{
    match brought_in(field) {
        Some(name) => has(types, name.items()),
        None => false,
    }
}

// Whether one of the fields does.
fn any_brings_in(types: &[&(Name, UserType)], fields: &[Field]) -> bool
    requires { HasNamesInOrder (map (λ entry. entry.now) types.now) }
    ensures { result ≡ list_any (brings_in (map (λ entry. entry.now) types.now)) fields.now }
{
    fields.iter().any(|field| brings_in(types, field))
}

// All user types.
fn all<'t>(
    alloc: Global,
    users: &'t [(Name, UserType)],
) -> Result<Vec<&'t (Name, UserType)>, AllocError>
    ensures { IfOk result (λ types. map (λ entry. entry.now) types.items ≡ users.now) }
{
    let mut types = Vec::with_capacity(alloc, users.len())?;
    for entry in users {
        types.push(entry)?;
    }
    Ok(types)
}

// Those of the types that bring in one of them.
fn deeper<'t>(
    alloc: Global,
    types: &[&'t (Name, UserType)],
) -> Result<Vec<&'t (Name, UserType)>, AllocError>
    requires { HasNamesInOrder (map (λ entry. entry.now) types.now) }
    ensures { IfOk result (λ found. map (λ entry. entry.now) found.items ≡ deeper (map (λ entry. entry.now) types.now)) }
{
    let mut found = Vec::new(alloc);
    for entry in types {
        if any_brings_in(types, entry.1.fields.items()) {
            found.push(*entry)?;
        }
    }
    Ok(found)
}

// The user types in which anonymous fields nest too deep.
fn too_deep<'t>(
    alloc: Global,
    users: &'t [(Name, UserType)],
) -> Result<Vec<&'t (Name, UserType)>, AllocError>
    requires { HasNamesInOrder users.now }
    ensures { IfOk result (λ types. map (λ entry. entry.now) types.items ≡ nesting users.now (suc deepest)) }
{
    let mut types = all(alloc, users)?;
    for _level in 0..DEEPEST + 1 {
        types = deeper(alloc, &types)?;
    }
    Ok(types)
}

// The first user type in which anonymous fields nest too deep.
#[tactic(auto, unfolding(crate::specs::Depth::first_too_deep))]
pub(crate) fn first_too_deep(
    alloc: Global,
    users: &[(Name, UserType)],
) -> Result<Option<Name>, AllocError>
    requires { HasNamesInOrder users.now }
    ensures { IfOk result (λ name. name ≡ first_too_deep users.now) }
{
    let types = too_deep(alloc, users)?;
    match types.first() {
        Some(entry) => Ok(Some(Name::of(alloc, entry.0.items())?)),
        None => Ok(None),
    }
}
