//! Objects: where they stand, and how many bytes they have.
ghost use Rattle.std.specs.Prelude.{◌≡◌, ◌≤◌, length, IfOk};
ghost use Rattle.std.specs.Option.{option_copied};
ghost use Rattle.std.specs.Result.{result_map_both};
ghost use Rattle.type_layout.specs.Member.{spot};
ghost use Rattle.type_layout.specs.Path.{resolve};
ghost use Rattle.object_text.specs.Object.{user_type, object_at, name_at};
ghost use Rattle.object_text.specs.Told.{told};

use isf_reader::{Table, TypeRef, UserType};
use layer_base::Name;
use type_layout::{PathRefusal, Place, TypeFault, resolve, size_of};
use typed_object::View;

/// A view, and how many bytes it shows.
#[derive(Clone, Copy, Debug)]
pub(crate) struct Object<'t> {
    pub(crate) view: View<'t>,
    pub(crate) size: u64,
}

/// The place that a path leads to in a type, which is the type itself where the path has no names.
pub(crate) fn place_in<'t>(
    table: &'t Table,
    of: &'t TypeRef,
    path: &[Name],
) -> Result<Place<'t>, PathRefusal>
    requires { length path.now ≤ 256 }
    ensures { result_map_both spot (λ refusal. refusal) result ≡ resolve table.now of.now path.now }
{
    if path.is_empty() {
        Ok(Place { offset: 0, of })
    } else {
        resolve(table, of, path)
    }
}

/// The object at a place from a view, or its fault.
pub(crate) fn object_at<'t>(
    table: &Table,
    start: View<'t>,
    place: Place<'t>,
) -> Result<Object<'t>, TypeFault>
    ensures object { result_map_both told (λ fault. fault) result ≡ object_at table.now start.entry.at (spot place.entry) }
    ensures space { IfOk result (λ object. object.view.space ≡ start.entry.space) }
{
    let view = start.at_place(place)?;
    let size = size_of(table, view.of)?;
    Ok(Object { view, size })
}

/// The user type that a type is.
pub(crate) fn user_type<'t>(table: &'t Table, of: &TypeRef) -> Option<&'t UserType>
    ensures { option_copied result ≡ user_type table.now of.now }
{
    table.user(of.user_name()?.items())
}

/// The name of a path with an index.
pub(crate) fn name_at(path: &[Name], index: usize) -> &[u8]
    ensures { result.now ≡ name_at path.now index }
{
    match path.get(index) {
        Some(name) => name.items(),
        None => b"",
    }
}
