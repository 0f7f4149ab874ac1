//! Paths of names.
ghost use Rattle.std.specs.Prelude.{◌≡◌, ◌+◌, ◌*◌, ◌^◌, ◌<◌, ◌≤◌, length, drop, IfOk};
ghost use Rattle.std.specs.Result.{result_map_both};
ghost use Rattle.type_layout.specs.Member.{spot, further, member};
ghost use Rattle.type_layout.specs.Path.{and_on, resolve_from, resolve};

use crate::{Place, TypeFault, member};
use isf_reader::{Table, TypeRef};
use layer_base::Name;

/// The first name of a path that leads nowhere, by its index, and why.
#[derive(Clone, Copy, Debug, PartialEq, Eq)]
pub struct PathRefusal {
    pub index: usize,
    pub fault: TypeFault,
}

// The member of a name of a path. A fault is told with the index of the name.
fn member_at<'t>(
    table: &'t Table,
    of: &TypeRef,
    index: usize,
    name: &Name,
) -> Result<Place<'t>, PathRefusal>
    ensures value { result_map_both spot (λ refusal. refusal) result ≡ and_on index (member table.now of.now name.now) Ok }
    ensures near { IfOk result (λ place. place.offset < 33 * 2 ^ 32) }
{
    match member(table, of, name.items()) {
        Ok(place) => Ok(place),
        Err(fault) => Err(PathRefusal { index, fault }),
    }
}

/// The place that a path leads to in a type: each name in turn is a member of the type that the names before it lead
/// to, and the offsets are added. Pointers aren't followed. The refusal tells the first name that failed.
pub fn resolve<'t>(table: &'t Table, of: &TypeRef, path: &[Name]) -> Result<Place<'t>, PathRefusal>
    requires some { 1 ≤ length path.now }
    requires few { length path.now ≤ 256 }
    ensures value { result_map_both spot (λ refusal. refusal) result ≡ resolve table.now of.now path.now }
    ensures near { IfOk result (λ place. place.offset < 256 * 33 * 2 ^ 32) }
{
    let mut place = member_at(table, of, 0, &path[0])?;
    for index in 1..path.len() {
        let within = member_at(table, place.of, index, &path[index])?;
        place = Place {
            offset: place.offset + within.offset,
            of: within.of,
        };
    }
    Ok(place)
}
