//! What stands some rows above each row, found for twice as many rows at each step.
ghost use Rattle.std.specs.Prelude.{◌≡◌, ◌<◌, ℕ, length, map, IfOk};
ghost use Rattle.tree_order.specs.Climbs.{entry, climb, climb_at, first_of_both, goes_on};

use std::alloc::{AllocError, Global};

/// The row that stands some rows above a row, none where fewer stand above it, and the first of all rows up to it.
#[derive(Clone, Copy, Debug, PartialEq, Eq)]
pub(crate) struct Climb {
    pub end: Option<usize>,
    pub first: Option<usize>,
}

// The climb of a row in a list of climbs.
pub(crate) fn climb_at(climbs: &[Climb], row: usize) -> Climb
    ensures { result ≡ climb_at climbs.now row }
{
    match climbs.get(row) {
        Some(climb) => *climb,
        None => Climb {
            end: None,
            first: None,
        },
    }
}

fn first_of_both(row: Option<usize>, other: Option<usize>) -> Option<usize>
    ensures { result ≡ first_of_both row other }
{
    match (row, other) {
        (Some(row), Some(other)) => Some(row.min(other)),
        (Some(row), None) => Some(row),
        (None, other) => other,
    }
}

// A climb that goes on by the climb from its end.
fn goes_on(climb: Climb, next: &[Climb]) -> Climb
    ensures { result ≡ goes_on (climb_at next.now) climb }
{
    let Some(end) = climb.end else {
        return climb;
    };
    let next = climb_at(next, end);
    Climb {
        end: next.end,
        first: first_of_both(climb.first, next.first),
    }
}

// Climbs of one row.
fn once(alloc: Global, up: &[Option<usize>]) -> Result<Vec<Climb>, AllocError>
    ensures { IfOk result (λ climbs. (row : ℕ) → climb_at climbs.items row ≡ climb (entry up.now) 1 row) }
{
    let mut climbs = Vec::new(alloc);
    for parent in up {
        climbs.push(Climb {
            end: *parent,
            first: *parent,
        })?;
    }
    Ok(climbs)
}

// Climbs that go on by others.
fn joined(alloc: Global, climbs: &[Climb], next: &[Climb]) -> Result<Vec<Climb>, AllocError>
    ensures { IfOk result (λ joined. joined.items ≡ map (goes_on (climb_at next.now)) climbs.now) }
{
    let mut joined = Vec::new(alloc);
    for climb in climbs {
        joined.push(goes_on(*climb, next))?;
    }
    Ok(joined)
}

// Climbs of so many rows. It calls itself once for half as many.
pub(crate) fn climbs(
    alloc: Global,
    up: &[Option<usize>],
    rows: usize,
) -> Result<Vec<Climb>, AllocError>
    requires { 0 < rows }
    ensures { IfOk result (λ climbs. (row : ℕ) → climb_at climbs.items row ≡ climb (entry up.now) rows row) }
{
    if rows == 1 {
        return once(alloc, up);
    }
    let half = climbs(alloc, up, rows / 2)?;
    let twice = joined(alloc, &half, &half)?;
    if rows % 2 == 0 {
        return Ok(twice);
    }
    let once = once(alloc, up)?;
    joined(alloc, &once, &twice)
}
