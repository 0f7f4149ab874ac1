//! The rows under each row.
ghost use Rattle.std.specs.Prelude.{◌≡◌, ◌<◌, ◌+◌, ◌++◌, ℕ, List, length, map, Option, Some, IfOk, IfSome, OnOk};
ghost use Rattle.tree_order.specs.Climbs.{entry};
ghost use Rattle.tree_order.specs.Family.{Leads, IsFamily};

use crate::Branch;
use crate::entry::entry;
use std::alloc::{AllocError, Global};

/// The last top, the last row under each row, and for each row the one before it of those that stand under the same row.
#[derive(Debug, Drop)]
pub(crate) struct Family {
    pub last_top: Option<usize>,
    pub last: Vec<Option<usize>>,
    pub before: Vec<Option<usize>>,
}

// A family of no rows yet, with room for so many.
fn no_rows(alloc: Global, rows: usize) -> Result<Family, AllocError>
    ensures family { IfOk result (λ family. (over : ℕ → Option ℕ) → IsFamily over 0 family) }
    ensures room { IfOk result (λ family. length family.last.items ≡ rows) }
{
    Ok(Family {
        last_top: None,
        last: vec![in alloc; None; rows]?,
        before: Vec::new(alloc),
    })
}

// One row more, which stands under a place.
fn add_row(family: &mut Family, place: Option<usize>) -> Result<(), AllocError>
    requires { IfSome place (λ row. row < length family.old.last.items) }
    ensures family { OnOk result ((over : ℕ → Option ℕ) (rows : ℕ) → IsFamily over rows family.old → over rows ≡ place → IsFamily over (rows + 1) family.new) }
    ensures room { length family.new.last.items ≡ length family.old.last.items }
{
    let row = family.before.len();
    match place {
        Some(parent) => {
            family.before.push(family.last[parent])?;
            family.last[parent] = Some(row);
        }
        None => {
            family.before.push(family.last_top)?;
            family.last_top = Some(row);
        }
    }
    Ok(())
}

// The family of all rows.
pub(crate) fn family_of(alloc: Global, over: &[Option<usize>]) -> Result<Family, AllocError>
    requires { (row above : ℕ) → entry over.now row ≡ Some above → above < length over.now }
    ensures { IfOk result (IsFamily (entry over.now) (length over.now)) }
{
    let mut family = no_rows(alloc, over.len())?;
    for place in over {
        add_row(&mut family, *place)?;
    }
    Ok(family)
}

// Puts rows behind those that are pending: a row, the one before it, and so on, all of one depth.
pub(crate) fn push_rows(
    pending: &mut Vec<Branch>,
    before: &[Option<usize>],
    last: Option<usize>,
    depth: usize,
) -> Result<(), AllocError>
    requires { (row : ℕ) → IfSome (entry before.now row) (λ other. other < row) }
    ensures { OnOk result ((rows : List ℕ) → Leads before.now last rows → pending.new.items ≡ pending.old.items ++ map (λ row. record { row = row; depth = depth }) rows) }
{
    let mut next = last;
    while let Some(row) = next {
        pending.push(Branch { row, depth })?;
        next = entry(before, row);
    }
    Ok(())
}
