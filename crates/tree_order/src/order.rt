//! The tree.
ghost use Rattle.std.specs.Prelude.{◌≡◌, length, IfOk};
ghost use Rattle.tree_order.specs.Climbs.{entry};
ghost use Rattle.tree_order.specs.Forest.{IsForest};
ghost use Rattle.tree_order.specs.Tree.{branches, path_under, tree};

use crate::entry::entry;
use crate::family::{family_of, push_rows};
use crate::parents::parents;
use crate::tops::rows_over;
use crate::{Branch, Key};
use kernel_records::Rows;
use std::alloc::{AllocError, Global};

// The rows of a forest in the order of their paths: a row, and before the next one all that is under it.
fn ordered(alloc: Global, over: &[Option<usize>]) -> Result<Rows<Branch>, AllocError>
    requires { IsForest (entry over.now) (length over.now) }
    ensures { IfOk result (λ rows. rows ≡ branches (path_under (entry over.now) (length over.now)) (length over.now)) }
{
    let family = family_of(alloc, over)?;
    let mut order = Rows::new(alloc);
    let mut pending = Vec::new(alloc);
    push_rows(&mut pending, &family.before, family.last_top, 0)?;
    while let Some(branch) = pending.pop() {
        order.add(branch)?;
        let last = entry(&family.last, branch.row);
        push_rows(&mut pending, &family.before, last, branch.depth + 1)?;
    }
    Ok(order)
}

/// The rows in the order of their tree, each with its depth. The parent of a row is the first row whose PID is the row's
/// PPID. A row without one, a row that is its own parent and the first row of a ring of parents are tops. Below a row stand
/// the rows of which it is the parent, in their own order, each with all that is below it.
///
/// The time grows as n log n with the number of rows, whatever their parents are, and the memory as n.
pub fn tree(alloc: Global, keys: &[Key]) -> Result<Rows<Branch>, AllocError>
    ensures { IfOk result (λ branches. branches ≡ tree keys.now) }
{
    let up = parents(alloc, keys)?;
    let over = rows_over(alloc, &up)?;
    ordered(alloc, &over)
}
