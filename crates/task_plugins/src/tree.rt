//! The tree of tasks.
ghost use Rattle.std.specs.Prelude.{◌≡◌, ◌++◌, map, slice_get, flat_map, codes, Some, IfOk, OnOk, OnErr};
ghost use Rattle.std.specs.Io.{StartsWith};
ghost use Rattle.space_memory.specs.Writer.{WritesOver};
ghost use Rattle.tree_order.specs.Tree as order;
ghost use Rattle.task_plugins.specs.Pstree.{key_of, row_behind, branch_row, branches_text, tree_text};

use crate::cells::append_task;
use cell_text::append_number;
use kernel_records::{PluginFault, Rows, Stop, Task, WalkFault};
use layer_base::{Layer, Sink, Steps};
use space_memory::Memory;
use std::alloc::{AllocError, Global};
use std::sync::ledger::Ledger;
use tree_order::{Branch, Key, tree};
use walk_text::{Lines, write_lines};

// What a task says of its place in the tree.
fn key_of(task: &Task) -> Key
    ensures { result ≡ key_of task.now }
{
    Key {
        pid: task.pid,
        ppid: task.ppid,
    }
}

fn keys_of(alloc: Global, rows: &[Task]) -> Result<Vec<Key>, AllocError>
    ensures { IfOk result (λ keys. keys.items ≡ map key_of rows.now) }
{
    let mut keys = Vec::with_capacity(alloc, rows.len())?;
    for task in rows {
        keys.push(key_of(task))?;
    }
    Ok(keys)
}

// The places of tasks in their tree, in its order.
fn branches_of(alloc: Global, rows: &[Task]) -> Result<Rows<Branch>, AllocError>
    ensures { IfOk result (λ branches. branches ≡ order.tree (map key_of rows.now)) }
{
    let keys = keys_of(alloc, rows)?;
    tree(alloc, &keys)
}

// Appends a task behind its depth in the tree.
fn append_behind(text: &mut Vec<u8>, depth: usize, task: &Task) -> Result<(), AllocError>
    ensures ok { OnOk result (text.new.items ≡ text.old.items ++ row_behind depth (Some task.now)) }
    ensures err { OnErr result (StartsWith text.new.items text.old.items) }
{
    append_number(text, depth)?;
    text.push(b'\t')?;
    append_task(text, task)?;
    Ok(())
}

// Appends the row of a place in the tree of some tasks.
fn append_branch(text: &mut Vec<u8>, rows: &[Task], branch: Branch) -> Result<(), AllocError>
    ensures ok { OnOk result (text.new.items ≡ text.old.items ++ branch_row rows.now branch) }
    ensures err { OnErr result (StartsWith text.new.items text.old.items) }
{
    match rows.get(branch.row) {
        Some(task) => append_behind(text, branch.depth, task),
        None => Ok(()),
    }
}

// The rows of the places in the tree that are still to come.
#[derive(Clone, Copy)]
struct TreeLines<'r> {
    rows: &'r [Task],
    branches: &'r [Branch],
    stop: Stop,
}

impl Lines for TreeLines<'_> {
    ghost use Rattle.std.specs.Prelude.{◌++◌, flat_map, length};
    ghost use Rattle.task_plugins.specs.Pstree.{branch_row};
    ghost use Rattle.walk_text.specs.Added.{end_line};

    ghost rest = { λ lines memory. flat_map (branch_row lines.rows.now) lines.branches.now ++ end_line lines.stop };

    ghost left = { λ lines. length lines.branches.now };

    fn append_line<Y: Layer, L: Ledger>(
        &mut self,
        text: &mut Vec<u8>,
        memory: &mut Memory<Y>,
        steps: &mut Steps<L>,
    ) -> Result<Option<Stop>, WalkFault> {
        match self.branches.split_first() {
            Some((branch, branches)) => {
                append_branch(text, self.rows, *branch)?;
                self.branches = branches;
                Ok(None)
            }
            None => Ok(Some(self.stop)),
        }
    }
}

// The line of the columns' names.
fn head() -> &'static [u8]
    ensures { result.now ≡ codes "DEPTH\tOFFSET\tPID\tTID\tPPID\tCOMM\n" }
{
    b"DEPTH\tOFFSET\tPID\tTID\tPPID\tCOMM\n"
}

// Writes the rows of these places in the tree.
fn write_branches<Y: Layer, O: Sink, L: Ledger>(
    alloc: Global,
    found: &kernel_records::Tasks,
    branches: &[Branch],
    memory: &mut Memory<Y>,
    out: &mut O,
    steps: &mut Steps<L>,
) -> Result<(), PluginFault>
    ensures writes { WritesOver O.written O.faults out.old out.new memory.old memory.new PluginFault.Device PluginFault.Out result
        (λ memory. branches_text found.now.rows branches.now found.now.stop) }
{
    let mut lines = TreeLines {
        rows: found.rows.items(),
        branches,
        stop: found.stop,
    };
    write_lines(alloc, head(), &mut lines, memory, out, steps)
}

/// Writes a line of the columns' names, tasks in the order of their tree, each behind its depth, and why their ring ended.
pub(crate) fn write_tree<Y: Layer, O: Sink, L: Ledger>(
    alloc: Global,
    found: &kernel_records::Tasks,
    memory: &mut Memory<Y>,
    out: &mut O,
    steps: &mut Steps<L>,
) -> Result<(), PluginFault>
    ensures writes { WritesOver O.written O.faults out.old out.new memory.old memory.new PluginFault.Device PluginFault.Out result
        (λ memory. tree_text found.now.rows found.now.stop) }
{
    let branches = branches_of(alloc, found.rows.items())?;
    write_branches(alloc, found, branches.items(), memory, out, steps)
}
