//! The row of a task.
ghost use Rattle.std.specs.Prelude.{◌≡◌, ◌++◌, OnOk, OnErr};
ghost use Rattle.std.specs.Io.{StartsWith};
ghost use Rattle.std.specs.Option.{option_copied};
ghost use Rattle.task_plugins.specs.Pslist.{number_cells, task_row};

use cell_text::{append_optional_number, append_optional_text};
use hex_text::append_address;
use kernel_records::Task;
use layer_base::Name;
use std::alloc::AllocError;

fn bytes_of(name: &Option<Name>) -> Option<&[u8]>
    ensures { option_copied result ≡ name.now }
{
    match name {
        Some(name) => Some(name.items()),
        None => None,
    }
}

// Appends the numbers of a task's process, its own and its parent's.
fn append_numbers(text: &mut Vec<u8>, task: &Task) -> Result<(), AllocError>
    ensures ok { OnOk result (text.new.items ≡ text.old.items ++ number_cells task.now) }
    ensures err { OnErr result (StartsWith text.new.items text.old.items) }
{
    append_optional_number(text, task.pid)?;
    text.push(b'\t')?;
    append_optional_number(text, task.tid)?;
    text.push(b'\t')?;
    append_optional_number(text, task.ppid)?;
    Ok(())
}

/// Appends the address, the numbers and the name of a task, on a line. When out of memory, what stood in the text still
/// stands at its front.
#[tactic(auto, unfolding(crate::specs::Pslist::task_row))]
pub(crate) fn append_task(text: &mut Vec<u8>, task: &Task) -> Result<(), AllocError>
    ensures ok { OnOk result (text.new.items ≡ text.old.items ++ task_row task.now) }
    ensures err { OnErr result (StartsWith text.new.items text.old.items) }
{
    append_address(text, task.at)?;
    text.push(b'\t')?;
    append_numbers(text, task)?;
    text.push(b'\t')?;
    append_optional_text(text, bytes_of(&task.comm))?;
    text.push(b'\n')?;
    Ok(())
}
