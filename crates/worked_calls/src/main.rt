//! Calls that no command of a script reaches yet, each printed with its answer.
#![tactic(auto)]

mod cells;
mod files;
mod layouts;
mod machine;
mod memory;
mod needles;
mod settings;
mod symbols;
mod tables;
mod words;

use crate::cells::print_cells;
use crate::files::print_files;
use crate::layouts::print_layouts;
use crate::machine::print_machine;
use crate::memory::print_memory;
use crate::needles::print_searches;
use crate::settings::print_command_lines;
use crate::symbols::print_symbols;
use crate::words::print_commands;
use anyhow::Result;

fn main(rt: HostRuntime) -> Result<()> {
    print_commands(&rt)?;
    print_symbols(&rt)?;
    print_layouts(&rt)?;
    print_searches(&rt)?;
    print_memory(&rt)?;
    print_command_lines(&rt)?;
    print_files(&rt)?;
    print_cells(&rt)?;
    print_machine(&rt)
}
