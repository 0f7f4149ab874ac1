//! What lines ask for: commands, spaces and addresses.
use anyhow::Result;
use command_words::parse_line;
use std::alloc::Global;

const LINES: [&str; 17] = [
    "banners",
    "kernel",
    "pslist",
    "pstree",
    "lsmod",
    "check_syscall",
    "maps \t 7\t",
    "lsof 0x7",
    "translate kernel @a",
    "read phys @a%20 2",
    "dump task:5 0x10 3",
    "dump phys 0 68719476736",
    "scan root:0x1000:4 0 4 0aFf",
    "scan phys 1 18446744073709551615 00",
    "type root:7:5 1 a",
    "type phys 1 a.b.",
    "type phys 0 a%2eb.c",
];

/// Prints what each line asks for.
pub(crate) fn print_commands<R: Print + Alloc<A = Global>>(rt: &R) -> Result<()> {
    for line in LINES {
        let command = parse_line(rt.alloc(), line.as_bytes());
        println!(rt; "parse_line {line:?}: {command:?}")?;
    }
    Ok(())
}
