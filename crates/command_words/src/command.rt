//! What a line asks for.

use crate::Names;
use layer_base::{Levels, Name};

/// The word that names a space of addresses.
#[derive(Clone, Copy, Debug, PartialEq, Eq)]
pub enum SpaceWord {
    /// `phys`: physical memory.
    Phys,
    /// `kernel`: the kernel's own space.
    Kernel,
    /// `task:N`: the space of the task with a PID.
    Task(u64),
    /// `root:N:4` or `root:N:5`: what the page tables from a root on map.
    Root { root: u64, levels: Levels },
}

/// The word that names an address.
#[derive(Debug, Drop)]
pub enum AddrWord {
    /// A number.
    Number(u64),
    /// `@NAME`: the address of a symbol, whose name has at least one byte.
    Symbol(Name),
}

/// What a line asks for. Where an address is a number, so many bytes from it on end at or below the last address.
#[derive(Debug, Drop)]
pub enum Command {
    /// Nothing: the line has no words, or is a comment.
    Nothing,
    /// The banners in physical memory.
    Banners,
    /// Where the kernel is.
    Kernel,
    /// The tasks, in the order of their list.
    Pslist,
    /// The tasks, as a tree.
    Pstree,
    /// The loaded modules.
    Lsmod,
    /// The table of system calls.
    CheckSyscall,
    /// The end of the script.
    Quit,
    /// The areas of the task with a PID.
    Maps {
        pid: u64,
    },
    /// The open files of the task with a PID.
    Lsof {
        pid: u64,
    },
    /// A dump of 1 to 1,048,576 bytes from an address on.
    Read {
        space: SpaceWord,
        at: AddrWord,
        len: u64,
    },
    /// 1 to 68,719,476,736 bytes from an address on, for the dump file.
    Dump {
        space: SpaceWord,
        at: AddrWord,
        len: u64,
    },
    /// The command `type`: the value at an address, of the type with a name or of the member of it that a path of at
    /// most 256 names leads to.
    Show {
        space: SpaceWord,
        at: AddrWord,
        name: Name,
        path: Names,
    },
    /// The fields of the type with a name.
    Layout {
        name: Name,
    },
    /// The address and the type of the symbol with a name.
    Symbol {
        name: Name,
    },
    /// The last symbol at or below an address.
    Near {
        number: u64,
    },
    /// The physical address of an address.
    Translate {
        space: SpaceWord,
        at: AddrWord,
    },
    /// The places of the needle, 1 to 2,048 bytes, among the bytes from an address on, at least one.
    Scan {
        space: SpaceWord,
        at: AddrWord,
        len: u64,
        needle: Name,
    },
}
