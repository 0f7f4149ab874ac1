//! The files of a made machine: `/bin/tool`, and a pipe.
ghost use Rattle.std.specs.Prelude.{◌≡◌, ◌≤◌, length};
ghost use Rattle.image_maker.specs.Files.{root_mount, dentries, names, pipe, open_files};
ghost use Rattle.image_maker.specs.Written.{written};

use crate::machine::virtual_at;
use crate::row::{Content, write_rows};

// Writes the root mount.
pub(crate) fn write_root_mount(bytes: &mut [u8], number: u64)
    requires number { number ≤ 64 }
    requires room { 0x10000 ≤ length bytes.old }
    ensures { bytes.new ≡ written (root_mount number) bytes.old }
{
    let root = virtual_at(number, 0x9100);
    write_rows(
        bytes,
        0,
        &[
            (0x9000, Content::Word(virtual_at(number, 0x9000))),
            (0x9008, Content::Word(root)),
            (0x9010, Content::Word(root)),
        ],
    );
}

// Writes the parents and names of the dentries `/`, `bin` and `tool`.
pub(crate) fn write_dentries(bytes: &mut [u8], number: u64)
    requires number { number ≤ 64 }
    requires room { 0x10000 ≤ length bytes.old }
    ensures { bytes.new ≡ written (dentries number) bytes.old }
{
    let root = virtual_at(number, 0x9100);
    write_rows(
        bytes,
        0,
        &[
            (0x9100, Content::Word(root)),
            (0x9110, Content::Word(virtual_at(number, 0x9300))),
            (0x9140, Content::Word(root)),
            (0x9150, Content::Word(virtual_at(number, 0x9310))),
            (0x9180, Content::Word(virtual_at(number, 0x9140))),
            (0x9190, Content::Word(virtual_at(number, 0x9320))),
        ],
    );
}

// Writes the texts of their names.
pub(crate) fn write_names(bytes: &mut [u8])
    requires { 0x10000 ≤ length bytes.old }
    ensures { bytes.new ≡ written names bytes.old }
{
    write_rows(
        bytes,
        0,
        &[
            (0x9300, Content::Text(b"/")),
            (0x9310, Content::Text(b"bin")),
            (0x9320, Content::Text(b"tool")),
        ],
    );
}

// Writes the dentry of the pipe, with its inode and its operations.
pub(crate) fn write_pipe(bytes: &mut [u8], number: u64)
    requires number { number ≤ 64 }
    requires room { 0x10000 ≤ length bytes.old }
    ensures { bytes.new ≡ written (pipe number) bytes.old }
{
    write_rows(
        bytes,
        0,
        &[
            (0x91c0, Content::Word(virtual_at(number, 0x91c0))),
            (0x91d0, Content::Word(virtual_at(number, 0x9330))),
            (0x91d8, Content::Word(virtual_at(number, 0x9260))),
            (0x91e0, Content::Word(virtual_at(number, 0x9240))),
            (0x9240, Content::Word(virtual_at(number, 0xc100))),
            (0x9260, Content::Word(1000 + number)),
        ],
    );
}

// Writes the open file and the open pipe.
pub(crate) fn write_open_files(bytes: &mut [u8], number: u64)
    requires number { number ≤ 64 }
    requires room { 0x10000 ≤ length bytes.old }
    ensures { bytes.new ≡ written (open_files number) bytes.old }
{
    let mount = virtual_at(number, 0x9010);
    write_rows(
        bytes,
        0,
        &[
            (0x9400, Content::Word(mount)),
            (0x9408, Content::Word(virtual_at(number, 0x9180))),
            (0x9440, Content::Word(mount)),
            (0x9448, Content::Word(virtual_at(number, 0x91c0))),
        ],
    );
}
