//! The kernel's own objects.
ghost use Rattle.std.specs.Prelude.{◌≡◌, ◌≤◌, ◌*◌, length};
ghost use Rattle.image_maker.specs.Kernel.{task_link, first_task, modules, system_calls};
ghost use Rattle.image_maker.specs.Written.{written};

use crate::machine::{block, task_count, virtual_at};
use crate::row::{Content, write_rows};

// Where the `tasks` of a task stand.
pub(crate) fn task_link(number: u64, index: u64) -> u64
    requires number { number ≤ 64 }
    requires index { index ≤ 4096 }
    ensures { result ≡ task_link number index }
{
    virtual_at(number, block(index) + 0x10)
}

// Writes the kernel's first task, with which the ring of tasks begins and ends.
pub(crate) fn write_first_task(bytes: &mut [u8], number: u64)
    requires number { number ≤ 64 }
    requires room { 0x10000 ≤ length bytes.old }
    ensures { bytes.new ≡ written (first_task number) bytes.old }
{
    write_rows(
        bytes,
        0,
        &[
            (0x3010, Content::Word(task_link(number, 1))),
            (0x3018, Content::Word(task_link(number, task_count(number)))),
            (0x3040, Content::Word(virtual_at(number, 0x4000))),
            (0x3050, Content::Text(b"swapper/0")),
        ],
    );
}

// Writes the ring of modules and its one module.
pub(crate) fn write_modules(bytes: &mut [u8], number: u64)
    requires number { number ≤ 64 }
    requires room { 0x10000 ≤ length bytes.old }
    ensures { bytes.new ≡ written (modules number) bytes.old }
{
    let head = virtual_at(number, 0x5000);
    let link = virtual_at(number, 0xa008);
    write_rows(
        bytes,
        0,
        &[
            (0x5000, Content::Word(link)),
            (0x5008, Content::Word(link)),
            (0xa008, Content::Word(head)),
            (0xa010, Content::Word(head)),
            (0xa018, Content::Text(b"made")),
            (0xa050, Content::Half(4096 * number as u32)),
        ],
    );
}

// Writes the table of system calls.
pub(crate) fn write_system_calls(bytes: &mut [u8], number: u64)
    requires number { number ≤ 64 }
    requires room { 0x10000 ≤ length bytes.old }
    ensures { bytes.new ≡ written (system_calls number) bytes.old }
{
    write_rows(
        bytes,
        0,
        &[
            (0x6000, Content::Word(virtual_at(number, 0xc000))),
            (0x6008, Content::Word(virtual_at(number, 0xc080))),
            (0x6010, Content::Word(virtual_at(number, 0xc0c0))),
        ],
    );
}
