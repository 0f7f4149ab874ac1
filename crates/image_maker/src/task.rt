//! The tasks of a made machine, each in a block of eight pages.
ghost use Rattle.std.specs.Prelude.{◌≡◌, ◌+◌, ◌*◌, ◌%◌, ◌≤◌, length};
ghost use Rattle.image_maker.specs.Machine.{block};
ghost use Rattle.image_maker.specs.Task.{next_link, former_link, memory_of, parent_of, task_name, task_struct, task_memory, task_files, first_entry, task_tables, task_upper, task, tasks};
ghost use Rattle.image_maker.specs.Written.{written};

use crate::kernel::task_link;
use crate::machine::{block, has_five_levels, physical_at, task_count, virtual_at};
use crate::page_tables::{root_entry, write_at_five_levels};
use crate::row::{Content, write_rows};

// Where the ring of tasks goes on behind a task.
fn next_link(number: u64, index: u64) -> u64
    requires number { number ≤ 64 }
    requires index { index ≤ 48 * number }
    ensures { result ≡ next_link number index }
{
    if index == task_count(number) {
        virtual_at(number, 0x3010)
    } else {
        task_link(number, index + 1)
    }
}

// Where the ring of tasks comes from.
fn former_link(number: u64, index: u64) -> u64
    requires number { number ≤ 64 }
    requires index { (1 ≤ index) × (index ≤ 48 * number) }
    ensures { result ≡ former_link number index }
{
    if index == 1 {
        virtual_at(number, 0x3010)
    } else {
        task_link(number, index - 1)
    }
}

// The memory of a task, or zero: every fourth one has none.
fn memory_of(number: u64, index: u64) -> u64
    requires number { number ≤ 64 }
    requires index { index ≤ 48 * number }
    ensures { result ≡ memory_of number index }
{
    if index % 4 == 0 {
        0
    } else {
        virtual_at(number, block(index) + 0x100)
    }
}

fn parent_of(number: u64, index: u64) -> u64
    requires number { number ≤ 64 }
    requires index { index ≤ 48 * number }
    ensures { result ≡ parent_of number index }
{
    if index == 1 {
        virtual_at(number, 0x3000)
    } else {
        virtual_at(number, block(index / 2))
    }
}

fn digit(number: u64) -> u8
    ensures { result ≡ 48 + number % 10 }
{
    b'0' + (number % 10) as u8
}

// `task` and the task's number in four digits.
#[tactic(auto, unfolding(crate::specs::Task::task_name))]
fn task_name(index: u64) -> [u8; 8]
    ensures { result ≡ task_name index }
{
    [
        b't',
        b'a',
        b's',
        b'k',
        digit(index / 1000),
        digit(index / 100),
        digit(index / 10),
        digit(index),
    ]
}

// Writes a task's links, memory, numbers, parent, files and name.
fn write_task_struct(bytes: &mut [u8], number: u64, index: u64)
    requires number { number ≤ 64 }
    requires index { (1 ≤ index) × (index ≤ 48 * number) }
    requires room { block index + 0x8000 ≤ length bytes.old }
    ensures { bytes.new ≡ written (task_struct number index) bytes.old }
{
    let at = block(index);
    let name = task_name(index);
    write_rows(
        bytes,
        at,
        &[
            (0x10, Content::Word(next_link(number, index))),
            (0x18, Content::Word(former_link(number, index))),
            (0x20, Content::Word(memory_of(number, index))),
            (0x30, Content::Half(index as u32)),
            (0x34, Content::Half(index as u32)),
            (0x38, Content::Word(parent_of(number, index))),
            (0x40, Content::Word(virtual_at(number, at + 0x300))),
            (0x50, Content::Text(&name)),
        ],
    );
}

// Writes a task's memory: its two areas, and the root of its page tables.
fn write_task_memory(bytes: &mut [u8], number: u64, index: u64)
    requires number { number ≤ 64 }
    requires index { index ≤ 48 * number }
    requires room { block index + 0x8000 ≤ length bytes.old }
    ensures { bytes.new ≡ written (task_memory number index) bytes.old }
{
    let at = block(index);
    write_rows(
        bytes,
        at,
        &[
            (0x100, Content::Word(virtual_at(number, at + 0x200))),
            (0x108, Content::Word(virtual_at(number, at + 0x1000))),
            (0x200, Content::Word(0x40_0000)),
            (0x208, Content::Word(0x40_1000)),
            (0x210, Content::Word(virtual_at(number, at + 0x240))),
            (0x218, Content::Word(5)),
            (0x228, Content::Word(virtual_at(number, 0x9400))),
            (0x240, Content::Word(0x7ffd_0000)),
            (0x248, Content::Word(0x7ffd_2000)),
            (0x258, Content::Word(3)),
        ],
    );
}

// Writes a task's open files.
fn write_task_files(bytes: &mut [u8], number: u64, index: u64)
    requires number { number ≤ 64 }
    requires index { index ≤ 48 * number }
    requires room { block index + 0x8000 ≤ length bytes.old }
    ensures { bytes.new ≡ written (task_files number index) bytes.old }
{
    let at = block(index);
    write_rows(
        bytes,
        at,
        &[
            (0x300, Content::Word(virtual_at(number, at + 0x320))),
            (0x320, Content::Half(2)),
            (0x328, Content::Word(virtual_at(number, at + 0x340))),
            (0x340, Content::Word(virtual_at(number, 0x9400))),
            (0x348, Content::Word(virtual_at(number, 0x9440))),
        ],
    );
}

// The first entry of a task's root.
fn first_entry(number: u64, index: u64) -> u64
    requires { index ≤ 4096 }
    ensures { result ≡ first_entry number index }
{
    if has_five_levels(number) {
        physical_at(number, block(index) + 0x6003)
    } else {
        physical_at(number, block(index) + 0x2003)
    }
}

// Writes a task's page tables, and its number into the page that they map.
fn write_task_tables(bytes: &mut [u8], number: u64, index: u64)
    requires number { number ≤ 64 }
    requires index { index ≤ 48 * number }
    requires room { block index + 0x8000 ≤ length bytes.old }
    ensures { bytes.new ≡ written (task_tables number index) bytes.old }
{
    let at = block(index);
    write_rows(
        bytes,
        at,
        &[
            (0x1000, Content::Word(first_entry(number, index))),
            (0x1ff8, Content::Word(root_entry(number))),
            (0x2000, Content::Word(physical_at(number, at + 0x3003))),
            (0x3010, Content::Word(physical_at(number, at + 0x4003))),
            (0x4000, Content::Word(physical_at(number, at + 0x5007))),
            (0x5000, Content::Word(index)),
        ],
    );
}

// Writes the table of level 4 that a task's root of five levels leads to.
fn write_task_upper(bytes: &mut [u8], number: u64, index: u64)
    requires index { index ≤ 4096 }
    requires room { block index + 0x8000 ≤ length bytes.old }
    ensures { bytes.new ≡ written (task_upper number index) bytes.old }
{
    let at = block(index);
    write_at_five_levels(bytes, number, at + 0x6000, physical_at(number, at + 0x2003));
}

fn write_task(bytes: &mut [u8], number: u64, index: u64)
    requires number { number ≤ 64 }
    requires index { (1 ≤ index) × (index ≤ 48 * number) }
    requires room { block index + 0x8000 ≤ length bytes.old }
    ensures { bytes.new ≡ written (task number index) bytes.old }
{
    write_task_struct(bytes, number, index);
    write_task_memory(bytes, number, index);
    write_task_files(bytes, number, index);
    write_task_tables(bytes, number, index);
    write_task_upper(bytes, number, index);
}

// Writes the tasks from 1 to so many.
pub(crate) fn write_tasks(bytes: &mut [u8], number: u64, count: u64)
    requires number { number ≤ 64 }
    requires count { count ≤ 48 * number }
    requires room { block count + 0x8000 ≤ length bytes.old }
    ensures { bytes.new ≡ written (tasks number count) bytes.old }
{
    for done in 0..count {
        write_task(bytes, number, done + 1);
    }
}
