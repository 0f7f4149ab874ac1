//! The kernel's page tables.
ghost use Rattle.std.specs.Prelude.{◌≡◌, ◌+◌, ◌≤◌, ◌<◌, [], ◌∷◌, length};
ghost use Rattle.image_maker.specs.PageTables.{root_entry, at_five_levels, large_page, large_pages, large_page_count, upper_tables, fifth_level, page_tables};
ghost use Rattle.image_maker.specs.Written.{written};

use crate::machine::{LARGE_PAGE, has_five_levels, memory_size, physical_at, shifted_pages};
use crate::row::{Content, write_rows};

// The last entry of a root.
pub(crate) fn root_entry(number: u64) -> u64
    ensures { result ≡ root_entry number }
{
    if has_five_levels(number) {
        physical_at(number, 0xb003)
    } else {
        physical_at(number, 0x2003)
    }
}

// Writes an entry of the table of level 4 below a root of five levels.
pub(crate) fn write_at_five_levels(bytes: &mut [u8], number: u64, offset: usize, entry: u64)
    requires { offset + 8 ≤ length bytes.old }
    ensures { bytes.new ≡ written (at_five_levels number offset entry) bytes.old }
{
    if has_five_levels(number) {
        write_rows(bytes, 0, &[(offset, Content::Word(entry))]);
    }
}

// How many large pages hold the machine's memory.
fn large_page_count(number: u64) -> usize
    requires { number ≤ 64 }
    ensures count { result ≡ large_page_count number }
    ensures few { result ≤ 49 }
{
    (memory_size(number) + 0x1f_ffff) / 0x20_0000
}

fn write_large_page(bytes: &mut [u8], number: u64, index: usize)
    requires number { number ≤ 64 }
    requires index { index < 49 }
    requires room { 0x10000 ≤ length bytes.old }
    ensures { bytes.new ≡ written (large_page number index ∷ []) bytes.old }
{
    let offset = 0x7000 + 8 * (shifted_pages(number) as usize + index);
    let entry = physical_at(number, 0x20_0000 * index + 0x83);
    write_rows(bytes, 0, &[(offset, Content::Word(entry))]);
}

fn write_large_pages(bytes: &mut [u8], number: u64, count: usize)
    requires number { number ≤ 64 }
    requires count { count ≤ 49 }
    requires room { 0x10000 ≤ length bytes.old }
    ensures { bytes.new ≡ written (large_pages number count) bytes.old }
{
    for index in 0..count {
        write_large_page(bytes, number, index);
    }
}

fn write_upper_tables(bytes: &mut [u8], number: u64)
    requires { 0x10000 ≤ length bytes.old }
    ensures { bytes.new ≡ written (upper_tables number) bytes.old }
{
    write_rows(
        bytes,
        0,
        &[
            (0x1ff8, Content::Word(root_entry(number))),
            (0x2ff0, Content::Word(physical_at(number, 0x7003))),
        ],
    );
}

// Writes the table of level 4 that a root of five levels leads to.
fn write_fifth_level(bytes: &mut [u8], number: u64)
    requires { 0x10000 ≤ length bytes.old }
    ensures { bytes.new ≡ written (fifth_level number) bytes.old }
{
    write_at_five_levels(bytes, number, 0xbff8, physical_at(number, 0x2003));
}

// Writes the kernel's page tables.
pub(crate) fn write_page_tables(bytes: &mut [u8], number: u64)
    requires number { number ≤ 64 }
    requires room { 0x10000 ≤ length bytes.old }
    ensures { bytes.new ≡ written (page_tables number) bytes.old }
{
    write_upper_tables(bytes, number);
    write_fifth_level(bytes, number);
    write_large_pages(bytes, number, large_page_count(number));
}
