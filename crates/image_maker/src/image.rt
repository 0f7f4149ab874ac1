//! The image of a made machine: a LiME file of two ranges.
ghost use Rattle.std.specs.Prelude.{◌≡◌, ◌+◌, ◌++◌, ◌^◌, ◌<◌, ◌≤◌, length, take, drop, vec_len, OnOk, IfOk};
ghost use Rattle.image_maker.specs.Banner.{banner};
ghost use Rattle.image_maker.specs.Header.{header};
ghost use Rattle.image_maker.specs.Image.{kernel, machine, front, made_image};
ghost use Rattle.image_maker.specs.Machine.{memory_size};
ghost use Rattle.image_maker.specs.PageTables.{page_tables};
ghost use Rattle.image_maker.specs.Task.{tasks};
ghost use Rattle.image_maker.specs.Written.{zeros, written};

use crate::banner::banner;
use crate::files::{write_dentries, write_names, write_open_files, write_pipe, write_root_mount};
use crate::header::header;
use crate::kernel::{write_first_task, write_modules, write_system_calls};
use crate::machine::{memory_size, start, task_count};
use crate::page_tables::write_page_tables;
use crate::row::{Content, write_rows};
use crate::task::write_tasks;
use std::alloc::{AllocError, Global};

// How many bytes stand in front of the machine's memory: a header, a range of zeros, and a header.
const FRONT_SIZE: usize = 32 + 0x9_f000 + 32;

// Writes the kernel's objects and its files, with the text of its banner.
fn write_kernel(bytes: &mut [u8], number: u64, text: &[u8])
    requires number { number ≤ 64 }
    requires banner { text.now ≡ banner number }
    requires short { length text.now ≤ 256 }
    requires room { 0x10000 ≤ length bytes.old }
    ensures { bytes.new ≡ written (kernel number) bytes.old }
{
    write_first_task(bytes, number);
    write_modules(bytes, number);
    write_system_calls(bytes, number);
    write_rows(bytes, 0, &[(0x8000, Content::Text(text))]);
    write_root_mount(bytes, number);
    write_dentries(bytes, number);
    write_names(bytes);
    write_pipe(bytes, number);
    write_open_files(bytes, number);
}

// Writes the machine's memory over bytes that are zero.
fn write_machine(bytes: &mut [u8], number: u64, text: &[u8])
    requires number { number ≤ 64 }
    requires banner { text.now ≡ banner number }
    requires short { length text.now ≤ 256 }
    requires zeros { bytes.old ≡ zeros (memory_size number) }
    requires size { length bytes.old ≡ memory_size number }
    ensures { bytes.new ≡ machine number }
{
    write_page_tables(bytes, number);
    write_kernel(bytes, number, text);
    write_tasks(bytes, number, task_count(number));
}

// Appends so many zero bytes.
#[tactic(auto, unfolding(crate::specs::Written::zeros))]
fn append_zeros(bytes: &mut Vec<u8>, count: usize) -> Result<(), AllocError>
    requires { vec_len bytes.old + count < 2 ^ 63 }
    ensures zeros { OnOk result (bytes.new.items ≡ bytes.old.items ++ zeros count) }
    ensures long { OnOk result (vec_len bytes.new ≡ vec_len bytes.old + count) }
{
    bytes.resize(bytes.len() + count, 0)?;
    Ok(())
}

// What stands in front of the machine's memory, with room for that memory behind it.
#[tactic(auto, unfolding(crate::specs::Image::front))]
fn front(alloc: Global, number: u64) -> Result<Vec<u8>, AllocError>
    requires { number ≤ 64 }
    ensures front { IfOk result (λ image. image.items ≡ front number) }
    ensures long { IfOk result (λ image. vec_len image ≡ 0x9f040) }
{
    let size = memory_size(number);
    let first = start(number);
    let mut image = Vec::with_capacity(alloc, FRONT_SIZE + size)?;
    image.extend_from_slice(&header(0x1000, 0x9_ffff))?;
    append_zeros(&mut image, 0x9_f000)?;
    image.extend_from_slice(&header(first, first + size as u64 - 1))?;
    Ok(image)
}

// Writes the machine's memory over the zeros that an image ends with.
fn write_memory(image: &mut [u8], from: usize, number: u64, text: &[u8])
    requires number { number ≤ 64 }
    requires banner { text.now ≡ banner number }
    requires short { length text.now ≤ 256 }
    requires zeros { drop from image.old ≡ zeros (memory_size number) }
    requires size { from + memory_size number ≡ length image.old }
    ensures { image.new ≡ take from image.old ++ machine number }
{
    write_machine(&mut image[from..], number, text);
}

// The image of a number.
pub(crate) fn made_image(alloc: Global, number: u64) -> Result<Vec<u8>, AllocError>
    requires { number ≤ 64 }
    ensures { IfOk result (λ image. image.items ≡ made_image number) }
{
    let banner = banner(alloc, number)?;
    let mut image = front(alloc, number)?;
    let memory = image.len();
    append_zeros(&mut image, memory_size(number))?;
    write_memory(&mut image, memory, number, &banner);
    Ok(image)
}
