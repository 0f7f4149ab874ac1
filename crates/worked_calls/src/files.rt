//! A file that is written by one adapter and read by the others.
use anyhow::{Context, Result};
use layer_base::{Device, PathWord, Source, write_whole};
use real_files::{RealDevice, RealSink, RealSource};
use std::alloc::Global;
use std::fs;
use std::os::unix::fs::FileExt;
use std::rt::Runtime;

/// A file that only this program writes.
const PATH: &str = "written_by_worked_calls";

// Prints the bytes of a file from a place on, or that the call failed.
fn print_device<R: Runtime<A = Global>>(rt: &R, path: &str, at: u64) -> Result<()>
where
    R::File: FileExt,
{
    let mut device = RealDevice::new(rt.clone()?, PathWord::of(rt.alloc(), path)?);
    let mut buf = [0; 8];
    match device.read_at(at, &mut buf) {
        Ok(count) => {
            let bytes = &buf[..count];
            println!(rt; "  device at {at}: {bytes:?}")?;
        }
        Err(_) => println!(rt; "  device at {at}: failed")?,
    }
    Ok(())
}

// Prints the next bytes of a source.
fn print_source<S: Source, R: Print>(rt: &R, source: &mut S) -> Result<()> {
    let mut buf = [0; 5];
    let count = source.read(&mut buf).ok().context("the source failed")?;
    let bytes = &buf[..count];
    println!(rt; "  source: {bytes:?}")?;
    Ok(())
}

/// Writes a file over a longer one, and prints what is read of it.
pub(crate) fn print_files<R: Runtime<A = Global>>(rt: &R) -> Result<()>
where
    R::File: FileExt,
{
    println!(rt; "real files")?;
    print_device(rt, "no_such_file", 0)?;
    fs::write(rt, PATH, "abcdefghijklmn")?;
    let mut sink = RealSink::new(rt.clone()?, PathWord::of(rt.alloc(), PATH)?);
    print_device(rt, PATH, 10)?;
    write_whole(&mut sink, b"0123")
        .ok()
        .context("the sink failed")?;
    write_whole(&mut sink, b"456789")
        .ok()
        .context("the sink failed")?;
    print_device(rt, PATH, 0)?;
    print_device(rt, PATH, 8)?;
    print_device(rt, PATH, 10)?;
    let mut source = RealSource::new(rt.clone()?, PathWord::of(rt.alloc(), PATH)?);
    print_source(rt, &mut source)?;
    print_source(rt, &mut source)?;
    print_source(rt, &mut source)?;
    fs::remove_file(rt, PATH)?;
    Ok(())
}
