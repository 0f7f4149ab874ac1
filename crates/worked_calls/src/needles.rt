//! The first hit of several needles in a window: equal ones, and some that begin alike.
use anyhow::Result;
use needle_search::{Needles, first_in};
use std::alloc::Global;

// Prints the first hit in a window.
fn print_first<R: Print>(rt: &R, needles: &Needles, window: &str) -> Result<()> {
    match first_in(needles, window.as_bytes()) {
        Some(hit) => {
            let (needle, at) = (hit.needle, hit.at);
            println!(rt; "first_in {window:?}: needle {needle} at {at}")?;
        }
        None => println!(rt; "first_in {window:?}: none")?,
    }
    Ok(())
}

/// Prints the first hit of eight needles in each of some windows.
pub(crate) fn print_searches<R: Print + Alloc<A = Global>>(rt: &R) -> Result<()> {
    let mut needles = Needles::new(rt.alloc());
    print_first(rt, &needles, "AAAA")?;
    needles.add(b"AAAA")?;
    needles.add(b"AA")?;
    needles.add(b"AA")?;
    needles.add(b"AAB")?;
    needles.add(b"B")?;
    needles.add(b"C")?;
    needles.add(b"D")?;
    needles.add(b"zz")?;
    for window in ["xAAAAAB", "xAAB", "xAB", "zCDzz", "Dzz", "abz", ""] {
        print_first(rt, &needles, window)?;
    }
    Ok(())
}
