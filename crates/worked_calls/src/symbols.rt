//! The two searches of symbols by address.
use crate::tables::{SYMBOLS, table_of};
use anyhow::Result;
use std::alloc::Global;
use symbol_index::Symbols;

const ADDRESSES: [u64; 6] = [
    0,
    0xffffffff80005000,
    0xffffffff8000c000,
    0xffffffff8000c0c1,
    0xfffffffffffffffe,
    0xffffffffffffffff,
];

// Prints the symbol at an address.
fn print_at<R: Print + Alloc<A = Global>>(
    rt: &R,
    symbols: &Symbols<'_>,
    address: u64,
) -> Result<()> {
    let Some(entry) = symbols.at_address(address) else {
        println!(rt; "at_address {address:#x}: none")?;
        return Ok(());
    };
    let found = entry.address;
    let name = String::from_utf8_lossy(rt.alloc(), entry.name)?;
    println!(rt; "at_address {address:#x}: {name} at {found:#x}")?;
    Ok(())
}

// Prints the address of a symbol that comes next.
fn print_next<R: Print + Alloc<A = Global>>(
    rt: &R,
    symbols: &Symbols<'_>,
    address: u64,
) -> Result<()> {
    match symbols.next_after(address) {
        Some(next) => println!(rt; "next_after {address:#x}: {next:#x}")?,
        None => println!(rt; "next_after {address:#x}: none")?,
    }
    Ok(())
}

/// Prints what is at each address and next after it, and then what is in a symbol file without symbols.
pub(crate) fn print_symbols<R: Print + Alloc<A = Global>>(rt: &R) -> Result<()> {
    let table = table_of(rt.alloc(), SYMBOLS)?;
    let symbols = Symbols::of(rt.alloc(), &table)?;
    for address in ADDRESSES {
        print_at(rt, &symbols, address)?;
        print_next(rt, &symbols, address)?;
    }
    let table = table_of(rt.alloc(), "{}")?;
    let symbols = Symbols::of(rt.alloc(), &table)?;
    print_at(rt, &symbols, 0)?;
    print_next(rt, &symbols, 0)
}
