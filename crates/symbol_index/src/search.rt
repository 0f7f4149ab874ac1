//! Searching among symbols that stand in order.
ghost use Rattle.std.specs.Prelude.{◌≡◌, ℕ, ◌<◌, ◌≤◌, ◌==◌, nat_le, nat_lt, map, filter, length, slice_index_or, option_map, option_and_then};
ghost use Rattle.std.specs.Cmp.Lexicographic.{slice_cmp};
ghost use Rattle.std.specs.List.{find};
ghost use Rattle.std.specs.List.Sorted.{IsNonDecreasingBy};
ghost use Rattle.std.specs.Ordering.{nat_cmp};
ghost use Rattle.isf_reader.specs.Depth.{entry_named};
ghost use Rattle.isf_reader.specs.Table.{HasNamesInOrder};
ghost use Rattle.symbol_index.specs.Index.{listed, least, greatest};
ghost use Rattle.symbol_index.specs.Order.{indexed_address};

use crate::indexed::IndexedSymbol;
use std::cmp::Ordering;

// The symbol of a name.
pub(crate) fn symbol_named<'t>(
    symbols: &[IndexedSymbol<'t>],
    name: &[u8],
) -> Option<IndexedSymbol<'t>>
    requires { HasNamesInOrder (map listed symbols.now) }
    ensures { option_map listed result ≡ option_map (λ symbol. (name.now, symbol)) (entry_named name.now (map listed symbols.now)) }
{
    let found = symbols.binary_search_by(
        |indexed: &IndexedSymbol<'_>| -> Ordering
            ensures { result ≡ slice_cmp nat_cmp indexed.now.name.now name.entry.now }
        { indexed.name.items().cmp(name) },
    );
    match found {
        Ok(place) => Some(symbols[place]),
        Err(_) => None,
    }
}

// How many addresses are below one.
fn count_below(symbols: &[IndexedSymbol<'_>], address: u64) -> usize
    requires { IsNonDecreasingBy indexed_address symbols.now }
    ensures bound { result ≤ length symbols.now }
    ensures below { (k : ℕ) (d : IndexedSymbol) → k < result → indexed_address (slice_index_or symbols.now k d) < address }
    ensures others { (k : ℕ) (d : IndexedSymbol) → result ≤ k → k < length symbols.now → address ≤ indexed_address (slice_index_or symbols.now k d) }
{
    symbols.partition_point(
        |indexed: &IndexedSymbol<'_>| -> bool
            ensures { result ≡ nat_lt (indexed_address indexed.now) address }
        { indexed.symbol.address < address },
    )
}

// How many addresses are at or below one.
fn count_up_to(symbols: &[IndexedSymbol<'_>], address: u64) -> usize
    requires { IsNonDecreasingBy indexed_address symbols.now }
    ensures bound { result ≤ length symbols.now }
    ensures within { (k : ℕ) (d : IndexedSymbol) → k < result → indexed_address (slice_index_or symbols.now k d) ≤ address }
    ensures above { (k : ℕ) (d : IndexedSymbol) → result ≤ k → k < length symbols.now → address < indexed_address (slice_index_or symbols.now k d) }
{
    symbols.partition_point(
        |indexed: &IndexedSymbol<'_>| -> bool
            ensures { result ≡ nat_le (indexed_address indexed.now) address }
        { indexed.symbol.address <= address },
    )
}

// The first symbol at an address.
pub(crate) fn first_at<'t>(symbols: &[IndexedSymbol<'t>], address: u64) -> Option<IndexedSymbol<'t>>
    requires { IsNonDecreasingBy indexed_address symbols.now }
    ensures { result ≡ find (λ indexed. indexed_address indexed == address) symbols.now }
{
    let place = count_below(symbols, address);
    if place < symbols.len() && symbols[place].symbol.address == address {
        Some(symbols[place])
    } else {
        None
    }
}

// The least greater address.
pub(crate) fn next_after(symbols: &[IndexedSymbol<'_>], address: u64) -> Option<u64>
    requires { IsNonDecreasingBy indexed_address symbols.now }
    ensures { result ≡ least (filter (λ other. nat_lt address other) (map indexed_address symbols.now)) }
{
    let place = count_up_to(symbols, address);
    if place < symbols.len() {
        Some(symbols[place].symbol.address)
    } else {
        None
    }
}

// The greatest address at or below one.
fn nearest(symbols: &[IndexedSymbol<'_>], address: u64) -> Option<u64>
    requires { IsNonDecreasingBy indexed_address symbols.now }
    ensures { result ≡ greatest (filter (λ other. nat_le other address) (map indexed_address symbols.now)) }
{
    let count = count_up_to(symbols, address);
    if count > 0 {
        Some(symbols[count - 1].symbol.address)
    } else {
        None
    }
}

// The first symbol at the greatest address at or below one.
pub(crate) fn first_at_nearest<'t>(
    symbols: &[IndexedSymbol<'t>],
    address: u64,
) -> Option<IndexedSymbol<'t>>
    requires { IsNonDecreasingBy indexed_address symbols.now }
    ensures { result ≡ option_and_then (λ nearest. find (λ indexed. indexed_address indexed == nearest) symbols.now)
        (greatest (filter (λ other. nat_le other address) (map indexed_address symbols.now))) }
{
    match nearest(symbols, address) {
        Some(nearest) => first_at(symbols, nearest),
        None => None,
    }
}
