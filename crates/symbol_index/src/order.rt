//! The symbols of a table in order.
ghost use Rattle.std.specs.Prelude.{◌≡◌, map, IfOk};
ghost use Rattle.std.specs.List.Sorted.{IsNonDecreasingBy};
ghost use Rattle.isf_reader.specs.Table.{HasNamesInOrder};
ghost use Rattle.symbol_index.specs.Index.{listed};
ghost use Rattle.symbol_index.specs.Order.{indexed_address, AreSameByAddress};

use crate::indexed::IndexedSymbol;
use isf_reader::Table;
use std::alloc::{AllocError, Global};

// The symbols by their names.
pub(crate) fn by_names<'t>(
    alloc: Global,
    table: &'t Table,
) -> Result<Vec<IndexedSymbol<'t>>, AllocError>
    ensures all { IfOk result (λ symbols. map listed symbols.items ≡ table.now.symbols) }
    ensures order { IfOk result (λ symbols. HasNamesInOrder (map listed symbols.items)) }
{
    let all = table.symbols();
    let mut symbols = Vec::with_capacity(alloc, all.len())?;
    for (name, symbol) in all {
        symbols.push(IndexedSymbol { name, symbol })?;
    }
    Ok(symbols)
}

// The symbols by their addresses, and those of one address by their names.
pub(crate) fn by_addresses<'t>(
    alloc: Global,
    names: &[IndexedSymbol<'t>],
) -> Result<Vec<IndexedSymbol<'t>>, AllocError>
    ensures order { IfOk result (λ symbols. IsNonDecreasingBy indexed_address symbols.items) }
    ensures same { IfOk result (λ symbols. AreSameByAddress names.now symbols.items) }
{
    let mut symbols = Vec::from_slice(alloc, names)?;
    symbols.sort_by_key(|indexed| indexed.symbol.address)?;
    Ok(symbols)
}
