//! What is told of a symbol.
ghost use Rattle.std.specs.Prelude.{◌≡◌, option_map};
ghost use Rattle.symbol_index.specs.Index.{held, listed, told};

use isf_reader::{Symbol, TypeRef};
use layer_base::Name;

/// A symbol: its address, its name and its type, where it has one.
#[derive(Clone, Copy, Debug)]
pub struct Entry<'s> {
    pub address: u64,
    pub name: &'s [u8],
    pub of: Option<&'s TypeRef>,
}

// A symbol of a table, with its name.
#[derive(Clone, Copy, Debug)]
pub(crate) struct IndexedSymbol<'t> {
    pub name: &'t Name,
    pub symbol: &'t Symbol,
}

// What is told of a symbol.
pub(crate) fn entry_of<'t>(indexed: Option<IndexedSymbol<'t>>) -> Option<Entry<'t>>
    ensures { option_map held result ≡ option_map (λ indexed. told (listed indexed)) indexed.entry }
{
    let indexed = indexed?;
    Some(Entry {
        address: indexed.symbol.address,
        name: indexed.name.items(),
        of: indexed.symbol.of.as_ref(),
    })
}
