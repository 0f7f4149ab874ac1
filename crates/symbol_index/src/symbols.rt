//! An index of symbols.
ghost use Rattle.std.specs.Prelude.{◌≡◌, IfOk, option_map};
ghost use Rattle.symbol_index.specs.Index.{held, by_name, at_address, next_after, at_or_before};

use crate::indexed::{Entry, IndexedSymbol, entry_of};
use crate::order::{by_addresses, by_names};
use crate::search::{first_at, first_at_nearest, next_after, symbol_named};
use isf_reader::Table;
use std::alloc::{AllocError, Global};
use std::marker::Model;

/// The symbols of a table, which are found by name and by address. Contracts see the symbols of the table.
#[derive(Debug, Drop)]
pub struct Symbols<'t> {
    by_name: Vec<IndexedSymbol<'t>>,
    by_address: Vec<IndexedSymbol<'t>>,
}

impl<'t> Model for Symbols<'t> {
    ghost use Rattle.std.specs.Prelude.{List, map};
    ghost use Rattle.std.specs.Coded.{coded_list, coded×, coded_ℕ};
    ghost use Rattle.isf_reader.specs.contracts.symbol.Symbol as symbol;
    ghost use Rattle.symbol_index.specs.Index.{Named, listed};
    ghost use Rattle.symbol_index.specs.Order.{IsIndex};

    ghost Value = { List Named };

    ghost coded = { coded_list (coded× (coded_list coded_ℕ) symbol.the_row.coded) };

    ghost view = { λ s. map listed s.by_name.items };

    ghost invariant = { λ s. IsIndex s.by_name.items s.by_address.items };
}

impl<'t> Symbols<'t> {
    /// Makes the index of a table's symbols. It takes all its memory here.
    pub fn of(alloc: Global, table: &'t Table) -> Result<Symbols<'t>, AllocError>
        ensures { IfOk result (λ symbols. symbols ≡ table.now.symbols) }
    {
        let by_name = by_names(alloc, table)?;
        let by_address = by_addresses(alloc, &by_name)?;
        Ok(Symbols {
            by_name,
            by_address,
        })
    }

    /// Returns the symbol with a name, or None where no symbol has it.
    pub fn by_name(&self, name: &[u8]) -> Option<Entry<'t>>
        ensures { option_map held result ≡ by_name name.now self.now }
    {
        entry_of(symbol_named(&self.by_name, name))
    }

    /// Returns the symbol at an address, or None where there is no symbol; ties go to the first name in byte order.
    pub fn at_address(&self, address: u64) -> Option<Entry<'t>>
        ensures { option_map held result ≡ at_address address self.now }
    {
        entry_of(first_at(&self.by_address, address))
    }

    /// Returns the least address of a symbol above an address, or None where no symbol is above it.
    pub fn next_after(&self, address: u64) -> Option<u64>
        ensures { result ≡ next_after address self.now }
    {
        next_after(&self.by_address, address)
    }

    /// Returns the symbol at the greatest address that is at or below an address, or None where no symbol is; ties go
    /// to the first name in byte order.
    pub fn at_or_before(&self, address: u64) -> Option<Entry<'t>>
        ensures { option_map held result ≡ at_or_before address self.now }
    {
        entry_of(first_at_nearest(&self.by_address, address))
    }
}
