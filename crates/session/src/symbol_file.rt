//! The symbol file, as the lines of a script look into it.
ghost use Rattle.std.specs.Prelude.{◌≡◌};

use isf_reader::Table;
use kernel_records::Kernel;
use symbol_index::Symbols;
use typed_object::Ground;

/// The table of a symbol file, and the index of its symbols.
#[derive(Clone, Copy)]
pub(crate) struct SymbolFile<'s, 't> {
    pub(crate) table: &'t Table,
    pub(crate) symbols: &'s Symbols<'t>,
    ghost same: { symbols.now ≡ table.now.symbols },
}

impl<'s, 't> SymbolFile<'s, 't> {
    /// The file of a table and an index of its symbols.
    pub(crate) fn of(table: &'t Table, symbols: &'s Symbols<'t>) -> SymbolFile<'s, 't>
        requires { symbols.now ≡ table.now.symbols }
        ensures { result.table.now ≡ table.now }
    {
        SymbolFile { table, symbols }
    }

    /// What the commands over a kernel look into.
    pub(crate) fn ground(self, kernel: Kernel) -> Ground<'s, 't>
        ensures table { result.table.now ≡ self.entry.table.now }
        ensures kernel { result.kernel ≡ kernel }
    {
        Ground {
            table: self.table,
            symbols: self.symbols,
            kernel,
        }
    }
}
