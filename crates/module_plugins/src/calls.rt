//! The table of system calls.
ghost use Rattle.std.specs.Prelude.{◌≡◌};
ghost use Rattle.std.specs.Option.{option_copied};
ghost use Rattle.symbol_index.specs.Index.{held};
ghost use Rattle.module_plugins.specs.Syscalls.{elements, words_before, word_count, call_table};

use isf_reader::TypeRef;
use symbol_index::Entry;
use typed_object::Ground;
use word_table::WordTable;

// How many words are listed at most.
const MOST: u64 = 4096;

// How many elements a type has, which is an array.
fn elements(of: Option<&TypeRef>) -> u64
    ensures { result ≡ elements (option_copied of.entry) }
{
    match of {
        Some(TypeRef::Array { count, .. }) => *count,
        _ => 0,
    }
}

// How many words there are from an address to the next symbol.
fn words_before(address: u64, next: Option<u64>) -> u64
    ensures { result ≡ words_before address next }
{
    match next {
        Some(next) => next.saturating_sub(address) / 8,
        None => 0,
    }
}

fn word_count(ground: Ground<'_, '_>, symbol: Entry<'_>) -> u64
    ensures { result ≡ word_count ground.entry.table.now (held symbol.entry) }
{
    let elements = elements(symbol.of);
    if elements > 0 {
        elements
    } else {
        words_before(symbol.address, ground.symbols.next_after(symbol.address))
    }
}

/// The table of system calls that a symbol is.
pub(crate) fn call_table(ground: Ground<'_, '_>, symbol: Entry<'_>) -> WordTable
    ensures { result ≡ call_table ground.entry.table.now ground.entry.kernel (held symbol.entry) }
{
    WordTable {
        base: ground.kernel.shifted(symbol.address),
        count: word_count(ground, symbol),
        limit: MOST,
    }
}
