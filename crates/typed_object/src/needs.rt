//! What a symbol file has of what commands need. The calls take no memory.
ghost use Rattle.std.specs.Prelude.{◌≡◌, ◌*◌, ◌^◌, ◌<◌, option_map, IfSome};
ghost use Rattle.kernel_records.specs.Meaning.{meant};
ghost use Rattle.type_layout.specs.Member.{spot};
ghost use Rattle.typed_object.specs.Needs.{symbol_address, root_address, member_of_type, member_meant, needed_member, has_meant, is_met, first_missing};

use isf_reader::Table;
use kernel_records::{Meaning, Need, meaning_of};
use symbol_index::Symbols;
use type_layout::{Place, member_named};

/// The address of the symbol of a name, or None where no symbol has it.
pub fn symbol_address(table: &Table, symbols: &Symbols<'_>, name: &[u8]) -> Option<u64>
    requires { symbols.now ≡ table.now.symbols }
    ensures { result ≡ symbol_address table.now name.now }
{
    Some(symbols.by_name(name)?.address)
}

/// The address of the first of the symbols `init_top_pgt`, `init_level4_pgt` and `swapper_pg_dir` that there is.
pub fn root_address(table: &Table, symbols: &Symbols<'_>) -> Option<u64>
    requires { symbols.now ≡ table.now.symbols }
    ensures { result ≡ root_address table.now }
{
    symbol_address(table, symbols, b"init_top_pgt")
        .or(symbol_address(table, symbols, b"init_level4_pgt"))
        .or(symbol_address(table, symbols, b"swapper_pg_dir"))
}

/// The place of a member of the user type of a name, or None where nothing defines the type or no field has the name.
pub fn member_of_type<'t>(table: &'t Table, user: &[u8], name: &[u8]) -> Option<Place<'t>>
    ensures place { option_map spot result ≡ member_of_type table.now user.now name.now }
    ensures near { IfSome result (λ place. place.offset < 33 * 2 ^ 32) }
{
    member_named(table, user, name).ok()
}

fn member_meant<'t>(table: &'t Table, meaning: Meaning<'_>) -> Option<Place<'t>>
    ensures place { option_map spot result ≡ member_meant table.now (meant meaning.entry) }
    ensures near { IfSome result (λ place. place.offset < 33 * 2 ^ 32) }
{
    match meaning {
        Meaning::Symbol(_) | Meaning::RootSymbol => None,
        Meaning::Member { user, name } => member_of_type(table, user, name),
    }
}

/// The place of the member that a need asks for. None where the table has no such member, and for a symbol.
pub fn needed_member<'t>(table: &'t Table, need: Need) -> Option<Place<'t>>
    ensures place { option_map spot result ≡ needed_member table.now need }
    ensures near { IfSome result (λ place. place.offset < 33 * 2 ^ 32) }
{
    member_meant(table, meaning_of(need))
}

// Whether a table has what is meant.
fn has_meant(table: &Table, symbols: &Symbols<'_>, meaning: Meaning<'_>) -> bool
    requires { symbols.now ≡ table.now.symbols }
    ensures { result ≡ has_meant table.now (meant meaning.entry) }
{
    match meaning {
        Meaning::Symbol(name) => symbol_address(table, symbols, name).is_some(),
        Meaning::RootSymbol => root_address(table, symbols).is_some(),
        Meaning::Member { user, name } => member_of_type(table, user, name).is_some(),
    }
}

fn is_met(table: &Table, symbols: &Symbols<'_>, need: Need) -> bool
    requires { symbols.now ≡ table.now.symbols }
    ensures { result ≡ is_met table.now need }
{
    has_meant(table, symbols, meaning_of(need))
}

/// The first need that a table does not meet, or None where it meets all of them. The symbols are those of the table.
pub fn first_missing(table: &Table, symbols: &Symbols<'_>, needs: &[Need]) -> Option<Need>
    requires { symbols.now ≡ table.now.symbols }
    ensures { result ≡ first_missing table.now needs.now }
{
    needs
        .iter()
        .copied()
        .find(|need| !is_met(table, symbols, *need))
}
