//! The table that a symbol file is.
ghost use Rattle.std.specs.Prelude.{◌≡◌, Ok, IfOk, IfErr};
ghost use Rattle.std.specs.Option.{option_copied};
ghost use Rattle.isf_reader.specs.Depth.{entry_named};
ghost use Rattle.isf_reader.specs.Table.{table_of, RefusesAs, IsTable};

use crate::depth::first_too_deep;
use crate::file::{Lists, file_of, tree_of};
use crate::lookup::entry_named;
use crate::{BaseType, EnumType, IsfRefusal, Symbol, UserType};
use layer_base::Name;
use std::alloc::Global;
use std::marker::Model;

const MOST_BYTES: usize = 1 << 27;

/// The base types, enums, user types and symbols of a kernel, as its symbol file gives them. Contracts see each of the
/// four as the list of its entries, by their names in byte order, each name once. Fields stand by offset and then by
/// name, constants by value and then by name, and anonymous fields nest at most 32 levels deep.
#[derive(Debug, Drop)]
pub struct Table {
    lists: Lists,
}

impl Model for Table {
    ghost use Rattle.std.specs.Prelude.{ℕ, List, refl};
    ghost use Rattle.std.specs.Coded.{code_by, coded_list, coded×, coded_ℕ};
    ghost use Rattle.isf_reader.specs.Lists.{table_view};
    ghost use Rattle.isf_reader.specs.Table.{IsfTable, IsTable};
    ghost use Rattle.isf_reader.specs.declared.base_type.BaseType.{BaseType};
    ghost use Rattle.isf_reader.specs.declared.enum_type.EnumType.{EnumType};
    ghost use Rattle.isf_reader.specs.declared.symbol.Symbol.{Symbol};
    ghost use Rattle.isf_reader.specs.declared.user_type.UserType.{UserType};
    ghost use Rattle.isf_reader.specs.contracts.base_type.BaseType as base;
    ghost use Rattle.isf_reader.specs.contracts.enum_type.EnumType as enumeration;
    ghost use Rattle.isf_reader.specs.contracts.symbol.Symbol as symbol;
    ghost use Rattle.isf_reader.specs.contracts.user_type.UserType as user;

    ghost Value = { IsfTable };

    ghost coded = { code_by
        (List (List ℕ × BaseType) × (List (List ℕ × EnumType) × (List (List ℕ × UserType) × List (List ℕ × Symbol))))
        (coded× (coded_list (coded× (coded_list coded_ℕ) base.the_row.coded))
        (coded× (coded_list (coded× (coded_list coded_ℕ) enumeration.the_row.coded))
        (coded× (coded_list (coded× (coded_list coded_ℕ) user.the_row.coded)) (coded_list (coded× (coded_list coded_ℕ) symbol.the_row.coded)))))
        (λ s. (s.bases, (s.enums, (s.users, s.symbols))))
        (λ p. record { bases = p.0; enums = (p.1).0; users = ((p.1).1).0; symbols = ((p.1).1).1 })
        (λ _. refl) };

    ghost view = { λ t. table_view t.lists };

    ghost invariant = { λ t. IsTable (table_view t.lists) };
}

impl Table {
    /// Reads a symbol file. The refusals are tried in the order that `IsfRefusal` lists them: a file of more than
    /// 134,217,728 bytes, bytes that are no JSON text, then the first entry at fault, the sections in the order base
    /// types, enums, user types, symbols and their entries by name in byte order; then the first user type in byte order
    /// in which anonymous fields nest too deep.
    #[tactic(auto, unfolding(crate::specs::Table::table_of))]
    pub fn read(alloc: Global, json: &[u8]) -> Result<Table, IsfRefusal>
        ensures ok { IfOk result (λ table. table_of json.now ≡ Ok table) }
        ensures err { IfErr result (RefusesAs (table_of json.now)) }
        ensures kept { IfOk result IsTable }
    {
        if json.len() > MOST_BYTES {
            return Err(IsfRefusal::TooLarge { len: json.len() });
        }
        let root = tree_of(alloc, json)?;
        let lists = file_of(alloc, root)?;
        if let Some(name) = first_too_deep(alloc, &lists.users)? {
            return Err(IsfRefusal::AnonDepth { name });
        }
        Ok(Table { lists })
    }

    /// Returns the base type with a name, or None where no base type has it.
    pub fn base(&self, name: &[u8]) -> Option<&BaseType>
        ensures value { option_copied result ≡ entry_named name.now self.now.bases }
        ensures kept { IsTable self.now }
    {
        entry_named(&self.lists.bases, name)
    }

    /// Returns the enum with a name, or None where no enum has it.
    pub fn enumeration(&self, name: &[u8]) -> Option<&EnumType>
        ensures value { option_copied result ≡ entry_named name.now self.now.enums }
        ensures kept { IsTable self.now }
    {
        entry_named(&self.lists.enums, name)
    }

    /// Returns the user type with a name, or None where no user type has it.
    pub fn user(&self, name: &[u8]) -> Option<&UserType>
        ensures value { option_copied result ≡ entry_named name.now self.now.users }
        ensures kept { IsTable self.now }
    {
        entry_named(&self.lists.users, name)
    }

    /// The symbols, by their names in byte order.
    pub fn symbols(&self) -> &[(Name, Symbol)]
        ensures value { result.now ≡ self.now.symbols }
        ensures kept { IsTable self.now }
    {
        &self.lists.symbols
    }
}
