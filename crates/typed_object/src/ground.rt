//! The ground of a command: a symbol file and the kernel of an image.
ghost use Rattle.std.specs.Prelude.{◌≡◌, ◌*◌, ◌^◌, ◌<◌, option_map, IfSome};
ghost use Rattle.type_layout.specs.Member.{spot};
ghost use Rattle.typed_object.specs.Ground.{kernel_space};
ghost use Rattle.typed_object.specs.Needs.{symbol_address, member_of_type, needed_member, first_missing};

use crate::Objects;
use crate::needs::{first_missing, member_of_type, needed_member, symbol_address};
use isf_reader::Table;
use kernel_records::{Kernel, Need};
use layer_base::Space;
use symbol_index::Symbols;
use type_layout::Place;

/// What a command over the kernel stands on: the table of a symbol file, its symbols, and where the kernel of the image
/// is. The calls take no memory.
#[derive(Clone, Copy, Debug)]
pub struct Ground<'a, 't> {
    pub table: &'t Table,
    pub symbols: &'a Symbols<'t>,
    pub kernel: Kernel,
    ghost same: { symbols.now ≡ table.now.symbols },
}

impl<'a, 't> Ground<'a, 't> {
    /// The first need that the table does not meet, or None where it meets all of them.
    pub fn first_missing(self, needs: &[Need]) -> Option<Need>
        ensures { result ≡ first_missing self.entry.table.now needs.now }
    {
        first_missing(self.table, self.symbols, needs)
    }

    /// The address of the symbol of a name as the symbol file has it, without the kernel's shift. None where no symbol has
    /// the name.
    pub fn symbol_address(self, name: &[u8]) -> Option<u64>
        ensures { result ≡ symbol_address self.entry.table.now name.now }
    {
        symbol_address(self.table, self.symbols, name)
    }

    /// The place of the member that a need asks for. None where the table has no such member, and for a symbol.
    pub fn needed_member(self, need: Need) -> Option<Place<'t>>
        ensures place { option_map spot result ≡ needed_member self.entry.table.now need }
        ensures near { IfSome result (λ place. place.offset < 33 * 2 ^ 32) }
    {
        needed_member(self.table, need)
    }

    /// The place of a member of the user type of a name. None where nothing defines the type or no field has the name.
    pub fn member(self, user: &[u8], name: &[u8]) -> Option<Place<'t>>
        ensures place { option_map spot result ≡ member_of_type self.entry.table.now user.now name.now }
        ensures near { IfSome result (λ place. place.offset < 33 * 2 ^ 32) }
    {
        member_of_type(self.table, user, name)
    }

    /// The space of the kernel's page tables.
    pub fn space(self) -> Space
        ensures { result ≡ kernel_space self.entry.kernel }
    {
        Space::paged(self.kernel.root, self.kernel.levels)
    }

    /// The objects of the kernel's space.
    pub fn objects(self) -> Objects<'t>
        ensures table { result.table.now ≡ self.entry.table.now }
        ensures space { result.space ≡ kernel_space self.entry.kernel }
    {
        Objects {
            table: self.table,
            space: self.space(),
        }
    }
}
