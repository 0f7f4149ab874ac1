//! What the search needs of a symbol file, looked up once.
ghost use Rattle.std.specs.Prelude.{◌≡◌};
ghost use Rattle.kernel_find.specs.Layout.{IsLayout, table_of};

use isf_reader::Table;
use kernel_records::Need;
use layer_base::Space;
use symbol_index::Symbols;
use type_layout::Place;
use typed_object::{
    Objects, member_of_type, needed_member, offset_of, root_address, symbol_address,
};

/// What a symbol file says of the first task: the addresses of symbols, and the places of the members of a task.
#[derive(Clone, Copy, Debug)]
pub(crate) struct Layout<'t> {
    pub objects: Objects<'t>,
    pub init_task: u64,
    pub init_files: u64,
    pub root: u64,
    pub name: u64,
    pub pid: Option<Place<'t>>,
    pub files: Option<Place<'t>>,
    pub old_state: Option<Place<'t>>,
    pub new_state: Option<Place<'t>>,
}

impl<'t> Layout<'t> {
    /// Looks all of it up. An address or offset that the symbol file lacks is 0.
    pub(crate) fn of(table: &'t Table, symbols: &Symbols<'_>) -> Layout<'t>
        requires { symbols.now ≡ table.now.symbols }
        ensures layout { IsLayout result }
        ensures table { table_of result ≡ table.now }
    {
        Layout {
            objects: Objects {
                table,
                space: Space::Phys,
            },
            init_task: symbol_address(table, symbols, b"init_task").unwrap_or(0),
            init_files: symbol_address(table, symbols, b"init_files").unwrap_or(0),
            root: root_address(table, symbols).unwrap_or(0),
            name: offset_of(needed_member(table, Need::TaskStructComm)),
            pid: needed_member(table, Need::TaskStructPid),
            files: needed_member(table, Need::TaskStructFiles),
            old_state: member_of_type(table, b"task_struct", b"state"),
            new_state: member_of_type(table, b"task_struct", b"__state"),
        }
    }
}
