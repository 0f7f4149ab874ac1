//! Entries by their names, in byte order.
ghost use Rattle.std.specs.Prelude.{◌≡◌, map};
ghost use Rattle.std.specs.Cmp.Lexicographic.{slice_cmp};
ghost use Rattle.std.specs.Option.{option_copied};
ghost use Rattle.std.specs.Ordering.{nat_cmp};
ghost use Rattle.isf_reader.specs.Depth.{entry_named};
ghost use Rattle.isf_reader.specs.Table.{HasNamesInOrder};

use layer_base::Name;
use std::cmp::Ordering;

// The entry of a name.
pub(crate) fn entry_named<'t, E>(entries: &'t [(Name, E)], name: &[u8]) -> Option<&'t E>
    requires { HasNamesInOrder entries.now }
    ensures { option_copied result ≡ entry_named name.now entries.now }
{
    let found = entries.binary_search_by(
        |entry: &(Name, E)| -> Ordering
            ensures { result ≡ slice_cmp nat_cmp entry.now.0 name.entry.now }
        { entry.0.items().cmp(name) },
    );
    match found {
        Ok(place) => Some(&entries[place].1),
        Err(_) => None,
    }
}
