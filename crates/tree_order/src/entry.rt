//! Lists of rows, each of which may be none.
ghost use Rattle.std.specs.Prelude.{◌≡◌};
ghost use Rattle.tree_order.specs.Climbs.{entry};

// What such a list has at a place; behind its end it has none.
pub(crate) fn entry(rows: &[Option<usize>], row: usize) -> Option<usize>
    ensures { result ≡ entry rows.now row }
{
    match rows.get(row) {
        Some(found) => *found,
        None => None,
    }
}
