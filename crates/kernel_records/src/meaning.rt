//! What a need asks of a symbol file.
ghost use Rattle.std.specs.Prelude.{◌≡◌};
ghost use Rattle.kernel_records.specs.Meaning.{meant, meaning_of_text, is_root, meaning};

use crate::{Need, need_text};

/// What a need asks of a symbol file.
#[derive(Clone, Copy, Debug)]
pub enum Meaning<'n> {
    /// A symbol of that name.
    Symbol(&'n [u8]),
    /// One of the symbols of the root of the kernel's page tables: `init_top_pgt`, `init_level4_pgt`, `swapper_pg_dir`.
    RootSymbol,
    /// A member of that name in the user type of that name.
    Member { user: &'n [u8], name: &'n [u8] },
}

// What a text means: a symbol's name, or a type and its member joined by a dot.
fn meaning_of_text(text: &'static str) -> Meaning<'static>
    ensures { meant result ≡ meaning_of_text text.now }
{
    match text.split_once('.') {
        Some((user, name)) => Meaning::Member {
            user: user.as_bytes(),
            name: name.as_bytes(),
        },
        None => Meaning::Symbol(text.as_bytes()),
    }
}

fn is_root(need: Need) -> bool
    ensures { result ≡ is_root need }
{
    matches!(need, Need::SwapperPgDir)
}

/// What a need asks of a symbol file. It is told by the need's text: what stands before its dot is a type, and what stands
/// behind it is a member.
#[tactic(auto, unfolding(crate::specs::Meaning::meaning))]
pub fn meaning_of(need: Need) -> Meaning<'static>
    ensures { meant result ≡ meaning need }
{
    if is_root(need) {
        Meaning::RootSymbol
    } else {
        meaning_of_text(need_text(need))
    }
}
