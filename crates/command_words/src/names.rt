//! A list of names.
ghost use Rattle.std.specs.Prelude.{◌≡◌, [], ◌∷◌, ◌++◌, OnOk, OnErr};

use layer_base::Name;
use std::alloc::{AllocError, Global};
use std::marker::Model;

/// A list of names: the members that lead from a type to a place within it.
#[derive(Debug, Drop)]
pub struct Names {
    names: Vec<Name>,
}

impl Model for Names {
    ghost use Rattle.std.specs.Prelude.{ℕ, List};

    ghost Value = { List (List ℕ) };

    ghost view = { λ list. list.names.items };
}

impl Names {
    /// The empty list, which takes no memory.
    pub fn new(alloc: Global) -> Self
        ensures { result ≡ [] }
    {
        Names {
            names: Vec::new(alloc),
        }
    }

    /// Puts a name at the end. When out of memory, the list stays as it was.
    pub fn add(&mut self, item: Name) -> Result<(), AllocError>
        ensures ok { OnOk result (self.new ≡ self.old ++ item ∷ []) }
        ensures err { OnErr result (self.new ≡ self.old) }
    {
        self.names.push(item)?;
        Ok(())
    }

    /// The names.
    pub fn items(&self) -> &[Name]
        ensures { result.now ≡ self.now }
    {
        &self.names
    }
}
