//! A word of the command line that names a file.
ghost use Rattle.std.specs.Prelude.{◌≡◌, IfOk};

use std::alloc::{AllocError, Global};
use std::marker::Model;

/// A text of its own, which names a file.
#[derive(Debug, Drop)]
pub struct PathWord {
    text: String,
}

impl Model for PathWord {
    ghost use Rattle.std.specs.Prelude.{ℕ, List, string_bytes};

    ghost Value = { List ℕ };

    ghost view = { λ word. string_bytes word.text };
}

impl PathWord {
    /// A copy of the text.
    pub fn of(alloc: Global, text: &str) -> Result<PathWord, AllocError>
        ensures { IfOk result (λ word. word ≡ text.now) }
    {
        Ok(PathWord {
            text: String::from_str(alloc, text)?,
        })
    }

    /// The text.
    pub fn text(&self) -> &str
        ensures { result.now ≡ self.now }
    {
        self.text.as_str()
    }
}
