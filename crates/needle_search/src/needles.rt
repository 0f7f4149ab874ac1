//! The needles of a search.
ghost use Rattle.std.specs.Prelude.{◌≡◌, ◌<◌, ◌≤◌, [], ◌∷◌, ◌++◌, length, All, OnOk, OnErr};
ghost use Rattle.needle_search.specs.Needles.{AreNeedles};

use memchr::memmem::Finder;
use std::alloc::{AllocError, Global};
use std::marker::Model;

/// Up to 8 needles of 1 to 4,096 bytes each, each with its search. Contracts see them as a list of lists of bytes.
#[derive(Debug, Drop)]
pub struct Needles {
    items: Vec<Finder<'static>>,
    alloc: Global,
}

impl Model for Needles {
    ghost use Rattle.std.specs.Prelude.{ℕ, List};
    ghost use Rattle.needle_search.specs.Needles.{AreNeedles};

    ghost Value = { List (List ℕ) };

    ghost view = { λ needles. needles.items.items };

    ghost invariant = { λ needles. AreNeedles needles.items.items };
}

impl Needles {
    /// No needle, which takes no memory.
    pub fn new(alloc: Global) -> Self
        ensures { result ≡ [] }
    {
        Needles {
            items: Vec::new(alloc),
            alloc,
        }
    }

    /// Puts a copy of a needle at the end. When out of memory, the needles are left as they were.
    pub fn add(&mut self, needle: &[u8]) -> Result<(), AllocError>
        requires room { length self.old < 8 }
        requires some { 1 ≤ length needle.now }
        requires few { length needle.now ≤ 4096 }
        ensures ok { OnOk result (self.new ≡ self.old ++ needle.now ∷ []) }
        ensures err { OnErr result (self.new ≡ self.old) }
    {
        let search = Finder::new(needle).into_owned(self.alloc)?;
        self.items.push(search)?;
        Ok(())
    }

    /// How many bytes the longest needle has, and 1 where there is no needle.
    pub fn longest(&self) -> usize
        ensures some { 1 ≤ result }
        ensures few { result ≤ 4096 }
        ensures each { All (λ needle. length needle ≤ result) self.now }
        ensures fit { AreNeedles self.now }
    {
        let mut longest = 1;
        for needle in &self.items {
            longest = needle.needle().len().max(longest);
        }
        longest
    }

    // The searches of the needles.
    pub(crate) fn items(&self) -> &[Finder<'static>]
        ensures value { result.now ≡ self.now }
        ensures fit { AreNeedles self.now }
    {
        &self.items
    }
}
