//! The ranges of addresses that a container shows.
ghost use Rattle.std.specs.Prelude.{◌≡◌, ◌+◌, ◌^◌, ◌≤◌, [], ◌∷◌, ◌++◌, true, All, IfSome, OnOk, OnErr};
ghost use Rattle.layer_base.specs.Ranges.{IsSegment, segment_at, next_first};
ghost use Rattle.layer_base.specs.View.{holds_address};

mod linear;
mod rising;

use crate::Segment;
use std::alloc::{AllocError, Global};
use std::marker::Model;

/// A list of segments. Where more than one holds an address, the first of them shows it. A look-up is logarithmic
/// where each segment lies above those before it.
#[derive(Debug, Drop)]
pub struct Segments {
    items: Vec<Segment>,
    rising: bool,
}

impl Model for Segments {
    ghost use Rattle.std.specs.Prelude.{List};
    ghost use Rattle.layer_base.specs.declared.segment.Segment.{Segment};
    ghost use Rattle.layer_base.specs.Ranges.{AreKept};

    ghost Value = { List Segment };

    ghost view = { λ s. s.items.items };

    ghost invariant = { λ s. AreKept s.items.items s.rising };
}

impl Segments {
    /// The empty list, which takes no memory.
    pub fn new(alloc: Global) -> Self
        ensures { result ≡ [] }
    {
        Segments {
            items: Vec::new(alloc),
            rising: true,
        }
    }

    /// Puts a segment at the end. When out of memory, the list is left as it was.
    pub fn add(&mut self, segment: Segment) -> Result<(), AllocError>
        requires place { segment.place ≤ 2 ^ 64 }
        requires some { 1 ≤ segment.length }
        requires most { segment.length ≤ 2 ^ 64 }
        ensures ok { OnOk result (self.new ≡ self.old ++ segment ∷ []) }
        ensures err { OnErr result (self.new ≡ self.old) }
    {
        let rising = self.rising && rising::is_above(&self.items, &segment);
        self.items.push(segment)?;
        self.rising = rising;
        Ok(())
    }

    /// The segments.
    pub fn items(&self) -> &[Segment]
        ensures value { result.now ≡ self.now }
        ensures fit { All IsSegment self.now }
    {
        &self.items
    }

    /// The segment that shows an address: the first that holds it.
    pub(crate) fn segment_at(&self, at: u64) -> Option<Segment>
        ensures value { result ≡ segment_at self.now at }
        ensures found { IfSome result (λ segment. IsSegment segment × (holds_address segment at ≡ true)) }
    {
        if self.rising {
            rising::segment_at(&self.items, at)
        } else {
            linear::segment_at(&self.items, at)
        }
    }

    /// The last address before the next segment begins.
    pub(crate) fn before_next(&self, at: u64) -> u64
        ensures value { result + 1 ≡ next_first self.now at }
        ensures within { at ≤ result }
    {
        if self.rising {
            rising::before_next(&self.items, at)
        } else {
            linear::before_next(&self.items, at)
        }
    }
}
