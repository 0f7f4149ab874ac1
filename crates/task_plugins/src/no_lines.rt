//! The text of a list that has no rows.

use kernel_records::{Stop, WalkFault};
use layer_base::{Layer, Steps};
use space_memory::Memory;
use std::sync::ledger::Ledger;
use walk_text::Lines;

/// No lines, and why there are none.
#[derive(Clone, Copy, Debug)]
pub(crate) struct NoLines {
    pub(crate) stop: Stop,
}

impl Lines for NoLines {
    ghost use Rattle.walk_text.specs.Added.{end_line};

    ghost rest = { λ lines memory. end_line lines.stop };

    ghost left = { λ lines. 0 };

    fn append_line<Y: Layer, L: Ledger>(
        &mut self,
        text: &mut Vec<u8>,
        memory: &mut Memory<Y>,
        steps: &mut Steps<L>,
    ) -> Result<Option<Stop>, WalkFault> {
        Ok(Some(self.stop))
    }
}
