//! A case file as blocks of lines.
use std::alloc::{AllocError, Global};

/// A line of a case file: its number, from 1, and its text.
#[derive(Clone, Copy)]
pub(crate) struct Line<'a> {
    pub(crate) number: usize,
    pub(crate) text: &'a str,
}

/// The blocks of a file: lines between empty ones, without those that begin with `#`.
pub(crate) fn blocks_of<'a>(
    alloc: Global,
    file: &'a str,
) -> Result<Vec<Vec<Line<'a>>>, AllocError> {
    let mut blocks = Vec::new(alloc);
    let mut block = Vec::new(alloc);
    for (place, text) in file.lines().enumerate() {
        if text.starts_with('#') {
            continue;
        }
        if text.is_empty() {
            add_block(&mut blocks, block)?;
            block = Vec::new(alloc);
        } else {
            let number = place.saturating_add(1);
            block.push(Line { number, text })?;
        }
    }
    add_block(&mut blocks, block)?;
    Ok(blocks)
}

fn add_block<'a>(blocks: &mut Vec<Vec<Line<'a>>>, block: Vec<Line<'a>>) -> Result<(), AllocError> {
    if !block.is_empty() {
        blocks.push(block)?;
    }
    Ok(())
}
