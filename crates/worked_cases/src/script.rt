//! A script, and what it is to print and to dump.
use crate::case::ScriptLine;
use std::alloc::{AllocError, Global};

/// Where a line ends: behind its newline in the bytes of the script, its text in the whole text, and what it dumps in all
/// that is dumped.
#[derive(Clone, Copy)]
pub(crate) struct End {
    pub(crate) bytes: usize,
    pub(crate) text: usize,
    pub(crate) dumped: usize,
}

/// The start of a script.
const START: End = End {
    bytes: 0,
    text: 0,
    dumped: 0,
};

/// The bytes of a script, and the text and the dumped bytes of a run over it.
#[derive(Drop)]
pub(crate) struct Script {
    pub(crate) bytes: Vec<u8>,
    pub(crate) text: Vec<u8>,
    pub(crate) dumped: Vec<u8>,
    /// How many bytes the run leaves.
    pub(crate) left: usize,
    /// The length of the text that is written before a line is taken.
    front: usize,
    ends: Vec<End>,
}

impl Script {
    /// Lines that are run, and bytes that are left behind them. Something may be written in front of the first.
    pub(crate) fn of(
        alloc: Global,
        front: &[u8],
        lines: &[ScriptLine],
        rest: &[u8],
    ) -> Result<Script, AllocError> {
        let mut bytes = Vec::new(alloc);
        let mut text = front.to_vec(alloc)?;
        let mut dumped = Vec::new(alloc);
        let mut ends = Vec::new(alloc);
        for line in lines {
            bytes.extend_from_slice(&line.bytes)?;
            text.extend_from_slice(&line.text)?;
            dumped.extend_from_slice(&line.dumped)?;
            // a newline that is missing would stand one byte further
            let missing = usize::from(!line.bytes.ends_with(b"\n"));
            ends.push(End {
                bytes: bytes.len().saturating_add(missing),
                text: text.len(),
                dumped: dumped.len(),
            })?;
        }
        bytes.extend_from_slice(rest)?;
        Ok(Script {
            bytes,
            text,
            dumped,
            left: rest.len(),
            front: front.len(),
            ends,
        })
    }

    /// How many bytes stand behind a line that ends there.
    pub(crate) fn left_behind(&self, end: End) -> usize {
        self.bytes.len().saturating_sub(end.bytes)
    }

    /// Where the last line ends whose newline stands within so many bytes.
    pub(crate) fn end_within(&self, taken: usize) -> End {
        let mut last = START;
        for end in &self.ends {
            if end.bytes <= taken {
                last = *end;
            }
        }
        last
    }

    /// Where the line ends that prints what comes behind a text of this length. What is written before any line is taken
    /// ends at the start.
    pub(crate) fn end_of_text(&self, length: usize) -> End {
        if length < self.front {
            return START;
        }
        let prints_more = |end: &&End| length < end.text;
        self.ends.iter().find(prints_more).copied().unwrap_or(START)
    }

    /// Where the line begins and ends that dumps what comes behind so many dumped bytes.
    pub(crate) fn ends_of_dump(&self, length: usize) -> (End, End) {
        let mut before = End {
            text: self.front,
            ..START
        };
        for end in &self.ends {
            if length < end.dumped {
                return (before, *end);
            }
            before = *end;
        }
        (before, before)
    }
}
