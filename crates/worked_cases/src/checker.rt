//! Compares runs with what is wanted of them.
use crate::run::{Inputs, Plan, Seen, run_once};
use crate::script::Script;
use crate::way::{Change, Way};
use anyhow::Result;
use std::alloc::{AllocError, Global};

/// How many differences of a case are told.
const MOST_TOLD: usize = 3;

/// A script over a symbol file in one way, and what the run is to come to.
#[derive(Clone, Copy)]
pub(crate) struct Setting<'a> {
    pub(crate) inputs: Inputs<'a>,
    pub(crate) script: &'a Script,
    pub(crate) status: u8,
    pub(crate) symbols_left: usize,
    pub(crate) plan: Plan,
    pub(crate) way: Way,
}

impl<'a> Setting<'a> {
    /// The same with a change.
    pub(crate) fn with(&self, change: Change) -> Setting<'a> {
        Setting {
            plan: change.on(self.plan),
            way: self.way.with(change),
            ..*self
        }
    }
}

/// How many dumped bytes are told.
const MOST_DUMPED: usize = 64;

// How many bytes there are, and the first of them in hexadecimal digits.
fn hex_of(alloc: Global, bytes: &[u8]) -> Result<String> {
    let mut text = format!(in alloc; "{} bytes", bytes.len())?;
    for byte in bytes.iter().take(MOST_DUMPED) {
        let cell = format!(in alloc; " {byte:02x}")?;
        text.push_str(cell.as_str())?;
    }
    Ok(text)
}

/// How many runs were made, and what was found.
#[derive(Drop)]
pub(crate) struct Checker {
    alloc: Global,
    pub(crate) differences: Vec<String>,
    pub(crate) runs: u64,
}

impl Checker {
    pub(crate) fn new(alloc: Global) -> Checker {
        Checker {
            alloc,
            differences: Vec::new(alloc),
            runs: 0,
        }
    }

    pub(crate) fn run(&mut self, setting: &Setting<'_>) -> Result<Seen, AllocError> {
        self.runs = self.runs.saturating_add(1);
        run_once(self.alloc, setting.inputs, setting.plan)
    }

    /// The run must come to its status and its whole text, and leave what it is to leave.
    pub(crate) fn expect_whole(&mut self, setting: &Setting<'_>) -> Result<Seen> {
        let seen = self.run(setting)?;
        let way = setting.way;
        self.expect_text(way, &setting.script.text, &seen.text)?;
        self.expect_dumped(way, &setting.script.dumped, &seen.dumped)?;
        self.expect_number(way, "status", setting.status as usize, seen.status as usize)?;
        let left = setting.script.left;
        self.expect_number(way, "left of the script", left, seen.script_left)?;
        let left = setting.symbols_left;
        self.expect_number(way, "left of the symbol file", left, seen.symbols_left)?;
        Ok(seen)
    }

    pub(crate) fn expect_number(
        &mut self,
        way: Way,
        name: &str,
        wanted: usize,
        seen: usize,
    ) -> Result<()> {
        if wanted != seen {
            let what = format!(in self.alloc; "{name}: wanted {wanted}, got {seen}")?;
            self.tell(way, what.as_str())?;
        }
        Ok(())
    }

    pub(crate) fn expect_text(&mut self, way: Way, wanted: &[u8], seen: &[u8]) -> Result<()> {
        if wanted != seen {
            let wanted = String::from_utf8_lossy(self.alloc, wanted)?;
            let seen = String::from_utf8_lossy(self.alloc, seen)?;
            let what = format!(in self.alloc; "text: wanted\n{wanted}\ngot\n{seen}")?;
            self.tell(way, what.as_str())?;
        }
        Ok(())
    }

    pub(crate) fn expect_dumped(&mut self, way: Way, wanted: &[u8], seen: &[u8]) -> Result<()> {
        if wanted != seen {
            let (wanted, seen) = (hex_of(self.alloc, wanted)?, hex_of(self.alloc, seen)?);
            let what = format!(in self.alloc; "dumped bytes: wanted {wanted}, got {seen}")?;
            self.tell(way, what.as_str())?;
        }
        Ok(())
    }

    /// There were not fewer calls on the image than with the list of words before.
    pub(crate) fn tell_calls(&mut self, way: Way, before: u64, calls: u64) -> Result<()> {
        let what = format!(in self.alloc;
            "calls on the image: wanted fewer than {before}, got {calls}"
        )?;
        self.tell(way, what.as_str())
    }

    pub(crate) fn tell(&mut self, way: Way, what: &str) -> Result<()> {
        if self.differences.len() < MOST_TOLD {
            let told = format!(in self.alloc; "{way}: {what}")?;
            self.differences.push(told)?;
        }
        Ok(())
    }
}
