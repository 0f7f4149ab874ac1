//! In which way a case is run.
use crate::run::Plan;
use std::fmt;

/// A call that fails, or an output or a dump with little room.
#[derive(Clone, Copy)]
pub(crate) enum Change {
    Nothing,
    ImageFails(u64),
    SymbolsFail(u64),
    ScriptFails(u64),
    Room(u64),
    DumpRoom(u64),
}

impl Change {
    /// The plan with this change.
    pub(crate) fn on(self, plan: Plan) -> Plan {
        let mut plan = plan;
        match self {
            Change::Nothing => {}
            Change::ImageFails(call) => plan.image_fails = Some(call),
            Change::SymbolsFail(call) => plan.symbols_fails = Some(call),
            Change::ScriptFails(call) => plan.script_fails = Some(call),
            Change::Room(room) => plan.room = Some(room),
            Change::DumpRoom(room) => plan.dump_room = Some(room),
        }
        plan
    }
}

impl fmt::Display for Change {
    fn fmt<W: fmt::Write>(&self, f: &mut fmt::Formatter<W>) -> fmt::Result {
        match self {
            Change::Nothing => write!(f, "nothing fails"),
            Change::ImageFails(call) => write!(f, "call {call} of the image fails"),
            Change::SymbolsFail(call) => write!(f, "call {call} of the symbol file fails"),
            Change::ScriptFails(call) => write!(f, "call {call} of the script fails"),
            Change::Room(room) => write!(f, "room for {room}"),
            Change::DumpRoom(room) => write!(f, "room for {room} dumped bytes"),
        }
    }
}

/// One of the ways to run a case.
#[derive(Clone, Copy)]
pub(crate) struct Way {
    /// Which of the lists of words is given, from 1; 0 where the case has none.
    pub(crate) words: usize,
    /// Which of the lists of options stands behind the plain words, from 1; 0 where none does.
    pub(crate) options: usize,
    /// Which of the values stands in the symbol file, from 1.
    pub(crate) value: usize,
    /// Which line is run alone, from 1; 0 where all are run.
    pub(crate) line: usize,
    /// The most bytes a call.
    pub(crate) cut: usize,
    pub(crate) change: Change,
}

impl Way {
    /// The whole script, uncut.
    pub(crate) fn plain() -> Way {
        Way {
            words: 0,
            options: 0,
            value: 0,
            line: 0,
            cut: 0,
            change: Change::Nothing,
        }
    }

    /// The same with a change.
    pub(crate) fn with(self, change: Change) -> Way {
        Way { change, ..self }
    }
}

impl fmt::Display for Way {
    fn fmt<W: fmt::Write>(&self, f: &mut fmt::Formatter<W>) -> fmt::Result {
        let (words, options, value) = (self.words, self.options, self.value);
        let (line, cut, change) = (self.line, self.cut, self.change);
        write!(
            f,
            "words {words}, options {options}, value {value}, line {line}, cut {cut}, {change}"
        )
    }
}
