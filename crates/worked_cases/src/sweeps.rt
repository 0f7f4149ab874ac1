//! Runs in which one call after another fails.
use crate::case::Sweeps;
use crate::checker::{Checker, Setting};
use crate::run::Seen;
use crate::way::Change;
use anyhow::Result;

/// Runs with the calls of the objects failing in turn, of which the whole run made so many.
pub(crate) fn sweep(
    checker: &mut Checker,
    setting: &Setting<'_>,
    whole: &Seen,
    sweeps: Sweeps,
) -> Result<()> {
    if sweeps.image {
        sweep_image(checker, setting, whole.image_calls)?;
    }
    if sweeps.symbols {
        sweep_symbols(checker, setting, whole.symbols_calls)?;
    }
    if sweeps.script {
        sweep_script(checker, setting, whole.script_calls)?;
    }
    if sweeps.room {
        sweep_room(checker, setting)?;
    }
    if sweeps.dump {
        sweep_dump(checker, setting)?;
    }
    Ok(())
}

// What was written is a prefix of the text, and has the whole text of each line that was taken but the last. So it is with
// what was dumped.
fn sweep_image(checker: &mut Checker, setting: &Setting<'_>, calls: u64) -> Result<()> {
    let script = setting.script;
    for call in 0..calls {
        let setting = setting.with(Change::ImageFails(call));
        let seen = checker.run(&setting)?;
        expect_status(checker, &setting, &seen, 5)?;
        if !script.text.starts_with(&seen.text) {
            checker.expect_text(setting.way, &script.text, &seen.text)?;
        }
        if !script.dumped.starts_with(&seen.dumped) {
            checker.expect_dumped(setting.way, &script.dumped, &seen.dumped)?;
        }
        let taken = script.bytes.len().saturating_sub(seen.script_left);
        let end = script.end_within(taken.saturating_sub(1));
        expect_least(checker, &setting, "text", end.text, seen.text.len())?;
        expect_least(checker, &setting, "dump", end.dumped, seen.dumped.len())?;
    }
    checker.expect_whole(&setting.with(Change::ImageFails(calls)))?;
    Ok(())
}

fn expect_least(
    checker: &mut Checker,
    setting: &Setting<'_>,
    name: &str,
    least: usize,
    seen: usize,
) -> Result<()> {
    if seen < least {
        checker.expect_number(setting.way, name, least, seen)?;
    }
    Ok(())
}

// Nothing is written, the script is left, and what the earlier calls gave is taken.
fn sweep_symbols(checker: &mut Checker, setting: &Setting<'_>, calls: u64) -> Result<()> {
    for call in 0..calls {
        let setting = setting.with(Change::SymbolsFail(call));
        let seen = checker.run(&setting)?;
        expect_status(checker, &setting, &seen, 6)?;
        checker.expect_text(setting.way, b"", &seen.text)?;
        checker.expect_dumped(setting.way, b"", &seen.dumped)?;
        let left = setting.script.bytes.len();
        checker.expect_number(setting.way, "left of the script", left, seen.script_left)?;
        let given = (call as usize).saturating_mul(setting.plan.cut);
        let left = setting.inputs.symbols.len().saturating_sub(given);
        checker.expect_number(
            setting.way,
            "left of the symbol file",
            left,
            seen.symbols_left,
        )?;
    }
    checker.expect_whole(&setting.with(Change::SymbolsFail(calls)))?;
    Ok(())
}

// The script is taken a byte a call. What was written and dumped is that of the lines whose newline was taken.
fn sweep_script(checker: &mut Checker, setting: &Setting<'_>, calls: u64) -> Result<()> {
    let script = setting.script;
    for call in 0..calls {
        let setting = setting.with(Change::ScriptFails(call));
        let seen = checker.run(&setting)?;
        expect_status(checker, &setting, &seen, 7)?;
        let left = script.bytes.len().saturating_sub(call as usize);
        checker.expect_number(setting.way, "left of the script", left, seen.script_left)?;
        let end = script.end_within(call as usize);
        expect_written(checker, &setting, &seen, end.text, end.dumped)?;
    }
    checker.expect_whole(&setting.with(Change::ScriptFails(calls)))?;
    Ok(())
}

// As much is written as there is room for, and no line is taken behind the one whose text has no room. What that line
// dumps was dumped before.
fn sweep_room(checker: &mut Checker, setting: &Setting<'_>) -> Result<()> {
    let script = setting.script;
    let whole = script.text.len();
    for room in 0..whole {
        let setting = setting.with(Change::Room(room as u64));
        let seen = checker.run(&setting)?;
        expect_status(checker, &setting, &seen, 8)?;
        let end = script.end_of_text(room);
        expect_written(checker, &setting, &seen, room, end.dumped)?;
        expect_left(checker, &setting, &seen, script.left_behind(end))?;
    }
    checker.expect_whole(&setting.with(Change::Room(whole as u64)))?;
    Ok(())
}

// As much is dumped as there is room for, and no line is taken behind the one whose bytes have no room. Its text is not
// written.
fn sweep_dump(checker: &mut Checker, setting: &Setting<'_>) -> Result<()> {
    let script = setting.script;
    let whole = script.dumped.len();
    for room in 0..whole {
        let setting = setting.with(Change::DumpRoom(room as u64));
        let seen = checker.run(&setting)?;
        expect_status(checker, &setting, &seen, 9)?;
        let (before, end) = script.ends_of_dump(room);
        expect_written(checker, &setting, &seen, before.text, room)?;
        expect_left(checker, &setting, &seen, script.left_behind(end))?;
    }
    checker.expect_whole(&setting.with(Change::DumpRoom(whole as u64)))?;
    Ok(())
}

fn expect_status(
    checker: &mut Checker,
    setting: &Setting<'_>,
    seen: &Seen,
    status: usize,
) -> Result<()> {
    checker.expect_number(setting.way, "status", status, seen.status as usize)
}

// Fronts of these lengths were written and dumped.
fn expect_written(
    checker: &mut Checker,
    setting: &Setting<'_>,
    seen: &Seen,
    text: usize,
    dumped: usize,
) -> Result<()> {
    let script = setting.script;
    let text = script.text.get(..text).unwrap_or_default();
    let dumped = script.dumped.get(..dumped).unwrap_or_default();
    checker.expect_text(setting.way, text, &seen.text)?;
    checker.expect_dumped(setting.way, dumped, &seen.dumped)
}

// So many bytes of the script are left, and as many of the symbol file as without a fault.
fn expect_left(
    checker: &mut Checker,
    setting: &Setting<'_>,
    seen: &Seen,
    script: usize,
) -> Result<()> {
    let way = setting.way;
    checker.expect_number(way, "left of the script", script, seen.script_left)?;
    let symbols = setting.symbols_left;
    checker.expect_number(way, "left of the symbol file", symbols, seen.symbols_left)
}
