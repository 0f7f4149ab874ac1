//! A case in all its ways.
use crate::case::{Case, ScriptLine};
use crate::checker::{Checker, Setting};
use crate::image::Image;
use crate::run::Inputs;
use crate::script::Script;
use crate::settings::words_of_line;
use crate::sweeps::sweep;
use crate::way::Way;
use anyhow::Result;
use std::alloc::{AllocError, Global};
use std::slice;

/// The image of a case that says none.
const DIGITS: &[u8] = b"0123456789ABCDEF";

/// The words of a case that names none.
const PLAIN_WORDS: &str = "image symbols";

/// The words under which such a case is run once more.
const OPTION_WORDS: [&str; 3] = [
    "image symbols --cache 0 --chunk 4096",
    "image symbols --cache 1 --chunk 4097",
    "image symbols --cache 2 --chunk 1048576",
];

/// Runs a case in all its ways.
pub(crate) fn check_case(alloc: Global, case: &Case) -> Result<Checker> {
    let mut checker = Checker::new(alloc);
    if case.words.is_empty() {
        let words = words_of_line(alloc, PLAIN_WORDS)?;
        check_words(alloc, &mut checker, case, &words, Way::plain())?;
        check_options(alloc, &mut checker, case)?;
    } else {
        check_lists(alloc, &mut checker, case)?;
    }
    Ok(checker)
}

// The whole script once more with each list of options, which change no text. They may change how many calls are made on
// the image, so a case in which one of these fails is left out.
fn check_options(alloc: Global, checker: &mut Checker, case: &Case) -> Result<()> {
    if case.plan.image_fails.is_some() {
        return Ok(());
    }
    for (place, line) in OPTION_WORDS.iter().enumerate() {
        let words = words_of_line(alloc, line)?;
        let way = Way {
            options: place.saturating_add(1),
            ..Way::plain()
        };
        check_words(alloc, checker, case, &words, way)?;
    }
    Ok(())
}

// All lists of words that the case names.
fn check_lists(alloc: Global, checker: &mut Checker, case: &Case) -> Result<()> {
    let mut calls_before: Option<u64> = None;
    for (place, words) in case.words.iter().enumerate() {
        let way = Way {
            words: place.saturating_add(1),
            ..Way::plain()
        };
        let calls = check_words(alloc, checker, case, words, way)?;
        if case.has_fewer_calls {
            expect_fewer(checker, way, calls_before, calls)?;
        }
        calls_before = Some(calls);
    }
    Ok(())
}

// There are fewer calls on the image than with the list of words before.
fn expect_fewer(
    checker: &mut Checker,
    way: Way,
    calls_before: Option<u64>,
    calls: u64,
) -> Result<()> {
    match calls_before {
        Some(before) if before <= calls => checker.tell_calls(way, before, calls),
        _ => Ok(()),
    }
}

// All symbol files with these words. It answers how many calls on the image the uncut runs of the whole script make.
fn check_words(
    alloc: Global,
    checker: &mut Checker,
    case: &Case,
    words: &[String],
    way: Way,
) -> Result<u64> {
    let template = match &case.symbols {
        Some(symbols) => symbols.as_slice(),
        None => b"{}",
    };
    if case.values.is_empty() {
        return check_symbols(alloc, checker, case, (words, template), way);
    }
    let mut calls = 0u64;
    for (place, value) in case.values.iter().enumerate() {
        let symbols = with_value(alloc, template, value)?;
        let way = Way {
            value: place.saturating_add(1),
            ..way
        };
        let added = check_symbols(alloc, checker, case, (words, &symbols), way)?;
        calls = calls.saturating_add(added);
    }
    Ok(calls)
}

// The bytes of a symbol file with a value in the place of each `@`.
fn with_value(alloc: Global, template: &[u8], value: &[u8]) -> Result<Vec<u8>, AllocError> {
    let mut bytes = Vec::new(alloc);
    for byte in template {
        match byte {
            b'@' => bytes.extend_from_slice(value)?,
            byte => bytes.push(*byte)?,
        }
    }
    Ok(bytes)
}

// All cuts with these words over one symbol file, of which a list of options needs none. It answers how many calls on the
// image the uncut run of the whole script makes.
fn check_symbols(
    alloc: Global,
    checker: &mut Checker,
    case: &Case,
    (words, symbols): (&[String], &[u8]),
    way: Way,
) -> Result<u64> {
    let image = match &case.image {
        Some(image) => image.file(),
        None => DIGITS,
    };
    let inputs = Inputs {
        words,
        image,
        symbols,
        script: &[],
    };
    let cut = case.plan.cut;
    let way = Way { cut, ..way };
    if way.options > 0 {
        let script = Script::of(alloc, &case.front, &case.lines, &case.rest)?;
        let whole = checker.expect_whole(&setting_of(case, inputs, &script, way))?;
        return Ok(whole.image_calls);
    }
    let calls = check_cut(alloc, checker, case, inputs, way)?;
    for cut in &case.cuts {
        check_cut(alloc, checker, case, inputs, Way { cut: *cut, ..way })?;
    }
    Ok(calls)
}

// The whole script with its sweeps, and each line alone where the case says so. It answers how many calls on the image the
// run of the whole script makes.
fn check_cut(
    alloc: Global,
    checker: &mut Checker,
    case: &Case,
    inputs: Inputs<'_>,
    way: Way,
) -> Result<u64> {
    let script = Script::of(alloc, &case.front, &case.lines, &case.rest)?;
    let setting = setting_of(case, inputs, &script, way);
    let whole = checker.expect_whole(&setting)?;
    sweep(checker, &setting, &whole, case.sweeps)?;
    if case.is_each {
        for (place, line) in case.lines.iter().enumerate() {
            let line_number = place.saturating_add(1);
            check_line(
                alloc,
                checker,
                case,
                inputs,
                (
                    line,
                    Way {
                        line: line_number,
                        ..way
                    },
                ),
            )?;
        }
    }
    Ok(whole.image_calls)
}

// One line alone, with its newline and without.
fn check_line(
    alloc: Global,
    checker: &mut Checker,
    case: &Case,
    inputs: Inputs<'_>,
    (line, way): (&ScriptLine, Way),
) -> Result<()> {
    let mut script = Script::of(alloc, b"", slice::from_ref(line), b"")?;
    checker.expect_whole(&setting_of(case, inputs, &script, way))?;
    if script.bytes.len() > 1 && script.bytes.ends_with(b"\n") {
        script.bytes.pop();
        checker.expect_whole(&setting_of(case, inputs, &script, way))?;
    }
    Ok(())
}

// How a script is run in a way, and what is wanted of it.
fn setting_of<'a>(case: &Case, inputs: Inputs<'a>, script: &'a Script, way: Way) -> Setting<'a> {
    let mut plan = case.plan;
    plan.cut = way.cut;
    let unread = match case.status {
        2 | 3 => inputs.symbols.len(),
        _ => 0,
    };
    let mut inputs = inputs;
    inputs.script = &script.bytes;
    Setting {
        inputs,
        script,
        status: case.status,
        symbols_left: case.symbols_left.unwrap_or(unread),
        plan,
        way,
    }
}
