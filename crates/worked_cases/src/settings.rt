//! Reads the lines of a case's block.
use crate::blocks::Line;
use crate::case::{Case, ScriptLine};
use crate::escapes::bytes_of;
use crate::image::Image;
use crate::library::Library;
use crate::numbers::{first_word, number_of, size_of};
use crate::rows::add_rows;
use anyhow::{Context, Result, bail, ensure};
use image_maker::make;
use std::alloc::Global;
use std::rt::Files;

/// Reads a case. Symbol files and named images come from beside it.
pub(crate) fn case_of<R: Files + Alloc<A = Global>>(
    rt: &R,
    library: &Library,
    lines: &[Line<'_>],
) -> Result<Case> {
    let alloc = rt.alloc();
    let mut case = Case::new(alloc);
    for line in lines {
        let number = line.number;
        apply(rt, library, &mut case, line.text).context(format_args!("line {number}"))?;
    }
    if !case.has_last_newline {
        drop_last_newline(&mut case)?;
    }
    ensure!(!case.is_each || case.rest.is_empty(), "a rest with each");
    ensure!(
        !case.has_fewer_calls || case.words.len() > 1,
        "fewer calls with one list of words"
    );
    Ok(case)
}

// Takes in one line: of the script, of what it prints or dumps, or a setting before both.
fn apply<R: Files + Alloc<A = Global>>(
    rt: &R,
    library: &Library,
    case: &mut Case,
    text: &str,
) -> Result<()> {
    let alloc = rt.alloc();
    let (word, rest) = first_word(text);
    match word {
        ">" => {
            ensure!(case.rest.is_empty(), "a line behind one that is left");
            let bytes = line_bytes(alloc, rest)?;
            case.lines.push(ScriptLine {
                bytes,
                text: Vec::new(alloc),
                dumped: Vec::new(alloc),
            })?;
            Ok(())
        }
        "!" => {
            let bytes = line_bytes(alloc, rest)?;
            case.rest.extend_from_slice(&bytes)?;
            Ok(())
        }
        "*" => add_rows(alloc, text_of(case), rest),
        "dumps" => add_dump(alloc, case, rest),
        _ if !case.lines.is_empty() || !case.rest.is_empty() => add_line(text_of(case), text),
        "prints" => add_line(&mut case.front, rest),
        _ => set(rt, library, case, word, rest),
    }
}

// The bytes of a line of a script, with its newline.
fn line_bytes(alloc: Global, text: &str) -> Result<Vec<u8>> {
    let mut bytes = bytes_of(alloc, text)?;
    bytes.push(b'\n')?;
    Ok(bytes)
}

// The text that the last line prints, or what is written in front of the first.
fn text_of(case: &mut Case) -> &mut Vec<u8> {
    match case.lines.last_mut() {
        Some(line) => &mut line.text,
        None => &mut case.front,
    }
}

fn add_line(text: &mut Vec<u8>, line: &str) -> Result<()> {
    text.extend_from_slice(line.as_bytes())?;
    text.push(b'\n')?;
    Ok(())
}

// Bytes that the last line dumps.
fn add_dump(alloc: Global, case: &mut Case, text: &str) -> Result<()> {
    let bytes = bytes_of(alloc, text)?;
    let line = case.lines.last_mut().context("no line that dumps")?;
    line.dumped.extend_from_slice(&bytes)?;
    Ok(())
}

fn drop_last_newline(case: &mut Case) -> Result<()> {
    if case.rest.pop().is_some() {
        return Ok(());
    }
    let last = case.lines.last_mut().context("no line")?;
    last.bytes.pop();
    Ok(())
}

// A setting: of the image, of the other inputs, or of how the case is run.
fn set<R: Files + Alloc<A = Global>>(
    rt: &R,
    library: &Library,
    case: &mut Case,
    word: &str,
    rest: &str,
) -> Result<()> {
    let alloc = rt.alloc();
    if word == "image" {
        case.image = Some(library.image(rest)?);
        return Ok(());
    }
    if word == "symbol-file" {
        case.symbols = Some(library.file(rt, rest)?);
        return Ok(());
    }
    if set_input(alloc, case, word, rest)? || set_run(case, word, rest)? {
        return Ok(());
    }
    let mut image = match case.image.take() {
        Some(image) => image,
        None => Image::new(alloc),
    };
    let is_known = image.apply(alloc, word, rest)?;
    case.image = Some(image);
    ensure!(is_known, "no word of a case: {word}");
    Ok(())
}

// A made image, the symbol file, the words, and what is wanted. It answers whether the word is one of these.
fn set_input(alloc: Global, case: &mut Case, word: &str, rest: &str) -> Result<bool> {
    match word {
        "symbols" => add_symbols(alloc, case, rest)?,
        "replace" => replace_symbols(alloc, case, rest)?,
        "value" => case.values.push(bytes_of(alloc, rest)?)?,
        "made" => set_made(alloc, case, number_of(rest)?)?,
        "words" => case.words.push(words_of_line(alloc, rest)?)?,
        "status" => case.status = u8::try_from(number_of(rest)?).ok().context("no status")?,
        "left" => case.symbols_left = Some(size_of(rest)?),
        "no" if rest == "newline" => case.has_last_newline = false,
        "wrong" => case.is_wrong = true,
        _ => return Ok(false),
    }
    Ok(true)
}

// How often the case is run. It answers whether the word is one of these.
fn set_run(case: &mut Case, word: &str, rest: &str) -> Result<bool> {
    match word {
        "cuts" => {
            for cut in rest.split_ascii_whitespace() {
                case.cuts.push(size_of(cut)?)?;
            }
        }
        "each" => case.is_each = true,
        "fewer" if rest == "calls" => case.has_fewer_calls = true,
        "sweep" => set_sweep(case, rest)?,
        "fails" => set_fails(case, rest)?,
        "room" => case.plan.room = Some(number_of(rest)?),
        "dump-room" => case.plan.dump_room = Some(number_of(rest)?),
        _ => return Ok(false),
    }
    Ok(true)
}

// Takes the image and the symbol file of a made image.
fn set_made(alloc: Global, case: &mut Case, number: u64) -> Result<()> {
    if number < 1 || number > 64 {
        bail!("no made image {number}");
    }
    let made = make(alloc, number)?;
    case.image = Some(Image::of_file(alloc, made.image.items())?);
    case.symbols = Some(made.symbols.items().to_vec(alloc)?);
    Ok(())
}

fn set_sweep(case: &mut Case, object: &str) -> Result<()> {
    match object {
        "image" => case.sweeps.image = true,
        "symbols" => case.sweeps.symbols = true,
        "script" => case.sweeps.script = true,
        "room" => case.sweeps.room = true,
        "dump" => case.sweeps.dump = true,
        _ => bail!("no object: {object}"),
    }
    Ok(())
}

fn set_fails(case: &mut Case, rest: &str) -> Result<()> {
    let (object, call) = first_word(rest);
    let call = Some(number_of(call)?);
    match object {
        "image" => case.plan.image_fails = call,
        "symbols" => case.plan.symbols_fails = call,
        "script" => case.plan.script_fails = call,
        _ => bail!("no object: {object}"),
    }
    Ok(())
}

fn add_symbols(alloc: Global, case: &mut Case, text: &str) -> Result<()> {
    let mut symbols = match case.symbols.take() {
        Some(symbols) => symbols,
        None => Vec::new(alloc),
    };
    if !symbols.is_empty() {
        symbols.push(b'\n')?;
    }
    symbols.extend_from_slice(&bytes_of(alloc, text)?)?;
    case.symbols = Some(symbols);
    Ok(())
}

// Puts a text into the place of each occurrence of another in the symbol file, which must occur there.
fn replace_symbols(alloc: Global, case: &mut Case, rest: &str) -> Result<()> {
    let (old, new) = first_word(rest);
    let (old, new) = (bytes_of(alloc, old)?, bytes_of(alloc, new)?);
    let symbols = case.symbols.take().context("no symbol file")?;
    let mut replaced = Vec::new(alloc);
    let mut behind = 0usize;
    for (place, byte) in symbols.iter().enumerate() {
        if place < behind {
            continue;
        }
        if symbols[place..].starts_with(&old) {
            replaced.extend_from_slice(&new)?;
            behind = place.saturating_add(old.len());
        } else {
            replaced.push(*byte)?;
        }
    }
    ensure!(behind > 0, "not in the symbol file: {rest}");
    case.symbols = Some(replaced);
    Ok(())
}

/// The words of a command line: `""` is an empty one.
pub(crate) fn words_of_line(alloc: Global, line: &str) -> Result<Vec<String>> {
    let mut words = Vec::new(alloc);
    for word in line.split_ascii_whitespace() {
        let word = if word == "\"\"" { "" } else { word };
        words.push(String::from_utf8(bytes_of(alloc, word)?).context("no text")?)?;
    }
    Ok(words)
}
