//! Runs the worked cases of the files that its words name, and counts them.
#![tactic(auto)]

mod blocks;
mod case;
mod check;
mod checker;
mod escapes;
mod image;
mod library;
mod numbers;
mod objects;
mod rows;
mod run;
mod script;
mod settings;
mod sweeps;
mod way;

use crate::blocks::{Line, blocks_of};
use crate::check::check_case;
use crate::library::Library;
use crate::numbers::first_word;
use crate::settings::case_of;
use anyhow::{Context, Result, bail};
use std::alloc::Global;
use std::process::ExitCode;
use std::rt::Runtime;
use std::{env, fs};

/// What was found in the files so far.
#[derive(Clone, Copy)]
struct Counts {
    cases: u64,
    runs: u64,
    differing: u64,
}

// Runs one case, and prints what differs.
fn run_case<R: Runtime<A = Global>>(
    rt: &R,
    library: &Library,
    name: &str,
    lines: &[Line<'_>],
    counts: &mut Counts,
) -> Result<()> {
    let case = case_of(rt, library, lines)?;
    let checked = check_case(rt.alloc(), &case)?;
    counts.cases = counts.cases.saturating_add(1);
    counts.runs = counts.runs.saturating_add(checked.runs);
    if case.is_wrong != checked.differences.is_empty() {
        return Ok(());
    }
    counts.differing = counts.differing.saturating_add(1);
    if case.is_wrong {
        println!(rt; "{name}: wrong on purpose, and no difference is seen")?;
    }
    for difference in &checked.differences {
        println!(rt; "{name}: {difference}")?;
    }
    Ok(())
}

fn run_block<R: Runtime<A = Global>>(
    rt: &R,
    library: &mut Library,
    lines: &[Line<'_>],
    counts: &mut Counts,
) -> Result<()> {
    let [head, lines @ ..] = lines else {
        return Ok(());
    };
    let (kind, name) = first_word(head.text);
    match kind {
        "case" => run_case(rt, library, name, lines, counts).context(format_args!("case {name}")),
        "image" => library.add(rt.alloc(), name, lines),
        _ => bail!("line {}: no block", head.number),
    }
}

// Runs the cases of a file, and prints how many it has. On standard error it says how many runs that took.
fn run_file<R: Runtime<A = Global>>(
    rt: &R,
    library: &mut Library,
    path: &str,
    counts: &mut Counts,
) -> Result<()> {
    let text = fs::read_to_string(rt, path)?;
    library.enter(rt.alloc(), path)?;
    let before = *counts;
    for block in &blocks_of(rt.alloc(), text.as_str())? {
        run_block(rt, library, block, counts)?;
    }
    let cases = counts.cases.saturating_sub(before.cases);
    let runs = counts.runs.saturating_sub(before.runs);
    println!(rt; "{path}: {cases} cases")?;
    eprintln!(rt; "{path}: {runs} runs")?;
    Ok(())
}

fn main(rt: HostRuntime) -> Result<ExitCode> {
    let mut library = Library::new(rt.alloc());
    let mut counts = Counts {
        cases: 0,
        runs: 0,
        differing: 0,
    };
    for path in env::args(&rt)?.skip(1) {
        let path = path.as_str();
        run_file(&rt, &mut library, path, &mut counts).context(format_args!("{path}"))?;
    }
    println!(rt; "{} cases", counts.cases)?;
    eprintln!(rt; "{} runs", counts.runs)?;
    Ok(ExitCode::from(u8::from(counts.differing > 0)))
}
