//! The words of the command line as arguments, read by clap.
ghost use Rattle.std.specs.Prelude.{◌≡◌, ◌≢◌, Err, IfOk, OnOk, Some, codes, false, map, option_map, string_bytes, true, List, ℕ};
ghost use Rattle.clap.specs.Words.{app_of, first_value, found_of, rule_of};
ghost use Rattle.program_words.specs.CommandLine.{bare_command, command_line, fits, optional_word, required_word, text_of, text_option};

use crate::WordsFault;
use clap::error::ErrorKind;
use clap::{Arg, ArgAction, ArgMatches, Command};
use std::alloc::{AllocError, Global};

/// The texts of the arguments.
#[derive(Clone, Copy)]
pub(crate) struct Arguments<'w> {
    pub image: Option<&'w str>,
    pub symbols: Option<&'w str>,
    pub dump: Option<&'w str>,
    pub cache: Option<&'w str>,
    pub chunk: Option<&'w str>,
}

// Why words are refused that clap refuses with an error of a kind.
fn words_fault(kind: ErrorKind) -> WordsFault
    ensures { result ≡ WordsFault.Usage → kind ≢ ErrorKind.OutOfMemory }
{
    match kind {
        ErrorKind::OutOfMemory => WordsFault::Memory,
        _ => WordsFault::Usage,
    }
}

fn required_word<'w>(alloc: Global, name: &'w str) -> Arg<'w>
    ensures rule { rule_of result ≡ required_word name.entry.now }
    ensures local { result.global ≡ false }
{
    Arg::new(alloc, name).required(true).action(ArgAction::Set)
}

fn optional_word<'w>(alloc: Global, name: &'w str) -> Arg<'w>
    ensures rule { rule_of result ≡ optional_word name.entry.now }
    ensures local { result.global ≡ false }
{
    Arg::new(alloc, name).action(ArgAction::Set)
}

fn text_option<'w>(alloc: Global, name: &'w str) -> Arg<'w>
    ensures rule { rule_of result ≡ text_option name.entry.now }
    ensures local { result.global ≡ false }
{
    Arg::new(alloc, name).long(name).action(ArgAction::Set)
}

fn bare_command<'w>(alloc: Global) -> Command<'w>
    ensures { app_of result ≡ bare_command }
{
    Command::new(alloc, "memlens")
        .no_binary_name(true)
        .disable_help_flag(true)
        .disable_version_flag(true)
}

fn command_line<'w>(alloc: Global) -> Result<Command<'w>, AllocError>
    ensures { IfOk result (λ command. app_of command ≡ command_line) }
{
    bare_command(alloc)
        .arg(required_word(alloc, "IMAGE"))?
        .arg(required_word(alloc, "SYMBOLS"))?
        .arg(optional_word(alloc, "DUMP"))?
        .arg(text_option(alloc, "cache"))?
        .arg(text_option(alloc, "chunk"))
}

fn matches_of<'w>(alloc: Global, words: &'w [String]) -> Result<ArgMatches<'w>, WordsFault>
    ensures fits { OnOk result (fits (map string_bytes words.entry.now) ≡ true) }
    ensures texts { IfOk result (λ matches. (name : List ℕ) → first_value (found_of matches) name ≡ text_of name (map string_bytes words.entry.now)) }
    ensures usage { result ≡ Err WordsFault.Usage → fits (map string_bytes words.entry.now) ≡ false }
{
    let command = command_line(alloc)?;
    match command.try_get_matches_from(words) {
        Ok(matches) => Ok(matches),
        Err(error) => Err(words_fault(error.kind())),
    }
}

/// Reads the words by clap. The words are refused where the meaning that clap defines for the command has a fault.
pub(crate) fn arguments_of<'w>(
    alloc: Global,
    words: &'w [String],
) -> Result<Arguments<'w>, WordsFault>
    ensures fits { OnOk result (fits (map string_bytes words.entry.now) ≡ true) }
    ensures image { IfOk result (λ found. option_map (λ text. text.now) found.image ≡ text_of (codes "IMAGE") (map string_bytes words.entry.now)) }
    ensures symbols { IfOk result (λ found. option_map (λ text. text.now) found.symbols ≡ text_of (codes "SYMBOLS") (map string_bytes words.entry.now)) }
    ensures dump { IfOk result (λ found. option_map (λ text. text.now) found.dump ≡ text_of (codes "DUMP") (map string_bytes words.entry.now)) }
    ensures cache { IfOk result (λ found. option_map (λ text. text.now) found.cache ≡ text_of (codes "cache") (map string_bytes words.entry.now)) }
    ensures chunk { IfOk result (λ found. option_map (λ text. text.now) found.chunk ≡ text_of (codes "chunk") (map string_bytes words.entry.now)) }
    ensures usage { result ≡ Err WordsFault.Usage → fits (map string_bytes words.entry.now) ≡ false }
{
    let matches = matches_of(alloc, words)?;
    Ok(Arguments {
        image: matches.get_str("IMAGE"),
        symbols: matches.get_str("SYMBOLS"),
        dump: matches.get_str("DUMP"),
        cache: matches.get_str("cache"),
        chunk: matches.get_str("chunk"),
    })
}
