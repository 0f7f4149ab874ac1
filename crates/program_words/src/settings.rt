//! The settings of a run.
ghost use Rattle.std.specs.Prelude.{◌≡◌, ◌≤◌, Some, None, Err, IfOk, IfSome, map, option_map, string_bytes};
ghost use Rattle.program_words.specs.Settings.{number_or, settings_of};
ghost use Rattle.program_words.specs.declared.settings.WordsFault.TheVariants.{Memory};

use crate::number::number_within;
use crate::parse::arguments_of;
use layer_base::PathWord;
use std::alloc::{AllocError, Global};

/// What the words of the command line ask for.
#[derive(Debug, Drop)]
pub struct Settings {
    /// The file of the image.
    pub image: PathWord,
    /// The symbol file.
    pub symbols: PathWord,
    /// The file for dumped bytes, where there is one.
    pub dump: Option<PathWord>,
    /// For how many runs the memory has room: from 0 to 1,048,576, by default 4,096.
    pub cache: usize,
    /// How many bytes a scan reads at once: from 4,096 to 16,777,216, by default 1,048,576.
    pub chunk: usize,
}

/// Why words give no settings.
#[derive(Clone, Copy, Debug, PartialEq, Eq)]
pub enum WordsFault {
    /// The words are not those of the command line.
    Usage,
    /// Out of memory.
    Memory,
}

impl From<AllocError> for WordsFault {
    ghost from_gives = { λ _ fault. fault ≡ Memory };

    fn from(_error: AllocError) -> WordsFault {
        WordsFault::Memory
    }
}

// The number of an option: of its text, or the default where the option is missing.
fn number_or(default: u64, least: u64, most: u64, text: Option<&str>) -> Option<u64>
    ensures value { result ≡ number_or default least most (option_map (λ text. text.now) text.entry) }
{
    match text {
        Some(text) => number_within(least, most, text),
        None => Some(default),
    }
}

// How many runs are kept.
fn cache_of(text: Option<&str>) -> Option<usize>
    ensures value { result ≡ number_or 4096 0 1048576 (option_map (λ text. text.now) text.entry) }
    ensures most { IfSome result (λ cache. cache ≤ 1048576) }
{
    Some(number_or(4096, 0, 1_048_576, text)? as usize)
}

// How many bytes a scan reads at once.
fn chunk_of(text: Option<&str>) -> Option<usize>
    ensures value { result ≡ number_or 1048576 4096 16777216 (option_map (λ text. text.now) text.entry) }
    ensures least { IfSome result (λ chunk. 4096 ≤ chunk) }
    ensures most { IfSome result (λ chunk. chunk ≤ 16777216) }
{
    Some(number_or(1_048_576, 4096, 16_777_216, text)? as usize)
}

fn optional_path(alloc: Global, text: Option<&str>) -> Result<Option<PathWord>, AllocError>
    ensures { IfOk result (λ path. path ≡ option_map (λ text. text.now) text.entry) }
{
    match text {
        Some(text) => Ok(Some(PathWord::of(alloc, text)?)),
        None => Ok(None),
    }
}

/// Reads the words behind the program's name: `IMAGE SYMBOLS [DUMP] [--cache N] [--chunk N]`.
///
/// The words are refused with `Usage` where the meaning that clap defines for this command has a fault, or where the
/// text of an option is not a number in its range, in one or more decimal digits. An option stands anywhere and at most
/// once, as `--cache N` or `--cache=N`. Behind `--` every word is plain. Any words may be answered with `Memory`.
pub fn settings_of(alloc: Global, words: &[String]) -> Result<Settings, WordsFault>
    ensures value { IfOk result (λ settings. settings_of (map string_bytes words.now) ≡ Some settings) }
    ensures usage { result ≡ Err WordsFault.Usage → settings_of (map string_bytes words.now) ≡ None }
    ensures cache { IfOk result (λ settings. settings.cache ≤ 1048576) }
    ensures least_chunk { IfOk result (λ settings. 4096 ≤ settings.chunk) }
    ensures most_chunk { IfOk result (λ settings. settings.chunk ≤ 16777216) }
{
    let found = arguments_of(alloc, words)?;
    let image = found.image.ok_or(WordsFault::Usage)?;
    let symbols = found.symbols.ok_or(WordsFault::Usage)?;
    let cache = cache_of(found.cache).ok_or(WordsFault::Usage)?;
    let chunk = chunk_of(found.chunk).ok_or(WordsFault::Usage)?;
    Ok(Settings {
        image: PathWord::of(alloc, image)?,
        symbols: PathWord::of(alloc, symbols)?,
        dump: optional_path(alloc, found.dump)?,
        cache,
        chunk,
    })
}
