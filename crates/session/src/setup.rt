//! What the words of the command line set for a run.
ghost use Rattle.std.specs.Prelude.{◌≡◌, ◌≤◌, Some};
ghost use Rattle.session.specs.Words.{has_dump_in};

use program_words::Settings;

/// How many bytes a search reads at once: from 4,096 to 16,777,216.
#[derive(Clone, Copy, Debug)]
pub(crate) struct Chunk {
    pub(crate) bytes: usize,
    ghost least: { 4096 ≤ bytes },
    ghost most: { bytes ≤ 16777216 },
}

/// What a run takes of its settings. What it writes and dumps depends on the file for dumps alone.
#[derive(Clone, Copy, Debug)]
pub(crate) struct Setup {
    /// For how many runs of pages the memory has room.
    pub(crate) cache: usize,
    pub(crate) chunk: Chunk,
    /// Whether there is a file for dumps.
    pub(crate) has_dump: bool,
}

impl Setup {
    pub(crate) fn of(settings: &Settings) -> Setup
        requires least { 4096 ≤ settings.now.chunk }
        requires most { settings.now.chunk ≤ 16777216 }
        ensures { result.has_dump ≡ has_dump_in (Some settings.now) }
    {
        Setup {
            cache: settings.cache,
            chunk: Chunk {
                bytes: settings.chunk,
            },
            has_dump: settings.dump.is_some(),
        }
    }
}
