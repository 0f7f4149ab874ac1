//! The words that name a command.
ghost use Rattle.std.specs.Prelude.{◌≡◌};
ghost use Rattle.command_words.specs.Verb.{word_of, verb_of};

// A command, without the words behind it.
#[derive(Clone, Copy, Debug, PartialEq, Eq)]
pub(crate) enum Verb {
    Banners,
    Kernel,
    Pslist,
    Pstree,
    Lsmod,
    CheckSyscall,
    Quit,
    Maps,
    Lsof,
    Read,
    Dump,
    Show,
    Layout,
    Symbol,
    Near,
    Translate,
    Scan,
}

const VERBS: [Verb; 17] = [
    Verb::Banners,
    Verb::Kernel,
    Verb::Pslist,
    Verb::Pstree,
    Verb::Lsmod,
    Verb::CheckSyscall,
    Verb::Quit,
    Verb::Maps,
    Verb::Lsof,
    Verb::Read,
    Verb::Dump,
    Verb::Show,
    Verb::Layout,
    Verb::Symbol,
    Verb::Near,
    Verb::Translate,
    Verb::Scan,
];

// The word that names a command.
fn word_of(verb: Verb) -> &'static [u8]
    ensures { result.now ≡ word_of verb }
{
    match verb {
        Verb::Banners => b"banners",
        Verb::Kernel => b"kernel",
        Verb::Pslist => b"pslist",
        Verb::Pstree => b"pstree",
        Verb::Lsmod => b"lsmod",
        Verb::CheckSyscall => b"check_syscall",
        Verb::Quit => b"quit",
        Verb::Maps => b"maps",
        Verb::Lsof => b"lsof",
        Verb::Read => b"read",
        Verb::Dump => b"dump",
        Verb::Show => b"type",
        Verb::Layout => b"layout",
        Verb::Symbol => b"symbol",
        Verb::Near => b"near",
        Verb::Translate => b"translate",
        Verb::Scan => b"scan",
    }
}

// The command that a word names.
pub(crate) fn verb_of(word: &[u8]) -> Option<Verb>
    ensures { result ≡ verb_of word.now }
{
    VERBS.iter().copied().find(|verb| word_of(*verb) == word)
}
