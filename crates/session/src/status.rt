//! How a run ends.
ghost use Rattle.std.specs.Prelude.{◌≡◌};
ghost use Rattle.session.specs.Status.{fault_of_sink, fault_of_dump, fault_of_plugin, status_of_fault, status_after, status_after_line, number_of_status};

use kernel_records::PluginFault;
use layer_base::SinkFault;

/// How a run ended.
#[derive(Clone, Copy, Debug, PartialEq, Eq)]
pub enum Status {
    /// The whole script was run.
    Ok,
    /// The words of the command line were refused.
    Usage,
    /// The image was refused.
    ImageRefused,
    /// The symbol file was refused.
    SymbolsRefused,
    /// A call on the image failed.
    ImageFault,
    /// A call on the symbol file failed.
    SymbolsFault,
    /// A call on the script failed.
    ScriptFault,
    /// A call on the output failed.
    OutFault,
    /// A call on the dump's file failed.
    DumpFault,
    /// The script has more bytes than are read.
    ScriptTooLong,
    /// Out of memory.
    Memory,
}

impl Status {
    /// The number that the program ends with.
    pub fn number(self) -> u8
        ensures { result ≡ number_of_status self }
    {
        match self {
            Status::Ok => 0,
            Status::Usage => 2,
            Status::ImageRefused => 3,
            Status::SymbolsRefused => 4,
            Status::ImageFault => 5,
            Status::SymbolsFault => 6,
            Status::ScriptFault => 7,
            Status::OutFault => 8,
            Status::DumpFault => 9,
            Status::ScriptTooLong => 10,
            Status::Memory => 11,
        }
    }
}

/// Why a command was cut short.
#[derive(Clone, Copy, Debug, PartialEq, Eq)]
pub(crate) enum CommandFault {
    Image,
    Out,
    Dump,
    Memory,
}

impl CommandFault {
    /// What a fault of a writer comes to that writes to the dump.
    pub(crate) fn of_dump(fault: PluginFault) -> CommandFault
        ensures { result ≡ fault_of_dump fault }
    {
        match fault {
            PluginFault::Device => CommandFault::Image,
            PluginFault::Out => CommandFault::Dump,
            PluginFault::Memory => CommandFault::Memory,
        }
    }

    pub(crate) fn status(self) -> Status
        ensures { result ≡ status_of_fault self }
    {
        match self {
            CommandFault::Image => Status::ImageFault,
            CommandFault::Out => Status::OutFault,
            CommandFault::Dump => Status::DumpFault,
            CommandFault::Memory => Status::Memory,
        }
    }
}

/// The status of a run whose last line came to this.
pub(crate) fn status_after(done: Status, written: Result<(), CommandFault>) -> Status
    ensures { result ≡ status_after done written }
{
    match written {
        Ok(()) => done,
        Err(fault) => fault.status(),
    }
}

/// The status of a run that ends with a line of its own, the writing of which came to this.
pub(crate) fn status_after_line(done: Status, written: Result<(), SinkFault>) -> Status
    ensures { result ≡ status_after_line done written }
{
    match written {
        Ok(()) => done,
        Err(fault) => CommandFault::from(fault).status(),
    }
}

impl From<SinkFault> for CommandFault {
    ghost from_gives = { λ sink fault. fault ≡ fault_of_sink sink };

    fn from(fault: SinkFault) -> Self {
        match fault {
            SinkFault::Failed => CommandFault::Out,
            SinkFault::Memory => CommandFault::Memory,
        }
    }
}

impl From<PluginFault> for CommandFault {
    ghost from_gives = { λ plugin fault. fault ≡ fault_of_plugin plugin };

    fn from(fault: PluginFault) -> Self {
        match fault {
            PluginFault::Device => CommandFault::Image,
            PluginFault::Out => CommandFault::Out,
            PluginFault::Memory => CommandFault::Memory,
        }
    }
}
