ghost use Rattle.std.specs.Prelude.{◌≡◌, ◌≢◌};
ghost use Rattle.std.specs.IoError.{error_kind};
ghost use Rattle.realtime_replay.specs.Lines.{number_of};
ghost use Rattle.realtime_replay.specs.Faults.{status_of};

use crate::fault::RunFault;
use std::io::{Error, ErrorKind};

/// How a run ended.
#[derive(Clone, Copy)]
pub enum Status {
    /// The whole script ran, and the output was written.
    Ok,
    /// The words are no command.
    Usage,
    /// A line of the script is refused, the first of them, counted from 1.
    Refused { line: u64 },
    /// A source failed.
    ReadFault,
    /// The output failed. Nothing or some first bytes of it were written.
    WriteFault,
    /// Memory ran out.
    NoMemory,
    /// A source has more bytes than are read.
    TooLong,
    /// The command, the catalogue or the script isn't of the form that is built.
    NotBuilt,
}

/// The status of a run that a fault ended.
pub fn status_of(fault: RunFault) -> Status
    ensures { result ≡ status_of fault }
{
    match fault {
        RunFault::NoMemory => Status::NoMemory,
        RunFault::Refused { line } => Status::Refused { line },
        RunFault::ReadFault => Status::ReadFault,
        RunFault::TooLong => Status::TooLong,
        RunFault::NotBuilt => Status::NotBuilt,
        RunFault::WriteFault => Status::WriteFault,
    }
}

/// The status of a program whose command line gave this error in place of its words. A word that
/// isn't UTF-8 is one of no command; all else is want of memory.
pub fn status_without_words(error: &Error) -> Status
    ensures usage { error_kind error.now ≡ ErrorKind.InvalidData → result ≡ Status.Usage }
    ensures memory { error_kind error.now ≢ ErrorKind.InvalidData → result ≡ Status.NoMemory }
{
    if error.kind() == ErrorKind::InvalidData {
        Status::Usage
    } else {
        Status::NoMemory
    }
}

impl Status {
    /// The program's exit status.
    pub fn number(self) -> u8
        ensures { result ≡ number_of self }
    {
        match self {
            Status::Ok => 0,
            Status::Usage => 2,
            Status::Refused { .. } => 4,
            Status::ReadFault => 5,
            Status::WriteFault => 6,
            Status::NoMemory => 7,
            Status::TooLong => 8,
            Status::NotBuilt => 13,
        }
    }
}
