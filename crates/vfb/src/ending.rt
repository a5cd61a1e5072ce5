ghost use Rattle.std.specs.Prelude.{◌≡◌};
ghost use Rattle.outside.specs.Said.{Says};
ghost use Rattle.vfb.specs.Ending.{ending_of, status_of, ending_line};

use crate::lines::{say_no_memory, say_read_fault, say_refused, say_usage, say_write_fault};
use crate::misuse::Misuse;
use crate::status::Status;
use basics::{Fault, Name};
use outside::{Failed, Say};
use source_files::ReadStop;
use std::alloc::AllocFailed;

/// How a command ended, with what the line said of it names.
#[derive(Drop)]
pub(crate) enum Ending<'a> {
    /// The work is done.
    Done,
    /// The sources have this fault.
    Refused(Fault),
    /// The words ask for nothing.
    Usage(Misuse<'a>),
    /// The file at this path could not be read.
    ReadFault(Name),
    /// The file at this path could not be written; a dash stands for the text said.
    WriteFault(&'a str),
    /// Memory ran out.
    NoMemory,
}

impl<'a, T: Drop> From<AllocFailed<T>> for Ending<'a> {
    ghost use Rattle.vfb.specs.declared.ending.Ending.TheVariants.{NoMemory};

    ghost from_gives = { λ _ ending. ending ≡ NoMemory };

    fn from(_: AllocFailed<T>) -> Ending<'a> {
        Ending::NoMemory
    }
}

impl<'a> Ending<'a> {
    /// How a command ends whose drawings could not be had.
    pub(crate) fn from_stop(stop: ReadStop) -> Ending<'a>
        ensures { result ≡ ending_of stop }
    {
        match stop {
            ReadStop::Refused(fault) => Ending::Refused(fault),
            ReadStop::ReadFault(path) => Ending::ReadFault(path),
            ReadStop::NoMemory => Ending::NoMemory,
        }
    }

    /// The status of the run.
    pub(crate) fn into_status(self) -> Status
        ensures { result ≡ status_of self.entry }
    {
        match self {
            Ending::Done => Status::Ok,
            Ending::Refused(fault) => Status::Refused(fault),
            Ending::Usage(_) => Status::Usage,
            Ending::ReadFault(_) => Status::ReadFault,
            Ending::WriteFault(_) => Status::WriteFault,
            Ending::NoMemory => Status::NoMemory,
        }
    }
}

/// Says how a command ended, where the work isn't done.
pub(crate) fn say_ending<T: Say>(say: &mut T, ending: &Ending<'_>) -> Result<(), Failed>
    ensures { Says (T.state say.old) (T.state say.new) (ending_line ending.now) result }
{
    match ending {
        Ending::Done => Ok(()),
        Ending::Refused(fault) => say_refused(say, fault),
        Ending::Usage(misuse) => say_usage(say, *misuse),
        Ending::ReadFault(path) => say_read_fault(say, path.as_str()),
        Ending::WriteFault(path) => say_write_fault(say, path),
        Ending::NoMemory => say_no_memory(say),
    }
}
