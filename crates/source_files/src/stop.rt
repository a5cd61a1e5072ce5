ghost use Rattle.std.specs.Prelude.{◌≡◌};

use basics::{Fault, Name, NoMemory};
use std::alloc::{AllocError, AllocFailed};

/// Why a step that reads files stopped.
#[derive(Drop)]
pub enum ReadStop {
    /// The sources have this fault.
    Refused(Fault),
    /// The file at this path could not be read.
    ReadFault(Name),
    /// Memory ran out.
    NoMemory,
}

impl From<NoMemory> for ReadStop {
    ghost use Rattle.source_files.specs.declared.stop.ReadStop.TheVariants.{NoMemory};

    ghost from_gives = { λ _ stop. stop ≡ NoMemory };

    fn from(_: NoMemory) -> ReadStop {
        ReadStop::NoMemory
    }
}

impl From<AllocError> for ReadStop {
    ghost use Rattle.source_files.specs.declared.stop.ReadStop.TheVariants.{NoMemory};

    ghost from_gives = { λ _ stop. stop ≡ NoMemory };

    fn from(_: AllocError) -> ReadStop {
        ReadStop::NoMemory
    }
}

impl<T: Drop> From<AllocFailed<T>> for ReadStop {
    ghost use Rattle.source_files.specs.declared.stop.ReadStop.TheVariants.{NoMemory};

    ghost from_gives = { λ _ stop. stop ≡ NoMemory };

    fn from(_: AllocFailed<T>) -> ReadStop {
        ReadStop::NoMemory
    }
}
