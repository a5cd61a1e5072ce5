ghost use Rattle.std.specs.Prelude.{◌≡◌};
ghost use Rattle.vfb.specs.Outcome.{status_number};

use basics::Fault;

/// How a run ended.
#[derive(Drop)]
pub enum Status {
    /// The work is done.
    Ok,
    /// The sources have this fault.
    Refused(Fault),
    /// The words are those of no command, or a filter that they name can't be had.
    Usage,
    /// A file could not be read.
    ReadFault,
    /// A file could not be written, or the text not said.
    WriteFault,
    /// Memory ran out.
    NoMemory,
    /// A file that was checked is wrong in this line, counted from 1.
    Rejected(u64),
}

impl Status {
    /// The number that the process ends with: 0 for `Ok` and 1 to 6 for the others, in their order.
    pub fn number(&self) -> u8
        ensures { result ≡ status_number self.now }
    {
        match self {
            Status::Ok => 0,
            Status::Refused(_) => 1,
            Status::Usage => 2,
            Status::ReadFault => 3,
            Status::WriteFault => 4,
            Status::NoMemory => 5,
            Status::Rejected(_) => 6,
        }
    }
}
