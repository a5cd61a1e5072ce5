ghost use Rattle.std.specs.Prelude.{◌≡◌, ℕ, ◌+◌, ◌≤◌, ◌<◌, List, [], ◌++◌, length, Option, None, Some, Result, IsSome, IfOk, OnOk, OnErr};
ghost use Rattle.outside.specs.States.{SourcesState, OutputsState, SayState};
ghost use Rattle.outside.specs.Files.{put, add, content, IsPrefix, HasRisen, Counts, Exceeds};
ghost use Rattle.outside.specs.Found.{Finds, IsWithin, CountsReads, NeverFails};

use std::alloc::Global;

/// What a read of one file found.
#[derive(Drop)]
pub enum Found {
    /// The file's bytes.
    Bytes(Vec<u8>),
    /// There is no such file.
    Absent,
    /// The file has this many bytes, more than the limit.
    TooLong(u64),
}

/// Why a read gave nothing.
#[derive(Clone, Copy, Debug, PartialEq, Eq)]
pub enum ReadError {
    /// The device failed.
    Failed,
    /// Memory ran out.
    NoMemory,
}

/// A device failed, or had no room.
#[derive(Clone, Copy, Debug, PartialEq, Eq)]
pub struct Failed;

/// Files to read from.
///
/// Their state is told by one record. Where it `tells`, `files` is what each path has. No call changes it.
/// `faults` counts the reads that failed, and never falls. A source that `is_sure` never fails.
pub trait Sources {
    ghost state: { Self → SourcesState };

    /// Reads the whole file at `path`, if it has at most `limit` bytes. Never holds more of it than
    /// the limit.
    fn read(&mut self, alloc: Global, path: &str, limit: usize) -> Result<Found, ReadError>
        ensures told { (state self.old).tells → (state self.new).tells }
        ensures same { (state self.new).files ≡ (state self.old).files }
        ensures found { (state self.old).tells → IfOk result (Finds ((state self.old).files path.now) limit) }
        ensures within { IfOk result (IsWithin limit) }
        ensures counted { CountsReads (state self.old).faults (state self.new).faults result }
        ensures sure { (state self.old).is_sure → (state self.new).is_sure }
        ensures never { (state self.old).is_sure → NeverFails result };
}

/// Files to write to, one after another.
///
/// Their state is told by one record. Where it `tells`, `files` is what each path has and `begun` the path
/// begun last. `faults` counts the calls that failed, and never falls. Outputs that are `is_sure` fail only
/// for want of `room`, the most bytes that each path may hold, None where it may not be begun.
pub trait Outputs {
    ghost state: { Self → OutputsState };

    /// Makes the file at `path` hold no bytes, so that `append` goes there. A failed `begin` leaves
    /// every file as it was, and no path is begun after it.
    fn begin(&mut self, path: &str) -> Result<(), Failed>
        ensures told { (state self.old).tells → (state self.new).tells }
        ensures begun { OnOk result (IsSome (state self.new).begun) }
        ensures ended { OnErr result ((state self.new).begun ≡ None) }
        ensures path { (state self.old).tells → OnOk result ((state self.new).begun ≡ Some path.now) }
        ensures ok { (state self.old).tells → OnOk result ((state self.new).files ≡ put (state self.old).files path.now []) }
        ensures err { (state self.old).tells → OnErr result ((state self.new).files ≡ (state self.old).files) }
        ensures counted { Counts (state self.old).faults (state self.new).faults result }
        ensures sure { (state self.old).is_sure → (state self.new).is_sure × ((state self.new).room ≡ (state self.old).room) }
        ensures no_room { (state self.old).is_sure → OnErr result ((state self.old).room path.now ≡ None) };

    /// Adds the bytes at the end of the path begun last, which stays begun. A failed `append` adds a
    /// prefix of the bytes.
    fn append(&mut self, bytes: &[u8]) -> Result<(), Failed>
        requires { IsSome (state self.old).begun }
        ensures told { (state self.old).tells → (state self.new).tells }
        ensures begun { (state self.new).begun ≡ (state self.old).begun }
        ensures ok { (state self.old).tells → OnOk result ((state self.new).files ≡ add (state self.old).files (state self.old).begun bytes.now) }
        ensures err { (state self.old).tells → OnErr result ((prefix : List ℕ) × IsPrefix prefix bytes.now × ((state self.new).files ≡ add (state self.old).files (state self.old).begun prefix)) }
        ensures counted { Counts (state self.old).faults (state self.new).faults result }
        ensures sure { (state self.old).is_sure → (state self.new).is_sure × ((state self.new).room ≡ (state self.old).room) }
        ensures full { (state self.old).is_sure → (state self.old).tells → (path : List ℕ) → (state self.old).begun ≡ Some path → OnErr result (Exceeds ((state self.old).room path) (length (content (state self.old).files path)) (length bytes.now)) };

    /// Ends the file that is begun: no path is begun after it, so nothing more goes there, and what was written stays. A file of the
    /// host is closed then. With none begun nothing changes.
    fn end(&mut self)
        ensures told { (state self.old).tells → (state self.new).tells }
        ensures ended { (state self.new).begun ≡ None }
        ensures same { (state self.old).tells → (state self.new).files ≡ (state self.old).files }
        ensures counted { (state self.old).faults ≤ (state self.new).faults }
        ensures sure { (state self.old).is_sure → (state self.new).is_sure × ((state self.new).room ≡ (state self.old).room) };
}

/// Where text is said.
///
/// Its state is told by one record. Where it `tells`, `said` is all that was said. `faults` counts the calls
/// that failed, and never falls. One that `is_sure` fails only where the text said would exceed its `room`.
pub trait Say {
    ghost state: { Self → SayState };

    /// Adds the bytes to the text said. A call that fails adds a prefix of them.
    fn say(&mut self, bytes: &[u8]) -> Result<(), Failed>
        ensures told { (state self.old).tells → (state self.new).tells }
        ensures ok { (state self.old).tells → OnOk result ((state self.new).said ≡ (state self.old).said ++ bytes.now) }
        ensures err { (state self.old).tells → OnErr result ((prefix : List ℕ) × IsPrefix prefix bytes.now × ((state self.new).said ≡ (state self.old).said ++ prefix)) }
        ensures counted { Counts (state self.old).faults (state self.new).faults result }
        ensures sure { (state self.old).is_sure → (state self.new).is_sure × ((state self.new).room ≡ (state self.old).room) }
        ensures full { (state self.old).is_sure → (state self.old).tells → OnErr result ((state self.old).room < length (state self.old).said + length bytes.now) };
}
