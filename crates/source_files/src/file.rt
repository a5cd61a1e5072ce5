ghost use Rattle.std.specs.Prelude.{◌≡◌, ◌≤◌, length, option_map, IfOk, IfSome};
ghost use Rattle.markup_rules.specs.Outcome.{outcome};
ghost use Rattle.markup.specs.Plain.{plain};
ghost use Rattle.source_files.specs.Stops.{Answers, NeverFails, Reads};
ghost use Rattle.source_files.specs.Trees as trees;
ghost use Rattle.source_files.specs.Trees.{IsInFile, bytes_at, found_at, tree_at, tree_if_there};

use crate::stop::ReadStop;
use basics::{Fault, Kind, Name, Stop, stop_at};
use markup::Element;
use outside::{Found, ReadError, Sources};
use std::alloc::Global;

/// The most bytes of one file that are read.
const FILE_LIMIT: usize = 67_108_864;

/// What a reader of one source answered, as the answer for the file at `path`: a fault is that of the file.
pub fn in_file<T: Drop>(alloc: Global, path: &str, answer: Result<T, Stop>) -> Result<T, ReadStop>
    ensures { IsInFile path.now answer result }
{
    match answer {
        Ok(value) => Ok(value),
        Err(Stop::At(spot)) => Err(ReadStop::Refused(Fault {
            path: Name::from_str(alloc, path)?,
            spot,
        })),
        Err(Stop::NoMemory) => Err(ReadStop::NoMemory),
    }
}

/// Reads the bytes of the file at `path`, if there is one.
///
/// # Errors
///
/// `ReadStop::Refused` exactly where the file has more than 67,108,864 bytes (FileTooLong, with the length as
/// `first`). `ReadStop::ReadFault` only where the sources failed, with this path. `ReadStop::NoMemory` where memory
/// ran out, also that for the path of a file that could not be read.
fn read_file_if_there<S: Sources>(
    alloc: Global,
    sources: &mut S,
    path: &str,
) -> Result<Option<Vec<u8>>, ReadStop>
    ensures reads { Reads (S.state sources.old) (S.state sources.new) (λ named. named ≡ path.now) (Answers (option_map (λ bytes. bytes.items)) result (found_at (S.state sources.old).files path.now)) result }
    ensures within { IfOk result (λ found. IfSome found (λ bytes. length bytes.items ≤ 67108864)) }
{
    match sources.read(alloc, path, FILE_LIMIT) {
        Ok(Found::Bytes(bytes)) => Ok(Some(bytes)),
        Ok(Found::Absent) => Ok(None),
        Ok(Found::TooLong(length)) => {
            let length = length.min(i64::MAX as u64) as i64;
            in_file(
                alloc,
                path,
                Err(stop_at(alloc, Kind::FileTooLong, "", 0, length)),
            )
        }
        Err(ReadError::Failed) => Err(ReadStop::ReadFault(Name::from_str(alloc, path)?)),
        Err(ReadError::NoMemory) => Err(ReadStop::NoMemory),
    }
}

/// The bytes of the file at `path`, which must be there.
fn there(alloc: Global, path: &str, found: Option<Vec<u8>>) -> Result<Vec<u8>, ReadStop>
    ensures answers { Answers (λ bytes. bytes.items) result (trees.in_file path.now (trees.there (option_map (λ bytes. bytes.items) found))) }
    ensures never { NeverFails result }
    ensures same { IfOk result (λ bytes. found ≡ Some bytes) }
{
    match found {
        Some(bytes) => Ok(bytes),
        None => in_file(
            alloc,
            path,
            Err(stop_at(alloc, Kind::MissingFile, "", 0, 0)),
        ),
    }
}

/// Reads the bytes of the file at `path`.
///
/// # Errors
///
/// `ReadStop::Refused` exactly where the file is missing (MissingFile) or has more than 67,108,864 bytes
/// (FileTooLong, with the length as `first`). `ReadStop::ReadFault` only where the sources failed, with this
/// path. `ReadStop::NoMemory` where memory ran out, also that for the path of a file that could not be read.
pub fn read_file<S: Sources>(
    alloc: Global,
    sources: &mut S,
    path: &str,
) -> Result<Vec<u8>, ReadStop>
    ensures reads { Reads (S.state sources.old) (S.state sources.new) (λ named. named ≡ path.now) (Answers (λ bytes. bytes.items) result (bytes_at (S.state sources.old).files path.now)) result }
    ensures within { IfOk result (λ bytes. length bytes.items ≤ 67108864) }
{
    let found = read_file_if_there(alloc, sources, path)?;
    there(alloc, path, found)
}

/// The tree of the text of the file at `path`.
#[tactic(auto, using(crate::proofs::InFile::answers_in_file))]
fn tree_of(alloc: Global, path: &str, text: &[u8]) -> Result<Element, ReadStop>
    ensures answers { Answers plain result (trees.in_file path.now (outcome text.now)) }
    ensures never { NeverFails result }
{
    in_file(alloc, path, markup::read(alloc, text))
}

/// Reads the tree of the file at `path`, which is a source text.
///
/// # Errors
///
/// As `read_file`; and `ReadStop::Refused` with the one fault of the text, exactly where it has one.
pub fn read_tree<S: Sources>(
    alloc: Global,
    sources: &mut S,
    path: &str,
) -> Result<Element, ReadStop>
    ensures { Reads (S.state sources.old) (S.state sources.new) (λ named. named ≡ path.now) (Answers plain result (tree_at (S.state sources.old).files path.now)) result }
{
    let bytes = read_file(alloc, sources, path)?;
    tree_of(alloc, path, bytes.as_slice())
}

/// Reads the tree of the file at `path`, which is a source text, if there is such a file.
///
/// # Errors
///
/// As `read_tree`, but a file that is missing is no fault.
pub fn read_tree_if_there<S: Sources>(
    alloc: Global,
    sources: &mut S,
    path: &str,
) -> Result<Option<Element>, ReadStop>
    ensures { Reads (S.state sources.old) (S.state sources.new) (λ named. named ≡ path.now) (Answers (option_map plain) result (tree_if_there (S.state sources.old).files path.now)) result }
{
    match read_file_if_there(alloc, sources, path)? {
        Some(bytes) => Ok(Some(tree_of(alloc, path, bytes.as_slice())?)),
        None => Ok(None),
    }
}
