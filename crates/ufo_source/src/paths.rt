ghost use Rattle.std.specs.Prelude.{◌≡◌, IfOk, string_bytes};
ghost use Rattle.basics.specs.Reading.{Gives};
ghost use Rattle.source_files.specs.Trees.{IsInFile};
ghost use Rattle.ufo_source.specs.Paths as paths;
ghost use Rattle.ufo_source.specs.Paths.{leads_out, path_in};

use basics::{Kind, NoMemory, Stop, stop_at};
use source_files::{ReadStop, in_file};
use std::alloc::Global;

/// The path of a file in a folder: both as they stand, with a slash between.
pub(crate) fn path_in(alloc: Global, folder: &str, name: &str) -> Result<String, NoMemory>
    ensures { IfOk result (λ path. string_bytes path ≡ path_in folder.now name.now) }
{
    Ok(format!(in alloc; "{folder}/{name}")?)
}

/// What a reader of one source answered, as the answer for a file in a folder: a fault is that of the file.
pub(crate) fn in_folder<T: Drop>(
    alloc: Global,
    folder: &str,
    name: &str,
    answer: Result<T, Stop>,
) -> Result<T, ReadStop>
    ensures { IsInFile (path_in folder.now name.now) answer result }
{
    match answer {
        Ok(value) => Ok(value),
        Err(stop) => {
            let path = path_in(alloc, folder, name)?;
            in_file(alloc, path.as_str(), Err(stop))
        }
    }
}

/// Whether a name isn't one of a file in the folder that names it.
fn leads_out(name: &str) -> bool
    ensures { result ≡ leads_out name.now }
{
    name.is_empty() || name == "." || name == ".." || name.as_bytes().contains(&b'/')
}

/// Tests that a name is one of a file in the folder that names it.
pub(crate) fn check_file_name(alloc: Global, name: &str) -> Result<(), Stop>
    ensures { Gives (λ _. tt) result (paths.file_name name.now) }
{
    if leads_out(name) {
        return Err(stop_at(alloc, Kind::FileName, name, 0, 0));
    }
    Ok(())
}
