ghost use Rattle.std.specs.Prelude.{◌≡◌, option_map};
ghost use Rattle.outside.specs.FirstAt.{first_at};
ghost use Rattle.outside.specs.Answered.{Answers};
ghost use Rattle.outside.specs.SureSources.{files_of};

use crate::traits::{Found, ReadError, Sources};
use basics::{Name, Seq};
use std::alloc::Global;

/// Files in memory that are always read.
#[derive(Drop)]
pub struct SureSources {
    files: Seq<(Name, Vec<u8>)>,
}

impl SureSources {
    /// Sources with these files, each with its path. Of two equal paths the first counts. Takes no memory.
    pub fn new(files: Seq<(Name, Vec<u8>)>) -> SureSources
        ensures { files_of result ≡ first_at files }
    {
        SureSources { files }
    }
}

impl Sources for SureSources {
    ghost state = { λ sources. record { tells = Unit {0}; files = files_of sources; faults = 0; is_sure = Unit {0} } };

    fn read(&mut self, alloc: Global, path: &str, limit: usize) -> Result<Found, ReadError>
        ensures same { files_of self.new ≡ files_of self.old }
        ensures answer { Answers (files_of self.old path.now) limit result }
    {
        let Some(bytes) = first_at(self.files.as_slice(), path) else {
            return Ok(Found::Absent);
        };
        if bytes.len() > limit {
            return Ok(Found::TooLong(bytes.len() as u64));
        }
        match Vec::from_slice(alloc, bytes) {
            Ok(copy) => Ok(Found::Bytes(copy)),
            Err(_) => Err(ReadError::NoMemory),
        }
    }
}

/// The bytes of the first of the files with this path.
fn first_at<'a>(files: &'a [(Name, Vec<u8>)], path: &str) -> Option<&'a [u8]>
    ensures { option_map (λ bytes. bytes.now) result ≡ first_at files.now path.now }
{
    files
        .iter()
        .find(|file| file.0.as_str() == path)
        .map(|file| file.1.as_slice())
}
