ghost use Rattle.std.specs.Prelude.{◌≡◌, ◌↔◌, IsErrOf, Contains};
ghost use Rattle.outside.specs.FirstAt.{first_at};
ghost use Rattle.outside.specs.Answered.{AnswersUnlessFailed, count_after_read};
ghost use Rattle.outside.specs.Counting.{next_number};
ghost use Rattle.outside.specs.MemorySources.{files_of, failing_of, next_of, faults_of};

use crate::failures::Failures;
use crate::sure_sources::SureSources;
use crate::traits::{Found, ReadError, Sources};
use basics::{Name, Seq};
use std::alloc::Global;

/// Files in memory of which chosen reads fail.
#[derive(Drop)]
pub struct MemorySources {
    sources: SureSources,
    failures: Failures,
    faults: u64,
}

impl MemorySources {
    /// Sources with these files, each with its path, of which the reads with these numbers fail,
    /// counted from 0. Of two equal paths the first counts. Takes no memory.
    pub fn new(files: Seq<(Name, Vec<u8>)>, failing: Seq<u64>) -> MemorySources
        ensures files { files_of result ≡ first_at files }
        ensures failing { failing_of result ≡ failing }
        ensures next { next_of result ≡ 0 }
        ensures faults { faults_of result ≡ 0 }
    {
        MemorySources {
            sources: SureSources::new(files),
            failures: Failures::new(failing),
            faults: 0,
        }
    }
}

impl Sources for MemorySources {
    ghost state = { λ sources. record { tells = Unit {0}; files = files_of sources; faults = faults_of sources; is_sure = ⊥ } };

    fn read(&mut self, alloc: Global, path: &str, limit: usize) -> Result<Found, ReadError>
        ensures same { files_of self.new ≡ files_of self.old }
        ensures fails { IsErrOf result ReadError.Failed ↔ Contains (failing_of self.old) (next_of self.old) }
        ensures answer { AnswersUnlessFailed (files_of self.old path.now) limit result }
        ensures counted { faults_of self.new ≡ count_after_read (faults_of self.old) result }
        ensures failing { failing_of self.new ≡ failing_of self.old }
        ensures next { next_of self.new ≡ next_number (next_of self.old) }
    {
        if self.failures.next_fails() {
            self.faults = self.faults.saturating_add(1);
            return Err(ReadError::Failed);
        }
        self.sources.read(alloc, path, limit)
    }
}
