ghost use Rattle.std.specs.Prelude.{◌≡◌, ◌<◌, [], None, Some, IfOk, IsSome, is_ok, is_some, if◌then◌else◌, vec_len};
ghost use Rattle.outside.specs.Counting.{count_after};
ghost use Rattle.outside.specs.Answered.{count_after_read};
ghost use Rattle.outside.specs.Found.{IsWithin};
ghost use Rattle.outside.specs.Stream.{IsCounted, GrowsFile};

use crate::stream::{read_within, write_whole};
use crate::traits::{Failed, Found, Outputs, ReadError, Say, Sources};
use std::alloc::Global;
use std::io::ErrorKind;
use std::rt::Files;
use std::{fs, io};

/// The files of the host, to read from. A path that isn't found is absent. Each other fault of opening
/// or of reading is a failure, and so is a file beyond the limit with more than 4,294,967,296 bytes.
///
/// It tells nothing of what the files hold. Besides the bytes within the limit it holds a buffer of 65,536, from the
/// first read on.
#[derive(Drop)]
pub struct HostSources<R: Files> {
    rt: R,
    buffer: Option<Vec<u8>>,
    faults: u64,
}

/// How many bytes a read asks for.
const BUFFER_SIZE: usize = 65_536;

impl<R: Files> HostSources<R> {
    /// The files that `rt` reaches, with no failure so far.
    pub fn new(rt: R) -> HostSources<R>
        ensures { result.faults ≡ 0 }
    {
        HostSources {
            rt,
            buffer: None,
            faults: 0,
        }
    }

    // The buffer, made where there is none yet.
    fn take_buffer(&mut self, alloc: Global) -> Result<Vec<u8>, ReadError>
        ensures some { IfOk result (λ buffer. 0 < vec_len buffer) }
        ensures faults { self.new.faults ≡ self.old.faults }
    {
        match self.buffer.take() {
            Some(buffer) if !buffer.is_empty() => Ok(buffer),
            _ => match vec![in alloc; 0; BUFFER_SIZE] {
                Ok(buffer) => Ok(buffer),
                Err(_) => Err(ReadError::NoMemory),
            },
        }
    }

    // Reads one file of the host.
    fn read_file(&mut self, alloc: Global, path: &str, limit: usize) -> Result<Found, ReadError>
        ensures within { IfOk result (IsWithin limit) }
        ensures counted { IfOk result IsCounted }
        ensures faults { self.new.faults ≡ self.old.faults }
    {
        match fs::open(&self.rt, path) {
            Ok(mut file) => {
                let mut buffer = self.take_buffer(alloc)?;
                let found = read_within(&mut file, alloc, &mut buffer, limit);
                self.buffer = Some(buffer);
                found
            }
            Err(error) if error.kind() == ErrorKind::NotFound => Ok(Found::Absent),
            Err(_) => Err(ReadError::Failed),
        }
    }
}

impl<R: Files> Sources for HostSources<R> {
    ghost state = { λ sources. record { tells = ⊥; files = λ _. None; faults = sources.faults; is_sure = ⊥ } };

    fn read(&mut self, alloc: Global, path: &str, limit: usize) -> Result<Found, ReadError>
        ensures within { IfOk result (IsWithin limit) }
        ensures most { IfOk result IsCounted }
        ensures counted { self.new.faults ≡ count_after_read self.old.faults result }
    {
        match self.read_file(alloc, path, limit) {
            Err(ReadError::Failed) => {
                self.faults = self.faults.saturating_add(1);
                Err(ReadError::Failed)
            }
            answer => answer,
        }
    }
}

/// The files of the host, to write to. `begin` makes a file that isn't there, and empties one that is. The
/// file is held open until `end` or the next `begin` closes it. It tells nothing of what the files hold.
#[derive(Drop)]
pub struct HostOutputs<R: Files> {
    rt: R,
    file: Option<R::File>,
    faults: u64,
}

impl<R: Files> HostOutputs<R> {
    /// The files that `rt` reaches, with none begun and no failure so far.
    pub fn new(rt: R) -> HostOutputs<R>
        ensures begun { result.file ≡ None }
        ensures faults { result.faults ≡ 0 }
    {
        HostOutputs {
            rt,
            file: None,
            faults: 0,
        }
    }
}

impl<R: Files> Outputs for HostOutputs<R> {
    // Whether a path is begun, and not which.
    ghost state = { λ outputs. record { tells = ⊥; files = λ _. None; begun = if is_some outputs.file then Some [] else None; faults = outputs.faults; is_sure = ⊥; room = λ _. None } };

    fn begin(&mut self, path: &str) -> Result<(), Failed>
        ensures begun { is_some self.new.file ≡ is_ok result }
        ensures counted { self.new.faults ≡ count_after self.old.faults result }
    {
        self.end();
        match fs::create(&self.rt, path) {
            Ok(file) => {
                self.file = Some(file);
                Ok(())
            }
            Err(_) => {
                self.faults = self.faults.saturating_add(1);
                Err(Failed)
            }
        }
    }

    fn append(&mut self, bytes: &[u8]) -> Result<(), Failed>
        requires { IsSome self.old.file }
        ensures written { GrowsFile R.File.contents self.old.file self.new.file bytes.now result }
        ensures counted { self.new.faults ≡ count_after self.old.faults result }
    {
        let Some(file) = &mut self.file else {
            unreachable!()
        };
        match write_whole(file, bytes) {
            Ok(()) => Ok(()),
            Err(Failed) => {
                self.faults = self.faults.saturating_add(1);
                Err(Failed)
            }
        }
    }

    fn end(&mut self)
        ensures closed { self.new.file ≡ None }
        ensures faults { self.new.faults ≡ self.old.faults }
    {
        self.file = None;
    }
}

/// The host's standard output, to say text. It tells nothing of what was said, and keeps no text back.
#[derive(Drop)]
pub struct HostSay<R: Print> {
    rt: R,
    faults: u64,
}

impl<R: Print> HostSay<R> {
    /// The standard output that `rt` reaches, with no failure so far.
    pub fn new(rt: R) -> HostSay<R>
        ensures { result.faults ≡ 0 }
    {
        HostSay { rt, faults: 0 }
    }
}

impl<R: Print> Say for HostSay<R> {
    ghost state = { λ say. record { tells = ⊥; said = []; faults = say.faults; is_sure = ⊥; room = 0 } };

    fn say(&mut self, bytes: &[u8]) -> Result<(), Failed>
        ensures counted { self.new.faults ≡ count_after self.old.faults result }
    {
        match write_whole(&mut io::writer(&self.rt), bytes) {
            Ok(()) => Ok(()),
            Err(Failed) => {
                self.faults = self.faults.saturating_add(1);
                Err(Failed)
            }
        }
    }
}

mod streams;
#[cfg(test)]
mod tests;

pub use streams::StandardStreams;
