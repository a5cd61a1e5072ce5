ghost use Rattle.std.specs.Prelude.{◌≡◌, ◌⊎◌, ℕ, List, [], None, Some, IsSome, IfOk, OnOk, OnErr, Contains, option_map};
ghost use Rattle.outside.specs.Counting.{count_after, next_number};
ghost use Rattle.outside.specs.Files.{put, add, IsPrefix};
ghost use Rattle.outside.specs.FirstAt.{first_room, no_files};
ghost use Rattle.outside.specs.MemoryOutputs.{files_of, room_of, begun_of, failing_of, next_of, faults_of};
ghost use Rattle.outside.specs.Stored.{FitsAt, ExceedsAt, fitting_at, first_half};

use crate::failures::Failures;
use crate::sure_outputs::SureOutputs;
use crate::traits::{Failed, Outputs};
use basics::{Name, NoMemory, Seq};
use std::alloc::Global;

/// Files in memory, of which each path may hold a number of bytes, and of which chosen calls fail.
#[derive(Drop)]
pub struct MemoryOutputs {
    inner: SureOutputs,
    failures: Failures,
}

impl MemoryOutputs {
    /// Room for files with these paths and up to these many bytes, all of which is taken now. Of two
    /// rooms with one path the first counts. The calls with the numbers `failing`, of `begin` and
    /// `append` together and counted from 0, fail also where there is room.
    pub fn new(
        alloc: Global,
        rooms: Seq<(Name, u64)>,
        failing: Seq<u64>,
    ) -> Result<MemoryOutputs, NoMemory>
        ensures files { IfOk result (λ outputs. files_of outputs ≡ no_files) }
        ensures room { IfOk result (λ outputs. room_of outputs ≡ first_room rooms) }
        ensures begun { IfOk result (λ outputs. begun_of outputs ≡ None) }
        ensures failing { IfOk result (λ outputs. failing_of outputs ≡ failing) }
        ensures next { IfOk result (λ outputs. next_of outputs ≡ 0) }
        ensures faults { IfOk result (λ outputs. faults_of outputs ≡ 0) }
    {
        let inner = SureOutputs::new(alloc, rooms)?;
        let failures = Failures::new(failing);
        Ok(MemoryOutputs { inner, failures })
    }

    /// What the path has, None exactly where there is no such file. Takes no memory.
    pub fn held(&self, path: &str) -> Option<&[u8]>
        ensures { option_map (λ bytes. bytes.now) result ≡ files_of self.now path.now }
    {
        self.inner.held(path)
    }
}

impl Outputs for MemoryOutputs {
    ghost state = { λ outputs. record { tells = Unit {0}; files = files_of outputs; begun = begun_of outputs; faults = faults_of outputs; is_sure = ⊥; room = room_of outputs } };

    fn begin(&mut self, path: &str) -> Result<(), Failed>
        ensures spared { OnOk result (¬ (Contains (failing_of self.old) (next_of self.old))) }
        ensures has_room { OnOk result (IsSome (room_of self.old path.now)) }
        ensures fails { OnErr result (Contains (failing_of self.old) (next_of self.old) ⊎ (room_of self.old path.now ≡ None)) }

        ensures ok { OnOk result (files_of self.new ≡ put (files_of self.old) path.now []) }
        ensures err { OnErr result (files_of self.new ≡ files_of self.old) }
        ensures path { OnOk result (begun_of self.new ≡ Some path.now) }
        ensures ended { OnErr result (begun_of self.new ≡ None) }

        ensures counted { faults_of self.new ≡ count_after (faults_of self.old) result }
        ensures room { room_of self.new ≡ room_of self.old }
        ensures failing { failing_of self.new ≡ failing_of self.old }
        ensures next { next_of self.new ≡ next_number (next_of self.old) }
    {
        if self.failures.next_fails() {
            self.inner.fail_begin();
            return Err(Failed);
        }
        self.inner.begin(path)
    }

    fn append(&mut self, bytes: &[u8]) -> Result<(), Failed>
        requires { IsSome (begun_of self.old) }
        ensures spared { OnOk result (¬ (Contains (failing_of self.old) (next_of self.old))) }
        ensures fits { OnOk result (FitsAt (room_of self.old) (files_of self.old) (begun_of self.old) bytes.now) }
        ensures fails { OnErr result (Contains (failing_of self.old) (next_of self.old) ⊎ ExceedsAt (room_of self.old) (files_of self.old) (begun_of self.old) bytes.now) }

        ensures ok { OnOk result (files_of self.new ≡ add (files_of self.old) (begun_of self.old) bytes.now) }
        ensures err { OnErr result ((prefix : List ℕ) × IsPrefix prefix bytes.now × (files_of self.new ≡ add (files_of self.old) (begun_of self.old) prefix)) }
        // A chosen call adds the first half of the bytes, and another that fails all of them, as far as they fit.
        ensures half { Contains (failing_of self.old) (next_of self.old) → files_of self.new ≡ add (files_of self.old) (begun_of self.old) (fitting_at (room_of self.old) (files_of self.old) (begun_of self.old) (first_half bytes.now)) }
        ensures cut { ¬ (Contains (failing_of self.old) (next_of self.old)) → OnErr result (files_of self.new ≡ add (files_of self.old) (begun_of self.old) (fitting_at (room_of self.old) (files_of self.old) (begun_of self.old) bytes.now)) }

        ensures begun { begun_of self.new ≡ begun_of self.old }
        ensures counted { faults_of self.new ≡ count_after (faults_of self.old) result }
        ensures room { room_of self.new ≡ room_of self.old }
        ensures failing { failing_of self.new ≡ failing_of self.old }
        ensures next { next_of self.new ≡ next_number (next_of self.old) }
    {
        if self.failures.next_fails() {
            self.inner.cut_short(&bytes[..bytes.len() / 2]);
            return Err(Failed);
        }
        self.inner.append(bytes)
    }

    fn end(&mut self)
        ensures files { files_of self.new ≡ files_of self.old }
        ensures begun { begun_of self.new ≡ None }
        ensures room { room_of self.new ≡ room_of self.old }
        ensures faults { faults_of self.new ≡ faults_of self.old }
        ensures failing { failing_of self.new ≡ failing_of self.old }
        ensures next { next_of self.new ≡ next_of self.old }
    {
        self.inner.end();
    }
}
