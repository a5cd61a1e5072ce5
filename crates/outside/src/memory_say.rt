ghost use Rattle.std.specs.Prelude.{◌≡◌, ◌⊎◌, ℕ, ◌+◌, ◌<◌, ◌≤◌, List, [], ◌++◌, length, IfOk, OnOk, OnErr, Contains};
ghost use Rattle.outside.specs.Counting.{count_after, next_number};
ghost use Rattle.outside.specs.Files.{IsPrefix};
ghost use Rattle.outside.specs.MemorySay.{said_of, room_of, failing_of, next_of, faults_of};
ghost use Rattle.outside.specs.Stored.{fitting, first_half};

use crate::failures::Failures;
use crate::sure_say::SureSay;
use crate::traits::{Failed, Say};
use basics::{NoMemory, Seq};
use std::alloc::Global;

/// Text in memory up to a size, of which chosen calls fail.
#[derive(Drop)]
pub struct MemorySay {
    inner: SureSay,
    failures: Failures,
}

impl MemorySay {
    /// Room to say this many bytes, all of which is taken now. The calls with the numbers `failing`,
    /// counted from 0, fail also where there is room.
    pub fn new(alloc: Global, room: u64, failing: Seq<u64>) -> Result<MemorySay, NoMemory>
        ensures said { IfOk result (λ say. said_of say ≡ []) }
        ensures room { IfOk result (λ say. room_of say ≡ room) }
        ensures failing { IfOk result (λ say. failing_of say ≡ failing) }
        ensures next { IfOk result (λ say. next_of say ≡ 0) }
        ensures faults { IfOk result (λ say. faults_of say ≡ 0) }
    {
        let inner = SureSay::new(alloc, room)?;
        let failures = Failures::new(failing);
        Ok(MemorySay { inner, failures })
    }

    /// All that was said. Takes no memory.
    pub fn said(&self) -> &[u8]
        ensures { result.now ≡ said_of self.now }
    {
        self.inner.said()
    }
}

impl Say for MemorySay {
    ghost state = { λ say. record { tells = Unit {0}; said = said_of say; faults = faults_of say; is_sure = ⊥; room = room_of say } };

    fn say(&mut self, bytes: &[u8]) -> Result<(), Failed>
        ensures spared { OnOk result (¬ (Contains (failing_of self.old) (next_of self.old))) }
        ensures fits { OnOk result (length (said_of self.old) + length bytes.now ≤ room_of self.old) }
        ensures fails { OnErr result (Contains (failing_of self.old) (next_of self.old) ⊎ (room_of self.old < length (said_of self.old) + length bytes.now)) }

        ensures ok { OnOk result (said_of self.new ≡ said_of self.old ++ bytes.now) }
        ensures err { OnErr result ((prefix : List ℕ) × IsPrefix prefix bytes.now × (said_of self.new ≡ said_of self.old ++ prefix)) }
        // A chosen call adds the first half of the bytes, and another that fails all of them, as far as they fit.
        ensures half { Contains (failing_of self.old) (next_of self.old) → said_of self.new ≡ said_of self.old ++ fitting (room_of self.old) (said_of self.old) (first_half bytes.now) }
        ensures cut { ¬ (Contains (failing_of self.old) (next_of self.old)) → OnErr result (said_of self.new ≡ said_of self.old ++ fitting (room_of self.old) (said_of self.old) bytes.now) }

        ensures counted { faults_of self.new ≡ count_after (faults_of self.old) result }
        ensures room { room_of self.new ≡ room_of self.old }
        ensures failing { failing_of self.new ≡ failing_of self.old }
        ensures next { next_of self.new ≡ next_number (next_of self.old) }
    {
        if self.failures.next_fails() {
            self.inner.cut_short(&bytes[..bytes.len() / 2]);
            return Err(Failed);
        }
        self.inner.say(bytes)
    }
}
