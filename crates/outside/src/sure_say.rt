ghost use Rattle.std.specs.Prelude.{◌≡◌, ℕ, ◌+◌, ◌<◌, ◌≤◌, List, [], ◌++◌, length, IfOk, OnOk, OnErr};
ghost use Rattle.outside.specs.Counting.{one_more, count_after};
ghost use Rattle.outside.specs.Files.{IsPrefix};
ghost use Rattle.outside.specs.Stored.{fitting};
ghost use Rattle.outside.specs.SureSay.{said_of, room_of, faults_of};

use crate::room::Room;
use crate::traits::{Failed, Say};
use basics::NoMemory;
use std::alloc::Global;

/// Text in memory up to a size, which fails only where that is exceeded.
#[derive(Drop)]
pub struct SureSay {
    room: Room,
    faults: u64,
}

impl SureSay {
    /// Room to say this many bytes, all of which is taken now.
    pub fn new(alloc: Global, room: u64) -> Result<SureSay, NoMemory>
        ensures said { IfOk result (λ say. said_of say ≡ []) }
        ensures room { IfOk result (λ say. room_of say ≡ room) }
        ensures faults { IfOk result (λ say. faults_of say ≡ 0) }
    {
        let room = Room::new(alloc, room)?;
        Ok(SureSay { room, faults: 0 })
    }

    /// All that was said. Takes no memory.
    pub fn said(&self) -> &[u8]
        ensures { result.now ≡ said_of self.now }
    {
        self.room.as_slice()
    }

    /// Adds the start of the piece that fits, and counts a fault.
    pub(crate) fn cut_short(&mut self, piece: &[u8])
        ensures said { said_of self.new ≡ said_of self.old ++ fitting (room_of self.old) (said_of self.old) piece.now }
        ensures counted { faults_of self.new ≡ one_more (faults_of self.old) }
        ensures room { room_of self.new ≡ room_of self.old }
    {
        let _ = self.room.add(piece);
        self.faults = self.faults.saturating_add(1);
    }
}

impl Say for SureSay {
    ghost state = { λ say. record { tells = Unit {0}; said = said_of say; faults = faults_of say; is_sure = Unit {0}; room = room_of say } };

    fn say(&mut self, bytes: &[u8]) -> Result<(), Failed>
        ensures fits { OnOk result (length (said_of self.old) + length bytes.now ≤ room_of self.old) }
        ensures full { OnErr result (room_of self.old < length (said_of self.old) + length bytes.now) }
        ensures ok { OnOk result (said_of self.new ≡ said_of self.old ++ bytes.now) }
        ensures err { OnErr result ((prefix : List ℕ) × IsPrefix prefix bytes.now × (said_of self.new ≡ said_of self.old ++ prefix)) }
        ensures cut { OnErr result (said_of self.new ≡ said_of self.old ++ fitting (room_of self.old) (said_of self.old) bytes.now) }
        ensures counted { faults_of self.new ≡ count_after (faults_of self.old) result }
        ensures room { room_of self.new ≡ room_of self.old }
    {
        if self.room.add(bytes) {
            return Ok(());
        }
        self.faults = self.faults.saturating_add(1);
        Err(Failed)
    }
}
