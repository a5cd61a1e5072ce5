ghost use Rattle.std.specs.Prelude.{◌≡◌, ◌+◌, ◌≤◌, ◌↔◌, [], ◌++◌, length, Some, None, unwrap_or, option_map, IsTrue, IfOk};
ghost use Rattle.outside.specs.Stored.{fitting};

use crate::room::Room;
use basics::{Name, NoMemory};
use std::alloc::Global;
use std::marker::Model;

/// A path, the room for its file, and whether there is one.
#[derive(Drop)]
pub(crate) struct Slot {
    path: Name,
    room: Room,
    is_held: bool,
}

impl Model for Slot {
    ghost use Rattle.std.specs.Prelude.{◌≡◌, Some, None, false, [], if◌then◌else◌};
    ghost use Rattle.outside.specs.SlotState.{SlotState};

    ghost Value = { SlotState };

    ghost view = { λ p. record { path = p.path; size = p.room.size; held = if p.is_held then Some p.room.bytes else None } };

    ghost invariant = { λ p. p.is_held ≡ false → p.room.bytes ≡ [] };
}

impl Slot {
    /// A path with room for a file of this many bytes, and no file.
    pub(crate) fn new(alloc: Global, path: Name, size: u64) -> Result<Slot, NoMemory>
        ensures { IfOk result (λ slot. slot ≡ record { path = path; size = size; held = None }) }
    {
        let room = Room::new(alloc, size)?;
        Ok(Slot {
            path,
            room,
            is_held: false,
        })
    }

    /// The path.
    pub(crate) fn path(&self) -> &str
        ensures { result.now ≡ self.now.path }
    {
        self.path.as_str()
    }

    /// What the file holds, if there is one.
    pub(crate) fn held(&self) -> Option<&[u8]>
        ensures { option_map (λ bytes. bytes.now) result ≡ self.now.held }
    {
        if self.is_held {
            Some(self.room.as_slice())
        } else {
            None
        }
    }

    /// Makes the file hold no bytes.
    pub(crate) fn begin(&mut self)
        ensures { self.new ≡ record self.old { held = Some [] } }
    {
        self.room.clear();
        self.is_held = true;
    }

    /// Adds the start of the piece that fits to the file, and answers whether it is the whole piece.
    pub(crate) fn add(&mut self, piece: &[u8]) -> bool
        ensures fits { IsTrue result ↔ (length (unwrap_or self.old.held []) + length piece.now ≤ self.old.size) }
        ensures added { self.new ≡ record self.old { held = Some (unwrap_or self.old.held [] ++ fitting self.old.size (unwrap_or self.old.held []) piece.now) } }
    {
        self.is_held = true;
        self.room.add(piece)
    }
}
