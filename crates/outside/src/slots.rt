ghost use Rattle.std.specs.Prelude.{◌≡◌, ◌<◌, ◌↔◌, ℕ, List, [], ◌++◌, length, Some, IsTrue, IfNone, IfOk, OnSome, option_map, map, position, bytes_eq};
ghost use Rattle.outside.specs.Files.{content};
ghost use Rattle.outside.specs.SlotState.{slot_at, held_in, room_in, paths_of, index_of, empty_slot, Writes};
ghost use Rattle.outside.specs.Stored.{Fits, fitting_in};

use crate::slot::Slot;
use basics::{Name, NoMemory, Seq};
use std::alloc::Global;
use std::marker::Model;

/// Paths with room for their files. Of two equal paths the first counts.
#[derive(Drop)]
pub(crate) struct Slots {
    items: Vec<Slot>,
}

impl Model for Slots {
    ghost use Rattle.std.specs.Prelude.{List};
    ghost use Rattle.outside.specs.SlotState.{SlotState};

    ghost Value = { List SlotState };

    ghost view = { λ p. p.items.items };
}

impl Slots {
    /// Slots with these paths and room for these many bytes, all of which is taken now, and no file.
    pub(crate) fn new(alloc: Global, rooms: Seq<(Name, u64)>) -> Result<Slots, NoMemory>
        ensures { IfOk result (λ slots. slots ≡ map empty_slot rooms) }
    {
        let rooms = rooms.into_vec();
        let mut items = Vec::with_capacity(alloc, rooms.len())?;
        for (path, size) in rooms {
            let slot = Slot::new(alloc, path, size)?;
            items.push(slot)?;
        }
        Ok(Slots { items })
    }

    /// The index of the first slot with this path.
    fn index_of(&self, path: &str) -> Option<usize>
        ensures { result ≡ position (λ slot. bytes_eq slot.path path.now) self.now }
    {
        self.items.iter().position(|slot| slot.path() == path)
    }

    /// The first slot with this path.
    fn find(&self, path: &str) -> Option<&Slot>
        ensures { option_map (λ slot. slot.now) result ≡ slot_at self.now path.now }
    {
        self.items.iter().find(|slot| slot.path() == path)
    }

    /// What the first slot with this path holds.
    pub(crate) fn held(&self, path: &str) -> Option<&[u8]>
        ensures { option_map (λ bytes. bytes.now) result ≡ held_in self.now path.now }
    {
        let slot = self.find(path)?;
        slot.held()
    }

    /// Makes the first slot with this path hold no bytes, and answers its index.
    pub(crate) fn begin(&mut self, path: &str) -> Option<usize>
        ensures index { result ≡ index_of (paths_of self.old) path.now }
        ensures some { OnSome result (Writes self.old self.new path.now []) }
        ensures none { IfNone result (self.new ≡ self.old) }
    {
        let index = self.index_of(path)?;
        self.items[index].begin();
        Some(index)
    }

    /// Adds the start of the piece that fits to the slot at this index, and answers whether it is the
    /// whole piece.
    pub(crate) fn add(&mut self, index: usize, piece: &[u8]) -> bool
        requires { index < length self.old }
        ensures fits { (path : List ℕ) → index_of (paths_of self.old) path ≡ Some index → IsTrue result ↔ Fits (room_in self.old path) (length (content (held_in self.old) path)) (length piece.now) }
        ensures written { (path : List ℕ) → index_of (paths_of self.old) path ≡ Some index → Writes self.old self.new path (content (held_in self.old) path ++ fitting_in (room_in self.old path) (content (held_in self.old) path) piece.now) }
    {
        self.items[index].add(piece)
    }
}
