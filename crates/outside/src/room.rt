ghost use Rattle.std.specs.Prelude.{◌≡◌, ◌+◌, ◌≤◌, ◌↔◌, [], ◌++◌, length, IsTrue, IfOk};
ghost use Rattle.outside.specs.Stored.{fitting};

use basics::NoMemory;
use std::alloc::Global;
use std::marker::Model;

/// Memory for bytes up to a size, all of which is taken when it is made.
#[derive(Drop)]
pub(crate) struct Room {
    size: usize,
    bytes: Vec<u8>,
}

impl Model for Room {
    ghost use Rattle.std.specs.Prelude.{◌≤◌, vec_len, vec_capacity};
    ghost use Rattle.outside.specs.Stored.{Stored};

    ghost Value = { Stored };

    ghost view = { λ r. record { size = r.size; bytes = r.bytes.items } };

    ghost invariant = { λ r. (r.size ≤ vec_capacity r.bytes) × (vec_len r.bytes ≤ r.size) };
}

impl Room {
    /// Room for this many bytes, with none in it.
    pub(crate) fn new(alloc: Global, size: u64) -> Result<Room, NoMemory>
        ensures { IfOk result (λ room. room ≡ record { size = size; bytes = [] }) }
    {
        let size = size as usize;
        let bytes = Vec::with_capacity(alloc, size)?;
        Ok(Room { size, bytes })
    }

    /// The bytes in it.
    pub(crate) fn as_slice(&self) -> &[u8]
        ensures { result.now ≡ self.now.bytes }
    {
        self.bytes.as_slice()
    }

    /// Takes the bytes out of it.
    pub(crate) fn clear(&mut self)
        ensures { self.new ≡ record self.old { bytes = [] } }
    {
        self.bytes.clear();
    }

    /// Adds the start of the piece that fits, which takes no memory, and answers whether it is the
    /// whole piece.
    pub(crate) fn add(&mut self, piece: &[u8]) -> bool
        ensures fits { IsTrue result ↔ (length self.old.bytes + length piece.now ≤ self.old.size) }
        ensures added { self.new ≡ record self.old { bytes = self.old.bytes ++ fitting self.old.size self.old.bytes piece.now } }
    {
        let count = piece.len().min(self.size - self.bytes.len());
        self.bytes.extend_from_slice(&piece[..count]).unwrap();
        count == piece.len()
    }
}
