use basics::Seq;

/// The font, in the pieces in which its file is written, and what its summary tells.
#[derive(Drop)]
pub struct Built {
    /// The file, piece by piece: its table directory, and each table.
    pub pieces: Seq<Vec<u8>>,
    /// How many tuple variations the glyphs have.
    pub tuples: u64,
    /// How many outline points the tuples name, added up over them.
    pub explicit: u64,
    /// How many outline points there are, added up over the tuples.
    pub points: u64,
}
