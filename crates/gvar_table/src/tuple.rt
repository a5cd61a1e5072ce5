use basics::Seq;
use fixpoint::Pair;
use region_support::Support;

/// One tuple variation of a glyph, to be written (OpenType, "gvar" and "Tuple variation store").
#[derive(Drop)]
pub struct Tuple {
    /// The region in which the deltas count, one triple an axis in the font's order.
    pub support: Support,
    /// The numbers of the points that have deltas, rising and not empty; the four phantom points come after
    /// the outline's.
    pub points: Seq<u16>,
    /// The delta of each of these points, in font units.
    pub deltas: Seq<Pair>,
}
