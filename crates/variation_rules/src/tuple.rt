use crate::region::Triple;
use basics::Seq;
use fixpoint::Pair;

/// One tuple variation of a glyph (OpenType, "Tuple variation store"): a region of the design space and
/// the deltas that some points have in it.
#[derive(Drop)]
pub struct TupleVariation {
    /// The region, one triple for each axis in the font's order.
    pub region: Seq<Triple>,
    /// The point numbers that the tuple names, rising; the four phantom points come after the outline's.
    pub points: Seq<u16>,
    /// The delta of each of these points, in font units.
    pub deltas: Seq<Pair>,
}
