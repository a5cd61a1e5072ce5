ghost use Rattle.std.specs.Prelude.{◌≡◌};

use basics::{NoMemory, Seq};
use fixpoint::Pair;
use std::alloc::{AllocError, AllocFailed};

/// Why deltas can't be had.
#[derive(Debug, Drop, PartialEq, Eq)]
pub enum DeltaStop {
    /// A delta doesn't fit 16 bits. It is the first one by master, then by point, x before y, and the advance last.
    DeltaRange {
        /// The master's number in the order of masters; the default is 0.
        master: u32,
        /// The point's number in the outline. The advance has the number of points and one more, as the second
        /// phantom point of the glyph (OpenType, "glyf").
        point: u32,
        /// Whether it is the vertical delta of the point.
        y: bool,
        /// The delta.
        value: i64,
    },
    /// Memory ran out.
    NoMemory,
}

impl From<NoMemory> for DeltaStop {
    ghost use Rattle.delta_solve.specs.declared.model.DeltaStop.TheVariants.{NoMemory};

    ghost from_gives = { λ _ stop. stop ≡ NoMemory };

    fn from(_: NoMemory) -> DeltaStop {
        DeltaStop::NoMemory
    }
}

impl From<AllocError> for DeltaStop {
    ghost use Rattle.delta_solve.specs.declared.model.DeltaStop.TheVariants.{NoMemory};

    ghost from_gives = { λ _ stop. stop ≡ NoMemory };

    fn from(_: AllocError) -> DeltaStop {
        DeltaStop::NoMemory
    }
}

impl<T: Drop> From<AllocFailed<T>> for DeltaStop {
    ghost use Rattle.delta_solve.specs.declared.model.DeltaStop.TheVariants.{NoMemory};

    ghost from_gives = { λ _ stop. stop ≡ NoMemory };

    fn from(_: AllocFailed<T>) -> DeltaStop {
        DeltaStop::NoMemory
    }
}

/// What one master adds to the drawings of a glyph, in font units. That of the default is its whole drawing.
#[derive(Drop)]
pub struct GlyphTuple {
    /// The delta of each outline point, contour by contour.
    pub deltas: Seq<Pair>,
    /// The delta of the advance.
    pub advance: i32,
}

/// A glyph as all its masters draw it.
#[derive(Drop)]
pub struct GlyphModel {
    /// The number of points of each contour.
    pub lengths: Seq<u16>,
    /// Whether each point is on the curve, contour by contour.
    pub on: Seq<bool>,
    /// One tuple a master, in the order of masters: the default's drawing first.
    pub tuples: Seq<GlyphTuple>,
}
