ghost use Rattle.std.specs.Prelude.{◌≡◌, ◌<◌, length, get_or};
ghost use Rattle.plain_tables.specs.Conditions.{AreFacts, IsGlyphWithin};
ghost use Rattle.plain_tables.specs.GlyphMeasures.{glyphs_of};

use crate::facts::Facts;
use glyf_loca::Bounds;

/// What is told of a glyph.
#[derive(Clone, Copy)]
pub(crate) struct Glyph {
    pub(crate) advance: i32,
    pub(crate) bounds: Bounds,
    pub(crate) points: u16,
    pub(crate) contours: u16,
}

/// The glyph of an index.
pub(crate) fn glyph_at(facts: &Facts, index: usize) -> Glyph
    requires facts { AreFacts facts.now }
    requires within { index < length facts.now.names }
    ensures here { result ≡ get_or (glyphs_of facts.now) index result }
    ensures within { IsGlyphWithin result }
{
    let (points, contours) = facts.lengths.as_slice()[index];
    Glyph {
        advance: facts.advances.as_slice()[index],
        bounds: facts.bounds.as_slice()[index],
        points,
        contours,
    }
}
