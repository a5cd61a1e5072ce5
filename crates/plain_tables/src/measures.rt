ghost use Rattle.std.specs.Prelude.{◌≡◌, ℕ, ◌+◌, ◌<◌, ◌≤◌, max, ℤ, true, List, [], ◌∷◌, ◌++◌};
ghost use Rattle.std.specs.Int.{int_max, int_min};
ghost use Rattle.plain_tables.specs.Conditions.{AreFacts, AreWidthsWithin, IsAdvanceWithin, IsGlyphWithin};
ghost use Rattle.plain_tables.specs.GlyphMeasures.{average_of, counts_of, extent_of, glyphs_of, measures_of, right_bearing, widths_from};
ghost use Rattle.plain_tables.specs.declared.glyphs.Glyph.{Glyph};

use crate::facts::Facts;
use crate::glyphs::{Glyph, glyph_at};
use fixpoint::divide_up;
use glyf_loca::Bounds;

/// The extremes of the glyphs that have contours, each 0 where there are none.
#[derive(Clone, Copy)]
pub(crate) struct Extent {
    /// Whether there are such glyphs.
    pub(crate) some: bool,
    /// The box round all of them.
    pub(crate) bounds: Bounds,
    /// The least right side bearing.
    pub(crate) right: i16,
}

/// Of all advance widths the greatest, and of those above 0 their number and their sum.
#[derive(Clone, Copy)]
pub(crate) struct Widths {
    pub(crate) widest: i32,
    pub(crate) count: u32,
    pub(crate) sum: i64,
}

/// The most points and the most contours of a glyph.
#[derive(Clone, Copy)]
pub(crate) struct Counts {
    pub(crate) points: u16,
    pub(crate) contours: u16,
}

/// What is told of all glyphs together.
#[derive(Clone, Copy)]
pub(crate) struct Measures {
    pub(crate) extent: Extent,
    pub(crate) widths: Widths,
    pub(crate) counts: Counts,
}

/// The measures of all glyphs, in one pass over them.
pub(crate) fn measured(facts: &Facts) -> Measures
    requires { AreFacts facts.now }
    ensures value { result ≡ measures_of (glyphs_of facts.now) }
    ensures within { AreWidthsWithin result.widths }
{
    let mut measures = none();
    for index in 0..facts.names.len() {
        let glyph = glyph_at(facts, index);
        measures = Measures {
            extent: extended(measures.extent, glyph),
            widths: widened(measures.widths, glyph.advance),
            counts: counted(measures.counts, glyph),
        };
    }
    measures
}

/// The measures of no glyph.
#[tactic(auto, unfolding(crate::specs::GlyphMeasures::counts_of, crate::specs::GlyphMeasures::extent_of, crate::specs::GlyphMeasures::widths_from))]
fn none() -> Measures
    ensures value { result ≡ measures_of [] }
    ensures within { AreWidthsWithin result.widths }
    ensures count { result.widths.count ≡ 0 }
{
    let bounds = Bounds {
        x_min: 0,
        y_min: 0,
        x_max: 0,
        y_max: 0,
    };
    let widths = Widths {
        widest: 0,
        count: 0,
        sum: 0,
    };
    Measures {
        extent: Extent {
            some: false,
            bounds,
            right: 0,
        },
        widths,
        counts: Counts {
            points: 0,
            contours: 0,
        },
    }
}

/// The extent with a glyph more.
fn extended(extent: Extent, glyph: Glyph) -> Extent
    requires { IsGlyphWithin glyph }
    ensures { (glyphs : List Glyph) → extent ≡ extent_of glyphs → result ≡ extent_of (glyphs ++ glyph ∷ []) }
{
    if glyph.contours == 0 {
        return extent;
    }
    let right = right_bearing(glyph);
    if !extent.some {
        return Extent {
            some: true,
            bounds: glyph.bounds,
            right,
        };
    }
    Extent {
        some: true,
        bounds: round_both(extent.bounds, glyph.bounds),
        right: lesser(extent.right, right),
    }
}

/// From the rightmost point of a glyph to its advance width.
fn right_bearing(glyph: Glyph) -> i16
    requires { IsGlyphWithin glyph }
    ensures { result ≡ right_bearing glyph }
{
    (glyph.advance - i32::from(glyph.bounds.x_max)) as i16
}

/// The box round two boxes.
fn round_both(first: Bounds, second: Bounds) -> Bounds
    ensures x_min { result.x_min ≡ int_min first.x_min second.x_min }
    ensures y_min { result.y_min ≡ int_min first.y_min second.y_min }
    ensures x_max { result.x_max ≡ int_max first.x_max second.x_max }
    ensures y_max { result.y_max ≡ int_max first.y_max second.y_max }
{
    Bounds {
        x_min: first.x_min.min(second.x_min),
        y_min: first.y_min.min(second.y_min),
        x_max: first.x_max.max(second.x_max),
        y_max: first.y_max.max(second.y_max),
    }
}

/// The lesser of two numbers.
fn lesser(first: i16, second: i16) -> i16
    ensures { result ≡ int_min first second }
{
    first.min(second)
}

/// The widths with an advance width more.
fn widened(widths: Widths, advance: i32) -> Widths
    requires advance { IsAdvanceWithin advance }
    requires few { widths.count < 32510 }
    requires within { AreWidthsWithin widths }
    ensures value { (advances : List ℤ) → widths ≡ widths_from advances → result ≡ widths_from (advances ++ advance ∷ []) }
    ensures within { AreWidthsWithin result }
    ensures few { result.count ≤ widths.count + 1 }
{
    let widest = widths.widest.max(advance);
    if advance > 0 {
        return Widths {
            widest,
            count: widths.count + 1,
            sum: widths.sum + i64::from(advance),
        };
    }
    Widths {
        widest,
        count: widths.count,
        sum: widths.sum,
    }
}

/// The counts with a glyph more.
fn counted(counts: Counts, glyph: Glyph) -> Counts
    ensures { (glyphs : List Glyph) → counts ≡ counts_of glyphs → result ≡ counts_of (glyphs ++ glyph ∷ []) }
{
    Counts {
        points: counts.points.max(glyph.points),
        contours: counts.contours.max(glyph.contours),
    }
}

/// The average of the advance widths above 0, rounded to the nearest number, a tie going up.
pub(crate) fn average(widths: Widths) -> i16
    requires { AreWidthsWithin widths }
    ensures { result ≡ average_of widths }
{
    if widths.count == 0 {
        return 0;
    }
    divide_up(widths.sum, i64::from(widths.count)) as i16
}
