//! Whether values are within what the calls ask for, so that tests can make them from tables.
ghost use Rattle.std.specs.Prelude.{◌≡◌, ◌*◌, ◌≤◌, ◌↔◌, length, pos, IsTrue, All, FitsSigned};
ghost use Rattle.std.specs.Int.{w16};
ghost use Rattle.variation_rules.specs.PackedPoints.{RisesWithin};
ghost use Rattle.variation_rules.specs.Scalar.{is_ignored};
ghost use Rattle.gvar_table.specs.Table.{AreGlyphsOf};
ghost use Rattle.gvar_table.specs.Tuples.{AreTuplesOf, IsCoordinate, IsDelta, IsRegionAxis, IsTupleOf};

use crate::Tuple;
use basics::Seq;
use fixpoint::Pair;
use variation_rules::Triple;

/// Whether a raw number is a coordinate.
fn is_coordinate(raw: i32) -> bool
    ensures { IsTrue result ↔ IsCoordinate raw }
{
    (-16384..=16384).contains(&raw)
}

/// Whether all three are coordinates.
fn are_coordinates(axis: &Triple) -> bool
    ensures start { IsTrue result → IsCoordinate axis.now.start }
    ensures peak { IsTrue result → IsCoordinate axis.now.peak }
    ensures end { IsTrue result → IsCoordinate axis.now.end }
{
    is_coordinate(axis.start.raw())
        && is_coordinate(axis.peak.raw())
        && is_coordinate(axis.end.raw())
}

/// Whether the scalar passes over the axis.
fn is_ignored(axis: &Triple) -> bool
    ensures { result ≡ is_ignored axis.now }
{
    let (start, peak, end) = (axis.start.wide(), axis.peak.wide(), axis.end.wide());
    peak == 0 || peak < start || end < peak || (start < 0 && 0 < end)
}

/// Whether all three are 0.
fn is_zero(axis: &Triple) -> bool
    ensures start { IsTrue result → axis.now.start ≡ pos 0 }
    ensures peak { IsTrue result → axis.now.peak ≡ pos 0 }
    ensures end { IsTrue result → axis.now.end ≡ pos 0 }
{
    axis.start.raw() == 0 && axis.peak.raw() == 0 && axis.end.raw() == 0
}

/// Whether the axis can be written.
fn is_axis(axis: &Triple) -> bool
    ensures { IsTrue result → IsRegionAxis axis.now }
{
    are_coordinates(axis) && (!is_ignored(axis) || is_zero(axis))
}

/// Whether all axes can be written.
fn are_axes(region: &[Triple]) -> bool
    ensures { IsTrue result → All IsRegionAxis region.now }
{
    for axis in region {
        if !is_axis(axis) {
            return false;
        }
    }
    true
}

/// Whether a number has 16 bits.
fn is_word(value: i32) -> bool
    ensures { IsTrue result ↔ FitsSigned w16 value }
{
    (-32768..=32767).contains(&value)
}

/// Whether both numbers of the delta have 16 bits.
fn is_delta(delta: &Pair) -> bool
    ensures { IsTrue result → IsDelta delta.now }
{
    is_word(delta.x) && is_word(delta.y)
}

/// Whether the numbers of all deltas have 16 bits.
fn are_deltas(deltas: &[Pair]) -> bool
    ensures { IsTrue result → All IsDelta deltas.now }
{
    for delta in deltas {
        if !is_delta(delta) {
            return false;
        }
    }
    true
}

/// Whether the points rise and are below the count.
fn rise_within(count: u16, points: &[u16]) -> bool
    ensures { IsTrue result → RisesWithin 0 count points.now }
{
    let mut low = 0u32;
    let mut rest = points;
    while let [point, after @ ..] = rest {
        if u32::from(*point) < low || *point >= count {
            return false;
        }
        low = u32::from(*point) + 1;
        rest = after;
    }
    true
}

/// Whether the tuple can be written.
fn is_tuple_of(axes: u32, count: u16, tuple: &Tuple) -> bool
    ensures { IsTrue result → IsTupleOf axes count tuple.now }
{
    let points = tuple.points.as_slice();
    let deltas = tuple.deltas.as_slice();
    tuple.support.len() == axes as usize
        && are_axes(tuple.support.as_slice())
        && !points.is_empty()
        && rise_within(count, points)
        && deltas.len() == points.len()
        && are_deltas(deltas)
}

/// Whether each tuple can be written.
fn is_each(axes: u32, count: u16, tuples: &[Tuple]) -> bool
    ensures { IsTrue result → All (IsTupleOf axes count) tuples.now }
{
    for tuple in tuples {
        if !is_tuple_of(axes, count, tuple) {
            return false;
        }
    }
    true
}

/// Whether the tuples can be written as those of a glyph.
pub(crate) fn are_tuples_of(axes: u32, count: u16, tuples: &[Tuple]) -> bool
    ensures { IsTrue result → AreTuplesOf axes count tuples.now }
{
    (1..=8).contains(&axes)
        && (4..=4004).contains(&count)
        && tuples.len() <= 127
        && is_each(axes, count, tuples)
}

/// Whether the tuples can be written as those of the glyphs.
pub(crate) fn are_glyphs_of(axes: u32, counts: &[u16], glyphs: &[Seq<Tuple>]) -> bool
    ensures { IsTrue result → AreGlyphsOf axes counts.now glyphs.now }
{
    let mut points = 0u64;
    let mut later_counts = counts;
    let mut later_glyphs = glyphs;
    while let [tuples, more_glyphs @ ..] = later_glyphs {
        let [count, more_counts @ ..] = later_counts else {
            return false;
        };
        let tuples = tuples.as_slice();
        if !are_tuples_of(axes, *count, tuples) {
            return false;
        }
        points += points_of(*count, tuples);
        if points > 16_777_216 {
            return false;
        }
        later_counts = more_counts;
        later_glyphs = more_glyphs;
    }
    later_counts.is_empty() && (1..=8).contains(&axes) && glyphs.len() <= 32510
}

/// The count of points, taken once for each tuple.
fn points_of(count: u16, tuples: &[Tuple]) -> u64
    requires { length tuples.now ≤ 127 }
    ensures { result ≡ count * length tuples.now }
{
    u64::from(count) * tuples.len() as u64
}
