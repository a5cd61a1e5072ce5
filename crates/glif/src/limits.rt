ghost use Rattle.std.specs.Prelude.{◌≡◌, ◌↔◌, pos, negsuc, IsNone};
ghost use Rattle.glif.specs.Limits.{IsWithinLimits};
ghost use Rattle.glif.specs.FirstOutside.{out_of, first_given, point_outside, contour_outside, point_count, first_outside};

use crate::shape::{Outline, Point};
use basics::Seq;

/// The least coordinate, in font units.
pub(crate) const LEAST: i32 = -16_384;

/// The greatest coordinate and the greatest advance width, in font units.
pub(crate) const GREATEST: i32 = 16_383;

/// The most points of one contour.
pub(crate) const CONTOUR_POINTS: usize = 1_024;

/// The most points of a glyph.
pub(crate) const GLYPH_POINTS: usize = 4_000;

/// The number, where it isn't in `least..=greatest`.
fn out_of(least: i64, greatest: i64, number: i64) -> Option<i64>
    ensures { result ≡ out_of least greatest number }
{
    if least <= number && number <= greatest {
        None
    } else {
        Some(number)
    }
}

/// The point's first coordinate out of range, x before y.
fn point_outside(point: &Point) -> Option<i64>
    ensures { result ≡ point_outside point.now }
{
    let x = out_of(i64::from(LEAST), i64::from(GREATEST), i64::from(point.x));
    let y = out_of(i64::from(LEAST), i64::from(GREATEST), i64::from(point.y));
    x.or(y)
}

/// The first coordinate out of range, by point.
pub fn coordinate_outside(points: &[Point]) -> Option<i64>
    ensures { result ≡ first_given point_outside points.now }
{
    for point in points {
        if let Some(number) = point_outside(point) {
            return Some(number);
        }
    }
    None
}

/// The contour's point count, where it is out of limits, or else its first coordinate out of range.
fn contour_outside(points: &[Point]) -> Option<i64>
    ensures { result ≡ contour_outside points.now }
{
    let count = out_of(1, CONTOUR_POINTS as i64, points.len() as i64);
    if count.is_some() {
        return count;
    }
    coordinate_outside(points)
}

/// The first number out of limits of the contours, by contour.
fn contours_outside(contours: &[Seq<Point>]) -> Option<i64>
    ensures { result ≡ first_given contour_outside contours.now }
{
    for contour in contours {
        if let Some(number) = contour_outside(contour.as_slice()) {
            return Some(number);
        }
    }
    None
}

/// How many points the contours have in all. The count stands still at `i64::MAX`.
pub(crate) fn point_count(contours: &[Seq<Point>]) -> i64
    ensures { result ≡ pos (point_count contours.now) }
{
    let mut count = 0usize;
    for contour in contours {
        count = count.saturating_add(contour.len());
    }
    count.min(i64::MAX as usize) as i64
}

/// The first number of the outline that is out of limits, or None exactly where it is within limits. Limits are
/// an advance width of 0 to 16,383, 1 to 1,024 points in each contour and at most 4,000 in all, and coordinates
/// of −16,384 to 16,383, in font units.
///
/// The order is the advance width, contour by contour its point count and its coordinates by point, x before y,
/// and then the point count of the glyph, which stands still at `i64::MAX`. It takes no memory.
pub fn within(outline: &Outline) -> Option<i64>
    ensures first { result ≡ first_outside outline.now }
    ensures none { IsNone result ↔ IsWithinLimits outline.now }
{
    let advance = out_of(0, i64::from(GREATEST), i64::from(outline.advance));
    if advance.is_some() {
        return advance;
    }
    let number = contours_outside(outline.contours.as_slice());
    if number.is_some() {
        return number;
    }
    let count = point_count(outline.contours.as_slice());
    out_of(0, GLYPH_POINTS as i64, count)
}
