ghost use Rattle.std.specs.Prelude.{◌≡◌, ◌↔◌, ℕ, length, IsNone};
ghost use Rattle.std.specs.List.{common_prefix_len};
ghost use Rattle.glif.specs.Shapes.{contour_kinds};
ghost use Rattle.compat.specs.Differences.{kind_number, kind_difference, contour_difference, contours_difference, outline_difference, have_one_base, bases, base_difference};

use basics::{Kind, Seq};
use glif::{Component, Drawing, Outline, Point};

/// What differs between two drawings of one glyph, the first of which is mostly that of the default source.
#[derive(Clone, Copy, Debug, PartialEq, Eq)]
pub struct Difference {
    /// ContourCount, PointCount, PointKind or ComponentShape.
    pub kind: Kind,
    /// The number of the contour, from 0; 0 for ContourCount and ComponentShape.
    pub contour: u64,
    /// The number of the point in its contour, from 0, or for ComponentShape of the component; else 0.
    pub point: u64,
    /// The first drawing's count, or for PointKind 1 for a point on the curve and 0 for one off it.
    pub first: i64,
    /// The same of the second drawing.
    pub second: i64,
}

/// 1 for a point on the curve, 0 for one off it.
fn kind_number(point: &Point) -> i64
    ensures { result ≡ kind_number point.now }
{
    i64::from(point.on)
}

/// The first points of unlike kinds in two contours with as many points.
fn kind_difference(contour: usize, points: &[Point], others: &[Point]) -> Option<Difference>
    requires { length points.now ≡ length others.now }
    ensures { result ≡ kind_difference contour 0 points.now others.now }
{
    for (number, point) in points.iter().enumerate() {
        let other = &others[number];
        if point.on != other.on {
            return Some(Difference {
                kind: Kind::PointKind,
                contour: contour as u64,
                point: number as u64,
                first: kind_number(point),
                second: kind_number(other),
            });
        }
    }
    None
}

/// The point counts of two contours where they differ, or else their first points of unlike kinds.
fn contour_difference(contour: usize, points: &[Point], others: &[Point]) -> Option<Difference>
    ensures { result ≡ contour_difference contour points.now others.now }
{
    if points.len() != others.len() {
        return Some(Difference {
            kind: Kind::PointCount,
            contour: contour as u64,
            point: 0,
            first: points.len() as i64,
            second: others.len() as i64,
        });
    }
    kind_difference(contour, points, others)
}

/// What differs between the first two contours that differ, of as many.
fn contours_difference(contours: &[Seq<Point>], others: &[Seq<Point>]) -> Option<Difference>
    requires { length contours.now ≡ length others.now }
    ensures { result ≡ contours_difference 0 contours.now others.now }
{
    for (number, contour) in contours.iter().enumerate() {
        let difference = contour_difference(number, contour.as_slice(), others[number].as_slice());
        if difference.is_some() {
            return difference;
        }
    }
    None
}

/// The first difference of two outlines in the kinds of their points, or None exactly where the lists of kinds
/// by contour are equal: then the points of one stand for those of the other, as the variation data of a
/// glyph wants it (OpenType, "gvar").
///
/// The order is the contour counts, and then by contour the point counts and the kinds by point. Coordinates
/// and advance widths aren't compared. It takes no memory.
pub fn compare(a: &Outline, b: &Outline) -> Option<Difference>
    ensures first { result ≡ outline_difference a.now b.now }
    ensures none { IsNone result ↔ (contour_kinds a.now ≡ contour_kinds b.now) }
{
    let (contours, others) = (a.contours.as_slice(), b.contours.as_slice());
    if contours.len() != others.len() {
        return Some(Difference {
            kind: Kind::ContourCount,
            contour: 0,
            point: 0,
            first: contours.len() as i64,
            second: others.len() as i64,
        });
    }
    contours_difference(contours, others)
}

/// How many components the two lists begin with in common, by their bases.
fn common_bases(first: &[Component], second: &[Component]) -> usize
    ensures { result ≡ common_prefix_len have_one_base first.now second.now }
{
    let mut count = 0;
    while count < first.len() && count < second.len() && first[count].base == second[count].base {
        count += 1;
    }
    count
}

/// How the components of two drawings of a glyph differ, or None exactly where they have the same bases in the
/// same order.
///
/// `point` is the number of the first components with unlike bases, from 0, or the shorter count where one list
/// is the beginning of the other; `first` and `second` are the two counts. Offsets aren't compared. It takes no
/// memory.
pub fn same_bases(a: &Drawing, b: &Drawing) -> Option<Difference>
    ensures first { result ≡ base_difference a.now b.now }
    ensures none { IsNone result ↔ (bases a.now ≡ bases b.now) }
{
    let (first, second) = (a.components.as_slice(), b.components.as_slice());
    let point = common_bases(first, second);
    if point == first.len() && point == second.len() {
        return None;
    }
    Some(Difference {
        kind: Kind::ComponentShape,
        contour: 0,
        point: point as u64,
        first: first.len() as i64,
        second: second.len() as i64,
    })
}
