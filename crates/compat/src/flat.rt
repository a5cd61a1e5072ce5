//! The flattened outline of a drawing, made of those of its bases.

ghost use Rattle.std.specs.Prelude.{◌≡◌, ◌++◌, length, map, All, IfOk, OnOk, ◌<◌};
ghost use Rattle.compat.specs.Flattened.{moved, moved_contours, shown_count};
ghost use Rattle.compat.specs.Flats.{CanMove, flat_at, flat_contours, flat_count, joint_count, drawn_contours, AreMovable, joined_flat, IsFew};

use basics::{NoMemory, Seq};
use glif::{Component, Drawing, Point};
use std::alloc::Global;

/// The most points of a glyph.
const GLYPH_POINTS: u64 = 4_000;

/// Where a count of points stands still.
const MANY_POINTS: u64 = 1_000_000_000;

/// What is kept of a drawing's flattened outline.
#[derive(Drop)]
pub(crate) enum Flat {
    /// It isn't made yet.
    Unknown,
    /// Its contours, and how many points they have in all, at most 4,000.
    Few(Seq<Seq<Point>>, u64),
    /// It has more points: how many, or 1,000,000,000 where there are more.
    Many(u64),
}

impl Flat {
    /// The contours that are kept.
    fn contours(&self) -> &[Seq<Point>]
        ensures { result.now ≡ flat_contours self.now }
    {
        match self {
            Flat::Few(contours, _) => contours.as_slice(),
            Flat::Unknown | Flat::Many(_) => &[],
        }
    }

    /// The contours that are kept, where they are.
    pub(crate) fn into_contours(self) -> Seq<Seq<Point>>
        requires { IsFew self }
        ensures { result ≡ flat_contours self }
    {
        match self {
            Flat::Few(contours, _) => contours,
            Flat::Unknown | Flat::Many(_) => unreachable!(),
        }
    }

    /// How many points there are, or 1,000,000,000 where there are more.
    fn count(&self) -> u64
        ensures { result ≡ flat_count self.now }
    {
        match self {
            Flat::Unknown => 0,
            Flat::Few(_, count) | Flat::Many(count) => *count,
        }
    }
}

/// How many points the contours have in all, or 1,000,000,000 where there are more.
fn point_count(contours: &[Seq<Point>]) -> u64
    ensures { result ≡ shown_count contours.now }
{
    let mut count = 0u64;
    for contour in contours {
        count = count.saturating_add(contour.len() as u64).min(MANY_POINTS);
    }
    count
}

/// How many points a drawing has with those to which it refers, or 1,000,000,000 where there are more.
fn joint_count(own: &[Seq<Point>], bases: &[usize], flats: &[Flat]) -> u64
    requires { All (λ base. base < length flats.now) bases.now }
    ensures { result ≡ joint_count flats.now own.now bases.now }
{
    let mut count = point_count(own);
    for &base in bases {
        count = count.saturating_add(flats[base].count()).min(MANY_POINTS);
    }
    count
}

/// A point moved by a component's offset.
fn moved(component: &Component, point: Point) -> Point
    requires { CanMove component.now point }
    ensures { result ≡ moved component.now point }
{
    Point {
        x: point.x + component.dx,
        y: point.y + component.dy,
        on: point.on,
    }
}

/// A contour moved by a component's offset.
fn moved_contour(
    alloc: Global,
    component: &Component,
    points: &[Point],
) -> Result<Seq<Point>, NoMemory>
    requires { All (CanMove component.now) points.now }
    ensures { IfOk result (λ contour. contour ≡ map (moved component.now) points.now) }
{
    let mut contour = Vec::new(alloc);
    for &point in points {
        contour.push(moved(component, point))?;
    }
    Ok(Seq::from_vec(contour))
}

/// Adds contours moved by a component's offset.
fn index(
    alloc: Global,
    contours: &mut Vec<Seq<Point>>,
    component: &Component,
    base: &[Seq<Point>],
) -> Result<(), NoMemory>
    requires { All (All (CanMove component.now)) base.now }
    ensures { OnOk result (contours.new.items ≡ contours.old.items ++ moved_contours component.now base.now) }
{
    for points in base {
        contours.push(moved_contour(alloc, component, points.as_slice())?)?;
    }
    Ok(())
}

/// The same contours once more.
fn copied(alloc: Global, contours: &[Seq<Point>]) -> Result<Vec<Seq<Point>>, NoMemory>
    ensures { IfOk result (λ copy. copy.items ≡ contours.now) }
{
    let mut copy = Vec::new(alloc);
    for contour in contours {
        copy.push(Seq::from_vec(Vec::from_slice(alloc, contour.as_slice())?))?;
    }
    Ok(copy)
}

/// A drawing's own contours and after them those of its bases, moved by the components' offsets, where they have
/// at most 4,000 points in all, and else their count. `bases` has the number of each component's base.
pub(crate) fn joined(
    alloc: Global,
    drawing: &Drawing,
    bases: &[usize],
    flats: &[Flat],
) -> Result<Flat, NoMemory>
    requires known { All (λ base. base < length flats.now) bases.now }
    requires one_each { length drawing.now.components ≡ length bases.now }
    requires movable { AreMovable flats.now drawing.now.components bases.now }
    ensures { IfOk result (λ flat. flat ≡ joined_flat flats.now drawing.now bases.now) }
{
    let own = drawing.outline.contours.as_slice();
    let count = joint_count(own, bases, flats);
    if count > GLYPH_POINTS {
        return Ok(Flat::Many(count));
    }
    let mut contours = copied(alloc, own)?;
    for (number, component) in drawing.components.as_slice().iter().enumerate() {
        index(
            alloc,
            &mut contours,
            component,
            flats[bases[number]].contours(),
        )?;
    }
    Ok(Flat::Few(Seq::from_vec(contours), count))
}
