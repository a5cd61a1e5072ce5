ghost use Rattle.std.specs.Prelude.{◌≡◌, ◌%◌, pos, ◌++◌, length, All, IfOk, OnOk};
ghost use Rattle.std.specs.List.{flat_map};
ghost use Rattle.glif.specs.Limits.{IsPointWithin, IsWithinLimits};
ghost use Rattle.glyf_loca.specs.Axes.{coordinate_on, coordinates_on};
ghost use Rattle.glyf_loca.specs.Bounds.{bounds_of, outline_bounds, points_in};
ghost use Rattle.glyf_loca.specs.Limits.{AreContoursWithin};
ghost use Rattle.glyf_loca.specs.Layout.{flag_bytes, glyph_bytes, header_fields, last_bytes, lasts_from, point_bytes, record_bytes, steps_from};

use crate::extent::{Bounds, bounds_of};
use basics::{NoMemory, Seq};
use be_bytes::Field::{self, Int16};
use be_bytes::{put_fields, put_i16, put_u8, put_u16};
use glif::{Outline, Point};
use std::alloc::Global;

/// The flag of a point on the curve.
const ON_CURVE: u8 = 0x01;

/// What each glyph's bytes are filled to a multiple of.
const ALIGNMENT: usize = 4;

/// One of the two coordinates of a point.
#[derive(Clone, Copy)]
pub(crate) enum Axis {
    X,
    Y,
}

/// Appends a glyph, and gives its bounds.
pub(crate) fn put_glyph(
    alloc: Global,
    out: &mut Vec<u8>,
    outline: &Outline,
) -> Result<Bounds, NoMemory>
    requires within { IsWithinLimits outline.now }
    requires aligned { length out.old.items % 4 ≡ 0 }
    ensures written { OnOk result (out.new.items ≡ out.old.items ++ glyph_bytes outline.now.contours) }
    ensures bounds { IfOk result (λ bounds. bounds ≡ outline_bounds outline.now) }
{
    let contours = outline.contours.as_slice();
    let points = points_in(alloc, contours)?;
    let bounds = bounds_of(&points);
    if !contours.is_empty() {
        put_record(out, contours, &points, bounds)?;
        out.resize(out.len().next_multiple_of(ALIGNMENT), 0)?;
    }
    Ok(bounds)
}

/// The points of contours, one after another, as a glyph's record has them.
fn points_in(alloc: Global, contours: &[Seq<Point>]) -> Result<Vec<Point>, NoMemory>
    ensures { IfOk result (λ points. points.items ≡ points_in contours.now) }
{
    let mut points = Vec::new(alloc);
    for contour in contours {
        points.extend_from_slice(contour.as_slice())?;
    }
    Ok(points)
}

/// Appends the record of a glyph, given the points of its contours and their bounds.
fn put_record(
    out: &mut Vec<u8>,
    contours: &[Seq<Point>],
    points: &[Point],
    bounds: Bounds,
) -> Result<(), NoMemory>
    requires within { AreContoursWithin contours.now }
    requires points { points.now ≡ points_in contours.now }
    requires bounds { bounds ≡ bounds_of points.now }
    ensures { OnOk result (out.new.items ≡ out.old.items ++ record_bytes contours.now) }
{
    put_fields(out, &header(contours.len() as i16, bounds))?;
    put_lasts(out, contours)?;
    // instructionLength
    put_u16(out, 0)?;
    put_points(out, points)
}

/// The fields before the arrays of a record.
#[tactic(auto, unfolding(crate::specs::Layout::header_fields))]
fn header(contours: i16, bounds: Bounds) -> [Field; 5]
    ensures { result ≡ header_fields contours bounds }
{
    [
        // numberOfContours
        Int16(contours),
        Int16(bounds.x_min),
        Int16(bounds.y_min),
        Int16(bounds.x_max),
        Int16(bounds.y_max),
    ]
}

/// Appends the index of each contour's last point.
fn put_lasts(out: &mut Vec<u8>, contours: &[Seq<Point>]) -> Result<(), NoMemory>
    requires { AreContoursWithin contours.now }
    ensures { OnOk result (out.new.items ≡ out.old.items ++ flat_map last_bytes (lasts_from 0 contours.now)) }
{
    let mut count = 0u16;
    for contour in contours {
        count += contour.len() as u16;
        put_u16(out, count - 1)?;
    }
    Ok(())
}

/// Appends the flags and the coordinates of points.
fn put_points(out: &mut Vec<u8>, points: &[Point]) -> Result<(), NoMemory>
    requires { All IsPointWithin points.now }
    ensures { OnOk result (out.new.items ≡ out.old.items ++ point_bytes points.now) }
{
    put_flags(out, points)?;
    put_steps(out, points, Axis::X)?;
    put_steps(out, points, Axis::Y)
}

/// Appends the flag of each point.
fn put_flags(out: &mut Vec<u8>, points: &[Point]) -> Result<(), NoMemory>
    ensures { OnOk result (out.new.items ≡ out.old.items ++ flat_map flag_bytes points.now) }
{
    for point in points {
        put_u8(out, if point.on { ON_CURVE } else { 0 })?;
    }
    Ok(())
}

/// Appends the step to each coordinate on an axis from the one before, and to the first one from 0.
fn put_steps(out: &mut Vec<u8>, points: &[Point], axis: Axis) -> Result<(), NoMemory>
    requires { All IsPointWithin points.now }
    ensures { OnOk result (out.new.items ≡ out.old.items ++ steps_from (pos 0) (coordinates_on axis points.now)) }
{
    let mut before = 0;
    for point in points {
        let here = coordinate(point, axis);
        put_i16(out, (here - before) as i16)?;
        before = here;
    }
    Ok(())
}

/// The coordinate of a point on an axis.
fn coordinate(point: &Point, axis: Axis) -> i32
    ensures { result ≡ coordinate_on axis point.now }
{
    match axis {
        Axis::X => point.x,
        Axis::Y => point.y,
    }
}
