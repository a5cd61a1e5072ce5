ghost use Rattle.std.specs.Prelude.{◌≡◌, ◌≤◌, length, map, sum, All, IfOk};
ghost use Rattle.font_model.specs.DefaultOutline.{contours_of, default_advance, default_outline, points_at};
ghost use Rattle.glyph_variations.specs.Conditions.{default_points};
ghost use Rattle.font_tables.specs.Drawable.{IsDrawable};

use basics::{NoMemory, Seq};
use delta_solve::{GlyphModel, GlyphTuple};
use fixpoint::Pair;
use glif::{Outline, Point};
use std::alloc::Global;

/// The default's outline of each glyph: the first tuple of its model, which is the default's whole drawing.
pub fn outlines(alloc: Global, models: &Seq<GlyphModel>) -> Result<Seq<Outline>, NoMemory>
    requires { All IsDrawable models.now }
    ensures { IfOk result (λ outlines. outlines ≡ map default_outline models.now) }
{
    let mut outlines = Seq::new(alloc);
    for model in models.as_slice() {
        let outline = outline_of(alloc, model)?;
        outlines.push(outline)?;
    }
    Ok(outlines)
}

/// The default's outline of a glyph.
pub(crate) fn outline_of(alloc: Global, model: &GlyphModel) -> Result<Outline, NoMemory>
    requires { IsDrawable model.now }
    ensures { IfOk result (λ outline. outline ≡ default_outline model.now) }
{
    let tuples = model.tuples.as_slice();
    let points = points_at(alloc, model.on.as_slice(), default_points(tuples))?;
    let contours = contours_of(alloc, model.lengths.as_slice(), &points)?;
    Ok(Outline {
        advance: default_advance(tuples),
        contours,
    })
}

/// Where the default has the points of the outline.
fn default_points(tuples: &[GlyphTuple]) -> &[Pair]
    ensures { result.now ≡ default_points tuples.now }
{
    match tuples {
        [default, ..] => default.deltas.as_slice(),
        [] => &[],
    }
}

/// The default's advance width.
fn default_advance(tuples: &[GlyphTuple]) -> i32
    ensures { result ≡ default_advance tuples.now }
{
    match tuples {
        [default, ..] => default.advance,
        [] => 0,
    }
}

/// Points at these positions, each on the curve or off it.
fn points_at(alloc: Global, on: &[bool], positions: &[Pair]) -> Result<Vec<Point>, NoMemory>
    ensures { IfOk result (λ points. points.items ≡ points_at on.now positions.now) }
{
    let mut points = Vec::new(alloc);
    for i in 0..on.len().min(positions.len()) {
        let position = positions[i];
        points.push(Point {
            x: position.x,
            y: position.y,
            on: on[i],
        })?;
    }
    Ok(points)
}

/// Contours of so many points each, one after another.
fn contours_of(
    alloc: Global,
    lengths: &[u16],
    points: &[Point],
) -> Result<Seq<Seq<Point>>, NoMemory>
    requires { sum lengths.now ≤ length points.now }
    ensures { IfOk result (λ contours. contours ≡ contours_of lengths.now points.now) }
{
    let mut contours = Seq::new(alloc);
    let mut rest = points;
    for length in lengths {
        let (own, after) = rest.split_at(usize::from(*length));
        let contour = Vec::from_slice(alloc, own)?;
        contours.push(Seq::from_vec(contour))?;
        rest = after;
    }
    Ok(contours)
}
