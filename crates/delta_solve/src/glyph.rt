ghost use Rattle.std.specs.Prelude.{◌≡◌, ℤ, true, false, ◌≤◌, ◌∷◌, [], All, List, length, map, IfOk, IfErr, Some, None};
ghost use Rattle.variation_rules.specs.FontUnits.{AreFWords};
ghost use Rattle.variation_rules.specs.declared.region.Triple.{Triple};
ghost use Rattle.glif.specs.Limits.{IsWithinLimits};
ghost use Rattle.glif.specs.declared.shape.Point.{Point};
ghost use Rattle.delta_solve.specs.Deltas.{next_delta, rows_of};
ghost use Rattle.delta_solve.specs.GlyphModels.{AreAlike, AreNextDeltas, AreTuplesBy, IsModelBy, IsModelOf, IsNextTuple, IsStopOf, IsTupleWithin, delta_advance, delta_fault, delta_x, delta_y, fault_by, first_some, misfit, next_misfits, next_point_misfits};
ghost use Rattle.delta_solve.specs.Outlines.{all_points, contour_lengths, position};
ghost use Rattle.delta_solve.specs.Tables.{IsScalar, IsTable};

use crate::model::{DeltaStop, GlyphModel, GlyphTuple};
use crate::number::fitting;
use crate::scalars::ScalarTable;
use crate::sums::{Wide, advance_dot, left_of, point_dot};
use basics::{NoMemory, Seq};
use fixpoint::Pair;
use glif::{Outline, Point};
use std::alloc::Global;

// All points of an outline, contour by contour.
fn all_points(alloc: Global, outline: &Outline) -> Result<Vec<Point>, NoMemory>
    ensures { IfOk result (λ points. points.items ≡ all_points outline.now) }
{
    let mut points = Vec::new(alloc);
    for contour in outline.contours.as_slice() {
        points.extend_from_slice(contour.as_slice())?;
    }
    Ok(points)
}

// How many points each contour has.
fn contour_lengths(alloc: Global, outline: &Outline) -> Result<Seq<u16>, NoMemory>
    requires { IsWithinLimits outline.now }
    ensures { IfOk result (λ lengths. lengths ≡ contour_lengths outline.now) }
{
    let mut lengths = Vec::new(alloc);
    for contour in outline.contours.as_slice() {
        lengths.push(contour.len() as u16)?;
    }
    Ok(Seq::from_vec(lengths))
}

// Whether each point is on the curve.
fn kinds(alloc: Global, outline: &Outline) -> Result<Seq<bool>, NoMemory>
    ensures { IfOk result (λ kinds. kinds ≡ map (λ (point : Point). point.on) (all_points outline.now)) }
{
    let points = all_points(alloc, outline)?;
    let mut kinds = Vec::new(alloc);
    for point in &points {
        kinds.push(point.on)?;
    }
    Ok(Seq::from_vec(kinds))
}

// What a master's point leaves to its delta, after the earlier tuples.
#[tactic(auto, unfolding(crate::specs::Deltas::next_delta))]
fn point_left(row: &[i32], earlier: &[GlyphTuple], point: usize, at: &Point) -> Wide
    requires few { length row.now ≤ 128 }
    requires scalars { All IsScalar row.now }
    requires earlier { All IsTupleWithin earlier.now }
    ensures x { result.x ≡ next_delta row.now at.now.x (map (delta_x point) earlier.now) }
    ensures y { result.y ≡ next_delta row.now at.now.y (map (delta_y point) earlier.now) }
{
    let given = point_dot(row, earlier, point);
    Wide {
        x: left_of(at.x, given.x),
        y: left_of(at.y, given.y),
    }
}

// What a master's advance leaves to its delta, after the earlier tuples.
#[tactic(auto, unfolding(crate::specs::Deltas::next_delta))]
fn advance_left(row: &[i32], earlier: &[GlyphTuple], advance: i32) -> i64
    requires few { length row.now ≤ 128 }
    requires scalars { All IsScalar row.now }
    requires earlier { All IsTupleWithin earlier.now }
    ensures { result ≡ next_delta row.now advance (map delta_advance earlier.now) }
{
    left_of(advance, advance_dot(row, earlier))
}

// The delta of a master's point, where both its numbers fit.
fn fitting_pair(master: u32, point: u32, left: Wide) -> Result<Pair, DeltaStop>
    ensures x { IfOk result (λ delta. delta.x ≡ left.x) }
    ensures y { IfOk result (λ delta. delta.y ≡ left.y) }
    ensures within { IfOk result AreFWords }
    ensures fits { IfOk result (λ _. first_some (misfit master point false left.x ∷ misfit master point true left.y ∷ []) ≡ None) }
    ensures stops { IfErr result (λ stop. first_some (misfit master point false left.x ∷ misfit master point true left.y ∷ []) ≡ Some stop) }
{
    let x = fitting(master, point, false, left.x)?;
    let y = fitting(master, point, true, left.y)?;
    Ok(Pair { x, y })
}

// The deltas of a master's points, after the earlier tuples.
fn point_deltas(
    alloc: Global,
    master: u32,
    row: &[i32],
    earlier: &[GlyphTuple],
    points: &[Point],
) -> Result<Seq<Pair>, DeltaStop>
    requires few { length row.now ≤ 128 }
    requires scalars { All IsScalar row.now }
    requires earlier { All IsTupleWithin earlier.now }
    requires points { length points.now ≤ 4000 }
    ensures deltas { IfOk result (AreNextDeltas row.now earlier.now (map position points.now)) }
    ensures within { IfOk result (All AreFWords) }
    ensures fits { IfOk result (λ _. first_some (next_point_misfits master row.now earlier.now (map position points.now)) ≡ None) }
    ensures stops { IfErr result (IsStopOf (first_some (next_point_misfits master row.now earlier.now (map position points.now)))) }
{
    let mut deltas = Vec::new(alloc);
    for point in 0..points.len() {
        let left = point_left(row, earlier, point, &points[point]);
        let delta = fitting_pair(master, point as u32, left)?;
        deltas.push(delta)?;
    }
    Ok(Seq::from_vec(deltas))
}

// The tuple of a master, after the earlier ones.
fn next_tuple(
    alloc: Global,
    master: u32,
    row: &[i32],
    earlier: &[GlyphTuple],
    outline: &Outline,
) -> Result<GlyphTuple, DeltaStop>
    requires few { length row.now ≤ 128 }
    requires scalars { All IsScalar row.now }
    requires earlier { All IsTupleWithin earlier.now }
    requires outline { IsWithinLimits outline.now }
    ensures tuple { IfOk result (IsNextTuple row.now earlier.now outline.now) }
    ensures within { IfOk result IsTupleWithin }
    ensures fits { IfOk result (λ _. first_some (next_misfits master row.now earlier.now outline.now) ≡ None) }
    ensures stops { IfErr result (IsStopOf (first_some (next_misfits master row.now earlier.now outline.now))) }
{
    let points = all_points(alloc, outline)?;
    let deltas = point_deltas(alloc, master, row, earlier, &points)?;
    let left = advance_left(row, earlier, outline.advance);
    let advance = fitting(master, points.len() as u32 + 1, false, left)?;
    Ok(GlyphTuple { deltas, advance })
}

// The tuples of all masters.
fn tuples_of(
    alloc: Global,
    outlines: &[Outline],
    rows: &[Seq<i32>],
) -> Result<Seq<GlyphTuple>, DeltaStop>
    requires one_each { length outlines.now ≡ length rows.now }
    requires rows { IsTable rows.now }
    requires within { All IsWithinLimits outlines.now }
    requires alike { AreAlike outlines.now }
    ensures tuples { IfOk result (AreTuplesBy rows.now outlines.now) }
    ensures within { IfOk result (All IsTupleWithin) }
    ensures fits { IfOk result (λ _. fault_by rows.now outlines.now ≡ None) }
    ensures stops { IfErr result (IsStopOf (fault_by rows.now outlines.now)) }
{
    let mut tuples = Vec::new(alloc);
    for master in 0..outlines.len() {
        let row = rows[master].as_slice();
        let tuple = next_tuple(alloc, master as u32, row, &tuples, &outlines[master])?;
        tuples.push(tuple)?;
    }
    Ok(Seq::from_vec(tuples))
}

// The model of a glyph by the masters' rows.
fn model_by(alloc: Global, outlines: &[Outline], rows: &[Seq<i32>]) -> Result<GlyphModel, DeltaStop>
    requires one_each { length outlines.now ≡ length rows.now }
    requires rows { IsTable rows.now }
    requires within { All IsWithinLimits outlines.now }
    requires alike { AreAlike outlines.now }
    ensures model { IfOk result (IsModelBy rows.now outlines.now) }
    ensures within { IfOk result (λ model. All IsTupleWithin model.tuples) }
    ensures fits { IfOk result (λ _. fault_by rows.now outlines.now ≡ None) }
    ensures stops { IfErr result (IsStopOf (fault_by rows.now outlines.now)) }
{
    let tuples = tuples_of(alloc, outlines, rows)?;
    match outlines {
        [default, ..] => Ok(GlyphModel {
            lengths: contour_lengths(alloc, default)?,
            on: kinds(alloc, default)?,
            tuples,
        }),
        [] => Ok(GlyphModel {
            lengths: Seq::new(alloc),
            on: Seq::new(alloc),
            tuples,
        }),
    }
}

/// The model of a glyph: the deltas of each point's coordinates and of the advance, each taken by itself as `solve` takes
/// a number. The outlines are those of the masters in their order, one for each row of the table, within limits, with the
/// same contours and points of the same kinds.
///
/// Stops with the first delta that doesn't fit 16 bits: by master, then by point, x before y, and the advance last.
pub fn solve_glyph(
    alloc: Global,
    outlines: &Seq<Outline>,
    table: &ScalarTable,
) -> Result<GlyphModel, DeltaStop>
    requires one_each { length outlines.now ≡ length table.now }
    requires within { All IsWithinLimits outlines.now }
    requires alike { AreAlike outlines.now }
    ensures model { IfOk result (IsModelBy table.now outlines.now) }
    ensures within { IfOk result (λ model. All IsTupleWithin model.tuples) }
    ensures fits { IfOk result (λ _. fault_by table.now outlines.now ≡ None) }
    ensures stops { IfErr result (IsStopOf (fault_by table.now outlines.now)) }
    ensures of_regions { IfOk result (λ model. (regions : List (List Triple)) (locations : List (List ℤ)) → table.now ≡ rows_of regions locations → IsModelOf regions locations outlines.now model) }
    ensures fits_regions { IfOk result (λ _. (regions : List (List Triple)) (locations : List (List ℤ)) → table.now ≡ rows_of regions locations → delta_fault regions locations outlines.now ≡ None) }
    ensures stops_regions { IfErr result (λ stop. (regions : List (List Triple)) (locations : List (List ℤ)) → table.now ≡ rows_of regions locations → IsStopOf (delta_fault regions locations outlines.now) stop) }
{
    model_by(alloc, outlines.as_slice(), table.rows())
}
